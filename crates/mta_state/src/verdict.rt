//! The verdict on a recipient of an item, under the tables recorded last, and whether it calls for a step at once.

ghost use Rattle.std.specs.Prelude.{◌≡◌, ◌≤◌, IfOk, Some};
ghost use Rattle.mta_ber.specs.Times.{last_moment};
ghost use Rattle.mta_idle_laws.specs.Idle.{calls_at_once};
ghost use Rattle.mta_machine.specs.Machine.{verdict_on};
ghost use Rattle.mta_state.specs.Asked.{CodesAreCodes};
ghost use Rattle.mta_state.specs.Readings.{IsReadingOf};

use crate::readings::Reading;
use crate::rules::Rules;
use mta_ber::Memory;
use mta_machine::Item;
use mta_procedures::Verdict;
use std::alloc::Global;

/// Whether a verdict calls for a step at once, as one that relays or holds does not.
pub fn calls_at_once(verdict: Option<Verdict>) -> bool
    ensures { result ≡ calls_at_once verdict }
{
    match verdict {
        None => false,
        Some(Verdict::Relay(_)) => false,
        Some(Verdict::Hold(_)) => false,
        Some(Verdict::Deliver(_)) => true,
        Some(Verdict::Expand(_)) => true,
        Some(Verdict::Affirm) => true,
        Some(Verdict::NonDeliver { .. }) => true,
        Some(Verdict::Back) => true,
        Some(Verdict::Discard) => true,
    }
}

/// The verdict on a recipient of an item among these items, at a moment in seconds since 1950-01-01 00:00:00 UTC; none
/// where the item has no such recipient. A report to a list that cannot be passed back goes no further.
pub fn verdict_on<R: Rules>(
    alloc: Global,
    rules: &R,
    items: &[Item],
    item: &Item,
    reading: &Reading<'_>,
    recipient: u32,
    moment: u64,
) -> Result<Option<Verdict>, Memory>
    requires arrived { item.now.arrival ≤ last_moment }
    requires reading { IsReadingOf item.now.octets reading.now }
    ensures exact { let text = Some (R.text rules.now) in
        IfOk result (λ v. v ≡ verdict_on (R.format rules.now) items.now text (Some item.now) recipient moment) }
    ensures codes { IfOk result CodesAreCodes }
{
    let verdict = rules.verdict(alloc, item, reading, recipient, moment)?;
    match verdict {
        Some(Verdict::Back) => {
            if rules.passes_back(alloc, items, item, reading)? {
                Ok(Some(Verdict::Back))
            } else {
                Ok(Some(Verdict::Discard))
            }
        }
        other => Ok(other),
    }
}

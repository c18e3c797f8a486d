//! Whether a recipient may be settled, and the verdict on one who may.

ghost use Rattle.std.specs.Prelude.{◌≡◌, ◌≤◌, ◌↔◌, IfOk, IsTrue, Some};
ghost use Rattle.mta_ber.specs.Times.{last_moment};
ghost use Rattle.mta_machine.specs.Apdu.{is_report, value_of};
ghost use Rattle.mta_machine.specs.Items.{numbered};
ghost use Rattle.mta_state.specs.Asked.{CodesAreCodes, IsTextOf};
ghost use Rattle.mta_state.specs.Kept.{state_of};
ghost use Rattle.mta_state.specs.Readings.{IsReadingOf};
ghost use Rattle.mta_replay.specs.Settleable.{IsReadyBy, MaySettle};

use mta_ber::Memory;
use mta_machine::Item;
use mta_procedures::Verdict;
use mta_state::{Kept, Reading, Rules, verdict_on};
use std::alloc::Global;

/// Whether a recipient is pending and in no activity, and the moment is not before the last one.
pub fn may_settle(kept: &Kept, number: u32, recipient: u32, moment: u64) -> bool
    ensures { IsTrue result ↔ MaySettle (state_of kept.now) number recipient moment }
{
    kept.moment <= moment
        && kept.parts.moment <= moment
        && kept.parts.is_pending(number, recipient)
        && kept.lanes.is_free(number, recipient)
}

/// The verdict on a recipient of an item who is pending and in no activity, at a moment that is not before the last
/// one, in seconds since 1950-01-01 00:00:00 UTC; none where there is no such recipient, or the moment is before it.
#[tactic(auto, using(crate::proofs::Called::ready_laws))]
pub fn ready_verdict<R: Rules>(
    alloc: Global,
    rules: &R,
    kept: &Kept,
    number: u32,
    item: &Item,
    reading: &Reading<'_>,
    recipient: u32,
    moment: u64,
) -> Result<Option<Verdict>, Memory>
    requires text { IsTextOf kept.now (R.text rules.now) }
    requires format { R.format rules.now ≡ kept.now.parts.format }
    requires item { numbered kept.now.parts.items.items number ≡ Some item.now }
    requires arrived { item.now.arrival ≤ last_moment }
    requires reading { IsReadingOf item.now.octets reading.now }
    ensures ready { IfOk result (IsReadyBy (state_of kept.now) number recipient moment) }
    ensures codes { IfOk result CodesAreCodes }
{
    if !may_settle(kept, number, recipient, moment) {
        return Ok(None);
    }
    let items = kept.parts.items.as_slice();
    verdict_on(alloc, rules, items, item, reading, recipient, moment)
}

/// Whether an item is a report.
pub(crate) fn is_report(item: &Item, reading: &Reading<'_>) -> bool
    requires { IsReadingOf item.now.octets reading.now }
    ensures { result ≡ is_report (value_of item.now.octets) }
{
    reading.is_report()
}

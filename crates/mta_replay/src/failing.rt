//! How the recipients of an activity that failed are discharged, with a report on each where the walk gives a
//! destination (X.411, clause 14: report generation).

ghost use Rattle.std.specs.Prelude.{◌≡◌, ◌≤◌, ◌<◌, ◌+◌, ◌^◌, IfOk, Some, length};
ghost use Rattle.std.specs.Prelude.{option_map, option_to_list};
ghost use Rattle.mta_ber.specs.Times.{last_moment};
ghost use Rattle.mta_machine.specs.Apdu.{is_report, value_of};
ghost use Rattle.mta_machine.specs.Items.{numbered};
ghost use Rattle.mta_machine.specs.Machine.{own_item};
ghost use Rattle.mta_state.specs.Parts.{machine_of};
ghost use Rattle.mta_state.specs.Asked.{IsTextOf};
ghost use Rattle.mta_state.specs.Readings.{IsReadingOf};
ghost use Rattle.mta_replay.specs.Failures.{failure_of, report_of, FailAll, Fails};

use crate::failure::Failure;
use crate::ready::is_report;
use mta_ber::Memory;
use mta_machine::Item;
use mta_state::{Kept, Reading, Rules, Settlement};
use std::alloc::Global;

// The report on a recipient, as the item behind so many.
fn report_on<R: Rules>(
    alloc: Global,
    rules: &R,
    count: u32,
    item: &Item,
    reading: &Reading<'_>,
    recipient: u32,
    failure: Failure,
    moment: u64,
) -> Result<Option<Item>, Memory>
    requires arrived { item.now.arrival ≤ last_moment }
    requires reading { IsReadingOf item.now.octets reading.now }
    ensures { let about = report_of (R.text rules.now) count item.now recipient (failure_of failure) in
        IfOk result (λ made. made ≡ option_map (own_item moment) about) }
{
    let number = u64::from(count) + 1;
    let reason = failure.reason();
    let diagnostic = failure.diagnostic();
    rules.non_delivery_report(
        alloc, number, item, reading, recipient, reason, diagnostic, moment,
    )
}

// How a recipient is discharged where there are so many items; none where the number of the report is too great.
#[tactic(auto, using(crate::proofs::Reports::failed_laws))]
fn failed_one<R: Rules>(
    alloc: Global,
    rules: &R,
    of_report: bool,
    count: u32,
    item: &Item,
    reading: &Reading<'_>,
    recipient: u32,
    failure: Failure,
    moment: u64,
) -> Result<Option<Settlement>, Memory>
    requires arrived { item.now.arrival ≤ last_moment }
    requires reading { IsReadingOf item.now.octets reading.now }
    requires kind { of_report ≡ is_report (value_of item.now.octets) }
    ensures { IfOk result (Fails (R.text rules.now) count item.now recipient (failure_of failure) moment) }
{
    let made = report_on(
        alloc, rules, count, item, reading, recipient, failure, moment,
    )?;
    if count == u32::MAX && made.is_some() {
        return Ok(None);
    }
    Ok(Some(Settlement {
        recipient,
        status: failure.status(of_report, moment),
        made,
    }))
}

// How many items a discharge makes.
fn made_by(settlement: &Settlement) -> u32
    ensures exact { result ≡ length (option_to_list settlement.now.made) }
    ensures most { result ≤ 1 }
{
    u32::from(settlement.made.is_some())
}

/// How the recipients of an item, which is read once for all of them, are discharged, in their order; none where the
/// number of a report is too great.
#[tactic(auto, using(crate::proofs::FailedOnes::failing_laws))]
pub(crate) fn failed_all<R: Rules>(
    alloc: Global,
    rules: &R,
    kept: &Kept,
    number: u32,
    item: &Item,
    recipients: &[u32],
    failure: Failure,
    moment: u64,
) -> Result<Option<Vec<Settlement>>, Memory>
    requires text { IsTextOf kept.now (R.text rules.now) }
    requires item { numbered kept.now.parts.items.items number ≡ Some item.now }
    requires arrived { item.now.arrival ≤ last_moment }
    requires numbers { length kept.now.parts.items.items < 2 ^ 32 }
    ensures { IfOk result
        (FailAll (machine_of kept.now.parts) number recipients.now (failure_of failure) moment) }
{
    let reading = Reading::read(alloc, item)?;
    let of_report = is_report(item, &reading);
    let mut count = kept.parts.items.len() as u32;
    let mut settlements = Vec::new(alloc);
    for recipient in recipients {
        let Some(settlement) = failed_one(
            alloc, rules, of_report, count, item, &reading, *recipient, failure, moment,
        )?
        else {
            return Ok(None);
        };
        count += made_by(&settlement);
        settlements.push(settlement)?;
    }
    Ok(Some(settlements))
}

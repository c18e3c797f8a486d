//! Recipients who are reported, and reports that are passed back or go no further.

ghost use Rattle.std.specs.Prelude.{◌≡◌, ◌≤◌, IfOk, Some, map};
ghost use Rattle.std.specs.List.{All};
ghost use Rattle.mta_ber.specs.Times.{last_moment};
ghost use Rattle.mta_names.specs.Bounded.{IsCode};
ghost use Rattle.mta_procedures.specs.declared.verdict.Verdict.TheVariants as Verdicts;
ghost use Rattle.mta_machine.specs.Apdu.{is_report, value_of};
ghost use Rattle.mta_machine.specs.Items.{numbered};
ghost use Rattle.mta_machine.specs.Machine.{made_by, not_delivered, own_item, passed, status_after};
ghost use Rattle.mta_state.specs.Parts.{machine_of, made_items};
ghost use Rattle.mta_records.specs.declared.step.Step.TheVariants as Steps;
ghost use Rattle.mta_state.specs.Asked.{IsStored, IsTextOf};
ghost use Rattle.mta_state.specs.Kept.{state_of};
ghost use Rattle.mta_state.specs.Prepared.{Prepares};
ghost use Rattle.mta_state.specs.Readings.{IsReadingOf};
ghost use Rattle.mta_replay.specs.Ready.{IsReadAt};
ghost use Rattle.mta_replay.specs.Settleable.{IsReady};

use crate::ready::{is_report, ready_verdict};
use crate::settling::{next_number, settling_change};
use mta_ber::Memory;
use mta_machine::{Item, Status};
use mta_procedures::Verdict;
use mta_state::{Change, Kept, Made, Reading, Rules};
use std::alloc::Global;

// The status of a recipient who is not delivered to. A report that is not delivered goes no further.
fn status_of_failure(
    item: &Item,
    reading: &Reading<'_>,
    reason: u32,
    diagnostic: u32,
    moment: u64,
) -> Status
    requires { IsReadingOf item.now.octets reading.now }
    ensures { let of_report = is_report (value_of item.now.octets) in
        result ≡ status_after of_report (not_delivered reason diagnostic) moment }
{
    if is_report(item, reading) {
        return Status::Discarded(moment);
    }
    Status::Reported {
        moment,
        reason,
        diagnostic: Some(diagnostic),
    }
}

// The non-delivery report on a recipient, where there is one.
fn made_of_failure<R: Rules>(
    alloc: Global,
    rules: &R,
    kept: &Kept,
    item: &Item,
    reading: &Reading<'_>,
    recipient: u32,
    reason: u32,
    diagnostic: u32,
    moment: u64,
) -> Result<Made, Memory>
    requires arrived { item.now.arrival ≤ last_moment }
    requires reading { IsReadingOf item.now.octets reading.now }
    requires reason { IsCode reason }
    requires diagnostic { IsCode diagnostic }
    ensures { let m = machine_of kept.now.parts in
        let about = made_by m item.now (R.text rules.now) recipient (not_delivered reason diagnostic) moment in
        IfOk result (λ made. made_items made ≡ map (own_item moment) about) }
{
    let number = next_number(kept);
    let told = Some(diagnostic);
    let first = rules.non_delivery_report(
        alloc, number, item, reading, recipient, reason, told, moment,
    )?;
    Ok(Made {
        first,
        second: None,
    })
}

// What the failure of a recipient changes.
fn failure<R: Rules>(
    alloc: Global,
    rules: &R,
    kept: &Kept,
    number: u32,
    item: &Item,
    reading: &Reading<'_>,
    recipient: u32,
    reason: u32,
    diagnostic: u32,
    moment: u64,
) -> Result<Option<Change>, Memory>
    requires text { IsTextOf kept.now (R.text rules.now) }
    requires item { numbered kept.now.parts.items.items number ≡ Some item.now }
    requires arrived { item.now.arrival ≤ last_moment }
    requires reading { IsReadingOf item.now.octets reading.now }
    requires reason { IsCode reason }
    requires diagnostic { IsCode diagnostic }
    requires ready { IsReady (state_of kept.now) number recipient moment (Verdicts.NonDeliver reason diagnostic) }
    ensures { IfOk result (Prepares (state_of kept.now) (Steps.Report number recipient moment)) }
{
    let status = status_of_failure(item, reading, reason, diagnostic, moment);
    let made = made_of_failure(
        alloc, rules, kept, item, reading, recipient, reason, diagnostic, moment,
    )?;
    Ok(settling_change(kept, number, recipient, status, made, None, moment))
}

/// What a Report changes, at a moment in seconds since 1950-01-01 00:00:00 UTC (X.411, clause 14: report generation);
/// none exactly where it is not possible.
#[tactic(auto, using(crate::proofs::Called::no_report_laws, crate::proofs::Called::arrived))]
pub fn prepare_report<R: Rules>(
    alloc: Global,
    rules: &R,
    kept: &Kept,
    item: u32,
    reading: &Reading<'_>,
    recipient: u32,
    moment: u64,
) -> Result<Option<Change>, Memory>
    requires text { IsTextOf kept.now (R.text rules.now) }
    requires format { R.format rules.now ≡ kept.now.parts.format }
    requires stored { All IsStored kept.now.parts.items.items }
    requires reading { IsReadAt kept.now.parts.items.items item reading.now }
    ensures { IfOk result (Prepares (state_of kept.now) (Steps.Report item recipient moment)) }
{
    let Some(found) = kept.parts.item(item) else {
        return Ok(None);
    };
    match ready_verdict(alloc, rules, kept, item, found, reading, recipient, moment)? {
        Some(Verdict::NonDeliver { reason, diagnostic }) => failure(
            alloc, rules, kept, item, found, reading, recipient, reason, diagnostic, moment,
        ),
        _ => Ok(None),
    }
}

// What a report that goes no further changes.
fn no_further(kept: &Kept, number: u32, recipient: u32, moment: u64) -> Option<Change>
    requires { IsReady (state_of kept.now) number recipient moment Verdicts.Discard }
    ensures { Prepares (state_of kept.now) (Steps.Discard number recipient moment) result }
{
    let made = Made {
        first: None,
        second: None,
    };
    let status = Status::Discarded(moment);
    settling_change(kept, number, recipient, status, made, None, moment)
}

/// What a Discard changes, at a moment in seconds since 1950-01-01 00:00:00 UTC (X.411, clause 14: reports); none
/// exactly where it is not possible.
#[tactic(auto, using(crate::proofs::Called::no_discard_laws, crate::proofs::Called::arrived))]
pub fn prepare_discard<R: Rules>(
    alloc: Global,
    rules: &R,
    kept: &Kept,
    item: u32,
    reading: &Reading<'_>,
    recipient: u32,
    moment: u64,
) -> Result<Option<Change>, Memory>
    requires text { IsTextOf kept.now (R.text rules.now) }
    requires format { R.format rules.now ≡ kept.now.parts.format }
    requires stored { All IsStored kept.now.parts.items.items }
    requires reading { IsReadAt kept.now.parts.items.items item reading.now }
    ensures { IfOk result (Prepares (state_of kept.now) (Steps.Discard item recipient moment)) }
{
    let Some(found) = kept.parts.item(item) else {
        return Ok(None);
    };
    match ready_verdict(alloc, rules, kept, item, found, reading, recipient, moment)? {
        Some(Verdict::Discard) => Ok(no_further(kept, item, recipient, moment)),
        _ => Ok(None),
    }
}

// What a report that is passed back changes.
fn passing_back<R: Rules>(
    alloc: Global,
    rules: &R,
    kept: &Kept,
    number: u32,
    item: &Item,
    reading: &Reading<'_>,
    recipient: u32,
    moment: u64,
) -> Result<Option<Change>, Memory>
    requires text { IsTextOf kept.now (R.text rules.now) }
    requires format { R.format rules.now ≡ kept.now.parts.format }
    requires item { numbered kept.now.parts.items.items number ≡ Some item.now }
    requires arrived { item.now.arrival ≤ last_moment }
    requires reading { IsReadingOf item.now.octets reading.now }
    requires ready { IsReady (state_of kept.now) number recipient moment Verdicts.Back }
    ensures { IfOk result (Prepares (state_of kept.now) (Steps.Back number recipient moment)) }
{
    let items = kept.parts.items.as_slice();
    let first = rules.passed_back(alloc, items, item, reading, recipient, moment)?;
    let made = Made {
        first,
        second: None,
    };
    let status = Status::Passed(moment);
    Ok(settling_change(kept, number, recipient, status, made, None, moment))
}

/// What a Back changes, at a moment in seconds since 1950-01-01 00:00:00 UTC (X.411, clause 14: reports to
/// distribution lists); none exactly where it is not possible.
#[tactic(auto, using(crate::proofs::Called::no_back_laws, crate::proofs::Called::arrived))]
pub fn prepare_back<R: Rules>(
    alloc: Global,
    rules: &R,
    kept: &Kept,
    item: u32,
    reading: &Reading<'_>,
    recipient: u32,
    moment: u64,
) -> Result<Option<Change>, Memory>
    requires text { IsTextOf kept.now (R.text rules.now) }
    requires format { R.format rules.now ≡ kept.now.parts.format }
    requires stored { All IsStored kept.now.parts.items.items }
    requires reading { IsReadAt kept.now.parts.items.items item reading.now }
    ensures { IfOk result (Prepares (state_of kept.now) (Steps.Back item recipient moment)) }
{
    let Some(found) = kept.parts.item(item) else {
        return Ok(None);
    };
    match ready_verdict(alloc, rules, kept, item, found, reading, recipient, moment)? {
        Some(Verdict::Back) => passing_back(
            alloc, rules, kept, item, found, reading, recipient, moment,
        ),
        _ => Ok(None),
    }
}

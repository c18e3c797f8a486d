//! Recipients who are delivered to, affirmed or expanded.

ghost use Rattle.std.specs.Prelude.{◌≡◌, ◌≤◌, ◌<◌, ◌^◌, ◌+◌, IfOk, Some, length, map, option_to_list};
ghost use Rattle.std.specs.List.{All};
ghost use Rattle.mta_ber.specs.Times.{last_moment};
ghost use Rattle.mta_procedures.specs.declared.verdict.Verdict.TheVariants as Verdicts;
ghost use Rattle.mta_machine.specs.Items.{numbered};
ghost use Rattle.mta_machine.specs.Machine.{delivered, line_at, made_by, own_item};
ghost use Rattle.mta_machine.specs.Rules.{mailbox_word};
ghost use Rattle.mta_state.specs.Parts.{machine_of, made_items};
ghost use Rattle.mta_records.specs.declared.step.Step.TheVariants as Steps;
ghost use Rattle.mta_state.specs.Asked.{IsDeliveryOf, IsStored, IsTextOf};
ghost use Rattle.mta_state.specs.Kept.{state_of};
ghost use Rattle.mta_state.specs.Prepared.{Prepares};
ghost use Rattle.mta_state.specs.Readings.{IsReadingOf};
ghost use Rattle.mta_replay.specs.Ready.{IsReadAt};
ghost use Rattle.mta_replay.specs.Settleable.{IsReady, IsReadyToExpand, MaySettle};

use crate::ready::{may_settle, ready_verdict};
use crate::settling::{next_number, settling_change};
use mta_ber::Memory;
use mta_machine::{Item, MailboxLine, Status};
use mta_procedures::Verdict;
use mta_state::{Change, Delivery, Kept, Made, Reading, Rules};
use std::alloc::Global;

// The delivery of an item to the mailbox at a place of the tables.
fn line_to<R: Rules>(
    rules: &R,
    place: u32,
    number: u32,
    moment: u64,
) -> Result<Option<MailboxLine>, Memory>
    ensures { let word = mailbox_word (R.text rules.now) place in
        IfOk result (λ line. option_to_list line ≡ line_at word number moment) }
{
    match rules.mailbox_at(place) {
        None => Ok(None),
        Some(word) => {
            let mailbox = word.share()?;
            Ok(Some(MailboxLine {
                mailbox,
                item: number,
                moment,
            }))
        }
    }
}

// The delivery report on a recipient who is affirmed, where there is one.
fn made_of_affirmation<R: Rules>(
    alloc: Global,
    rules: &R,
    kept: &Kept,
    item: &Item,
    reading: &Reading<'_>,
    recipient: u32,
    moment: u64,
) -> Result<Made, Memory>
    requires arrived { item.now.arrival ≤ last_moment }
    requires reading { IsReadingOf item.now.octets reading.now }
    requires fits { moment ≤ last_moment }
    ensures { let m = machine_of kept.now.parts in
        let about = made_by m item.now (R.text rules.now) recipient delivered moment in
        IfOk result (λ made. made_items made ≡ map (own_item moment) about) }
{
    let first = rules.delivery_report(alloc, next_number(kept), item, reading, recipient, moment)?;
    Ok(Made {
        first,
        second: None,
    })
}

// What the delivery of an item changes, with the delivery report as the next item.
fn delivery<R: Rules>(
    alloc: Global,
    rules: &R,
    kept: &Kept,
    number: u32,
    item: &Item,
    recipient: u32,
    told: Delivery,
    moment: u64,
) -> Result<Option<Change>, Memory>
    requires text { IsTextOf kept.now (R.text rules.now) }
    requires format { R.format rules.now ≡ kept.now.parts.format }
    requires item { numbered kept.now.parts.items.items number ≡ Some item.now }
    requires may { MaySettle (state_of kept.now) number recipient moment }
    requires told { let next = length kept.now.parts.items.items + 1 in
        IsDeliveryOf (R.format rules.now) (R.text rules.now) next item.now recipient moment (Some told) }
    ensures { IfOk result (Prepares (state_of kept.now) (Steps.Deliver number recipient moment)) }
{
    let line = line_to(rules, told.place, number, moment)?;
    let made = Made {
        first: told.report,
        second: None,
    };
    let status = Status::Delivered(moment);
    Ok(settling_change(kept, number, recipient, status, made, line, moment))
}

/// What a Deliver changes, at a moment in seconds since 1950-01-01 00:00:00 UTC (X.411, clause 14: delivery); none
/// exactly where it is not possible.
#[tactic(auto, using(crate::proofs::Delivers::no_delivery_laws, crate::proofs::Called::arrived))]
pub fn prepare_deliver<R: Rules>(
    alloc: Global,
    rules: &R,
    kept: &Kept,
    item: u32,
    reading: &Reading<'_>,
    recipient: u32,
    moment: u64,
) -> Result<Option<Change>, Memory>
    requires text { IsTextOf kept.now (R.text rules.now) }
    requires format { R.format rules.now ≡ kept.now.parts.format }
    requires stored { All IsStored kept.now.parts.items.items }
    requires reading { IsReadAt kept.now.parts.items.items item reading.now }
    requires fits { moment ≤ last_moment }
    ensures { IfOk result (Prepares (state_of kept.now) (Steps.Deliver item recipient moment)) }
{
    let Some(found) = kept.parts.item(item) else {
        return Ok(None);
    };
    if !may_settle(kept, item, recipient, moment) {
        return Ok(None);
    }
    match rules.delivery(alloc, next_number(kept), found, reading, recipient, moment)? {
        Some(told) => delivery(alloc, rules, kept, item, found, recipient, told, moment),
        None => Ok(None),
    }
}

// What the affirmation of a probe's recipient changes.
fn affirmation<R: Rules>(
    alloc: Global,
    rules: &R,
    kept: &Kept,
    number: u32,
    item: &Item,
    reading: &Reading<'_>,
    recipient: u32,
    moment: u64,
) -> Result<Option<Change>, Memory>
    requires text { IsTextOf kept.now (R.text rules.now) }
    requires item { numbered kept.now.parts.items.items number ≡ Some item.now }
    requires arrived { item.now.arrival ≤ last_moment }
    requires reading { IsReadingOf item.now.octets reading.now }
    requires fits { moment ≤ last_moment }
    requires ready { IsReady (state_of kept.now) number recipient moment Verdicts.Affirm }
    ensures { IfOk result (Prepares (state_of kept.now) (Steps.Affirm number recipient moment)) }
{
    let made = made_of_affirmation(alloc, rules, kept, item, reading, recipient, moment)?;
    let status = Status::Affirmed(moment);
    Ok(settling_change(kept, number, recipient, status, made, None, moment))
}

/// What an Affirm changes, at a moment in seconds since 1950-01-01 00:00:00 UTC (X.411, clause 14: probes); none
/// exactly where it is not possible.
#[tactic(auto, using(crate::proofs::Called::no_affirm_laws, crate::proofs::Called::arrived))]
pub fn prepare_affirm<R: Rules>(
    alloc: Global,
    rules: &R,
    kept: &Kept,
    item: u32,
    reading: &Reading<'_>,
    recipient: u32,
    moment: u64,
) -> Result<Option<Change>, Memory>
    requires text { IsTextOf kept.now (R.text rules.now) }
    requires format { R.format rules.now ≡ kept.now.parts.format }
    requires stored { All IsStored kept.now.parts.items.items }
    requires reading { IsReadAt kept.now.parts.items.items item reading.now }
    requires fits { moment ≤ last_moment }
    ensures { IfOk result (Prepares (state_of kept.now) (Steps.Affirm item recipient moment)) }
{
    let Some(found) = kept.parts.item(item) else {
        return Ok(None);
    };
    match ready_verdict(alloc, rules, kept, item, found, reading, recipient, moment)? {
        Some(Verdict::Affirm) => affirmation(
            alloc, rules, kept, item, found, reading, recipient, moment,
        ),
        _ => Ok(None),
    }
}

// What the expansion of a list changes.
fn list_expansion<R: Rules>(
    alloc: Global,
    rules: &R,
    kept: &Kept,
    number: u32,
    item: &Item,
    reading: &Reading<'_>,
    recipient: u32,
    moment: u64,
) -> Result<Option<Change>, Memory>
    requires text { IsTextOf kept.now (R.text rules.now) }
    requires format { R.format rules.now ≡ kept.now.parts.format }
    requires item { numbered kept.now.parts.items.items number ≡ Some item.now }
    requires arrived { item.now.arrival ≤ last_moment }
    requires reading { IsReadingOf item.now.octets reading.now }
    requires numbers { length kept.now.parts.items.items < 2 ^ 32 }
    requires fits { moment ≤ last_moment }
    requires ready { IsReadyToExpand (state_of kept.now) number recipient moment }
    ensures { IfOk result (Prepares (state_of kept.now) (Steps.Expand number recipient moment)) }
{
    let made = rules.expansion(alloc, next_number(kept), item, reading, recipient, moment)?;
    let status = Status::Expanded(moment);
    Ok(settling_change(kept, number, recipient, status, made, None, moment))
}

/// What an Expand changes, at a moment in seconds since 1950-01-01 00:00:00 UTC (X.411, clause 14: distribution list
/// expansion); none exactly where it is not possible.
#[tactic(auto, using(crate::proofs::Called::no_expand_laws, crate::proofs::Called::arrived))]
pub fn prepare_expand<R: Rules>(
    alloc: Global,
    rules: &R,
    kept: &Kept,
    item: u32,
    reading: &Reading<'_>,
    recipient: u32,
    moment: u64,
) -> Result<Option<Change>, Memory>
    requires text { IsTextOf kept.now (R.text rules.now) }
    requires format { R.format rules.now ≡ kept.now.parts.format }
    requires stored { All IsStored kept.now.parts.items.items }
    requires reading { IsReadAt kept.now.parts.items.items item reading.now }
    requires numbers { length kept.now.parts.items.items < 2 ^ 32 }
    requires fits { moment ≤ last_moment }
    ensures { IfOk result (Prepares (state_of kept.now) (Steps.Expand item recipient moment)) }
{
    let Some(found) = kept.parts.item(item) else {
        return Ok(None);
    };
    match ready_verdict(alloc, rules, kept, item, found, reading, recipient, moment)? {
        Some(Verdict::Expand(_)) => list_expansion(
            alloc, rules, kept, item, found, reading, recipient, moment,
        ),
        _ => Ok(None),
    }
}

//! An activity that is started (X.228, activity management).

ghost use Rattle.std.specs.Prelude.{◌≡◌, ◌≤◌, ◌<◌, ◌^◌, ◌↔◌, IfOk, IsTrue, Some, length};
ghost use Rattle.std.specs.Option.{option_copied};
ghost use Rattle.std.specs.List.{All};
ghost use Rattle.mta_ber.specs.Times.{last_moment};
ghost use Rattle.mta_machine.specs.Items.{numbered};
ghost use Rattle.mta_machine.specs.Rules.{verdict_of};
ghost use Rattle.mta_histories.specs.History.{transfer_of};
ghost use Rattle.mta_state.specs.Parts.{machine_of};
ghost use Rattle.mta_records.specs.declared.step.Step.TheVariants as Steps;
ghost use Rattle.mta_state.specs.Asked.{IsStored, IsTextOf, Relays};
ghost use Rattle.mta_state.specs.Kept.{state_of};
ghost use Rattle.mta_state.specs.Prepared.{Prepares};
ghost use Rattle.mta_lanes.specs.declared.change.LaneChange.TheVariants as LaneChanges;
ghost use Rattle.mta_state.specs.declared.change.Change.TheVariants as Changes;
ghost use Rattle.mta_histories.specs.Lanes.{lane_at};
ghost use Rattle.mta_replay.specs.Starting.{AreToRelay, FreeFor, IsNextOn, IsStartable, OneOf, TransfersNext};
ghost use Rattle.mta_state.specs.Readings.{IsReadingOf};

use crate::different::are_different;
use mta_ber::Memory;
use mta_dues::is_to_relay;
use mta_lanes::{Lane, LaneChange, Transfer};
use mta_machine::Item;
use mta_records::Recipients;
use mta_state::{Change, Kept, Reading, Rules};
use std::alloc::Global;

// Whether the next activity of the lane may be started, whatever its number.
fn may_start(opened: &Lane, generation: u64) -> bool
    ensures { IsTrue result ↔ IsStartable opened.now generation }
{
    opened.is_of(generation) && opened.values().agreed && opened.may_close()
}

// The open lane on which the next activity may be started.
#[tactic(auto, using(crate::proofs::Starting::idle_laws))]
fn idle_lane(kept: &Kept, lane: u32, generation: u64, moment: u64) -> Option<&Lane>
    ensures { FreeFor (state_of kept.now) lane generation moment (option_copied result) }
{
    let Some(opened) = kept.lanes.get(lane) else {
        return None;
    };
    if moment < kept.moment || !may_start(opened, generation) {
        return None;
    }
    Some(opened)
}

// Whether each of the recipients of an item is pending, in no activity, and relayed to the peer.
#[tactic(auto, using(crate::proofs::Starting::each_laws))]
fn all_relay<R: Rules>(
    alloc: Global,
    rules: &R,
    kept: &Kept,
    number: u32,
    item: &Item,
    reading: &Reading<'_>,
    recipients: &[u32],
    peer: &[u8],
    moment: u64,
) -> Result<bool, Memory>
    requires text { IsTextOf kept.now (R.text rules.now) }
    requires format { R.format rules.now ≡ kept.now.parts.format }
    requires item { numbered kept.now.parts.items.items number ≡ Some item.now }
    requires arrived { item.now.arrival ≤ last_moment }
    requires reading { IsReadingOf item.now.octets reading.now }
    ensures { IfOk result (λ b. IsTrue b
        ↔ AreToRelay (state_of kept.now) peer.now moment number recipients.now) }
{
    for recipient in recipients {
        if !is_to_relay(
            alloc, rules, kept, number, item, reading, *recipient, peer, moment,
        )? {
            return Ok(false);
        }
    }
    Ok(true)
}

// One of the recipients of an item, where they may go to the peer in one activity.
#[tactic(auto, using(crate::proofs::Starting::one_laws))]
fn one_of<R: Rules>(
    alloc: Global,
    rules: &R,
    kept: &Kept,
    number: u32,
    item: &Item,
    reading: &Reading<'_>,
    recipients: &[u32],
    peer: &[u8],
    moment: u64,
) -> Result<Option<u32>, Memory>
    requires text { IsTextOf kept.now (R.text rules.now) }
    requires format { R.format rules.now ≡ kept.now.parts.format }
    requires item { numbered kept.now.parts.items.items number ≡ Some item.now }
    requires arrived { item.now.arrival ≤ last_moment }
    requires reading { IsReadingOf item.now.octets reading.now }
    ensures { IfOk result (OneOf (state_of kept.now) peer.now moment number recipients.now) }
{
    let [first, ..] = recipients else {
        return Ok(None);
    };
    if !are_different(recipients) {
        return Ok(None);
    }
    if all_relay(
        alloc, rules, kept, number, item, reading, recipients, peer, moment,
    )? {
        Ok(Some(*first))
    } else {
        Ok(None)
    }
}

// What the activity transfers. A transfer holds the number of the tables in 32 bits, so memory is said to be wanted
// where there are more of them.
#[tactic(auto, using(crate::proofs::Starting::transfer_is))]
fn transfer_for<R: Rules>(
    alloc: Global,
    rules: &R,
    kept: &Kept,
    activity: u32,
    number: u32,
    item: &Item,
    reading: &Reading<'_>,
    recipients: &Recipients,
    recipient: u32,
    moment: u64,
) -> Result<Transfer, Memory>
    requires text { IsTextOf kept.now (R.text rules.now) }
    requires format { R.format rules.now ≡ kept.now.parts.format }
    requires item { numbered kept.now.parts.items.items number ≡ Some item.now }
    requires arrived { item.now.arrival ≤ last_moment }
    requires reading { IsReadingOf item.now.octets reading.now }
    requires fits { moment ≤ last_moment }
    requires relayed { let format = R.format rules.now in
        Relays (verdict_of format (R.text rules.now) item.now.octets item.now.arrival recipient moment) }
    ensures { IfOk result (λ t. t ≡ transfer_of (machine_of kept.now.parts) number recipients.now moment) }
{
    let tables = kept.parts.texts.len();
    if tables > u32::MAX as usize {
        return Err(Memory);
    }
    let outgoing = rules.outgoing_copy(
        alloc,
        activity,
        item,
        reading,
        recipients.as_slice(),
        recipient,
        moment,
    )?;
    let recipients = recipients.copy(alloc)?;
    Ok(Transfer::new(
        number,
        recipients,
        moment,
        tables as u32,
        kept.parts.format,
        outgoing,
    ))
}

/// What the next activity of a lane transfers, under the rules of the tables recorded last: the copy of the item for
/// these recipients. None exactly where it may not be started, whatever its number. Items and recipients are numbered
/// from 1, and `moment` is in seconds since 1950-01-01 00:00:00 UTC.
#[tactic(auto, using(crate::proofs::Starting::transfer_laws))]
pub fn transfer_next<R: Rules>(
    alloc: Global,
    rules: &R,
    kept: &Kept,
    lane: u32,
    generation: u64,
    item: u32,
    recipients: &Recipients,
    moment: u64,
) -> Result<Option<Transfer>, Memory>
    requires text { IsTextOf kept.now (R.text rules.now) }
    requires format { R.format rules.now ≡ kept.now.parts.format }
    requires stored { All IsStored kept.now.parts.items.items }
    requires fits { moment ≤ last_moment }
    ensures { IfOk result (TransfersNext (state_of kept.now) lane generation item recipients.now moment) }
{
    let Some(opened) = idle_lane(kept, lane, generation, moment) else {
        return Ok(None);
    };
    let Some(stored) = kept.parts.item(item) else {
        return Ok(None);
    };
    let numbers = recipients.as_slice();
    let peer = opened.peer().as_slice();
    let reading = Reading::read(alloc, stored)?;
    let Some(one) = one_of(
        alloc, rules, kept, item, stored, &reading, numbers, peer, moment,
    )?
    else {
        return Ok(None);
    };
    let activity = opened.activity().saturating_add(1);
    let transfer = transfer_for(
        alloc, rules, kept, activity, item, stored, &reading, recipients, one, moment,
    )?;
    Ok(Some(transfer))
}

/// What the Start of an activity of a lane changes, which transfers this.
pub fn start_change(lane: u32, transfer: Transfer, moment: u64) -> Change
    ensures { result ≡ Changes.OnLane lane (LaneChanges.Start transfer) (Some moment) }
{
    Change::OnLane {
        lane,
        change: LaneChange::Start(transfer),
        moment: Some(moment),
    }
}

// Whether the next activity of a lane has this number.
fn is_next(kept: &Kept, lane: u32, activity: u32) -> bool
    ensures { IsTrue result ↔ IsNextOn (lane_at lane kept.now.lanes.open_lanes.items) activity }
{
    match kept.lanes.get(lane) {
        Some(opened) => 0 < activity && activity - 1 == opened.activity(),
        None => false,
    }
}

/// What a Start changes, under the rules of the tables recorded last: the activity under way transfers the copy of the
/// item for these recipients. None exactly where it is not possible. Items and recipients are numbered from 1, and
/// `moment` is in seconds since 1950-01-01 00:00:00 UTC.
#[tactic(auto, using(crate::proofs::Starting::start_laws))]
pub fn prepare_start<R: Rules>(
    alloc: Global,
    rules: &R,
    kept: &Kept,
    lane: u32,
    generation: u64,
    activity: u32,
    item: u32,
    recipients: &Recipients,
    moment: u64,
) -> Result<Option<Change>, Memory>
    requires text { IsTextOf kept.now (R.text rules.now) }
    requires format { R.format rules.now ≡ kept.now.parts.format }
    requires stored { All IsStored kept.now.parts.items.items }
    requires numbers { length kept.now.parts.items.items < 2 ^ 32 }
    requires fits { moment ≤ last_moment }
    ensures { IfOk result (Prepares (state_of kept.now)
        (Steps.Start lane generation activity item recipients.now moment)) }
{
    if !is_next(kept, lane, activity) {
        return Ok(None);
    }
    let found = transfer_next(
        alloc, rules, kept, lane, generation, item, recipients, moment,
    )?;
    match found {
        None => Ok(None),
        Some(transfer) => Ok(Some(start_change(lane, transfer, moment))),
    }
}

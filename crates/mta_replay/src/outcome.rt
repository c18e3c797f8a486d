//! An activity that ends (X.228, activity management): it was sent, refused or denied, or it is given up.

ghost use Rattle.std.specs.Prelude.{◌≡◌, ◌<◌, ◌^◌, IfOk, Some, true, [], length};
ghost use Rattle.std.specs.List.{All};
ghost use Rattle.mta_lane_send.specs.Half.{is_live};
ghost use Rattle.mta_histories.specs.Lanes.{is_dropping, is_transferring, lane_at};
ghost use Rattle.mta_histories.specs.Classes.{was_denied, was_refused, was_sent};
ghost use Rattle.mta_histories.specs.History.{failures, outcome_steps};
ghost use Rattle.mta_histories.specs.Kept.{IsKept};
ghost use Rattle.mta_lanes.specs.Changes.{MayChange};
ghost use Rattle.mta_lanes.specs.declared.change.LaneChange.TheVariants as LaneChanges;
ghost use Rattle.mta_records.specs.declared.step.Step.TheVariants as Steps;
ghost use Rattle.mta_state.specs.Asked.{IsStored, IsTextOf};
ghost use Rattle.mta_state.specs.Kept.{state_of};
ghost use Rattle.mta_state.specs.Prepared.{Prepares};
ghost use Rattle.mta_replay.specs.Changes.{Makes};
ghost use Rattle.mta_replay.specs.Failures.{failure_of};

use crate::failing::failed_all;
use crate::failure::{Failure, failure_by};
use crate::looking::{ending_lane, expired_lane, live_lane};
use crate::sending::{last_first, sent_all};
use mta_ber::Memory;
use mta_lane_send::SendState;
use mta_lanes::{Lane, LaneChange};
use mta_state::{Change, Kept, Rules};
use std::alloc::Global;

// Whether the activity under way was given up.
fn is_dropping(opened: &Lane) -> bool
    ensures { result ≡ is_dropping opened.now.sending }
{
    match opened.sending() {
        SendState::Idle { .. } => false,
        SendState::Sending { .. } => false,
        SendState::Ending { .. } => false,
        SendState::Dropping { .. } => true,
    }
}

// What the failure of the activity under way changes: each of its recipients is discharged, one after the other.
#[tactic(auto, using(crate::proofs::Ending::fail_laws))]
fn fail<R: Rules>(
    alloc: Global,
    rules: &R,
    kept: &Kept,
    lane: u32,
    opened: &Lane,
    change: LaneChange,
    failure: Failure,
    moment: u64,
) -> Result<Option<Change>, Memory>
    requires text { IsTextOf kept.now (R.text rules.now) }
    requires kept { IsKept (state_of kept.now) }
    requires stored { All IsStored kept.now.parts.items.items }
    requires numbers { length kept.now.parts.items.items < 2 ^ 32 }
    requires opened { lane_at lane kept.now.lanes.open_lanes.items ≡ Some opened.now }
    requires transferring { is_transferring opened.now.sending ≡ true }
    requires may { MayChange opened.now change }
    ensures { IfOk result (Makes (state_of kept.now)
        (failures (failure_of failure) moment opened.now.transfer) lane change moment) }
{
    let Some(transfer) = opened.transfer() else {
        unreachable!()
    };
    let number = transfer.item();
    let Some(item) = kept.parts.item(number) else {
        unreachable!()
    };
    let recipients = transfer.recipients();
    match failed_all(
        alloc, rules, kept, number, item, recipients, failure, moment,
    )? {
        None => Ok(None),
        Some(settlements) => Ok(Some(Change::Discharge {
            lane,
            change,
            item: number,
            settlements: last_first(settlements),
            moment,
        })),
    }
}

// An activity that is settled with nobody discharged.
#[tactic(auto, using(crate::proofs::Ending::quiet_makes))]
fn settle_quietly(kept: &Kept, lane: u32, moment: u64) -> Change
    requires { length kept.now.parts.items.items < 2 ^ 32 }
    ensures { Makes (state_of kept.now) [] lane LaneChanges.Settle moment (Some result) }
{
    Change::OnLane {
        lane,
        change: LaneChange::Settle,
        moment: Some(moment),
    }
}

// What changes where the peer has refused the activity. Where it was given up its recipients have been reported.
#[tactic(auto, using(crate::proofs::Ending::refused_laws))]
fn refused<R: Rules>(
    alloc: Global,
    rules: &R,
    kept: &Kept,
    lane: u32,
    opened: &Lane,
    activity: u32,
    kind: u8,
    moment: u64,
) -> Result<Option<Change>, Memory>
    requires text { IsTextOf kept.now (R.text rules.now) }
    requires kept { IsKept (state_of kept.now) }
    requires stored { All IsStored kept.now.parts.items.items }
    requires numbers { length kept.now.parts.items.items < 2 ^ 32 }
    requires opened { lane_at lane kept.now.lanes.open_lanes.items ≡ Some opened.now }
    requires live { is_live opened.now.sending activity ≡ true }
    ensures { IfOk result (Makes (state_of kept.now)
        (outcome_steps opened.now (was_refused kind) activity moment) lane LaneChanges.Settle moment) }
{
    if is_dropping(opened) {
        return Ok(Some(settle_quietly(kept, lane, moment)));
    }
    let failure = failure_by(kind);
    fail(
        alloc,
        rules,
        kept,
        lane,
        opened,
        LaneChange::Settle,
        failure,
        moment,
    )
}

// What changes where the peer knows nothing of the activity. In Ending nobody can tell whether it got it, so its
// recipients are reported; before that they are only free again.
#[tactic(auto, using(crate::proofs::Ending::denied_laws))]
fn denied<R: Rules>(
    alloc: Global,
    rules: &R,
    kept: &Kept,
    lane: u32,
    opened: &Lane,
    activity: u32,
    moment: u64,
) -> Result<Option<Change>, Memory>
    requires text { IsTextOf kept.now (R.text rules.now) }
    requires kept { IsKept (state_of kept.now) }
    requires stored { All IsStored kept.now.parts.items.items }
    requires numbers { length kept.now.parts.items.items < 2 ^ 32 }
    requires opened { lane_at lane kept.now.lanes.open_lanes.items ≡ Some opened.now }
    ensures { IfOk result (Makes (state_of kept.now)
        (outcome_steps opened.now was_denied activity moment) lane LaneChanges.Settle moment) }
{
    if !opened.may_be_sent(activity) {
        return Ok(Some(settle_quietly(kept, lane, moment)));
    }
    fail(
        alloc,
        rules,
        kept,
        lane,
        opened,
        LaneChange::Settle,
        Failure::Denied,
        moment,
    )
}

// What changes where the peer has completed the activity: its recipients are discharged.
#[tactic(auto, using(crate::proofs::Ending::sent_laws))]
fn sent(
    alloc: Global,
    kept: &Kept,
    lane: u32,
    opened: &Lane,
    activity: u32,
    moment: u64,
) -> Result<Change, Memory>
    requires kept { IsKept (state_of kept.now) }
    requires numbers { length kept.now.parts.items.items < 2 ^ 32 }
    requires opened { lane_at lane kept.now.lanes.open_lanes.items ≡ Some opened.now }
    requires transferring { is_transferring opened.now.sending ≡ true }
    ensures { IfOk result (λ change. Makes (state_of kept.now)
        (outcome_steps opened.now was_sent activity moment) lane LaneChanges.Settle moment (Some change)) }
{
    let Some(transfer) = opened.transfer() else {
        unreachable!()
    };
    let settlements = sent_all(alloc, transfer.recipients(), opened.peer(), moment)?;
    Ok(Change::Discharge {
        lane,
        change: LaneChange::Settle,
        item: transfer.item(),
        settlements: last_first(settlements),
        moment,
    })
}

/// What a Sent changes: the peer has completed the activity, and each of its recipients has the status Sent. None
/// exactly where it is not possible. `moment` is in seconds since 1950-01-01 00:00:00 UTC.
#[tactic(auto, using(crate::proofs::Ending::prepare_sent_laws))]
pub fn prepare_sent(
    alloc: Global,
    kept: &Kept,
    lane: u32,
    generation: u64,
    activity: u32,
    moment: u64,
) -> Result<Option<Change>, Memory>
    requires kept { IsKept (state_of kept.now) }
    requires numbers { length kept.now.parts.items.items < 2 ^ 32 }
    ensures { IfOk result (Prepares (state_of kept.now) (Steps.Sent lane generation activity moment)) }
{
    let Some(opened) = ending_lane(kept, lane, generation, activity, moment) else {
        return Ok(None);
    };
    let change = sent(alloc, kept, lane, opened, activity, moment)?;
    Ok(Some(change))
}

/// What a Refused changes, under the rules of the tables recorded last: the peer found a fault of this kind in the
/// octets of the activity, and each of its recipients is reported, unless the activity had been given up (X.411, clause
/// 14: report generation). None exactly where it is not possible. `moment` is in seconds since 1950-01-01 00:00:00 UTC.
#[tactic(auto, using(crate::proofs::Ending::prepare_refused_laws))]
pub fn prepare_refused<R: Rules>(
    alloc: Global,
    rules: &R,
    kept: &Kept,
    lane: u32,
    generation: u64,
    activity: u32,
    kind: u8,
    moment: u64,
) -> Result<Option<Change>, Memory>
    requires text { IsTextOf kept.now (R.text rules.now) }
    requires kept { IsKept (state_of kept.now) }
    requires stored { All IsStored kept.now.parts.items.items }
    requires numbers { length kept.now.parts.items.items < 2 ^ 32 }
    ensures { IfOk result (Prepares (state_of kept.now)
        (Steps.Refused lane generation activity kind moment)) }
{
    let Some(opened) = live_lane(kept, lane, generation, activity, moment) else {
        return Ok(None);
    };
    refused(alloc, rules, kept, lane, opened, activity, kind, moment)
}

/// What a Denied changes, under the rules of the tables recorded last: the peer has no such activity, and in Ending
/// each of its recipients is reported (X.411, clause 14: report generation). None exactly where it is not possible.
/// `moment` is in seconds since 1950-01-01 00:00:00 UTC.
#[tactic(auto, using(crate::proofs::Ending::prepare_denied_laws))]
pub fn prepare_denied<R: Rules>(
    alloc: Global,
    rules: &R,
    kept: &Kept,
    lane: u32,
    generation: u64,
    activity: u32,
    moment: u64,
) -> Result<Option<Change>, Memory>
    requires text { IsTextOf kept.now (R.text rules.now) }
    requires kept { IsKept (state_of kept.now) }
    requires stored { All IsStored kept.now.parts.items.items }
    requires numbers { length kept.now.parts.items.items < 2 ^ 32 }
    ensures { IfOk result (Prepares (state_of kept.now) (Steps.Denied lane generation activity moment)) }
{
    let Some(opened) = live_lane(kept, lane, generation, activity, moment) else {
        return Ok(None);
    };
    denied(alloc, rules, kept, lane, opened, activity, moment)
}

/// What an Abandon changes, under the rules of the tables recorded last: the item of the activity has expired, and each
/// of its recipients is reported (X.411, clause 14: report generation). None exactly where it is not possible. Any
/// worker may make it, so it tells no generation. `moment` is in seconds since 1950-01-01 00:00:00 UTC.
#[tactic(auto, using(crate::proofs::Ending::prepare_abandon_laws))]
pub fn prepare_abandon<R: Rules>(
    alloc: Global,
    rules: &R,
    kept: &Kept,
    lane: u32,
    activity: u32,
    moment: u64,
) -> Result<Option<Change>, Memory>
    requires text { IsTextOf kept.now (R.text rules.now) }
    requires format { R.format rules.now ≡ kept.now.parts.format }
    requires kept { IsKept (state_of kept.now) }
    requires stored { All IsStored kept.now.parts.items.items }
    requires numbers { length kept.now.parts.items.items < 2 ^ 32 }
    ensures { IfOk result (Prepares (state_of kept.now) (Steps.Abandon lane activity moment)) }
{
    let Some(opened) = expired_lane(alloc, rules, kept, lane, activity, moment)? else {
        return Ok(None);
    };
    fail(
        alloc,
        rules,
        kept,
        lane,
        opened,
        LaneChange::Abandon { activity },
        Failure::Expired,
        moment,
    )
}

//! An activity of the peer that is complete (X.228, activity management).

ghost use Rattle.std.specs.Prelude.{◌≡◌, ◌<◌, ◌+◌, ◌^◌, ◌↔◌, IfErr, IfOk, IsTrue, Some, length};
ghost use Rattle.std.specs.Option.{option_copied};
ghost use Rattle.std.specs.List.{concat};
ghost use Rattle.mta_histories.specs.Classes.{secure};
ghost use Rattle.mta_histories.specs.History.{with_piece};
ghost use Rattle.mta_state.specs.Reading.{IsFaultOf, IsItemOf};
ghost use Rattle.mta_state.specs.declared.change.Change.TheVariants as Changes;
ghost use Rattle.mta_records.specs.declared.state.Origin.TheVariants as Origins;
ghost use Rattle.mta_records.specs.declared.step.Step.TheVariants as Steps;
ghost use Rattle.mta_state.specs.Kept.{state_of};
ghost use Rattle.mta_state.specs.Prepared.{Prepares};
ghost use Rattle.mta_replay.specs.Changes.{OpenFor};

use mta_ber::{Memory, ReadFault};
use mta_lanes::Lane;
use mta_machine::{Item, Origin};
use mta_state::{Change, Kept, accepted_item};
use std::alloc::Global;

// Whether there may be an item more.
fn has_number_left(kept: &Kept) -> bool
    ensures { IsTrue result ↔ (length kept.now.parts.items.items + 1 < 2 ^ 32) }
{
    kept.parts.items.len() < u32::MAX as usize
}

// The open lane that takes a piece, as a Secure has it.
#[tactic(auto, using(crate::proofs::Finding::taking_laws))]
fn taking_lane<'a>(
    kept: &'a Kept,
    lane: u32,
    generation: u64,
    activity: u32,
    number: u32,
    piece: &[u8],
    moment: u64,
) -> Option<&'a Lane>
    ensures { OpenFor (state_of kept.now) lane (Some generation) (secure activity number piece.now) moment
        (option_copied result) }
{
    let Some(opened) = kept.lanes.get(lane) else {
        return None;
    };
    if moment < kept.moment
        || !opened.is_of(generation)
        || !opened.may_secure(activity, number, piece)
    {
        return None;
    }
    Some(opened)
}

/// The item that the pieces before this one become with this one, which has come at a moment in seconds since
/// 1950-01-01 00:00:00 UTC. Pieces are numbered from 1.
///
/// # Errors
/// `Bad` with the first fault exactly where they spell no APDU; `Memory`.
fn joined_item(
    alloc: Global,
    opened: &Lane,
    number: u32,
    piece: &[u8],
    moment: u64,
) -> Result<Item, ReadFault>
    ensures item { let octets = concat (with_piece opened.now.pieces number piece.now) in
        IfOk result (IsItemOf octets Origins.Lane moment) }
    ensures bad { IfErr result (IsFaultOf (concat (with_piece opened.now.pieces number piece.now))) }
{
    let octets = opened.joined(alloc, number, piece)?;
    accepted_item(alloc, octets, Origin::Lane, moment)
}

/// What a Complete changes whose octets became this item.
pub fn complete_change(lane: u32, activity: u32, item: Item, moment: u64) -> Change
    ensures { result ≡ Changes.Complete lane activity item moment }
{
    Change::Complete {
        lane,
        activity,
        item,
        moment,
    }
}

/// What a Complete changes: the pieces that stand before this one, and this one, spell an APDU, which is the next item.
/// None exactly where it is not possible. Pieces are numbered from 1, and `moment` is in seconds since 1950-01-01
/// 00:00:00 UTC.
#[tactic(auto, using(crate::proofs::Completing::complete_laws))]
pub(crate) fn prepare_complete(
    alloc: Global,
    kept: &Kept,
    lane: u32,
    generation: u64,
    activity: u32,
    number: u32,
    piece: &[u8],
    moment: u64,
) -> Result<Option<Change>, Memory>
    ensures { IfOk result (Prepares (state_of kept.now)
        (Steps.Complete lane generation activity number piece.now moment)) }
{
    let Some(opened) = taking_lane(kept, lane, generation, activity, number, piece, moment) else {
        return Ok(None);
    };
    if !has_number_left(kept) {
        return Ok(None);
    }
    match joined_item(alloc, opened, number, piece, moment) {
        Ok(item) => Ok(Some(complete_change(lane, activity, item, moment))),
        Err(ReadFault::Bad(_)) => Ok(None),
        Err(ReadFault::Memory) => Err(Memory),
    }
}

//! A lane that is opened.

ghost use Rattle.std.specs.Prelude.{◌≡◌, ◌≤◌, ◌<◌, ◌+◌, ◌^◌, ◌↔◌, IfOk, IsTrue, length};
ghost use Rattle.mta_histories.specs.Lanes.{EachLane};
ghost use Rattle.mta_histories.specs.History.{CanOpen, new_lane};
ghost use Rattle.mta_records.specs.declared.step.Step.TheVariants as Steps;
ghost use Rattle.mta_state.specs.Asked.{IsTextOf};
ghost use Rattle.mta_state.specs.Kept.{state_of};
ghost use Rattle.mta_state.specs.Prepared.{Prepares};
ghost use Rattle.mta_replay.specs.Opening.{IsNamed, IsUnnamed};

use mta_ber::{Memory, Word};
use mta_lanes::{Lane, Pieces};
use mta_records::{LaneRole, Reference};
use mta_state::{Change, Kept, Rules};
use std::alloc::Global;

// The most open lanes of a role with one peer.
const MOST_LANES: usize = 64;

// Whether a lane is with the peer in the role, and of the reference.
#[tactic(auto, using(crate::proofs::Opening::named_so))]
fn is_named(lane: &Lane, role: LaneRole, peer: &Word, reference: &Reference) -> bool
    ensures { IsTrue result ↔ IsNamed role peer.now reference.now lane.now }
{
    lane.is_named(role, peer, Some(reference))
}

// Whether each lane has another name.
#[tactic(auto, using(crate::proofs::Opening::unnamed_laws))]
fn is_new(open_lanes: &[Lane], role: LaneRole, peer: &Word, reference: &Reference) -> bool
    ensures { IsTrue result ↔ EachLane (IsUnnamed role peer.now reference.now) open_lanes.now }
{
    for lane in open_lanes {
        if is_named(lane, role, peer, reference) {
            return false;
        }
    }
    true
}

// Whether the checkpoint size and the window are in their ranges.
fn may_be_values(checkpoint: u32, window: u32) -> bool
    ensures { IsTrue result ↔ (checkpoint ≤ 64) × ((1 ≤ window) × (window ≤ 8)) }
{
    checkpoint <= 64 && 1 <= window && window <= 8
}

// Whether a LaneOpen may be made, at whatever moment.
#[tactic(auto, using(crate::proofs::Opening::may_open_laws))]
fn may_open<R: Rules>(
    rules: &R,
    kept: &Kept,
    role: LaneRole,
    peer: &Word,
    reference: &Reference,
    checkpoint: u32,
    window: u32,
) -> bool
    requires { IsTextOf kept.now (R.text rules.now) }
    ensures { IsTrue result ↔ CanOpen (state_of kept.now) role peer.now reference.now checkpoint window }
{
    rules.names_peer(peer.as_slice())
        && kept.lanes.count_with(role, peer) < MOST_LANES
        && is_new(kept.lanes.open_lanes.as_slice(), role, peer, reference)
        && kept.lanes.count < u32::MAX
        && may_be_values(checkpoint, window)
}

// The lane that a LaneOpen opens, which is the next one.
fn next_lane(
    alloc: Global,
    kept: &Kept,
    role: LaneRole,
    peer: &Word,
    reference: &Reference,
    twa: bool,
    checkpoint: u32,
    window: u32,
) -> Result<Lane, Memory>
    requires count { kept.now.lanes.count + 1 < 2 ^ 32 }
    requires checkpoint { checkpoint ≤ 64 }
    requires window { (1 ≤ window) × (window ≤ 8) }
    ensures { IfOk result (λ lane. lane
        ≡ new_lane (kept.now.lanes.count + 1) role peer.now reference.now twa checkpoint window) }
{
    let peer = peer.share()?;
    let reference = reference.copy(alloc)?;
    Ok(Lane::open(
        kept.lanes.count + 1,
        role,
        peer,
        reference,
        twa,
        checkpoint,
        window,
        Pieces::new(alloc),
    ))
}

/// What a LaneOpen changes, under the rules of the tables recorded last: the next lane is open. None exactly where it
/// is not possible. `checkpoint` is in units of 1,024 octets, `window` in pieces, and `moment` in seconds since
/// 1950-01-01 00:00:00 UTC.
#[tactic(auto, using(crate::proofs::Opening::open_laws))]
pub fn prepare_open<R: Rules>(
    alloc: Global,
    rules: &R,
    kept: &Kept,
    role: LaneRole,
    peer: &Word,
    reference: &Reference,
    twa: bool,
    checkpoint: u32,
    window: u32,
    moment: u64,
) -> Result<Option<Change>, Memory>
    requires text { IsTextOf kept.now (R.text rules.now) }
    requires numbers { length kept.now.parts.items.items < 2 ^ 32 }
    ensures { IfOk result (Prepares (state_of kept.now)
        (Steps.LaneOpen role peer.now reference.now twa checkpoint window moment)) }
{
    if moment < kept.moment || !may_open(rules, kept, role, peer, reference, checkpoint, window) {
        return Ok(None);
    }
    let lane = next_lane(alloc, kept, role, peer, reference, twa, checkpoint, window)?;
    Ok(Some(Change::Open { lane, moment }))
}

//! The names of lanes. Each lane is compared with each other one, by its role, its peer and its reference alone: a role
//! and a peer have at most 64 of them.

ghost use Rattle.std.specs.Prelude.{◌≡◌, ◌↔◌, ◌≤◌, List, ℕ, IsTrue, count_by};
ghost use Rattle.mta_histories.specs.Lanes.{EachLane};
ghost use Rattle.mta_histories.specs.Limits.{is_with, most_lanes};
ghost use Rattle.mta_histories.specs.Sound.{AreApart};
ghost use Rattle.mta_records.specs.declared.lane.LaneRole.{LaneRole};
ghost use Rattle.mta_snapshots.specs.Names.{IsApartFrom, IsWithFew};

use mta_lanes::{Lane, Lanes};

/// The most open lanes of a role with one peer.
const MOST: usize = 64;

// Whether there are at most 64 lanes in the role of this one, with its peer.
fn is_with_few(lanes: &Lanes, lane: &Lane) -> bool
    ensures { IsTrue result ↔ IsWithFew lanes.now.open_lanes.items lane.now }
{
    lanes.count_with(lane.role(), lane.peer()) <= MOST
}

/// Whether there are at most 64 lanes of each role with each peer.
pub(crate) fn are_few(lanes: &Lanes) -> bool
    ensures { IsTrue result ↔ ((role : LaneRole) (peer : List ℕ)
        → count_by (is_with role peer) lanes.now.open_lanes.items ≤ most_lanes) }
{
    for lane in lanes.open_lanes.as_slice() {
        if !is_with_few(lanes, lane) {
            return false;
        }
    }
    true
}

// Whether the lanes have different names.
fn is_apart(lane: &Lane, other: &Lane) -> bool
    ensures { IsTrue result ↔ IsApartFrom lane.now other.now }
{
    !other.is_named(lane.role(), lane.peer(), Some(lane.reference()))
}

// Whether none of the others has the name of the lane.
fn is_apart_from(lane: &Lane, others: &[Lane]) -> bool
    ensures { IsTrue result ↔ EachLane (IsApartFrom lane.now) others.now }
{
    for other in others {
        if !is_apart(lane, other) {
            return false;
        }
    }
    true
}

/// Whether no two lanes have one name.
pub(crate) fn are_apart(lanes: &[Lane]) -> bool
    ensures { IsTrue result ↔ AreApart lanes.now }
{
    let count = lanes.len();
    let mut place: usize = 0;
    while place < count {
        if !is_apart_from(&lanes[place], &lanes[place + 1..]) {
            return false;
        }
        place += 1;
    }
    true
}

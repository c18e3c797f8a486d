//! The lanes of a spool.

ghost use Rattle.std.specs.Prelude.{◌≡◌, ◌+◌, ◌≤◌, ◌<◌, ◌∷◌, ◌++◌, [], length, count_by};
ghost use Rattle.std.specs.Prelude.{IfOk, IfSome, None, IsTrue, ◌↔◌, ◌^◌, OnOk, vec_len, vec_capacity};
ghost use Rattle.std.specs.List.{find, list_any, position};
ghost use Rattle.std.specs.Option.{option_copied};
ghost use Rattle.mta_histories.specs.Lanes.{lane_at, without_lane, activities_of, holds};
ghost use Rattle.mta_histories.specs.History.{is_with};
ghost use Rattle.mta_lanes.specs.Changes.{MayChangeAt, put_changed};
ghost use Rattle.mta_lanes.specs.Finds.{has_number, is_spare, lanes_of, AreJoinedOn};

use crate::change::LaneChange;
use crate::lane::Lane;
use mta_ber::{Memory, Octets, Word};
use mta_records::LaneRole;
use std::alloc::Global;
use std::sync::Arc;

/// How many lanes were opened, and those that are open, by ascending numbers.
#[derive(Drop)]
pub struct Lanes {
    pub count: u32,
    pub open_lanes: Vec<Lane>,
}

// The place of the open lane of this number, from 0.
fn place_of(open_lanes: &[Lane], number: u32) -> Option<usize>
    ensures exact { result ≡ position (has_number number) open_lanes.now }
    ensures bound { IfSome result (λ place. place < length open_lanes.now) }
{
    open_lanes.iter().position(|lane| number == lane.number())
}

// The first open lane of this number.
fn first_of(open_lanes: &[Lane], number: u32) -> Option<&Lane>
    ensures { option_copied result ≡ find (has_number number) open_lanes.now }
{
    open_lanes.iter().find(|lane| number == lane.number())
}

// Whether some activity that may still be completed is for this recipient of the item.
fn is_held(open_lanes: &[Lane], item: u32, recipient: u32) -> bool
    ensures { result ≡ list_any (holds item recipient) open_lanes.now }
{
    open_lanes.iter().any(|lane| lane.holds(item, recipient))
}

impl Lanes {
    /// No lanes, which takes no memory.
    pub fn new(alloc: Global) -> Lanes
        ensures { lanes_of result ≡ record { count = 0; open_lanes = [] } }
    {
        Lanes {
            count: 0,
            open_lanes: Vec::new(alloc),
        }
    }

    /// The open lane of this number; none where it is not open.
    #[tactic(auto, using(crate::proofs::Numbering::found_at))]
    pub fn get(&self, number: u32) -> Option<&Lane>
        ensures { option_copied result ≡ lane_at number self.now.open_lanes.items }
    {
        first_of(self.open_lanes.as_slice(), number)
    }

    /// The lowest open lane with this peer, in this role, that transfers nothing; none where there is none.
    pub fn spare(&self, role: LaneRole, peer: &Word) -> Option<&Lane>
        ensures { option_copied result ≡ find (is_spare role peer.now) self.now.open_lanes.items }
    {
        self.open_lanes
            .iter()
            .find(|lane| lane.is_with(role, peer) && lane.may_close())
    }

    /// How many open lanes there are with this peer, in this role.
    pub fn count_with(&self, role: LaneRole, peer: &Word) -> usize
        ensures { result ≡ count_by (is_with role peer.now) self.now.open_lanes.items }
    {
        self.open_lanes
            .iter()
            .filter(|lane| lane.is_with(role, peer))
            .count()
    }

    /// Whether no activity that may still be completed is for this recipient of the item.
    pub fn is_free(&self, item: u32, recipient: u32) -> bool
        ensures { IsTrue result ↔ (activities_of self.now.open_lanes.items item recipient ≡ 0) }
    {
        !is_held(self.open_lanes.as_slice(), item, recipient)
    }

    /// Finds room for a lane more.
    pub fn reserve(&mut self) -> Result<(), Memory>
        ensures same { lanes_of self.new ≡ lanes_of self.old }
        ensures room { OnOk result (vec_len self.new.open_lanes < vec_capacity self.new.open_lanes) }
    {
        self.open_lanes.try_reserve(1)?;
        Ok(())
    }

    /// The next lane is opened.
    pub fn open(&mut self, lane: Lane)
        requires count { self.old.count + 1 < 2 ^ 32 }
        requires room { vec_len self.old.open_lanes < vec_capacity self.old.open_lanes }
        ensures { lanes_of self.new ≡ record {
          count = self.old.count + 1;
          open_lanes = self.old.open_lanes.items ++ lane ∷ [];
        } }
    {
        self.open_lanes.push_reserved(lane);
        self.count += 1;
    }

    /// The octets of the pieces before one on the open lane of this number, and of that one, to be read and then held
    /// by an item too: none where the lane is not open. Where it is the next piece no octet that stands is copied. The
    /// lanes stay as they are.
    pub fn share(
        &mut self,
        lane: u32,
        number: u32,
        piece: &[u8],
    ) -> Result<Option<Arc<Octets, Global>>, Memory>
        ensures same { lanes_of self.new ≡ lanes_of self.old }
        ensures ok { IfOk result (λ shared. IfSome shared (λ octets.
            AreJoinedOn (lane_at lane self.old.open_lanes.items) number piece.now octets.value)) }
        ensures none { IfOk result (λ shared. shared ≡ None → lane_at lane self.old.open_lanes.items ≡ None) }
    {
        let Some(place) = place_of(self.open_lanes.as_slice(), lane) else {
            return Ok(None);
        };
        let opened = &mut self.open_lanes[place];
        let octets = opened.share(number, piece)?;
        Ok(Some(octets))
    }

    /// Makes a change of the open lane of this number.
    pub fn change(&mut self, number: u32, change: LaneChange)
        requires { MayChangeAt (lane_at number self.old.open_lanes.items) change }
        ensures { lanes_of self.new ≡ record (lanes_of self.old) {
          open_lanes = put_changed self.old.open_lanes.items (lane_at number self.old.open_lanes.items) change;
        } }
    {
        if let Some(place) = place_of(self.open_lanes.as_slice(), number) {
            let lane = &mut self.open_lanes[place];
            lane.make(change);
        }
    }

    /// The open lane of this number is closed.
    pub fn close(&mut self, number: u32)
        ensures { lanes_of self.new ≡ record (lanes_of self.old) {
          open_lanes = without_lane number self.old.open_lanes.items;
        } }
    {
        if let Some(place) = place_of(self.open_lanes.as_slice(), number) {
            self.open_lanes.remove(place);
        }
    }
}

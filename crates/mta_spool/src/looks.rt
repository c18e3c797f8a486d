//! What is asked of the lanes and of what waits. Nothing is written, and but for `batch_for` no memory is taken.

ghost use Rattle.std.specs.Prelude.{◌≡◌, IfOk, ℕ};
ghost use Rattle.std.specs.List.{find};
ghost use Rattle.std.specs.Option.{option_copied, option_map};
ghost use Rattle.mta_histories.specs.Lanes.{lane_at, Lane as LaneValue};
ghost use Rattle.mta_lanes.specs.Finds.{is_spare};
ghost use Rattle.mta_spool.specs.Looking.{IsFirstNamed, values_of};

use crate::spool::Spool;
use mta_ber::{Memory, Word};
use mta_edge::{Clock, Disk};
use mta_lane_recv::Last;
use mta_lane_send::SendState;
use mta_lanes::Lane;
use mta_records::{Batch, LaneRole, LaneValues, Reference};

// The number of the first of the lanes with this peer, in this role, and of this reference, where one is asked for.
#[tactic(auto, using(crate::proofs::Looking::first_laws))]
fn first_named(
    open_lanes: &[Lane],
    role: LaneRole,
    peer: &Word,
    reference: Option<&Reference>,
) -> Option<u32>
    ensures { IsFirstNamed role peer.now (option_copied reference.entry) open_lanes.now result }
{
    for lane in open_lanes {
        if lane.is_named(role, peer, reference) {
            return Some(lane.number());
        }
    }
    None
}

impl<D: Disk + Drop, C: Clock + Drop> Spool<D, C> {
    ghost use Rattle.mta_spool.specs.Bases.{KeepsOn};
    ghost use Rattle.mta_histories.specs.Due.{HasQueue};
    ghost use Rattle.mta_replay.specs.Answers.{IsBatchOf};
    ghost use Rattle.mta_spool.specs.Stands.{AtMoment, TellsFewer};
    ghost use Rattle.mta_spool.specs.Turning.{IsUnchanged};

    // The lowest item with recipients to relay to the peer at a moment, and all those recipients.
    #[tactic(auto, using(crate::proofs::Keeping::keeps_same))]
    fn find_batch(&mut self, peer: &Word, moment: u64) -> Result<Option<Batch>, Memory>
        ensures batch { IfOk result (IsBatchOf self.old.current peer.now moment) }
        ensures same { IsUnchanged self.old self.new }
        ensures clock { self.new.clock ≡ self.old.clock }
        ensures opened { self.new.opened ≡ self.old.opened }
        ensures keeps { KeepsOn D.model C.model self.old self.new }
    {
        self.replay.batch_for(self.alloc, peer, moment)
    }

    /// The lowest item with recipients to relay to the peer now, and all those recipients; none where there is none.
    #[tactic(auto, using(crate::proofs::Keeping::keeps_still))]
    pub fn batch_for(&mut self, peer: &Word) -> Result<Option<Batch>, Memory>
        ensures batch { AtMoment C.model self.old.clock self.old.current.moment
            (λ m. IfOk result (IsBatchOf self.old.current peer.now m)) }
        ensures clock { TellsFewer C.model self.old.clock self.new.clock }
        ensures opened { self.new.opened ≡ self.old.opened }
        ensures keeps { KeepsOn D.model C.model self.old self.new }
        ensures rest { IsUnchanged self.old self.new }
    {
        let moment = self.step_moment();
        self.find_batch(peer, moment)
    }

    /// The items of which a recipient waits for the peer, by ascending numbers, lent; none where no tables name the
    /// peer. It takes no memory.
    pub fn waiting(&self, peer: &Word) -> Option<&[u32]>
        ensures { HasQueue self.now.current peer.now (option_copied result) }
    {
        self.replay.waiting(peer)
    }

    /// The number of the lowest open lane with this peer, in this role, and of this reference, where one is asked for;
    /// none where there is none.
    pub fn lane_of(&self, role: LaneRole, peer: &Word, reference: Option<&Reference>) -> Option<u32>
        ensures { IsFirstNamed role peer.now (option_copied reference.entry) self.now.current.lanes.open_lanes result }
    {
        first_named(self.lanes(), role, peer, reference)
    }

    /// The state of the sending half of a lane, by which a transfer goes on after a break; none where the lane is not
    /// open.
    pub fn recovery(&self, lane: u32) -> Option<SendState>
        ensures { result ≡ option_map (λ (l : LaneValue). l.sending) (lane_at lane self.now.current.lanes.open_lanes) }
    {
        match self.replay.kept.lanes.get(lane) {
            Some(opened) => Some(opened.sending()),
            None => None,
        }
    }

    /// The highest activity that left a mark in the receiving half of a lane, and what stands of it; none where the
    /// lane is not open.
    pub fn receiving(&self, lane: u32) -> Option<(u32, Last)>
        ensures { result
            ≡ option_map (λ (l : LaneValue). (l.high, l.last)) (lane_at lane self.now.current.lanes.open_lanes) }
    {
        match self.replay.kept.lanes.get(lane) {
            Some(opened) => Some(opened.receiving()),
            None => None,
        }
    }

    /// The values of a lane; none where it is not open.
    pub fn values(&self, lane: u32) -> Option<LaneValues>
        ensures { result ≡ option_map values_of (lane_at lane self.now.current.lanes.open_lanes) }
    {
        match self.replay.kept.lanes.get(lane) {
            Some(opened) => Some(opened.values()),
            None => None,
        }
    }

    /// The number and the generation of the lowest open lane with this peer, in this role, that transfers nothing; none
    /// where there is none.
    pub fn spare_lane(&self, role: LaneRole, peer: &Word) -> Option<(u32, u64)>
        ensures { result ≡ option_map (λ (l : LaneValue). (l.number, l.generation))
            (find (is_spare role peer.now) self.now.current.lanes.open_lanes) }
    {
        match self.replay.kept.lanes.spare(role, peer) {
            Some(opened) => Some((opened.number(), opened.generation())),
            None => None,
        }
    }

    /// The open lane of this number; none where it is not open.
    pub fn lane(&self, number: u32) -> Option<&Lane>
        ensures { option_copied result ≡ lane_at number self.now.current.lanes.open_lanes }
    {
        self.replay.kept.lanes.get(number)
    }

    /// How many lanes there were so far, those that are closed among them.
    pub fn lane_count(&self) -> u32
        ensures { result ≡ self.now.current.lanes.count }
    {
        self.replay.kept.lanes.count
    }
}

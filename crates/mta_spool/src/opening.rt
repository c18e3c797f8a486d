//! A lane is opened (X.228, association establishment).

ghost use Rattle.std.specs.Prelude.{◌≡◌, ◌≤◌, ◌<◌, ◌+◌, ◌^◌, ◌↔◌, IfOk, IsTrue};
ghost use Rattle.mta_ber.specs.Times.{last_moment};
ghost use Rattle.mta_records.specs.Reference.{IsIdentifier};
ghost use Rattle.mta_histories.specs.Lanes.{EachLane};
ghost use Rattle.mta_spool.specs.Refusals.{MayOpen, open_with};

use crate::spool::Spool;
use mta_ber::Word;
use mta_edge::{Clock, Disk};
use mta_records::{LaneRole, Reference, Step, StepFault};
use mta_state::Rules;

// The most open lanes of a role with one peer.
const MOST_LANES: u32 = 64;

// Whether the checkpoint size and the window are in their ranges.
fn may_be_values(checkpoint: u32, window: u32) -> bool
    ensures { IsTrue result ↔ (checkpoint ≤ 64) × ((1 ≤ window) × (window ≤ 8)) }
{
    checkpoint <= 64 && 1 <= window && window <= 8
}

// The number of the last lane is in its range.
fn count_fits(count: u32)
    ensures { count < 2 ^ 32 }
{}

// The parts of a reference are in their ranges.
fn reference_fits(reference: &Reference)
    ensures { IsIdentifier reference.now }
{
    reference.common();
}

impl<D: Disk + Drop, C: Clock + Drop> Spool<D, C> {
    ghost use Rattle.mta_spool.specs.Bases.{KeepsOn};
    ghost use Rattle.mta_records.specs.declared.step.Step.TheVariants as Steps;
    ghost use Rattle.mta_spool.specs.Opened.{IsOther};
    ghost use Rattle.mta_histories.specs.History.{NamesPeer};
    ghost use Rattle.mta_machine.specs.Items.{numbered};
    ghost use Rattle.mta_machine.specs.Machine.{last_tables};
    ghost use Rattle.mta_spool.specs.Stands.{Appends, AtMoment, fault_of, TellsFewer};

    // Whether the tables recorded last name the peer.
    fn names_peer(&self, peer: &Word) -> bool
        ensures { let m = self.now.current.machine in
            IsTrue result ↔ NamesPeer (numbered m.tables (last_tables m)) peer.now }
    {
        match &self.replay.rules {
            Some(force) => force.rules.names_peer(peer.as_slice()),
            None => false,
        }
    }

    // Whether no open lane has this peer, role and reference.
    #[tactic(auto, using(crate::proofs::Opened::new_laws))]
    fn is_new(&self, role: LaneRole, peer: &Word, reference: &Reference) -> bool
        ensures { IsTrue result
            ↔ EachLane (IsOther role peer.now reference.now) self.now.current.lanes.open_lanes }
    {
        match self.lane_of(role, peer, Some(reference)) {
            Some(_) => false,
            None => true,
        }
    }

    // Whether a lane may be opened, if not too many of the role are open with the peer.
    #[tactic(auto, using(crate::proofs::Opened::may_open_laws))]
    fn may_open(
        &self,
        role: LaneRole,
        peer: &Word,
        reference: &Reference,
        checkpoint: u32,
        window: u32,
    ) -> bool
        ensures { IsTrue result ↔ MayOpen self.now.current role peer.now reference.now checkpoint window }
    {
        self.names_peer(peer)
            && self.is_new(role, peer, reference)
            && may_be_values(checkpoint, window)
    }

    // How many lanes of the role are open with the peer.
    fn open_with(&self, role: LaneRole, peer: &Word) -> u32
        ensures { result ≡ open_with self.now.current role peer.now }
    {
        count_fits(self.replay.kept.lanes.count);
        self.replay.kept.lanes.count_with(role, peer) as u32
    }

    // Opens the next lane at a moment.
    fn lane_open_at(
        &mut self,
        moment: u64,
        role: LaneRole,
        peer: &Word,
        reference: Reference,
        twa: bool,
        checkpoint: u32,
        window: u32,
    ) -> Result<u32, StepFault>
        requires timely { self.old.current.moment ≤ moment }
        requires fits { moment ≤ last_moment }
        ensures made { Appends D.model (Steps.LaneOpen role peer.now reference twa checkpoint window moment) self.old
            self.new (fault_of result) }
        ensures number { IfOk result (λ n. n ≡ self.old.current.lanes.count + 1) }
        ensures clock { self.new.clock ≡ self.old.clock }
        ensures opened { self.new.opened ≡ self.old.opened }
        ensures keeps { KeepsOn D.model C.model self.old self.new }
    {
        if self.journal.is_ended() {
            return Err(StepFault::Ended);
        }
        if !self.may_open(role, peer, &reference, checkpoint, window) {
            return Err(StepFault::Unexpected);
        }
        let count = self.open_with(role, peer);
        if MOST_LANES <= count {
            return Err(StepFault::BusyLanes { count });
        }
        reference_fits(&reference);
        let last = self.replay.kept.lanes.count;
        let Some(number) = last.checked_add(1) else {
            return Err(StepFault::Spent { last: last as u64 });
        };
        let peer = peer.share()?;
        self.make(Step::LaneOpen {
            role,
            peer,
            reference,
            twa,
            checkpoint,
            window,
            moment,
        })?;
        Ok(number)
    }

    /// Opens the next lane, and answers its number: with this peer, in this role, and of this reference. `checkpoint`
    /// is in units of 1,024 octets, 0 to 64, and `window` in pieces, 1 to 8. The values of a responder's lane are
    /// agreed.
    ///
    /// # Errors
    /// `Unexpected` where the tables recorded last do not name the peer, where an open lane has this peer, role and
    /// reference, or where a value is outside its range; `BusyLanes` where 64 lanes of the role are open with the peer;
    /// `Spent` where no number of a lane is left.
    pub fn lane_open(
        &mut self,
        role: LaneRole,
        peer: &Word,
        reference: Reference,
        twa: bool,
        checkpoint: u32,
        window: u32,
    ) -> Result<u32, StepFault>
        ensures appends { AtMoment C.model self.old.clock self.old.current.moment
            (λ m. Appends D.model (Steps.LaneOpen role peer.now reference twa checkpoint window m) self.old self.new
            (fault_of result)) }
        ensures number { IfOk result (λ n. n ≡ self.old.current.lanes.count + 1) }
        ensures clock { TellsFewer C.model self.old.clock self.new.clock }
        ensures opened { self.new.opened ≡ self.old.opened }
        ensures keeps { KeepsOn D.model C.model self.old self.new }
    {
        let moment = self.step_moment();
        self.lane_open_at(moment, role, peer, reference, twa, checkpoint, window)
    }
}

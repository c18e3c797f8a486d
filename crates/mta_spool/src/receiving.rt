//! The steps that take pieces of an activity of the peer (X.228, activity management): a piece is made durable
//! (`secure`), or the last one comes and the pieces become the next item (`complete`).
//!
//! They are refused as the steps of `lanes.rt` are, and with `Bad` before `Spent` where the lane takes the piece, but
//! the octets up to it are too many, or at a `complete` spell no APDU.

ghost use Rattle.std.specs.Prelude.{◌≡◌, ◌≤◌, ◌<◌, ◌+◌, ◌^◌, ◌↔◌, ◌≢◌, ℕ, None, Some, Err};
ghost use Rattle.std.specs.Prelude.{IsTrue, IfOk, IfErr, false, length};
ghost use Rattle.mta_ber.specs.Times.{last_moment};
ghost use Rattle.mta_histories.specs.Classes.{complete, secure};
ghost use Rattle.mta_histories.specs.History.{IsOnLane};
ghost use Rattle.mta_histories.specs.Lanes.{lane_at};
ghost use Rattle.mta_lane_recv.specs.Half as recv;
ghost use Rattle.mta_lanes.specs.Finds.{AreJoinedOn};
ghost use Rattle.mta_state.specs.Kept.{state_of};
ghost use Rattle.mta_spool.specs.Receiving.{IsBad, IsExpected, IsFaultOn, IsItemOn, IsMemoryOrSpent, IsNoApdu};
ghost use Rattle.mta_spool.specs.Receiving.{IsTooLong};
ghost use Rattle.mta_spool.specs.Refusals.{ExpectsPiece};

use crate::lanes::refusal_on;
use crate::spool::Spool;
use mta_ber::{Fault, Kind, Memory, Octets, ReadFault};
use mta_edge::{Clock, Disk};
use mta_lane_recv::longest_piece;
use mta_lanes::Lane;
use mta_machine::{Item, Origin};
use mta_records::{CompleteFault, Step, StepFault};
use mta_replay::{Ready, complete_change};
use mta_state::{Kept, shared_item};
use std::alloc::Global;
use std::sync::Arc;

// The most octets of an activity.
const LONGEST_ACTIVITY: u32 = 2_097_152;

// Whether the lane takes the piece, whatever its octets spell with those before.
fn expects(opened: &Lane, generation: u64, activity: u32, number: u32, piece: &[u8]) -> bool
    ensures { IsTrue result
        ↔ (generation ≡ opened.now.generation) × ExpectsPiece opened.now (recv.Secure activity number) piece.now }
{
    let values = opened.values();
    opened.is_of(generation)
        && values.agreed
        && opened.takes_piece(activity, number)
        && 1 <= piece.len()
        && piece.len() as u64 <= longest_piece(values.checkpoint)
}

// The octets of the pieces before one of an open lane, and of that one, to be held by an item too. What is kept stays
// as it is.
fn shared_octets(
    kept: &mut Kept,
    lane: u32,
    number: u32,
    piece: &[u8],
) -> Result<Arc<Octets, Global>, Memory>
    requires { lane_at lane kept.old.lanes.open_lanes.items ≢ None }
    ensures parts { kept.new.parts ≡ kept.old.parts }
    ensures moment { kept.new.moment ≡ kept.old.moment }
    ensures same { state_of kept.new ≡ state_of kept.old }
    ensures ok { IfOk result (λ octets.
        AreJoinedOn (lane_at lane kept.old.lanes.open_lanes.items) number piece.now octets.value) }
{
    match kept.lanes.share(lane, number, piece)? {
        Some(octets) => Ok(octets),
        None => unreachable!(),
    }
}

impl<D: Disk + Drop, C: Clock + Drop> Spool<D, C> {
    ghost use Rattle.mta_spool.specs.Bases.{KeepsOn};
    ghost use Rattle.mta_records.specs.declared.step.Step.TheVariants as Steps;
    ghost use Rattle.mta_ber.specs.declared.fault.Fault.{Fault};
    ghost use Rattle.mta_records.specs.declared.fault.CompleteFault.TheVariants as CompleteFaults;
    ghost use Rattle.mta_spool.specs.Receiving.{Receives};
    ghost use Rattle.mta_spool.specs.Stands.{Appends, AtMoment, fault_of, TellsFewer};

    // Whether the lane takes the piece, whatever its octets spell with those before.
    fn expects_piece(
        &self,
        lane: u32,
        generation: u64,
        activity: u32,
        number: u32,
        piece: &[u8],
    ) -> bool
        ensures secures { IsTrue result ↔ IsExpected self.now.current lane generation
            (secure activity number piece.now) self.now.current.moment }
        ensures completes { (moment : ℕ) → IsTrue result ↔ IsExpected self.now.current lane generation
            (complete activity number piece.now) moment }
    {
        match self.replay.kept.lanes.get(lane) {
            Some(opened) => expects(opened, generation, activity, number, piece),
            None => false,
        }
    }

    // Refuses a piece where the spool has ended, the lane does not take it, or the octets up to it are too many.
    fn check_secure(
        &self,
        lane: u32,
        generation: u64,
        activity: u32,
        number: u32,
        piece: &[u8],
    ) -> Result<(), CompleteFault>
        ensures going { IfOk result (λ _. self.now.journal.ended ≡ false) }
        ensures allowed { IfOk result (λ _. IsOnLane self.now.current lane (Some generation)
            (secure activity number piece.now) self.now.current.moment) }
        ensures refused { IfErr result (λ _. Receives D.model (Steps.Secure lane generation activity number piece.now)
            (λ f. IsBad self.now.current lane generation (secure activity number piece.now) self.now.current.moment
            (IsTooLong number piece.now f))
            self.now self.now result) }
        ensures too_long { self.now.journal.ended ≡ false → (f : Fault)
            → IsBad self.now.current lane generation (secure activity number piece.now) self.now.current.moment
            (IsTooLong number piece.now f) → result ≡ Err (CompleteFaults.Bad f) }
        ensures few { length self.now.current.machine.items < 2 ^ 32 }
    {
        if self.journal.is_ended() {
            return Err(CompleteFault::Step(StepFault::Ended));
        }
        if !self.expects_piece(lane, generation, activity, number, piece) {
            let fault = refusal_on(&self.replay.kept.lanes, lane, generation);
            return Err(CompleteFault::Step(fault));
        }
        if !self
            .replay
            .kept
            .may_secure(lane, generation, activity, number, piece)
        {
            return Err(CompleteFault::Bad(Fault {
                at: LONGEST_ACTIVITY,
                kind: Kind::TooLong,
            }));
        }
        Ok(())
    }

    // Makes a piece durable that the lane takes.
    fn make_secure(
        &mut self,
        lane: u32,
        generation: u64,
        activity: u32,
        number: u32,
        piece: Octets,
    ) -> Result<(), CompleteFault>
        requires going { self.old.journal.ended ≡ false }
        requires allowed { IsOnLane self.old.current lane (Some generation) (secure activity number piece)
            self.old.current.moment }
        requires few { length self.old.current.machine.items < 2 ^ 32 }
        ensures receives { Receives D.model (Steps.Secure lane generation activity number piece)
            (λ f. IsBad self.old.current lane generation (secure activity number piece) self.old.current.moment
            (IsTooLong number piece f))
            self.old self.new result }
        ensures clock { self.new.clock ≡ self.old.clock }
        ensures opened { self.new.opened ≡ self.old.opened }
        ensures keeps { KeepsOn D.model C.model self.old self.new }
    {
        let step = Step::Secure {
            lane,
            generation,
            activity,
            number,
            piece,
        };
        match self.make(step) {
            Ok(()) => Ok(()),
            Err(fault) => Err(CompleteFault::Step(fault)),
        }
    }

    /// Makes a piece of an activity of the peer durable, in place of this piece and all behind it. Pieces are numbered
    /// from 1, and have 1 octet up to the size that both ends hold to.
    ///
    /// # Errors
    /// `Bad` of kind TooLong at 2,097,152 exactly where the pieces with this one pass 2,097,152 octets.
    pub fn secure(
        &mut self,
        lane: u32,
        generation: u64,
        activity: u32,
        number: u32,
        piece: &[u8],
    ) -> Result<(), CompleteFault>
        ensures receives { Receives D.model (Steps.Secure lane generation activity number piece.now)
            (λ f. IsBad self.old.current lane generation (secure activity number piece.now) self.old.current.moment
            (IsTooLong number piece.now f))
            self.old self.new result }
        ensures too_long { self.old.journal.ended ≡ false → (f : Fault)
            → IsBad self.old.current lane generation (secure activity number piece.now) self.old.current.moment
            (IsTooLong number piece.now f) → result ≡ Err (CompleteFaults.Bad f) }
        ensures clock { self.new.clock ≡ self.old.clock }
        ensures opened { self.new.opened ≡ self.old.opened }
        ensures keeps { KeepsOn D.model C.model self.old self.new }
    {
        self.check_secure(lane, generation, activity, number, piece)?;
        let Ok(piece) = Octets::from_slice(self.alloc, piece) else {
            return Err(CompleteFault::Step(StepFault::Memory));
        };
        self.make_secure(lane, generation, activity, number, piece)
    }

    /// Makes a piece durable as `secure` does. It is handed over: the step takes its memory.
    ///
    /// # Errors
    /// `Bad` of kind TooLong at 2,097,152 exactly where the pieces with this one pass 2,097,152 octets.
    pub fn secure_octets(
        &mut self,
        lane: u32,
        generation: u64,
        activity: u32,
        number: u32,
        piece: Octets,
    ) -> Result<(), CompleteFault>
        ensures receives { Receives D.model (Steps.Secure lane generation activity number piece)
            (λ f. IsBad self.old.current lane generation (secure activity number piece) self.old.current.moment
            (IsTooLong number piece f))
            self.old self.new result }
        ensures too_long { self.old.journal.ended ≡ false → (f : Fault)
            → IsBad self.old.current lane generation (secure activity number piece) self.old.current.moment
            (IsTooLong number piece f) → result ≡ Err (CompleteFaults.Bad f) }
        ensures clock { self.new.clock ≡ self.old.clock }
        ensures opened { self.new.opened ≡ self.old.opened }
        ensures keeps { KeepsOn D.model C.model self.old self.new }
    {
        self.check_secure(lane, generation, activity, number, piece.as_slice())?;
        self.make_secure(lane, generation, activity, number, piece)
    }

    // The item that the pieces up to this one become, which the open lane takes, whose octets the lane holds too; or
    // their first fault. The spool stays as it is.
    fn joined(
        &mut self,
        lane: u32,
        number: u32,
        piece: &[u8],
        moment: u64,
    ) -> Result<Item, ReadFault>
        requires { lane_at lane self.old.current.lanes.open_lanes ≢ None }
        ensures same { self.new ≡ self.old }
        ensures item { IfOk result
            (IsItemOn (lane_at lane self.old.current.lanes.open_lanes) number piece.now moment) }
        ensures bad { IfErr result (IsFaultOn (lane_at lane self.old.current.lanes.open_lanes) number piece.now) }
    {
        let octets = shared_octets(&mut self.replay.kept, lane, number, piece)?;
        shared_item(self.alloc, octets, Origin::Lane, moment)
    }

    // What is told where there was no memory to look at the octets: too few numbers, where too few are left.
    fn no_memory(&self) -> StepFault
        ensures { IsMemoryOrSpent (length self.now.current.machine.items) 2 result }
    {
        match self.check_numbers(2) {
            Ok(()) => StepFault::Memory,
            Err(fault) => fault,
        }
    }

    // The item that the last piece and those before it become. Refuses where the spool has ended, the lane does not
    // take the piece, or the octets spell no APDU. The spool stays as it is.
    fn last_item(
        &mut self,
        moment: u64,
        lane: u32,
        generation: u64,
        activity: u32,
        number: u32,
        piece: &[u8],
    ) -> Result<Item, CompleteFault>
        ensures same { self.new ≡ self.old }
        ensures going { IfOk result (λ _. self.old.journal.ended ≡ false) }
        ensures allowed { IfOk result (λ _. IsOnLane self.old.current lane (Some generation)
            (complete activity number piece.now) moment) }
        ensures item { IfOk result
            (IsItemOn (lane_at lane self.old.current.lanes.open_lanes) number piece.now moment) }
        ensures refused { IfErr result (λ fault.
            Receives {T = ℕ} D.model (Steps.Complete lane generation activity number piece.now moment)
            (λ f. IsBad self.old.current lane generation (complete activity number piece.now) moment
            (IsNoApdu number piece.now f))
            self.old self.old (Err fault)) }
    {
        if self.journal.is_ended() {
            return Err(CompleteFault::Step(StepFault::Ended));
        }
        if !self.expects_piece(lane, generation, activity, number, piece) {
            let fault = refusal_on(&self.replay.kept.lanes, lane, generation);
            return Err(CompleteFault::Step(fault));
        }
        let no_memory = self.no_memory();
        match self.joined(lane, number, piece, moment) {
            Ok(item) => Ok(item),
            Err(ReadFault::Bad(fault)) => Err(CompleteFault::Bad(fault)),
            Err(ReadFault::Memory) => Err(CompleteFault::Step(no_memory)),
        }
    }

    // Makes this item of an activity whose last piece this is, which the lane takes.
    fn make_complete(
        &mut self,
        moment: u64,
        lane: u32,
        generation: u64,
        activity: u32,
        number: u32,
        piece: Octets,
        item: Item,
    ) -> Result<u32, StepFault>
        requires going { self.old.journal.ended ≡ false }
        requires timely { self.old.current.moment ≤ moment }
        requires fits { moment ≤ last_moment }
        requires allowed { IsOnLane self.old.current lane (Some generation) (complete activity number piece) moment }
        requires item { IsItemOn (lane_at lane self.old.current.lanes.open_lanes) number piece moment item }
        ensures made { Appends D.model (Steps.Complete lane generation activity number piece moment) self.old
            self.new (fault_of result) }
        ensures number { IfOk result (λ n. n ≡ length self.old.current.machine.items + 1) }
        ensures clock { self.new.clock ≡ self.old.clock }
        ensures opened { self.new.opened ≡ self.old.opened }
        ensures keeps { KeepsOn D.model C.model self.old self.new }
    {
        self.check_numbers(2)?;
        let count = self.replay.kept.parts.items.len() as u32 + 1;
        let step = Step::Complete {
            lane,
            generation,
            activity,
            number,
            piece,
            moment,
        };
        let ready = Ready::of_change(complete_change(lane, activity, item, moment));
        self.make_ready(&step, ready)?;
        Ok(count)
    }

    // Takes the last piece of an activity of the peer, at a moment.
    fn complete_at(
        &mut self,
        moment: u64,
        lane: u32,
        generation: u64,
        activity: u32,
        number: u32,
        piece: &[u8],
    ) -> Result<u32, CompleteFault>
        requires timely { self.old.current.moment ≤ moment }
        requires fits { moment ≤ last_moment }
        ensures receives { Receives D.model (Steps.Complete lane generation activity number piece.now moment)
            (λ f. IsBad self.old.current lane generation (complete activity number piece.now) moment
            (IsNoApdu number piece.now f))
            self.old self.new result }
        ensures number { IfOk result (λ n. n ≡ length self.old.current.machine.items + 1) }
        ensures clock { self.new.clock ≡ self.old.clock }
        ensures opened { self.new.opened ≡ self.old.opened }
        ensures keeps { KeepsOn D.model C.model self.old self.new }
    {
        let item = self.last_item(moment, lane, generation, activity, number, piece)?;
        let Ok(piece) = Octets::from_slice(self.alloc, piece) else {
            return Err(CompleteFault::Step(self.no_memory()));
        };
        match self.make_complete(moment, lane, generation, activity, number, piece, item) {
            Ok(number) => Ok(number),
            Err(fault) => Err(CompleteFault::Step(fault)),
        }
    }

    // Takes the last piece of an activity of the peer, which is handed over, at a moment.
    fn complete_octets_at(
        &mut self,
        moment: u64,
        lane: u32,
        generation: u64,
        activity: u32,
        number: u32,
        piece: Octets,
    ) -> Result<u32, CompleteFault>
        requires timely { self.old.current.moment ≤ moment }
        requires fits { moment ≤ last_moment }
        ensures receives { Receives D.model (Steps.Complete lane generation activity number piece moment)
            (λ f. IsBad self.old.current lane generation (complete activity number piece) moment
            (IsNoApdu number piece f))
            self.old self.new result }
        ensures number { IfOk result (λ n. n ≡ length self.old.current.machine.items + 1) }
        ensures clock { self.new.clock ≡ self.old.clock }
        ensures opened { self.new.opened ≡ self.old.opened }
        ensures keeps { KeepsOn D.model C.model self.old self.new }
    {
        let item = self.last_item(moment, lane, generation, activity, number, piece.as_slice())?;
        match self.make_complete(moment, lane, generation, activity, number, piece, item) {
            Ok(number) => Ok(number),
            Err(fault) => Err(CompleteFault::Step(fault)),
        }
    }

    /// Takes the last piece of an activity of the peer, and answers the number of the item that its pieces become.
    ///
    /// # Errors
    /// `Bad` exactly where the octets up to the piece spell no APDU, with their first fault; `Spent` where fewer than
    /// two numbers of items are left.
    pub fn complete(
        &mut self,
        lane: u32,
        generation: u64,
        activity: u32,
        number: u32,
        piece: &[u8],
    ) -> Result<u32, CompleteFault>
        ensures receives { AtMoment C.model self.old.clock self.old.current.moment
            (λ m. Receives D.model (Steps.Complete lane generation activity number piece.now m)
            (λ f. IsBad self.old.current lane generation (complete activity number piece.now) m
            (IsNoApdu number piece.now f))
            self.old self.new result) }
        ensures number { IfOk result (λ n. n ≡ length self.old.current.machine.items + 1) }
        ensures clock { TellsFewer C.model self.old.clock self.new.clock }
        ensures opened { self.new.opened ≡ self.old.opened }
        ensures keeps { KeepsOn D.model C.model self.old self.new }
    {
        let moment = self.step_moment();
        self.complete_at(moment, lane, generation, activity, number, piece)
    }

    /// Takes the last piece as `complete` does. It is handed over: the step takes its memory.
    ///
    /// # Errors
    /// `Bad` exactly where the octets up to the piece spell no APDU, with their first fault; `Spent` where fewer than
    /// two numbers of items are left.
    pub fn complete_octets(
        &mut self,
        lane: u32,
        generation: u64,
        activity: u32,
        number: u32,
        piece: Octets,
    ) -> Result<u32, CompleteFault>
        ensures receives { AtMoment C.model self.old.clock self.old.current.moment
            (λ m. Receives D.model (Steps.Complete lane generation activity number piece m)
            (λ f. IsBad self.old.current lane generation (complete activity number piece) m
            (IsNoApdu number piece f))
            self.old self.new result) }
        ensures number { IfOk result (λ n. n ≡ length self.old.current.machine.items + 1) }
        ensures clock { TellsFewer C.model self.old.clock self.new.clock }
        ensures opened { self.new.opened ≡ self.old.opened }
        ensures keeps { KeepsOn D.model C.model self.old self.new }
    {
        let moment = self.step_moment();
        self.complete_octets_at(moment, lane, generation, activity, number, piece)
    }
}

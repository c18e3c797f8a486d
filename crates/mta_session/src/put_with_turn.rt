//! With the turn: what the own activity calls for.

ghost use Rattle.std.specs.Prelude.{◌≡◌, ◌+◌, IfOk, true, ℕ};
ghost use Rattle.mta_session.specs.Rank.{FallsBelow, work};
ghost use Rattle.mta_lane_send.specs.Half.{last_of};
ghost use Rattle.mta_transfer_rules.specs.Units as u;
ghost use Rattle.mta_transfer_rules.specs.Sending as s;
ghost use Rattle.mta_session.specs.State.{peer_of};
ghost use Rattle.mta_session.specs.Follows.{GoesOn};
ghost use Rattle.mta_session.specs.Fits.{Fits, IsLive, HasName, HoldsFree, GoesOnAs};

use crate::ask::Ask;
use crate::event::{Action, Side};
use crate::machine::Machine;
use crate::phase::{OwnStep, Phase};
use mta_ber::{Memory, Word};
use mta_lane_send::{OnLink, Recovery, SendState};
use mta_units::Unit;

impl Machine {
    /// The other end's name.
    pub fn peer(&self) -> Result<Word, Memory>
        requires { HasName self.now.side self.now.opened }
        ensures { IfOk result (λ w. w ≡ peer_of self.now.side self.now.opened) }
    {
        match &self.side {
            Side::Initiator(plan) => plan.peer.share(),
            Side::Responder { own: _ } => {
                let Some(open) = &self.opened else {
                    unreachable!();
                };
                open.name.share()
            }
        }
    }

    /// An activity that was under way when the link was opened goes on behind what is confirmed, or is discarded.
    fn reopen(&mut self) -> Action
        requires live { IsLive self.old }
        requires free { HoldsFree self.old }
        requires holds { self.old.ours ≡ true }
        requires stage { self.old.send.stage ≡ s.Opened }
        ensures does { GoesOn self.old result self.new }
        ensures fits { Fits self.new }
        ensures falls { FallsBelow self.old (3 + work self.old) self.new }
    {
        self.phase = Phase::Puts;
        match self.send.recover() {
            Recovery::ResumeAt { activity, number } => {
                Action::Put(Unit::Resume { activity, number })
            }
            Recovery::DiscardIt { activity } => Action::Put(Unit::Discard { activity }),
            Recovery::Nothing => unreachable!(),
        }
    }

    /// Behind so many pieces: the next one while the window lets it, or Discard where the activity was given up.
    fn put_next(&mut self) -> Result<Action, Memory>
        requires live { IsLive self.old }
        requires free { HoldsFree self.old }
        requires holds { self.old.ours ≡ true }
        requires stage { (k n : ℕ) × (self.old.send.stage ≡ s.Next k n) }
        ensures { GoesOnAs self.old result self.new }
    {
        if let SendState::Dropping { activity } = self.send.state() {
            return Ok(self.discard(activity));
        }
        match self.send.put_piece(self.alloc)? {
            Some(piece) => {
                self.phase = Phase::Puts;
                Ok(Action::Put(Unit::Piece(piece)))
            }
            None => {
                self.phase = Phase::Reads;
                Ok(Action::Read)
            }
        }
    }

    /// Behind the last piece: Ending is made durable, and then End is put.
    fn put_last(&mut self) -> Action
        requires live { IsLive self.old }
        requires free { HoldsFree self.old }
        requires holds { self.old.ours ≡ true }
        requires stage { (k n : ℕ) × (self.old.send.stage ≡ s.Last_put k n) }
        ensures does { GoesOn self.old result self.new }
        ensures fits { Fits self.new }
        ensures falls { FallsBelow self.old (3 + work self.old) self.new }
    {
        match self.send.state() {
            SendState::Dropping { activity } => self.discard(activity),
            SendState::Ending { activity, .. } => {
                self.send.put_end();
                self.phase = Phase::Puts;
                Action::Put(Unit::End { activity })
            }
            SendState::Sending { activity, .. } => {
                self.phase = Phase::AsksStep {
                    step: OwnStep::Ending,
                };
                Action::Ask(Ask::Ending {
                    lane: self.lane,
                    generation: self.generation,
                    activity,
                })
            }
            SendState::Idle { .. } => unreachable!(),
        }
    }

    /// Discard of the activity under way.
    fn discard(&mut self, activity: u32) -> Action
        requires { activity ≡ last_of self.old.send.state }
        ensures action { result ≡ Action.Put (Unit.Discard activity) }
        ensures state { self.new ≡ record self.old {
          phase = Phase.Puts;
          send = s.put self.old.send (u.Discard activity);
        } }
    {
        self.send.put_discard();
        self.phase = Phase::Puts;
        Action::Put(Unit::Discard { activity })
    }

    /// Behind a piece: its Sync, or Discard where the activity was given up.
    fn put_sync(&mut self, number: u32) -> Action
        requires live { IsLive self.old }
        requires free { HoldsFree self.old }
        requires holds { self.old.ours ≡ true }
        requires stage { (k : ℕ) × (self.old.send.stage ≡ s.Sync_next k number) }
        ensures does { GoesOn self.old result self.new }
        ensures fits { Fits self.new }
        ensures falls { FallsBelow self.old (3 + work self.old) self.new }
    {
        if let SendState::Dropping { activity } = self.send.state() {
            return self.discard(activity);
        }
        self.send.put_sync();
        self.phase = Phase::Puts;
        Action::Put(Unit::Sync { number })
    }

    /// Behind Resume: its answer, or Discard where the activity was given up.
    fn await_resume_ack(&mut self) -> Action
        requires live { IsLive self.old }
        requires free { HoldsFree self.old }
        requires holds { self.old.ours ≡ true }
        requires stage { (k n : ℕ) × (self.old.send.stage ≡ s.Resume_put k n) }
        ensures does { GoesOn self.old result self.new }
        ensures fits { Fits self.new }
        ensures falls { FallsBelow self.old (3 + work self.old) self.new }
    {
        if let SendState::Dropping { activity } = self.send.state() {
            return self.discard(activity);
        }
        self.phase = Phase::Reads;
        Action::Read
    }

    /// Puts or asks what the own activity calls for, or reads where all that may be put is put.
    pub fn hold(&mut self) -> Result<Action, Memory>
        requires live { IsLive self.old }
        requires free { HoldsFree self.old }
        requires holds { self.old.ours ≡ true }
        ensures { GoesOnAs self.old result self.new }
    {
        match self.send.on_link() {
            OnLink::Nothing => {
                if self.send.state().is_idle() {
                    self.ask_batch()
                } else {
                    Ok(self.reopen())
                }
            }
            OnLink::Pieces { .. } => self.put_next(),
            OnLink::SyncDue { number } => Ok(self.put_sync(number)),
            OnLink::Resume { .. } => Ok(self.await_resume_ack()),
            OnLink::LastPiece { .. } => Ok(self.put_last()),
            _ => {
                self.phase = Phase::Reads;
                Ok(Action::Read)
            }
        }
    }

    /// No activity is under way: the next batch is asked for.
    fn ask_batch(&mut self) -> Result<Action, Memory>
        requires live { IsLive self.old }
        requires free { HoldsFree self.old }
        requires holds { self.old.ours ≡ true }
        requires stage { self.old.send.stage ≡ s.Quiet }
        ensures { GoesOnAs self.old result self.new }
    {
        let peer = self.peer()?;
        self.phase = Phase::AsksBatch;
        Ok(Action::Ask(Ask::BatchFor { peer }))
    }
}

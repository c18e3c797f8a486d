//! One event, by the phase.

ghost use Rattle.std.specs.Prelude.{◌≡◌, Ok};
ghost use Rattle.mta_session.specs.Rank.{FallsBelow};
ghost use Rattle.mta_units.specs.declared.unit.Unit.TheVariants as AUnit;
ghost use Rattle.mta_session.specs.declared.event.Event.TheVariants as AnEvent;
ghost use Rattle.mta_session.specs.Wanted.{wanted_of_unit, on_close_ack, on_closed};
ghost use Rattle.mta_session.specs.Follows.{Does};
ghost use Rattle.mta_session.specs.Fits.{Fits, FitsAt, Answers, StepsAs, FollowsAs, CountedFits};

use crate::event::{Action, Event, SessionEnd};
use crate::machine::Machine;
use crate::phase::Phase;
use crate::replies::abort_of;
use mta_ber::Memory;
use mta_records::StepFault;
use mta_units::Unit;

impl Machine {
    /// The answer to Close.
    fn on_close_ack(&mut self, unit: Unit) -> Action
        requires { FitsAt Phase.ReadsCloseAck self.old }
        ensures does { Does self.old (on_close_ack self.old unit) result self.new }
        ensures fits { Fits self.new }
        ensures falls { FallsBelow self.old 64 self.new }
    {
        match unit {
            Unit::CloseAck => self.ask_close(Phase::AsksClose),
            Unit::Please { .. } => { if self.twa { self.give() } else { self.abort(4) } }
            Unit::Abort { reason } => self.on_abort(reason),
            _ => self.abort(4),
        }
    }

    pub fn on_closed(&mut self, made: Result<(), StepFault>) -> Action
        ensures does { Does self.old (on_closed self.old made) result self.new }
        ensures fits { Fits self.new }
        ensures falls { FallsBelow self.old 2 self.new }
    {
        match made {
            Ok(()) => {
                if self.is_initiator() {
                    self.finish(SessionEnd::Closed)
                } else {
                    self.let_go();
                    self.phase = Phase::PutsLast {
                        end: SessionEnd::Closed,
                    };
                    Action::Put(Unit::CloseAck)
                }
            }
            Err(fault) => self.abort(abort_of(fault)),
        }
    }

    /// A unit that is not one too many.
    fn on_counted(&mut self, unit: Unit) -> Result<Action, Memory>
        requires { CountedFits self.old.phase self.old }
        ensures { StepsAs self.old (wanted_of_unit self.old.phase self.old unit) 64 result self.new }
    {
        match self.phase {
            Phase::ReadsOpen => self.on_open(unit),
            Phase::ReadsAnswer => self.on_answer(unit),
            Phase::ReadsCloseAck => Ok(self.on_close_ack(unit)),
            Phase::Reads => self.on_unit(unit),
            _ => unreachable!(),
        }
    }

    fn on_unit_event(&mut self, unit: Unit) -> Result<Action, Memory>
        requires answers { Answers self.old (AnEvent.Unit unit) }
        requires fits { Fits self.old }
        ensures { FollowsAs self.old (AnEvent.Unit unit) result self.new }
    {
        if let Phase::Ended { end } = self.phase {
            return Ok(Action::Finish(end));
        }
        let left = self.left;
        self.left -= 1;
        if self.left == 0 {
            return Ok(self.abort(3));
        }
        match self.on_counted(unit) {
            Ok(action) => Ok(action),
            Err(memory) => {
                self.left = left;
                Err(memory)
            }
        }
    }

    fn on_bad_unit(&mut self) -> Action
        requires answers { Answers self.old AnEvent.BadUnit }
        requires fits { Fits self.old }
        ensures { FollowsAs self.old AnEvent.BadUnit (Ok result) self.new }
    {
        if let Phase::Ended { end } = self.phase {
            return Action::Finish(end);
        }
        self.left -= 1;
        if self.left == 0 {
            self.abort(3)
        } else {
            self.abort(4)
        }
    }

    fn on_go(&mut self) -> Result<Action, Memory>
        requires answers { Answers self.old AnEvent.Go }
        requires fits { Fits self.old }
        ensures { FollowsAs self.old AnEvent.Go result self.new }
    {
        match self.phase {
            Phase::Begin => self.begin(),
            Phase::PutsOpen => {
                self.phase = Phase::ReadsAnswer;
                Ok(Action::Read)
            }
            Phase::PutsAccept => self.after_accept(),
            Phase::Puts => {
                if self.ours {
                    self.hold()
                } else {
                    Ok(self.answer())
                }
            }
            Phase::PutsClose => {
                self.phase = Phase::ReadsCloseAck;
                Ok(Action::Read)
            }
            Phase::PutsLast { end } => Ok(self.finish(end)),
            Phase::Ended { end } => Ok(Action::Finish(end)),
            _ => unreachable!(),
        }
    }

    fn on_over(&mut self) -> Action
        requires answers { Answers self.old AnEvent.Over }
        requires fits { Fits self.old }
        ensures { FollowsAs self.old AnEvent.Over (Ok result) self.new }
    {
        match self.phase {
            Phase::PutsLast {
                end: SessionEnd::Closed,
            } => self.finish(SessionEnd::Broken),
            Phase::PutsLast { end } => self.finish(end),
            Phase::Ended { end } => Action::Finish(end),
            _ => self.finish(SessionEnd::Broken),
        }
    }

    /// One event, and what the rules call for then.
    pub fn step(&mut self, event: Event) -> Result<Action, Memory>
        requires answers { Answers self.old event }
        requires fits { Fits self.old }
        ensures { FollowsAs self.old event result self.new }
    {
        match event {
            Event::Go => self.on_go(),
            Event::Unit(unit) => self.on_unit_event(unit),
            Event::BadUnit => Ok(self.on_bad_unit()),
            Event::Reply(reply) => self.on_reply(reply),
            Event::Over => Ok(self.on_over()),
        }
    }
}

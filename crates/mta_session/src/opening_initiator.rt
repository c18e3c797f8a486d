//! An initiator opens a link.

ghost use Rattle.std.specs.Prelude.{◌≡◌};
ghost use Rattle.mta_session.specs.Rank.{FallsBelow};
ghost use Rattle.std.specs.Str.{bytes_eq};
ghost use Rattle.std.specs.Option.{option_copied};
ghost use Rattle.mta_units.specs.declared.unit.Unit.TheVariants as AUnit;
ghost use Rattle.mta_session.specs.Wanted.{answers_link, begins, is_same_reference, is_same_additional};
ghost use Rattle.mta_session.specs.Wanted.{is_refused_value, on_answer_by, on_values, starts, on_denied, on_agreed};
ghost use Rattle.mta_session.specs.Follows.{Does};
ghost use Rattle.mta_session.specs.Fits.{Fits, FitsAt, IsReady, HasPlan, StepsAs};

use crate::ask::Ask;
use crate::event::{Action, SessionEnd, Side};
use crate::machine::Machine;
use crate::password::is_same_password;
use crate::phase::Phase;
use crate::replies::abort_of;
use mta_ber::Memory;
use mta_records::{Reference, StepFault};
use mta_rtse::{Answer, Request};
use mta_units::{OpenUnit, Unit};

pub fn same(one: &[u8], other: &[u8]) -> bool
    ensures { result ≡ bytes_eq one.now other.now }
{
    one == other
}

fn same_additional(one: Option<&[u8]>, other: Option<&[u8]>) -> bool
    ensures { result ≡ is_same_additional (option_copied one.entry) (option_copied other.entry) }
{
    match (one, other) {
        (None, None) => true,
        (Some(one), Some(other)) => same(one, other),
        _ => false,
    }
}

fn same_reference(one: &Reference, other: &Reference) -> bool
    ensures { result ≡ is_same_reference one.now other.now }
{
    same(one.calling(), other.calling())
        && one.common() == other.common()
        && same_additional(one.additional(), other.additional())
}

impl Machine {
    /// Puts Open.
    pub fn put_open(&mut self) -> Result<Action, Memory>
        requires ready { IsReady self.old }
        requires plan { HasPlan self.old.side }
        ensures { StepsAs self.old (answers_link self.old self.old.side) 4 result self.new }
    {
        let Side::Initiator(plan) = &self.side else {
            unreachable!();
        };
        let name = plan.own.share()?;
        let reference = plan.reference.copy(self.alloc)?;
        let request = if plan.recovering {
            Request::Recover(plan.reference.copy(self.alloc)?)
        } else {
            Request::Bind {
                name: plan.own.share()?,
                password: plan.send_password.copy(self.alloc)?,
            }
        };
        self.phase = Phase::PutsOpen;
        Ok(Action::Put(Unit::Open(OpenUnit {
            name,
            reference,
            checkpoint: self.send.half().checkpoint(),
            window: self.send.half().window(),
            twa: self.twa,
            request,
        })))
    }

    /// The first event.
    pub fn begin(&mut self) -> Result<Action, Memory>
        requires { FitsAt Phase.Begin self.old }
        ensures { StepsAs self.old (begins self.old.side self.old) 20 result self.new }
    {
        match &self.side {
            Side::Responder { own: _ } => {
                self.phase = Phase::ReadsOpen;
                Ok(Action::Read)
            }
            Side::Initiator(plan) => {
                if plan.recovering {
                    self.phase = Phase::AsksValues;
                    Ok(Action::Ask(Ask::Values { lane: self.lane }))
                } else {
                    self.put_open()
                }
            }
        }
    }

    /// The lane is open, and the initiator has the turn.
    fn start_lane(&mut self) -> Result<Action, Memory>
        requires ready { IsReady self.old }
        requires plan { HasPlan self.old.side }
        ensures { StepsAs self.old (starts self.old) 51 result self.new }
    {
        let (agreed, ours, accepted) = (self.agreed, self.ours, self.send.is_accepted());
        self.agreed = true;
        self.ours = true;
        self.send.accept(true);
        match self.hold() {
            Ok(action) => Ok(action),
            Err(memory) => {
                self.agreed = agreed;
                self.ours = ours;
                self.send.accept(accepted);
                Err(memory)
            }
        }
    }

    fn is_refused_value(&self, checkpoint: u32, window: u32) -> bool
        ensures { result ≡ is_refused_value self.now checkpoint window }
    {
        let half = self.send.half();
        half.checkpoint() < checkpoint
            || half.window() < window
            || window == 0
            || (self.agreed && !(checkpoint == half.checkpoint() && window == half.window()))
    }

    /// The values that the responder answers.
    fn on_values(&mut self, checkpoint: u32, window: u32) -> Result<Action, Memory>
        requires ready { IsReady self.old }
        requires plan { HasPlan self.old.side }
        ensures { StepsAs self.old (on_values self.old checkpoint window) 64 result self.new }
    {
        if self.is_refused_value(checkpoint, window) {
            return Ok(self.abort(1));
        }
        if self.agreed {
            return self.start_lane();
        }
        self.send.agree(checkpoint, window);
        self.phase = Phase::AsksAgree;
        Ok(Action::Ask(Ask::LaneAgree {
            lane: self.lane,
            generation: self.generation,
            checkpoint,
            window,
        }))
    }

    fn on_accept(&mut self, checkpoint: u32, window: u32, answer: Answer) -> Result<Action, Memory>
        requires ready { IsReady self.old }
        requires plan { HasPlan self.old.side }
        ensures { StepsAs self.old (on_answer_by self.old.side self.old (AUnit.Accept checkpoint window answer)) 64
            result self.new }
    {
        let Side::Initiator(plan) = &self.side else {
            unreachable!();
        };
        match &answer {
            Answer::Bind { name, password } => {
                if plan.recovering {
                    Ok(self.abort(4))
                } else if same(name.as_slice(), plan.peer.as_slice())
                    && is_same_password(password.as_slice(), plan.expected_password.as_slice())
                {
                    self.on_values(checkpoint, window)
                } else {
                    Ok(self.abort(5))
                }
            }
            Answer::Recover(reference) => {
                if plan.recovering && same_reference(reference, &plan.reference) {
                    self.on_values(checkpoint, window)
                } else {
                    Ok(self.abort(4))
                }
            }
        }
    }

    /// cannotRecover denies what was under way and closes the lane; any Reject closes a new one.
    fn on_reject(&mut self, reason: u32) -> Action
        requires ready { IsReady self.old }
        requires plan { HasPlan self.old.side }
        ensures does { Does self.old (on_answer_by self.old.side self.old (AUnit.Reject reason)) result self.new }
        ensures fits { Fits self.new }
        ensures falls { FallsBelow self.old 64 self.new }
    {
        let Side::Initiator(plan) = &self.side else {
            unreachable!();
        };
        let recovering = plan.recovering;
        if reason == 1 && !self.send.state().is_idle() {
            self.let_go();
            self.phase = Phase::AsksDenied;
            Action::Ask(Ask::Denied {
                lane: self.lane,
                generation: self.generation,
                activity: self.send.state().last(),
            })
        } else if reason == 1 || !recovering {
            self.ask_close(Phase::AsksLast {
                end: SessionEnd::Rejected { reason },
            })
        } else {
            self.finish(SessionEnd::Rejected { reason })
        }
    }

    /// The answer to Open.
    pub fn on_answer(&mut self, unit: Unit) -> Result<Action, Memory>
        requires { FitsAt Phase.ReadsAnswer self.old }
        ensures { StepsAs self.old (on_answer_by self.old.side self.old unit) 64 result self.new }
    {
        match unit {
            Unit::Accept {
                checkpoint,
                window,
                answer,
            } => self.on_accept(checkpoint, window, answer),
            Unit::Reject { reason } => Ok(self.on_reject(reason)),
            Unit::Abort { reason } => Ok(self.on_abort(reason)),
            _ => Ok(self.abort(4)),
        }
    }

    pub fn on_agreed(&mut self, made: Result<(), StepFault>) -> Result<Action, Memory>
        requires { FitsAt Phase.AsksAgree self.old }
        ensures { StepsAs self.old (on_agreed self.old made) 52 result self.new }
    {
        match made {
            Ok(()) => self.start_lane(),
            Err(fault) => Ok(self.abort(abort_of(fault))),
        }
    }

    pub fn on_denied(&mut self, made: Result<(), StepFault>) -> Action
        ensures does { Does self.old (on_denied self.old made) result self.new }
        ensures fits { Fits self.new }
        ensures falls { FallsBelow self.old 3 self.new }
    {
        match made {
            Ok(()) => self.ask_close(Phase::AsksLast {
                end: SessionEnd::Rejected { reason: 1 },
            }),
            Err(_) => self.finish(SessionEnd::Rejected { reason: 1 }),
        }
    }
}

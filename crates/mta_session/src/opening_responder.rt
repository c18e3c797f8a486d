//! A responder is opened, and what a recovered lane holds.

ghost use Rattle.std.specs.Prelude.{◌≡◌, IfOk, Some, false, ◌+◌};
ghost use Rattle.mta_session.specs.Rank.{FallsBelow, rank_of_lane};
ghost use Rattle.mta_records.specs.declared.lane.LaneRole.TheVariants as role;
ghost use Rattle.mta_session.specs.Wanted.{accepts, answer_for, agreed_checkpoint, agreed_window, asks_lane, with_lane};
ghost use Rattle.mta_session.specs.Wanted.{on_open, on_peer, on_stands, on_new_lane, on_spare, on_room, on_old_lane};
ghost use Rattle.mta_session.specs.Wanted.{on_bind, on_lane_values, on_recovery};
ghost use Rattle.mta_session.specs.Follows.{Does};
ghost use Rattle.mta_session.specs.Fits.{Fits, FitsAt, StepsAs, HasCall, HasLine, LineFits, LaneFits, HalfFits};

use crate::ask::Ask;
use crate::event::{Action, SessionEnd, Side};
use crate::machine::Machine;
use crate::opening_initiator::same;
use crate::password::is_same_password;
use crate::peer::Peer;
use crate::phase::Phase;
use crate::replies::abort_of;
use mta_ber::Memory;
use mta_lane_send::SendState;
use mta_records::{LaneRole, LaneValues, Reference, StepFault};
use mta_rtse::{Answer, Request};
use mta_units::{OpenUnit, Unit};

/// The checkpoint size of a new lane: 0, for whole messages, where either side says so.
fn agreed_checkpoint(asked: u32, offered: u32) -> u32
    ensures { result ≡ agreed_checkpoint asked offered }
{
    if asked == 0 || offered == 0 {
        0
    } else if asked <= offered {
        asked
    } else {
        offered
    }
}

/// The window of a new lane, at least 1.
fn agreed_window(asked: u32, offered: u32) -> u32
    ensures { result ≡ agreed_window asked offered }
{
    let least = if asked <= offered { asked } else { offered };
    if least == 0 { 1 } else { least }
}

impl Machine {
    /// The first unit.
    pub fn on_open(&mut self, unit: Unit) -> Result<Action, Memory>
        requires { FitsAt Phase.ReadsOpen self.old }
        ensures { StepsAs self.old (on_open self.old unit) 64 result self.new }
    {
        match unit {
            Unit::Open(open) => {
                let name = open.name.share()?;
                self.opened = Some(open);
                self.phase = Phase::AsksPeer;
                Ok(Action::Ask(Ask::Peer(name)))
            }
            Unit::Abort { reason } => Ok(self.finish(SessionEnd::PeerAborted { reason })),
            _ => Ok(self.abort(4)),
        }
    }

    fn ask_lane_of(&self, asked: &OpenUnit, reference: &Reference) -> Result<Ask, Memory>
        ensures { IfOk result (λ a. a ≡ Ask.LaneOf role.Responder asked.now.name (Some reference.now)) }
    {
        let peer = asked.name.share()?;
        let reference = Some(reference.copy(self.alloc)?);
        Ok(Ask::LaneOf {
            role: LaneRole::Responder,
            peer,
            reference,
        })
    }

    /// The peer's line, and what is asked.
    pub fn on_peer(&mut self, told: Result<Option<Peer>, Memory>) -> Result<Action, Memory>
        requires fits { FitsAt Phase.AsksPeer self.old }
        requires told { LineFits told }
        ensures { StepsAs self.old (on_peer self.old self.old.opened told) 19 result self.new }
    {
        let Some(open) = &self.opened else {
            unreachable!();
        };
        match told {
            Err(_) => Ok(self.abort(0)),
            Ok(None) => Ok(self.reject(2)),
            Ok(Some(line)) => match &open.request {
                Request::Null => Ok(self.reject(2)),
                Request::Bind { name, password } => {
                    if same(name.as_slice(), line.name.as_slice())
                        && is_same_password(
                            password.as_slice(),
                            line.expected_password.as_slice(),
                        )
                    {
                        let ask = self.ask_lane_of(open, &open.reference)?;
                        self.line = Some(line);
                        self.phase = Phase::AsksStands;
                        Ok(Action::Ask(ask))
                    } else {
                        Ok(self.reject(2))
                    }
                }
                Request::Recover(reference) => {
                    let ask = self.ask_lane_of(open, reference)?;
                    self.line = Some(line);
                    self.phase = Phase::AsksOldLane;
                    Ok(Action::Ask(ask))
                }
            },
        }
    }

    /// Asks for the new lane.
    fn ask_new_lane(&mut self, again: bool) -> Result<Action, Memory>
        requires { FitsAt (Phase.AsksNewLane again) self.old }
        ensures { StepsAs self.old (asks_lane self.old self.old.opened self.old.line again) (rank_of_lane again + 1)
            result self.new }
    {
        let (Some(open), Some(line)) = (&self.opened, &self.line) else {
            unreachable!();
        };
        let peer = open.name.share()?;
        let reference = open.reference.copy(self.alloc)?;
        let ask = Ask::LaneOpen {
            role: LaneRole::Responder,
            peer,
            reference,
            twa: open.twa,
            checkpoint: agreed_checkpoint(open.checkpoint, line.checkpoint),
            window: agreed_window(open.window, line.window),
        };
        self.phase = Phase::AsksNewLane { again };
        Ok(Action::Ask(ask))
    }

    /// Whether the reference stands; two-way alternate is for lines that say so.
    pub fn on_stands(&mut self, told: Option<u32>) -> Result<Action, Memory>
        requires { FitsAt Phase.AsksStands self.old }
        ensures { StepsAs self.old (on_stands self.old self.old.opened self.old.line told) 18 result self.new }
    {
        if let Some(_) = told {
            return Ok(self.reject(2));
        }
        let (Some(open), Some(line)) = (&self.opened, &self.line) else {
            unreachable!();
        };
        if open.twa && !line.twa {
            Ok(self.reject(3))
        } else {
            self.ask_new_lane(false)
        }
    }

    /// The answer to what was asked.
    pub fn answer_for(&self) -> Result<Answer, Memory>
        requires call { HasCall self.now.side self.now.opened }
        requires line { HasLine self.now.line }
        ensures { IfOk result (λ a. answer_for self.now.side self.now.opened self.now.line ≡ Some a) }
    {
        let Side::Responder { own } = &self.side else {
            unreachable!();
        };
        let (Some(open), Some(line)) = (&self.opened, &self.line) else {
            unreachable!();
        };
        match &open.request {
            Request::Recover(reference) => Ok(Answer::Recover(reference.copy(self.alloc)?)),
            _ => Ok(Answer::Bind {
                name: own.share()?,
                password: line.send_password.copy(self.alloc)?,
            }),
        }
    }

    /// The new lane, or why there is none.
    pub fn on_new_lane(
        &mut self,
        again: bool,
        made: Result<u32, StepFault>,
    ) -> Result<Action, Memory>
        requires { FitsAt (Phase.AsksNewLane again) self.old }
        ensures { StepsAs self.old (on_new_lane self.old again made) (rank_of_lane again) result self.new }
    {
        match made {
            Ok(lane) => self.accept_new(lane),
            Err(StepFault::BusyLanes { .. }) => {
                if again {
                    return Ok(self.reject(0));
                }
                let peer = self.peer()?;
                self.phase = Phase::AsksSpare;
                Ok(Action::Ask(Ask::SpareLane {
                    role: LaneRole::Responder,
                    peer,
                }))
            }
            Err(StepFault::Unexpected) => Ok(self.reject(2)),
            Err(fault) => Ok(self.abort(abort_of(fault))),
        }
    }

    fn accept_new(&mut self, lane: u32) -> Result<Action, Memory>
        requires { FitsAt (Phase.AsksNewLane false) self.old }
        ensures { StepsAs self.old (accepts (with_lane self.old self.old.opened self.old.line lane)) 11
            result self.new }
    {
        let answer = self.answer_for()?;
        let (Some(open), Some(line)) = (&self.opened, &self.line) else {
            unreachable!();
        };
        let checkpoint = agreed_checkpoint(open.checkpoint, line.checkpoint);
        let window = agreed_window(open.window, line.window);
        self.send.agree(checkpoint, window);
        self.twa = open.twa;
        self.lane = lane;
        self.generation = 1;
        self.agreed = true;
        self.phase = Phase::PutsAccept;
        Ok(Action::Put(Unit::Accept {
            checkpoint,
            window,
            answer,
        }))
    }

    /// A lane that carries nothing makes room.
    pub fn on_spare(&mut self, told: Option<(u32, u64)>) -> Action
        requires { FitsAt Phase.AsksSpare self.old }
        ensures does { Does self.old (on_spare self.old told) result self.new }
        ensures fits { Fits self.new }
        ensures falls { FallsBelow self.old 16 self.new }
    {
        match told {
            Some((lane, generation)) => {
                self.phase = Phase::AsksRoom;
                Action::Ask(Ask::CloseLane { lane, generation })
            }
            None => self.reject(0),
        }
    }

    /// Whether room was made; another worker may have been first with that lane.
    pub fn on_room(&mut self, made: Result<(), StepFault>) -> Result<Action, Memory>
        requires { FitsAt Phase.AsksRoom self.old }
        ensures { StepsAs self.old (on_room self.old made) 15 result self.new }
    {
        match made {
            Ok(())
            | Err(StepFault::NoLane { .. } | StepFault::Fenced { .. } | StepFault::Unexpected) =>
                self.ask_new_lane(true),
            Err(fault) => Ok(self.abort(abort_of(fault))),
        }
    }

    pub fn on_old_lane(&mut self, told: Option<u32>) -> Action
        requires { FitsAt Phase.AsksOldLane self.old }
        ensures does { Does self.old (on_old_lane self.old told) result self.new }
        ensures fits { Fits self.new }
        ensures falls { FallsBelow self.old 18 self.new }
    {
        match told {
            Some(lane) => {
                self.lane = lane;
                self.phase = Phase::AsksBind;
                Action::Ask(Ask::Bind { lane })
            }
            None => self.reject(1),
        }
    }

    pub fn on_bind(&mut self, made: Result<u64, StepFault>) -> Action
        requires { FitsAt Phase.AsksBind self.old }
        ensures does { Does self.old (on_bind self.old made) result self.new }
        ensures fits { Fits self.new }
        ensures falls { FallsBelow self.old 17 self.new }
    {
        match made {
            Ok(generation) => {
                self.generation = generation;
                self.phase = Phase::AsksValues;
                Action::Ask(Ask::Values { lane: self.lane })
            }
            Err(StepFault::NoLane { .. }) => self.reject(1),
            Err(fault) => self.abort(abort_of(fault)),
        }
    }

    pub fn on_lane_values(&mut self, told: Option<LaneValues>) -> Action
        requires fits { FitsAt Phase.AsksValues self.old }
        requires told { LaneFits self.old.side told }
        ensures does { Does self.old (on_lane_values self.old told) result self.new }
        ensures fits { Fits self.new }
        ensures falls { FallsBelow self.old 16 self.new }
    {
        let Some(values) = told else {
            unreachable!();
        };
        self.twa = values.twa;
        self.agreed = values.agreed;
        self.send.agree(values.checkpoint, values.window);
        self.phase = Phase::AsksRecovery;
        Action::Ask(Ask::Recovery { lane: self.lane })
    }

    pub fn on_recovery(&mut self, told: Option<SendState>) -> Action
        requires fits { FitsAt Phase.AsksRecovery self.old }
        requires told { HalfFits self.old.agreed told }
        ensures does { Does self.old (on_recovery self.old told) result self.new }
        ensures fits { Fits self.new }
        ensures falls { FallsBelow self.old 15 self.new }
    {
        let Some(state) = told else {
            unreachable!();
        };
        self.phase = Phase::AsksReceiving { state };
        Action::Ask(Ask::Receiving { lane: self.lane })
    }
}

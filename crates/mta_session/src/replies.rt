//! What the spool answers on an open session.

ghost use Rattle.std.specs.Prelude.{◌≡◌, ◌&&◌, true, []};
ghost use Rattle.mta_session.specs.Rank.{FallsBelow, rank_of_step};
ghost use Rattle.mta_lane_send.specs.Half.{is_sending};
ghost use Rattle.mta_transfer_rules.specs.Sending as s;
ghost use Rattle.mta_session.specs.Link.{stage_of, lets_go};
ghost use Rattle.mta_session.specs.Wanted.{Goes_on, abort_of, kind_octet, is_cut, after_step, on_batch, on_due};
ghost use Rattle.mta_session.specs.Wanted.{on_start, on_still_idle, on_step, on_state, on_secured, on_completed};
ghost use Rattle.mta_session.specs.Wanted.{on_dropped};
ghost use Rattle.mta_session.specs.Follows.{Does};
ghost use Rattle.mta_session.specs.Fits.{Fits, FitsAt, IsLive, HoldsFree, StepsAs, StartFits};

use crate::ask::Ask;
use crate::event::Action;
use crate::machine::Machine;
use crate::phase::{Found, OwnStep, Phase};
use crate::receiving::Stage;
use mta_ber::{Kind, Memory};
use mta_lane_send::{OnLink, SendState};
use mta_records::{Batch, CompleteFault, Outgoing, StepFault};
use mta_units::Unit;

/// The reason of the Abort after a refused step.
pub fn abort_of(fault: StepFault) -> u32
    ensures { result ≡ abort_of fault }
{
    match fault {
        StepFault::Full { .. } | StepFault::Disk | StepFault::Ended | StepFault::Spent { .. } => 3,
        StepFault::Memory => 0,
        _ => 4,
    }
}

fn kind_octet(kind: Kind) -> u8
    ensures { result ≡ kind_octet kind }
{
    match kind {
        Kind::Truncated => 1,
        Kind::BadLength => 2,
        Kind::BadTag => 3,
        Kind::TooDeep => 4,
        Kind::BadInt => 5,
        Kind::BadText => 6,
        Kind::BadTime => 7,
        Kind::Missing => 8,
        Kind::Twice => 9,
        Kind::BadSize => 10,
        Kind::TooLong => 11,
        Kind::Trailing => 12,
    }
}

/// Whether Discard of an activity may be put behind what is put.
fn lets_go(on_link: OnLink) -> bool
    ensures { result ≡ lets_go on_link }
{
    match on_link {
        OnLink::End { .. } | OnLink::Discard => false,
        _ => true,
    }
}

/// Whether the activity is in Sending, and may be discarded on this link where it is given up.
#[tactic(auto, using(crate::proofs::Halves::cut_is))]
fn may_discard(state: SendState, on_link: OnLink, activity: u32) -> bool
    ensures { result ≡ (is_sending state activity && is_cut (stage_of state on_link) activity) }
{
    state.is_sending(activity) && lets_go(on_link)
}

impl Machine {
    fn ask_recovery(&mut self, phase: Phase) -> Action
        ensures action { result ≡ Action.Ask (Ask.Recovery self.old.lane) }
        ensures state { self.new ≡ record self.old { phase = phase } }
    {
        self.phase = phase;
        Action::Ask(Ask::Recovery { lane: self.lane })
    }

    pub fn on_due(&mut self, due: Result<Option<Batch>, Memory>) -> Action
        requires { FitsAt Phase.AsksDue self.old }
        ensures does { Does self.old (on_due self.old due) result self.new }
        ensures fits { Fits self.new }
        ensures falls { FallsBelow self.old 9 self.new }
    {
        match due {
            Ok(Some(_)) => self.put_please(),
            Ok(None) => self.answer(),
            Err(_) => self.abort(0),
        }
    }

    pub fn on_batch(&mut self, due: Result<Option<Batch>, Memory>) -> Action
        requires { FitsAt Phase.AsksBatch self.old }
        ensures does { Does self.old (on_batch self.old due) result self.new }
        ensures fits { Fits self.new }
        ensures falls { FallsBelow self.old 48 self.new }
    {
        match due {
            Ok(Some(batch)) => {
                self.phase = Phase::AsksStart;
                Action::Ask(Ask::Start {
                    lane: self.lane,
                    generation: self.generation,
                    batch,
                })
            }
            Ok(None) => {
                if self.is_initiator() && !(self.please && self.twa) {
                    self.phase = Phase::PutsClose;
                    Action::Put(Unit::Close)
                } else {
                    self.give()
                }
            }
            Err(_) => self.abort(0),
        }
    }

    pub fn on_start(&mut self, started: Result<Outgoing, StepFault>) -> Action
        requires fits { FitsAt Phase.AsksStart self.old }
        requires told { StartFits self.old.send started }
        ensures does { Does self.old (on_start self.old started) result self.new }
        ensures fits { Fits self.new }
        ensures falls { FallsBelow self.old 46 self.new }
    {
        match started {
            Ok(outgoing) => {
                let activity = outgoing.activity;
                self.send.start(outgoing);
                self.phase = Phase::Puts;
                Action::Put(Unit::Start { activity })
            }
            Err(StepFault::Unexpected) => self.ask_recovery(Phase::AsksStillIdle),
            Err(fault) => self.abort(abort_of(fault)),
        }
    }

    /// Another worker was first with a recipient: the batch is asked for again, and the refused start counts as a unit.
    pub fn on_still_idle(&mut self, told: Option<SendState>) -> Result<Action, Memory>
        requires { FitsAt Phase.AsksStillIdle self.old }
        ensures { StepsAs self.old (on_still_idle self.old told) 45 result self.new }
    {
        let still = match (self.send.state(), told) {
            (SendState::Idle { last }, Some(SendState::Idle { last: told })) => told == last,
            _ => false,
        };
        if !still {
            return Ok(self.abort(4));
        }
        if self.left == 1 {
            return Ok(self.abort(3));
        }
        let peer = self.peer()?;
        self.left -= 1;
        self.phase = Phase::AsksBatch;
        Ok(Action::Ask(Ask::BatchFor { peer }))
    }

    fn confirmed(&mut self, number: u32) -> Result<Action, Memory>
        requires { FitsAt (Phase.AsksStep (OwnStep.Confirm number)) self.old }
        ensures { StepsAs self.old
            (Goes_on (record self.old { send = after_step self.old.send (OwnStep.Confirm number) }))
            52 result self.new }
    {
        let half = self.send.half();
        self.send.confirm(number);
        match self.hold() {
            Ok(action) => Ok(action),
            Err(memory) => {
                self.send.put_back(half);
                Err(memory)
            }
        }
    }

    fn ended(&mut self) -> Result<Action, Memory>
        requires { FitsAt (Phase.AsksStep OwnStep.Ending) self.old }
        ensures { StepsAs self.old (Goes_on (record self.old { send = after_step self.old.send OwnStep.Ending })) 9
            result self.new }
    {
        let half = self.send.half();
        self.send.ending();
        match self.hold() {
            Ok(action) => Ok(action),
            Err(memory) => {
                self.send.put_back(half);
                Err(memory)
            }
        }
    }

    /// The activity is settled and let go, and the next batch is asked for.
    fn settled(&mut self) -> Result<Action, Memory>
        requires live { IsLive self.old }
        requires free { HoldsFree self.old }
        requires holds { self.old.ours ≡ true }
        ensures { StepsAs self.old
            (Goes_on (record self.old { send = record (s.made self.old.send s.Sent) { octets = [] } }))
            52 result self.new }
    {
        let peer = self.peer()?;
        self.send.settle();
        self.phase = Phase::AsksBatch;
        Ok(Action::Ask(Ask::BatchFor { peer }))
    }

    pub fn on_step(&mut self, step: OwnStep, made: Result<(), StepFault>) -> Result<Action, Memory>
        requires { FitsAt (Phase.AsksStep step) self.old }
        ensures { StepsAs self.old (on_step self.old step made) (rank_of_step step) result self.new }
    {
        match made {
            Ok(()) => match step {
                OwnStep::Confirm { number } => self.confirmed(number),
                OwnStep::Ending => self.ended(),
                OwnStep::Sent | OwnStep::Dropped | OwnStep::Refused { .. } => self.settled(),
            },
            Err(StepFault::Unexpected) => Ok(self.ask_recovery(Phase::AsksState)),
            Err(fault) => Ok(self.abort(abort_of(fault))),
        }
    }

    /// Another worker gave the activity up: it is discarded.
    pub fn on_state(&mut self, told: Option<SendState>) -> Result<Action, Memory>
        requires { FitsAt Phase.AsksState self.old }
        ensures { StepsAs self.old (on_state self.old told) 8 result self.new }
    {
        let Some(SendState::Dropping { activity }) = told else {
            return Ok(self.abort(4));
        };
        let half = self.send.half();
        if !may_discard(half.state(), half.on_link(), activity) {
            return Ok(self.abort(4));
        }
        self.send.abandon();
        match self.hold() {
            Ok(action) => Ok(action),
            Err(memory) => {
                self.send.put_back(half);
                Err(memory)
            }
        }
    }

    pub fn on_secured(
        &mut self,
        activity: u32,
        number: u32,
        made: Result<(), CompleteFault>,
    ) -> Action
        requires { FitsAt (Phase.AsksSecure activity number) self.old }
        ensures does { Does self.old (on_secured self.old activity number made) result self.new }
        ensures fits { Fits self.new }
        ensures falls { FallsBelow self.old 7 self.new }
    {
        match made {
            Ok(()) => {
                self.recv.half.secure(activity, number);
                self.recv.stage = Stage::Next { activity, number };
                self.answer()
            }
            Err(CompleteFault::Bad(fault)) => self.except(
                activity,
                Found {
                    kind: kind_octet(fault.kind),
                    at: fault.at,
                },
            ),
            Err(CompleteFault::Step(fault)) => self.abort(abort_of(fault)),
        }
    }

    pub fn on_completed(
        &mut self,
        activity: u32,
        number: u32,
        made: Result<u32, CompleteFault>,
    ) -> Action
        requires { FitsAt (Phase.AsksComplete activity number) self.old }
        ensures does { Does self.old (on_completed self.old activity number made) result self.new }
        ensures fits { Fits self.new }
        ensures falls { FallsBelow self.old 7 self.new }
    {
        match made {
            Ok(_) => {
                self.recv.half.complete(activity);
                self.answer()
            }
            Err(CompleteFault::Bad(fault)) => self.except(
                activity,
                Found {
                    kind: kind_octet(fault.kind),
                    at: fault.at,
                },
            ),
            Err(CompleteFault::Step(fault)) => self.abort(abort_of(fault)),
        }
    }

    pub fn on_dropped(
        &mut self,
        activity: u32,
        found: Option<Found>,
        made: Result<(), StepFault>,
    ) -> Action
        requires { FitsAt (Phase.AsksDrop activity found) self.old }
        ensures does { Does self.old (on_dropped self.old activity found made) result self.new }
        ensures fits { Fits self.new }
        ensures falls { FallsBelow self.old 5 self.new }
    {
        match made {
            Ok(()) => {
                self.recv.half.drop_part();
                match found {
                    Some(found) => self.except(activity, found),
                    None => self.answer(),
                }
            }
            Err(fault) => self.abort(abort_of(fault)),
        }
    }
}

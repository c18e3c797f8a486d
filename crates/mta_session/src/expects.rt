//! Whether an event answers the last action.

ghost use Rattle.std.specs.Prelude.{◌≡◌, ◌≤◌, ◌↔◌, ◌*◌, IsTrue, length};
ghost use Rattle.mta_session.specs.declared.event.Event.TheVariants as AnEvent;
ghost use Rattle.mta_session.specs.Fits.{Fits, Answers, AnswersAsk, AnswersStep, answers_read, answers_put, RepliesTo};
ghost use Rattle.mta_session.specs.Fits.{LineFits, LaneFits, HalfFits, IsTold, CarriesOn, ResumedFits, StartFits};
ghost use Rattle.mta_session.specs.Fits.{ValuesFit};

use crate::ask::Reply;
use crate::event::Event;
use crate::machine::Machine;
use crate::peer::Peer;
use crate::phase::{OwnStep, Phase};
use mta_ber::Memory;
use mta_lane_recv::Last;
use mta_lane_send::SendState;
use mta_records::{LaneValues, Outgoing, StepFault};

/// The most octets of an activity.
const LONGEST_ACTIVITY: u32 = 2_097_152;

/// Whether a checkpoint size and a window are in their ranges.
fn values_fit(checkpoint: u32, window: u32) -> bool
    ensures { IsTrue result ↔ ValuesFit checkpoint window }
{
    checkpoint <= 64 && 1 <= window && window <= 8
}

fn line_fits(told: &Result<Option<Peer>, Memory>) -> bool
    ensures { IsTrue result ↔ LineFits told.now }
{
    match told {
        Ok(Some(line)) => values_fit(line.checkpoint, line.window),
        _ => true,
    }
}

fn is_told(told: Option<(u32, Last)>) -> bool
    ensures { IsTrue result ↔ IsTold told }
{
    match told {
        None => false,
        Some((_, Last::None)) => true,
        Some((high, Last::Partial { activity, .. })) => activity == high,
        Some((high, Last::Done { activity })) => activity == high,
    }
}

/// Whether an activity in this state has a piece behind those that are confirmed.
fn carries_on(checkpoint: u32, state: SendState, outgoing: &Outgoing) -> bool
    requires { checkpoint ≤ 64 }
    ensures { IsTrue result ↔ CarriesOn (1024 * checkpoint) state outgoing.now.octets }
{
    match state {
        SendState::Idle { .. } | SendState::Dropping { .. } => true,
        SendState::Sending { confirmed, .. } | SendState::Ending { confirmed, .. } => {
            1024 * checkpoint as u64 * (confirmed as u64) < outgoing.total() as u64
                && (checkpoint != 0 || confirmed == 0)
        }
    }
}

fn resumed_fits(checkpoint: u32, state: SendState, told: &Result<Option<Outgoing>, Memory>) -> bool
    requires { checkpoint ≤ 64 }
    ensures { IsTrue result ↔ ResumedFits checkpoint state told.now }
{
    match told {
        Ok(Some(outgoing)) => {
            outgoing.total() <= LONGEST_ACTIVITY && carries_on(checkpoint, state, outgoing)
        }
        Ok(None) => false,
        Err(_) => true,
    }
}

fn is_step_reply(step: OwnStep, reply: &Reply) -> bool
    ensures { IsTrue result ↔ AnswersStep step reply.now }
{
    match step {
        OwnStep::Confirm { .. } => matches!(reply, Reply::Confirm(_)),
        OwnStep::Ending => matches!(reply, Reply::Ending(_)),
        OwnStep::Sent => matches!(reply, Reply::Sent(_)),
        OwnStep::Dropped => matches!(reply, Reply::Dropped(_)),
        OwnStep::Refused { .. } => matches!(reply, Reply::Refused(_)),
    }
}

fn answers_read(event: &Event) -> bool
    ensures { result ≡ answers_read event.now }
{
    matches!(event, Event::Unit(_) | Event::BadUnit | Event::Over)
}

fn answers_put(event: &Event) -> bool
    ensures { result ≡ answers_put event.now }
{
    matches!(event, Event::Go | Event::Over)
}

impl Machine {
    fn lane_fits(&self, told: Option<LaneValues>) -> bool
        ensures { IsTrue result ↔ LaneFits self.now.side told }
    {
        match told {
            None => false,
            Some(values) => {
                values_fit(values.checkpoint, values.window)
                    && (self.is_initiator() || values.agreed)
            }
        }
    }

    fn half_fits(&self, told: Option<SendState>) -> bool
        ensures { IsTrue result ↔ HalfFits self.now.agreed told }
    {
        match told {
            None => false,
            Some(state) => self.agreed || state.is_idle(),
        }
    }

    fn start_fits(&self, told: &Result<Outgoing, StepFault>) -> bool
        ensures { IsTrue result ↔ StartFits self.now.send told.now }
    {
        match told {
            Err(_) => true,
            Ok(outgoing) => {
                let next = self.send.state().last() as u64 + 1;
                let total = outgoing.total();
                outgoing.activity as u64 == next && 1 <= total && total <= LONGEST_ACTIVITY
            }
        }
    }

    /// The peer's line.
    fn is_line(&self, reply: &Reply) -> bool
        ensures { IsTrue result ↔ RepliesTo Phase.AsksPeer self.now reply.now }
    {
        match reply {
            Reply::Peer(told) => line_fits(told),
            _ => false,
        }
    }

    /// The values of the lane.
    fn are_values(&self, reply: &Reply) -> bool
        ensures { IsTrue result ↔ RepliesTo Phase.AsksValues self.now reply.now }
    {
        match reply {
            Reply::Values(told) => self.lane_fits(*told),
            _ => false,
        }
    }

    /// The state of the own half.
    fn is_recovery(&self, reply: &Reply) -> bool
        ensures { IsTrue result ↔ RepliesTo Phase.AsksRecovery self.now reply.now }
    {
        match reply {
            Reply::Recovery(told) => self.half_fits(*told),
            _ => false,
        }
    }

    /// The state of the other half.
    fn is_receiving(&self, state: SendState, reply: &Reply) -> bool
        ensures { IsTrue result ↔ RepliesTo (Phase.AsksReceiving state) self.now reply.now }
    {
        match reply {
            Reply::Receiving(told) => is_told(*told),
            _ => false,
        }
    }

    /// The activity that was under way.
    fn is_resumed(&self, state: SendState, reply: &Reply) -> bool
        requires { self.now.checkpoint ≤ 64 }
        ensures { IsTrue result ↔ RepliesTo (Phase.AsksResumed state) self.now reply.now }
    {
        match reply {
            Reply::Resumed(told) => resumed_fits(self.send.half().checkpoint(), state, told),
            _ => false,
        }
    }

    /// The activity that is started.
    fn is_start(&self, reply: &Reply) -> bool
        ensures { IsTrue result ↔ RepliesTo Phase.AsksStart self.now reply.now }
    {
        match reply {
            Reply::Start(told) => self.start_fits(told),
            _ => false,
        }
    }

    /// Whether this is the answer to what was asked.
    fn expects_reply(&self, reply: &Reply) -> bool
        requires { Fits self.now }
        ensures { IsTrue result ↔ AnswersAsk self.now.phase self.now (AnEvent.Reply reply.now) }
    {
        match self.phase {
            Phase::AsksPeer => self.is_line(reply),
            Phase::AsksValues => self.are_values(reply),
            Phase::AsksRecovery => self.is_recovery(reply),
            Phase::AsksReceiving { state } => self.is_receiving(state, reply),
            Phase::AsksResumed { state } => self.is_resumed(state, reply),
            Phase::AsksStart => self.is_start(reply),
            Phase::AsksStep { step } => is_step_reply(step, reply),
            Phase::AsksStands => matches!(reply, Reply::LaneOf(_)),
            Phase::AsksOldLane => matches!(reply, Reply::LaneOf(_)),
            Phase::AsksNewLane { .. } => matches!(reply, Reply::LaneOpen(_)),
            Phase::AsksSpare => matches!(reply, Reply::SpareLane(_)),
            Phase::AsksRoom => matches!(reply, Reply::CloseLane(_)),
            Phase::AsksBind => matches!(reply, Reply::Bind(_)),
            Phase::AsksAgree => matches!(reply, Reply::LaneAgree(_)),
            Phase::AsksDenied => matches!(reply, Reply::Denied(_)),
            Phase::AsksDue => matches!(reply, Reply::BatchFor(_)),
            Phase::AsksBatch => matches!(reply, Reply::BatchFor(_)),
            Phase::AsksStillIdle => matches!(reply, Reply::Recovery(_)),
            Phase::AsksState => matches!(reply, Reply::Recovery(_)),
            Phase::AsksSecure { .. } => matches!(reply, Reply::Secure(_)),
            Phase::AsksComplete { .. } => matches!(reply, Reply::Complete(_)),
            Phase::AsksDrop { .. } => matches!(reply, Reply::DropActivity(_)),
            Phase::AsksClose => matches!(reply, Reply::CloseLane(_)),
            Phase::AsksLast { .. } => true,
            _ => false,
        }
    }

    /// Whether this event answers the last action.
    pub fn expects(&self, event: &Event) -> bool
        requires { Fits self.now }
        ensures { IsTrue result ↔ Answers self.now event.now }
    {
        match self.phase {
            Phase::Begin => matches!(event, Event::Go),
            Phase::ReadsOpen => answers_read(event),
            Phase::ReadsAnswer => answers_read(event),
            Phase::Reads => answers_read(event),
            Phase::ReadsCloseAck => answers_read(event),
            Phase::PutsOpen => answers_put(event),
            Phase::PutsAccept => answers_put(event),
            Phase::Puts => answers_put(event),
            Phase::PutsClose => answers_put(event),
            Phase::PutsLast { .. } => answers_put(event),
            Phase::Ended { .. } => true,
            _ => match event {
                Event::Reply(reply) => self.expects_reply(reply),
                _ => false,
            },
        }
    }
}

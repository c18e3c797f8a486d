//! A session that is told what the spool answered.

ghost use Rattle.std.specs.Prelude.{◌≡◌, ◌<◌, Err, IfOk, OnErr};
ghost use Rattle.mta_session.specs.Fits.{Answers};
ghost use Rattle.mta_session.specs.Rank.{calls_left};
ghost use Rattle.mta_worker.specs.declared.telling.Lost.TheVariants as losts;
ghost use Rattle.mta_session.specs.declared.event.Event.TheVariants as events;
ghost use Rattle.mta_worker.specs.Told.{TellsLine};
ghost use Rattle.mta_session_run.specs.Running.{HasTold, IsCalled};
ghost use Rattle.mta_worker.specs.Halting.{fault_of, fault_of_piece, halt_after};
ghost use Rattle.mta_worker.specs.Telling.{IsAsked};

use crate::plan_laws::lines_may_be_told;
use mta_ber::Memory;
use mta_records::{CompleteFault, StepFault};
use mta_session::{Action, Event, Reply, Session};
use mta_session_run::tell;
use mta_stations::{Halt, halt_of};

/// Why a session is given up by its worker, which puts an Abort for it.
#[derive(Clone, Copy)]
pub enum Lost {
    /// No memory was left.
    Memory,
    /// The spool told of the lane what the session could not know.
    Lane,
}

impl From<Memory> for Lost {
    ghost use Rattle.std.specs.Prelude.{◌≡◌};
    ghost use Rattle.mta_worker.specs.declared.telling.Lost.TheVariants.{Memory as no_memory};

    ghost from_gives = { λ _ e. e ≡ no_memory };

    fn from(_: Memory) -> Lost {
        Lost::Memory
    }
}

// The fault of a call that takes a piece.
fn fault_of_piece(fault: &CompleteFault) -> Option<StepFault>
    ensures { result ≡ fault_of_piece fault.now }
{
    match fault {
        CompleteFault::Step(fault) => Some(*fault),
        CompleteFault::Bad(_) => None,
    }
}

/// Why a call of the spool was refused; none where it was not, or where the octets are bad.
pub fn fault_of(reply: &Reply) -> Option<StepFault>
    ensures { result ≡ fault_of reply.now }
{
    match reply {
        Reply::LaneOpen(Err(fault)) | Reply::Start(Err(fault)) => Some(*fault),
        Reply::Bind(Err(fault)) => Some(*fault),
        Reply::LaneAgree(Err(fault))
        | Reply::Confirm(Err(fault))
        | Reply::Ending(Err(fault))
        | Reply::Sent(Err(fault))
        | Reply::Dropped(Err(fault))
        | Reply::Denied(Err(fault))
        | Reply::Refused(Err(fault))
        | Reply::DropActivity(Err(fault))
        | Reply::CloseLane(Err(fault)) => Some(*fault),
        Reply::Secure(Err(fault)) => fault_of_piece(fault),
        Reply::Complete(Err(fault)) => fault_of_piece(fault),
        Reply::BatchFor(Err(_)) | Reply::Resumed(Err(_)) | Reply::Peer(Err(_)) => {
            Some(StepFault::Memory)
        }
        _ => None,
    }
}

/// Why the worker ends behind such an answer; none where it goes on.
pub fn halt_after(reply: &Reply) -> Option<Halt>
    ensures { result ≡ halt_after reply.now }
{
    match fault_of(reply) {
        Some(fault) => halt_of(fault),
        None => None,
    }
}

/// Tells a session what the spool answered. A reply that is none to its question is not told, and the session is lost.
pub fn told(session: &mut Session, reply: Reply) -> Result<Action, Lost>
    requires asked { IsAsked session.old }
    requires line { TellsLine (events.Reply reply) }
    ensures told { IfOk result (λ a. HasTold session.old (events.Reply reply) a session.new) }
    ensures called { IfOk result (λ a. IsCalled session.new a) }
    ensures falls { IfOk result (λ a. calls_left session.new < calls_left session.old) }
    ensures kept { OnErr result (session.new ≡ session.old) }
    ensures lane { result ≡ Err losts.Lane → Answers session.old (events.Reply reply) → ⊥ }
    ensures memory { result ≡ Err losts.Memory → Answers session.old (events.Reply reply) }
{
    let event = Event::Reply(reply);
    if !session.expects(&event) {
        return Err(Lost::Lane);
    }
    lines_may_be_told();
    Ok(tell(session, event)?)
}

//! Within one turn of the lock, which the caller took (`session.rt`): one call of the spool for a session, and the
//! looks behind it.

ghost use Rattle.std.specs.Prelude.{◌≡◌, ◌≤◌, ◌<◌, ◌↔◌, IfErr, IfNone, IfOk, IfSome, IsTrue};
ghost use Rattle.mta_shared.specs.Rule.{Grows};
ghost use Rattle.mta_spool.specs.Bases.{KeepsOn};
ghost use Rattle.mta_spool.specs.Stands.{TellsFewer};
ghost use Rattle.mta_worker.specs.Told.{TellsLine};
ghost use Rattle.mta_session.specs.declared.event.Action.TheVariants as actions;
ghost use Rattle.mta_session.specs.declared.event.Event.TheVariants as events;
ghost use Rattle.mta_session.specs.Rank.{calls_left};
ghost use Rattle.mta_session_run.specs.Running.{IsCalled};
ghost use Rattle.mta_worker.specs.Answers.{Answered};
ghost use Rattle.mta_worker.specs.Turns.{HasAnswered, HasLooked, IsLook, IsLost, IsLostLooking, noted, Replied};
ghost use Rattle.mta_worker.specs.Turns.{StartsElsewhere, WantsNoLook};

use crate::answering::answer;
use crate::telling::{Lost, halt_after, told};
use mta_edge::{Clock, Disk};
use mta_records::StepFault;
use mta_session::{Action, Ask, Reply, Session};
use mta_spool::Spool;
use mta_stations::Halt;
use std::alloc::Global;

// Whether an activity is to be started on a lane whose sending half is not as the session knows it.
fn starts_elsewhere<D: Disk + Drop, C: Clock + Drop>(
    spool: &Spool<D, C>,
    session: &Session,
    ask: &Ask,
) -> bool
    ensures { IsTrue result ↔ StartsElsewhere ask.now session.now spool.now }
{
    match ask {
        Ask::Start { lane, .. } => spool.recovery(*lane) != Some(session.sending()),
        _ => false,
    }
}

// The spool's answer; a Start is refused where it would begin elsewhere than the session knows.
fn reply_to<D: Disk + Drop, C: Clock + Drop>(
    alloc: Global,
    spool: &mut Spool<D, C>,
    session: &Session,
    ask: Ask,
) -> Reply
    ensures replied { Replied D.model C.model ask session.now spool.old result spool.new }
    ensures line { TellsLine (events.Reply result) }
    ensures keeps { KeepsOn D.model C.model spool.old spool.new }
    ensures grows { Grows spool.old.entries spool.new.entries }
    ensures clock { TellsFewer C.model spool.old.clock spool.new.clock }
{
    if starts_elsewhere(spool, session, &ask) {
        return Reply::Start(Err(StepFault::Unexpected));
    }
    answer(alloc, spool, ask)
}

// The spool's answer to a look at a lane; none to any other question.
fn look<D: Disk + Drop, C: Clock + Drop>(spool: &Spool<D, C>, ask: &Ask) -> Option<Reply>
    ensures answered { IfSome result (λ x. Answered D.model C.model ask.now spool.now x spool.now) }
    ensures look { IfSome result (λ x. IsLook ask.now) }
    ensures line { IfSome result (λ x. TellsLine (events.Reply x)) }
    ensures none { IfNone result (IsLook ask.now → ⊥) }
{
    match ask {
        Ask::Values { lane } => Some(Reply::Values(spool.values(*lane))),
        Ask::Recovery { lane } => Some(Reply::Recovery(spool.recovery(*lane))),
        Ask::Receiving { lane } => Some(Reply::Receiving(spool.receiving(*lane))),
        Ask::Resumed { lane } => Some(Reply::Resumed(spool.resumed(*lane))),
        _ => None,
    }
}

// Why the worker ends, if it does: the first cause stays.
fn noted(halt: Option<Halt>, reply: &Reply) -> Option<Halt>
    ensures { result ≡ noted halt reply.now }
{
    match halt {
        Some(halt) => Some(halt),
        None => halt_after(reply),
    }
}

/// Tells a session what it asks of its lane, until something else is wanted. No step is made. `halt` is why the worker
/// ends behind this session, if it does; the first cause stays.
pub fn answer_looks<D: Disk + Drop, C: Clock + Drop>(
    spool: &Spool<D, C>,
    session: &mut Session,
    first: Action,
    halt: &mut Option<Halt>,
) -> Result<Action, Lost>
    requires called { IsCalled session.old first }
    ensures looked { IfOk result
        (λ a. HasLooked D.model C.model spool.now session.old first halt.old session.new a halt.new) }
    ensures all { IfOk result WantsNoLook }
    ensures called { IfOk result (λ a. IsCalled session.new a) }
    ensures lost { IfErr result
        (IsLostLooking D.model C.model spool.now session.old first halt.old session.new halt.new) }
    ensures left { calls_left session.new ≤ calls_left session.old }
{
    let mut action = first;
    loop {
        let Action::Ask(ask) = &action else {
            return Ok(action);
        };
        let Some(reply) = look(spool, ask) else {
            return Ok(action);
        };
        *halt = noted(*halt, &reply);
        match told(session, reply) {
            Ok(next) => action = next,
            Err(lost) => return Err(lost),
        }
    }
}

/// Answers what a session asks: one call of the spool, which makes at most one step, and the looks behind it.
pub fn answer_all<D: Disk + Drop, C: Clock + Drop>(
    alloc: Global,
    spool: &mut Spool<D, C>,
    session: &mut Session,
    ask: Ask,
    halt: &mut Option<Halt>,
) -> Result<Action, Lost>
    requires called { IsCalled session.old (actions.Ask ask) }
    ensures answered { IfOk result
        (λ a. HasAnswered D.model C.model ask spool.old session.old halt.old spool.new session.new a halt.new) }
    ensures called { IfOk result (λ a. IsCalled session.new a) }
    ensures lost { IfErr result
        (IsLost D.model C.model ask spool.old session.old halt.old spool.new session.new halt.new) }
    ensures falls { IfOk result (λ a. calls_left session.new < calls_left session.old) }
    ensures keeps { KeepsOn D.model C.model spool.old spool.new }
    ensures grows { Grows spool.old.entries spool.new.entries }
    ensures clock { TellsFewer C.model spool.old.clock spool.new.clock }
{
    let reply = reply_to(alloc, spool, session, ask);
    *halt = noted(*halt, &reply);
    match told(session, reply) {
        Ok(action) => answer_looks(spool, session, action, halt),
        Err(lost) => Err(lost),
    }
}

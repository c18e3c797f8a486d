//! Two sessions of responders over one spool, by hand: the second overtakes the first.

ghost use Rattle.std.specs.Prelude.{◌≤◌, IfOk};
ghost use Rattle.mta_session.specs.Rank.{calls_left};
ghost use Rattle.mta_session.specs.declared.event.Action.TheVariants as actions;
ghost use Rattle.mta_session_run.specs.Running.{IsCalled, action_of};

use crate::spools::opened;
use crate::workers::held;
use crate::workers::links::{limits, link};
use anyhow::{Error, Result, anyhow, bail};
use mta_edge::{Disk, MemClock, Octets, SafeDisk};
use mta_links::MemLink;
use mta_records::{CompleteFault, StepFault};
use mta_session::{Action, Ask, Event, Reply, Session, SessionEnd};
use mta_session_run::{Came, carry_on, tell};
use mta_spool::Spool;
use mta_units::Frames;
use mta_worker::{answer, answer_all, own_name, told};
use std::alloc::Global;
use std::mem;

// A link, and what of it was not taken yet.
#[derive(Drop)]
struct Line {
    link: MemLink,
    frames: Frames,
}

fn lost() -> Error {
    anyhow!("no memory, or a session is lost")
}

fn name_of(ask: &Ask) -> &'static str {
    match ask {
        Ask::Secure { .. } => "Secure",
        Ask::Complete { .. } => "Complete",
        Ask::CloseLane { .. } => "CloseLane",
        _ => "another",
    }
}

fn fault_in(fault: &CompleteFault) -> Option<StepFault> {
    match fault {
        CompleteFault::Step(fault) => Some(*fault),
        CompleteFault::Bad(_) => None,
    }
}

// Why a question of a receiving end was refused.
fn refusal_in(reply: &Reply) -> Option<StepFault> {
    match reply {
        Reply::Complete(Err(fault)) => fault_in(fault),
        Reply::Secure(Err(fault)) => fault_in(fault),
        Reply::CloseLane(Err(fault)) => Some(*fault),
        _ => None,
    }
}

// A session and a question are let go in calls of their own, so that no other proof goes through their parts.
fn discard(_session: Session) {}

fn discard_ask(_ask: Ask) {}

// The session of the link that was given at this place, and what it wants first.
fn begun<D: Disk + Drop>(
    alloc: Global,
    held: &held::Held,
    spool: &Spool<D, MemClock>,
) -> Result<(Session, Action)>
    ensures { IfOk result (λ r. IsCalled r.0 r.1) }
{
    let Some(tables) = spool.tables() else {
        bail!("no tables");
    };
    let own = match own_name(tables) {
        Ok(own) => own,
        Err(_) => return Err(lost()),
    };
    let mut session = Session::responder(alloc, own, limits(held));
    match tell(&mut session, Event::Go) {
        Ok(action) => Ok((session, action)),
        Err(_) => {
            discard(session);
            Err(lost())
        }
    }
}

fn line_of(alloc: Global, held: &held::Held, place: usize) -> Result<Line> {
    let Some(given) = held.given.get(place) else {
        bail!("no such link");
    };
    Ok(Line {
        link: link(alloc, given)?,
        frames: Frames::new(alloc),
    })
}

// Carries a session on to its next question, or to its end.
fn next_of(alloc: Global, session: &mut Session, line: &mut Line, action: Action) -> Result<Came>
    requires { IsCalled session.old action }
    ensures called { IfOk result (λ c. IsCalled session.new (action_of c)) }
    ensures left { calls_left session.new ≤ calls_left session.old }
{
    match carry_on(alloc, &mut line.link, &mut line.frames, session, action) {
        Ok(came) => Ok(came),
        Err(_) => Err(lost()),
    }
}

// Carries a session on to its first question of this name, which is not answered, or to its end.
fn up_to<D: Disk + Drop>(
    alloc: Global,
    spool: &mut Spool<D, MemClock>,
    session: &mut Session,
    line: &mut Line,
    first: Action,
    name: &str,
) -> Result<Came>
    requires { IsCalled session.old first }
    ensures { IfOk result (λ c. IsCalled session.new (action_of c)) }
{
    let mut halt = None;
    let mut action = first;
    loop {
        let ask = match next_of(alloc, session, line, action)? {
            Came::Ends(end) => return Ok(Came::Ends(end)),
            Came::Asks(ask) => ask,
        };
        if name_of(&ask) == name {
            return Ok(Came::Asks(ask));
        }
        match answer_all(alloc, spool, session, ask, &mut halt) {
            Ok(next) => action = next,
            Err(_) => return Err(lost()),
        }
    }
}

// Carries a session on to its end.
fn to_end<D: Disk + Drop>(
    alloc: Global,
    spool: &mut Spool<D, MemClock>,
    session: &mut Session,
    line: &mut Line,
    first: Action,
) -> Result<SessionEnd>
    requires { IsCalled session.old first }
{
    match up_to(alloc, spool, session, line, first, "")? {
        Came::Ends(end) => Ok(end),
        Came::Asks(ask) => {
            discard_ask(ask);
            bail!("no question has this name")
        }
    }
}

// Carries a session on to its end, and lets it go.
fn spent<D: Disk + Drop>(
    alloc: Global,
    spool: &mut Spool<D, MemClock>,
    mut session: Session,
    line: &mut Line,
    first: Action,
) -> Result<SessionEnd>
    requires { IsCalled session first }
{
    let end = to_end(alloc, spool, &mut session, line, first);
    discard(session);
    end
}

// The second session from its beginning to its end.
fn second<D: Disk + Drop>(
    alloc: Global,
    held: &held::Held,
    spool: &mut Spool<D, MemClock>,
    line: &mut Line,
) -> Result<SessionEnd> {
    let (session, action) = begun(alloc, held, spool)?;
    spent(alloc, spool, session, line, action)
}

// The question that was held is answered, and the session goes on to its end.
fn go_on<D: Disk + Drop>(
    alloc: Global,
    spool: &mut Spool<D, MemClock>,
    session: &mut Session,
    line: &mut Line,
    ask: Ask,
) -> Result<(Option<StepFault>, SessionEnd)>
    requires { IsCalled session.old (actions.Ask ask) }
{
    let reply = answer(alloc, spool, ask);
    let refusal = refusal_in(&reply);
    match told(session, reply) {
        Ok(action) => Ok((refusal, to_end(alloc, spool, session, line, action)?)),
        Err(_) => Err(lost()),
    }
}

// What is told where the first session comes to its end before it is held.
fn said_alone(alloc: Global, first: &SessionEnd) -> Result<String> {
    Ok(format!(in alloc; "first {first:?}")?)
}

// What is told of both.
fn said(
    alloc: Global,
    refusal: &Option<StepFault>,
    first: &SessionEnd,
    second: &SessionEnd,
) -> Result<String> {
    Ok(format!(in alloc; "{refusal:?} first {first:?} second {second:?}")?)
}

// The first session is held at this question while the second is carried on to its end.
fn held_at<D: Disk + Drop>(
    alloc: Global,
    held: &held::Held,
    spool: &mut Spool<D, MemClock>,
    session: &mut Session,
    one: &mut Line,
    other: &mut Line,
    ask: Ask,
) -> Result<String>
    requires { IsCalled session.old (actions.Ask ask) }
{
    match second(alloc, held, spool, other) {
        Ok(second) => {
            let (refusal, first) = go_on(alloc, spool, session, one, ask)?;
            said(alloc, &refusal, &first, &second)
        }
        Err(error) => {
            discard_ask(ask);
            Err(error)
        }
    }
}

// A session from this action on, which is held at a question of this name, and the second session then.
fn from_action<D: Disk + Drop>(
    alloc: Global,
    held: &held::Held,
    spool: &mut Spool<D, MemClock>,
    session: &mut Session,
    one: &mut Line,
    other: &mut Line,
    first: Action,
    name: &str,
) -> Result<String>
    requires { IsCalled session.old first }
{
    match up_to(alloc, spool, session, one, first, name)? {
        Came::Ends(end) => said_alone(alloc, &end),
        Came::Asks(ask) => held_at(alloc, held, spool, session, one, other, ask),
    }
}

// The same, and the session is let go.
fn spent_from<D: Disk + Drop>(
    alloc: Global,
    held: &held::Held,
    spool: &mut Spool<D, MemClock>,
    mut session: Session,
    one: &mut Line,
    other: &mut Line,
    first: Action,
    name: &str,
) -> Result<String>
    requires { IsCalled session first }
{
    let said = from_action(alloc, held, spool, &mut session, one, other, first, name);
    discard(session);
    said
}

// Both sessions, the first of which is held at a question of this name.
fn both<D: Disk + Drop>(
    alloc: Global,
    held: &held::Held,
    spool: &mut Spool<D, MemClock>,
    one: &mut Line,
    other: &mut Line,
    name: &str,
) -> Result<String> {
    let (session, action) = begun(alloc, held, spool)?;
    spent_from(alloc, held, spool, session, one, other, action, name)
}

// Both over a spool, and its disk then.
fn both_over<D: Disk + Drop>(
    alloc: Global,
    held: &held::Held,
    mut spool: Spool<D, MemClock>,
    one: &mut Line,
    other: &mut Line,
    name: &str,
) -> (D, Result<String>) {
    let said = both(alloc, held, &mut spool, one, other, name);
    (spool.end(), said)
}

fn puts_of(alloc: Global, one: &Line, other: &Line) -> Result<Vec<Vec<u8>>> {
    let mut puts = Vec::new(alloc);
    for line in [one, other] {
        puts.push(line.link.octets().to_vec(alloc)?)?;
    }
    Ok(puts)
}

// Both over the disk, and what it holds and the links were put then is kept.
fn overtake(
    alloc: Global,
    held: &mut held::Held,
    one: &mut Line,
    other: &mut Line,
    name: &str,
) -> Result<String> {
    let octets = mem::replace(&mut held.case.disk, Vec::new(alloc));
    let disk = SafeDisk::new(alloc, Octets::from_vec(octets));
    let spool = opened(alloc, disk, held.case.moment)?;
    let (disk, said) = both_over(alloc, held, spool, one, other, name);
    let said = said?;
    held.case.disk = disk.octets().to_vec(alloc)?;
    held.given = Vec::new(alloc);
    held.puts = puts_of(alloc, one, other)?;
    Ok(said)
}

/// Carries on two sessions, the first of which is held at its first question of this name until the second ends.
pub fn overtakes(alloc: Global, held: &mut held::Held, name: &str) -> Result<String> {
    let mut one = line_of(alloc, held, 0)?;
    let mut other = line_of(alloc, held, 1)?;
    overtake(alloc, held, &mut one, &mut other, name)
}

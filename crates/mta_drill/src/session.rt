//! One session between two agents, which are stepped in turn.
//!
//! In come both spools and the peer that the first agent calls. The first opens or binds its lane, the second answers.
//! Behind each act of the first the second goes on until it rests. Where the first is over, or waits for what does not
//! come, the link ends. Out goes whether the lane was closed, or that memory is wanted.

ghost use Rattle.std.specs.Prelude.{◌≡◌, ◌⊎◌, ℕ, IfOk, IfSome};
ghost use Rattle.mta_session_run.specs.Running.{IsCalled};
ghost use Rattle.mta_worker.specs.Begun.{MayGoOn};
ghost use Rattle.mta_drill_answer_laws.specs.Answers.{Works};
ghost use Rattle.mta_drill_laws.specs.Tables.{east};
ghost use Rattle.mta_drill_stage_laws.specs.Sessions.{Between, IsDrill};
ghost use Rattle.mta_drill_stage_laws.specs.World.{World};
ghost use Rattle.mta_drill.specs.Acts.{IsSide};
ghost use Rattle.mta_drill.specs.Runs.{GaveUp, HasCalled, HasMet, HasRunOut, HaveRested, IsCallerOf, Listens};
ghost use Rattle.mta_drill.specs.Runs.{our_reference};
ghost use Rattle.mta_drill.specs.Sides.{MayWait};

use crate::agent::{Agent, check};
use crate::breaks::Breaks;
use crate::side::{Done, Rest, Side};
use mta_ber::{Memory, Word};
use mta_session::{Action, Event, Limits, Session};
use mta_session_run::tell;
use mta_worker::{Lost, Ready, get_ready, own_name};
use std::alloc::Global;

// A session has no more units, as one that is served.
const LIMITS: Limits = Limits {
    sessions: 1,
    units: 1_048_576,
};

// The side that calls, where a session begins. Want of memory is refused.
fn side_of(alloc: Global, ready: Ready) -> Result<Option<(Side, Action)>, Memory>
    requires goes_on { MayGoOn ready }
    ensures called { IfOk result (λ o. IfSome o (λ s. IsCalled s.0.session s.1)) }
    ensures caller { IfOk result (IsCallerOf ready) }
{
    match ready {
        Ready::Begins(session, first) => match first {
            Ok(action) => Ok(Some((Side::new(alloc, session), action))),
            Err(Lost::Memory) => Err(Memory),
            Err(Lost::Lane) => Ok(None),
        },
        Ready::Closed => Ok(None),
        Ready::Halts(halt) => {
            check(Some(halt))?;
            Ok(None)
        }
    }
}

// The side that calls; none where no session begins.
fn caller(alloc: Global, spool: &mut Agent, peer: &Word) -> Result<Option<(Side, Action)>, Memory>
    ensures called { IfOk result (λ o. IfSome o (λ s. IsCalled s.0.session s.1)) }
    ensures readied { IfOk result (λ o. HasCalled peer.now spool.old o spool.new) }
{
    let mut halt = None;
    let ready = get_ready(alloc, spool, peer, &LIMITS, &mut halt);
    check(halt)?;
    let side = side_of(alloc, ready)?;
    Ok(side)
}

// The side that is called; none where its spool has no tables.
fn listener(alloc: Global, spool: &Agent) -> Result<Option<(Side, Action)>, Memory>
    ensures called { IfOk result (λ o. IfSome o (λ s. IsCalled s.0.session s.1)) }
    ensures listens { IfOk result (Listens spool.now) }
{
    let Some(tables) = spool.tables() else {
        return Ok(None);
    };
    let own = own_name(tables)?;
    let mut session = Session::responder(alloc, own, LIMITS);
    let action = tell(&mut session, Event::Go)?;
    Ok(Some((Side::new(alloc, session), action)))
}

// Where both sides rest.
#[derive(Clone, Copy, Drop)]
struct Rests {
    calling: Rest,
    listening: Rest,
}

// Carries both sides on until the caller rests: behind each of its acts the listener goes on.
fn run(
    alloc: Global,
    first: &mut Agent,
    second: &mut Agent,
    breaks: &mut Breaks,
    caller: &mut Side,
    calls: Action,
    listener: &mut Side,
    listens: Action,
) -> Result<Rests, Memory>
    requires calls { IsCalled caller.old.session calls }
    requires listens { IsCalled listener.old.session listens }
    ensures calling { IfOk result (λ r. MayWait caller.new.session r.calling) }
    ensures listening { IfOk result (λ r. MayWait listener.new.session r.listening) }
    ensures ran { (w : World) → IsSide caller.old first.old calls breaks.old w.calling w.link
        → IsSide listener.old second.old listens breaks.old w.listening w.link
        → IfOk result (λ r. HaveRested caller.new listener.new first.new second.new r breaks.new w ⊎ GaveUp w) }
{
    let mut listening = listener.carry_on(alloc, second, breaks, &mut caller.came, listens)?;
    let mut action = calls;
    loop {
        match caller.act(alloc, first, breaks, &mut listener.came, action)? {
            Done::Told(next) => action = next,
            Done::Rests(calling) => return Ok(Rests { calling, listening }),
        }
        let rests = listener.go_on(alloc, second, breaks, &mut caller.came, listening)?;
        listening = rests;
    }
}

// Carries both sides on to their end; whether the caller's lane was closed. Where the caller rests the link is over.
fn run_to_end(
    alloc: Global,
    first: &mut Agent,
    second: &mut Agent,
    breaks: &mut Breaks,
    mut caller: Side,
    calls: Action,
    mut listener: Side,
    listens: Action,
) -> Result<bool, Memory>
    requires calls { IsCalled caller.session calls }
    requires listens { IsCalled listener.session listens }
    ensures { (w : World) → IsSide caller first.old calls breaks.old w.calling w.link
        → IsSide listener second.old listens breaks.old w.listening w.link
        → IfOk result (λ b. HasRunOut b first.new second.new breaks.new w ⊎ GaveUp w) }
{
    let Rests { calling, listening } = run(
        alloc,
        first,
        second,
        breaks,
        &mut caller,
        calls,
        &mut listener,
        listens,
    )?;
    caller.came.break_off();
    listener.came.break_off();
    caller.go_on(alloc, first, breaks, &mut listener.came, calling)?;
    listener.go_on(alloc, second, breaks, &mut caller.came, listening)?;
    Ok(calling == Rest::Over { is_closed: true })
}

/// One session between both agents, from its opening to its end; whether the lane was closed.
pub(crate) fn session(
    alloc: Global,
    first: &mut Agent,
    second: &mut Agent,
    peer: &Word,
    breaks: &mut Breaks,
) -> Result<bool, Memory>
    ensures { (before count n : ℕ) → IsDrill before count → peer.now ≡ east → Works first.old
        → Works second.old → Between before count our_reference n first.old.current second.old.current breaks.old
        → IfOk result (λ b. HasMet first.old second.old breaks.old b first.new second.new breaks.new) }
{
    let Some((calling, calls)) = caller(alloc, first, peer)? else {
        return Ok(false);
    };
    let Some((listening, listens)) = listener(alloc, second)? else {
        return Ok(false);
    };
    run_to_end(
        alloc, first, second, breaks, calling, calls, listening, listens,
    )
}

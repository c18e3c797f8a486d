//! One session over its link: it is carried on, and its questions are answered, each in one turn of the lock.

ghost use Rattle.std.specs.Prelude.{◌≡◌, ◌≤◌, ◌<◌, None, IfErr, IfOk};
ghost use Rattle.mta_session.specs.Rank.{calls_left};
ghost use Rattle.mta_session.specs.declared.event.Action.TheVariants as actions;
ghost use Rattle.mta_session_run.specs.Running.{IsCalled};
ghost use Rattle.mta_shared.specs.Passes.{lock_of, IsReady, Worked};
ghost use Rattle.mta_units.specs.Feed.{no_feed};
ghost use Rattle.mta_worker.specs.Serving.{GivesUp, halt_behind, InTurn, IsServed, reason_of};
ghost use Rattle.mta_worker.specs.Turns.{HasAnswered, IsLost};

use crate::telling::Lost;
use crate::turn::answer_all;
use mta_edge::{Clock, Disk};
use mta_links::Link;
use mta_records::Step;
use mta_session::{Action, Ask, Session, SessionEnd};
use mta_session_run::{Came, carry_on, put_unit};
use mta_shared::{Pass, Shared};
use mta_spool::Spool;
use mta_stations::Halt;
use mta_units::{Frames, Unit};
use std::alloc::Global;
use std::sync::Wait;

// The reasons of an Abort (X.228): a local system problem, and a protocol error.
const LOCAL_SYSTEM_PROBLEM: u32 = 0;

const PROTOCOL_ERROR: u32 = 4;

/// What a session came to: how it ended, where one was begun, and why its worker ends, if it does.
#[derive(Drop)]
pub struct Served {
    pub end: Option<SessionEnd>,
    pub halt: Option<Halt>,
}

// The reason that its peer is told.
fn reason_of(lost: Lost) -> u32
    ensures { result ≡ reason_of lost }
{
    match lost {
        Lost::Memory => LOCAL_SYSTEM_PROBLEM,
        Lost::Lane => PROTOCOL_ERROR,
    }
}

// Why the worker ends behind a session that it gave up: the first cause stays.
fn halt_behind(halt: Option<Halt>, lost: Lost) -> Option<Halt>
    ensures { result ≡ halt_behind halt lost }
{
    match (halt, lost) {
        (Some(halt), _) => Some(halt),
        (None, Lost::Memory) => Some(Halt::Memory),
        (None, Lost::Lane) => None,
    }
}

/// Gives a session up. An Abort is put, unless the session comes to its end already; where the link fails, or there is
/// no memory for its octets, it is not put wholly.
pub fn give_up<L: Link>(
    alloc: Global,
    link: &mut L,
    has_turned: bool,
    lost: Lost,
    halt: Option<Halt>,
) -> Served
    ensures gives { GivesUp L.model lost has_turned halt link.old link.new result }
    ensures later { L.model.faults link.old ≤ L.model.faults link.new }
{
    let reason = reason_of(lost);
    if !has_turned {
        let _ = put_unit(alloc, link, &Unit::Abort { reason });
    }
    Served {
        end: Some(SessionEnd::Aborted { reason }),
        halt: halt_behind(halt, lost),
    }
}

// One question in one turn of the lock.
fn one_turn<R: Wait, D: Disk + Drop, C: Clock + Drop>(
    rt: &R,
    alloc: Global,
    shared: &Shared<Spool<D, C>>,
    pass: &mut Pass<Step>,
    session: &mut Session,
    ask: Ask,
    halt: &mut Option<Halt>,
) -> Result<Action, Lost>
    requires ready { IsReady (lock_of shared.now) pass.old }
    requires called { IsCalled session.old (actions.Ask ask) }
    ensures worked { Worked pass.old pass.new }
    ensures answered { IfOk result (λ a. InTurn D.model C.model
        (λ s t. HasAnswered D.model C.model ask s session.old halt.old t session.new a halt.new) pass.old pass.new) }
    ensures called { IfOk result (λ a. IsCalled session.new a) }
    ensures falls { IfOk result (λ a. calls_left session.new < calls_left session.old) }
    ensures lost { IfErr result (λ e. InTurn D.model C.model
        (λ s t. IsLost D.model C.model ask s session.old halt.old t session.new halt.new e) pass.old pass.new) }
{
    let mut turn = shared.take(rt, pass);
    let answered = answer_all(alloc, &mut turn.value, session, ask, halt);
    shared.give(pass, turn);
    answered
}

/// Runs a session over its link, from an action of it to its end.
pub fn run_session<R: Wait, D: Disk + Drop, C: Clock + Drop, L: Link>(
    rt: &R,
    alloc: Global,
    shared: &Shared<Spool<D, C>>,
    pass: &mut Pass<Step>,
    link: &mut L,
    session: &mut Session,
    first: Action,
    first_halt: Option<Halt>,
) -> Served
    requires ready { IsReady (lock_of shared.now) pass.old }
    requires called { IsCalled session.old first }
    ensures worked { Worked pass.old pass.new }
    ensures served { IsServed D.model C.model L.model
        (record {
          session = session.old;
          action = first;
          link = link.old;
          feed = no_feed;
          pass = pass.old;
          halt = first_halt;
        }) link.new pass.new result }
    ensures later { L.model.faults link.old ≤ L.model.faults link.new }
{
    let mut frames = Frames::new(alloc);
    let mut halt = first_halt;
    let mut action = first;
    loop {
        let came = match carry_on(alloc, link, &mut frames, session, action) {
            Ok(came) => came,
            Err(_) => return give_up(alloc, link, session.has_turned(), Lost::Memory, halt),
        };
        match came {
            Came::Ends(end) => {
                return Served {
                    end: Some(end),
                    halt,
                };
            }
            Came::Asks(ask) => {
                match one_turn(rt, alloc, shared, pass, session, ask, &mut halt) {
                    Ok(next) => action = next,
                    Err(lost) => return give_up(alloc, link, session.has_turned(), lost, halt),
                }
            }
        }
    }
}

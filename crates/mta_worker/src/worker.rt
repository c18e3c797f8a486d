//! A worker: one session after another on the links of a station.

ghost use Rattle.std.specs.Prelude.{◌≡◌, ◌≤◌};
ghost use Rattle.mta_shared.specs.Passes.{lock_of, IsReady, Worked};
ghost use Rattle.mta_worker.specs.Serving.{InTurn};
ghost use Rattle.mta_worker.specs.Working.{Behind, HasSettled, HasWorked, TurnsOnce, is_closed};

use crate::serving::serve_link;
use crate::session::Served;
use mta_edge::{Clock, Disk};
use mta_links::Station;
use mta_records::{Step, StepFault};
use mta_session::{Limits, SessionEnd};
use mta_shared::{Pass, Shared};
use mta_spool::{Spool, Turned};
use mta_stations::{Halt, WorkerEnd, halt_of};
use std::alloc::Global;
use std::sync::Wait;

// What a turn of the lock did of what is due.
fn due_turn<R: Wait, D: Disk + Drop, C: Clock + Drop>(
    rt: &R,
    shared: &Shared<Spool<D, C>>,
    pass: &mut Pass<Step>,
) -> Result<Turned, StepFault>
    requires ready { IsReady (lock_of shared.now) pass.old }
    ensures worked { Worked pass.old pass.new }
    ensures turned { InTurn D.model C.model (λ s t. TurnsOnce D.model C.model s result t) pass.old pass.new }
{
    let mut turn = shared.take(rt, pass);
    let turned = turn.value.turn();
    shared.give(pass, turn);
    turned
}

// Does what is due until nothing is, one step in a turn of the lock; why the worker ends, if it does.
fn settle<R: Wait, D: Disk + Drop, C: Clock + Drop>(
    rt: &R,
    shared: &Shared<Spool<D, C>>,
    pass: &mut Pass<Step>,
) -> Option<Halt>
    requires ready { IsReady (lock_of shared.now) pass.old }
    ensures worked { Worked pass.old pass.new }
    ensures settled { HasSettled D.model C.model pass.old pass.new result }
{
    loop {
        match due_turn(rt, shared, pass) {
            Ok(Turned::Did(step)) => drop(step),
            Ok(Turned::Quiet { .. }) => return None,
            Err(fault) => return halt_of(fault),
        }
    }
}

// Whether the session ended with the lane closed.
fn is_closed(end: &Option<SessionEnd>) -> bool
    ensures { result ≡ is_closed end.now }
{
    matches!(end, Some(SessionEnd::Closed))
}

// What comes behind a session: what is due, or the worker ends at once.
fn settle_behind<R: Wait, D: Disk + Drop, C: Clock + Drop>(
    rt: &R,
    shared: &Shared<Spool<D, C>>,
    pass: &mut Pass<Step>,
    halt: Option<Halt>,
) -> Option<Halt>
    requires ready { IsReady (lock_of shared.now) pass.old }
    ensures worked { Worked pass.old pass.new }
    ensures behind { Behind D.model C.model pass.old halt pass.new result }
{
    match halt {
        Some(halt) => Some(halt),
        None => settle(rt, shared, pass),
    }
}

// The most links that a worker gives back.
fn most_links(limits: &Limits) -> u32
    ensures { result ≡ limits.now.sessions }
{
    limits.sessions
}

/// Serves one session after another on the links of a station, up to `limits.sessions`, and does what is due behind
/// each. The lock is held for one step at a time, and never while a link is read or written.
///
/// It ends where the limit is met, where the station has no more links or has failed, where the tables recorded last do
/// not name the peer that the station calls, where a step was refused by the disk, for want of room, of numbers or of
/// memory, and where a session wanted memory.
pub fn work<R: Wait, D: Disk + Drop, C: Clock + Drop, S: Station>(
    rt: &R,
    alloc: Global,
    shared: &Shared<Spool<D, C>>,
    pass: &mut Pass<Step>,
    station: &mut S,
    limits: &Limits,
) -> WorkerEnd
    requires ready { IsReady (lock_of shared.now) pass.old }
    ensures worked { Worked pass.old pass.new }
    ensures did { HasWorked D.model C.model S.Link.model S.model limits.now
        (record { station = station.old; pass = pass.old; sessions = 0; closed = 0 }) station.new pass.new result }
    ensures out { S.model.out station.new ≡ S.model.out station.old }
{
    let most = most_links(limits);
    let mut sessions: u32 = 0;
    let mut closed: u32 = 0;
    while sessions < most {
        let mut link = match station.next() {
            Ok(Some(link)) => link,
            Ok(None) => {
                return WorkerEnd {
                    sessions,
                    closed,
                    halt: Halt::StationEnded,
                };
            }
            Err(_) => {
                return WorkerEnd {
                    sessions,
                    closed,
                    halt: Halt::StationFailed,
                };
            }
        };
        let Served { end, halt } = serve_link(
            rt,
            alloc,
            shared,
            pass,
            &mut link,
            station.role(),
            limits,
        );
        station.back(link);
        sessions += 1;
        if is_closed(&end) {
            closed += 1;
        }
        if let Some(halt) = settle_behind(rt, shared, pass, halt) {
            return WorkerEnd {
                sessions,
                closed,
                halt,
            };
        }
    }
    WorkerEnd {
        sessions,
        closed,
        halt: Halt::Limit,
    }
}

//! One session over a link that a station gave.

ghost use Rattle.std.specs.Prelude.{◌≡◌, ◌≤◌, IfOk, IfSome};
ghost use Rattle.mta_worker.specs.Names.{IsName};
ghost use Rattle.mta_shared.specs.Passes.{lock_of, IsReady, Worked};
ghost use Rattle.mta_worker.specs.Begun.{MayGoOn};
ghost use Rattle.mta_worker.specs.Readying.{IsReadied};
ghost use Rattle.mta_worker.specs.Served.{HasCalled, HasListened, IsLinkServed, IsOwnName, none_begun};
ghost use Rattle.mta_worker.specs.Serving.{InTurn};

use crate::name::own_name;
use crate::ready::{Ready, get_ready};
use crate::session::{Served, give_up, run_session};
use crate::telling::Lost;
use mta_ber::{Memory, Word};
use mta_edge::{Clock, Disk};
use mta_links::{Link, Role};
use mta_records::Step;
use mta_session::{Event, Limits, Session};
use mta_session_run::tell;
use mta_shared::{Pass, Shared};
use mta_spool::Spool;
use mta_stations::Halt;
use std::alloc::Global;
use std::sync::Wait;

// A lane that was never agreed is closed in a turn of its own, before the next is looked for: of a role at most 64
// lanes are open with a peer.
const MOST_TRIES: u32 = 65;

// No session was begun.
fn none_begun(halt: Halt) -> Served
    ensures { result ≡ none_begun halt }
{
    Served {
        end: None,
        halt: Some(halt),
    }
}

// Opens or binds a lane to a peer in one turn of the lock.
fn ready_in_turn<R: Wait, D: Disk + Drop, C: Clock + Drop>(
    rt: &R,
    alloc: Global,
    shared: &Shared<Spool<D, C>>,
    pass: &mut Pass<Step>,
    peer: &Word,
    limits: &Limits,
    halt: &mut Option<Halt>,
) -> Ready
    requires ready { IsReady (lock_of shared.now) pass.old }
    ensures worked { Worked pass.old pass.new }
    ensures readied { InTurn D.model C.model
        (λ s t. IsReadied D.model C.model peer.now limits.now.units s halt.old t halt.new result) pass.old pass.new }
    ensures called { MayGoOn result }
{
    let mut turn = shared.take(rt, pass);
    let ready = get_ready(alloc, &mut turn.value, peer, limits, halt);
    shared.give(pass, turn);
    ready
}

// The session of a link by which this agent called a peer.
fn call<R: Wait, D: Disk + Drop, C: Clock + Drop, L: Link>(
    rt: &R,
    alloc: Global,
    shared: &Shared<Spool<D, C>>,
    pass: &mut Pass<Step>,
    link: &mut L,
    peer: &Word,
    limits: &Limits,
) -> Served
    requires ready { IsReady (lock_of shared.now) pass.old }
    ensures worked { Worked pass.old pass.new }
    ensures called { HasCalled D.model C.model L.model peer.now limits.now.units pass.old link.old link.new pass.new
        result }
    ensures later { L.model.faults link.old ≤ L.model.faults link.new }
{
    for _ in 0..MOST_TRIES {
        let mut halt = None;
        match ready_in_turn(rt, alloc, shared, pass, peer, limits, &mut halt) {
            Ready::Closed => {}
            Ready::Halts(halt) => return none_begun(halt),
            Ready::Begins(mut session, first) => match first {
                Ok(action) => return run_session(
                    rt,
                    alloc,
                    shared,
                    pass,
                    link,
                    &mut session,
                    action,
                    halt,
                ),
                Err(lost) => return give_up(alloc, link, session.has_turned(), lost, halt),
            },
        }
    }
    none_begun(Halt::Memory)
}

// The agent's own name, in the tables recorded last; none where none are recorded.
fn own_of<D: Disk + Drop, C: Clock + Drop>(spool: &Spool<D, C>) -> Result<Option<Word>, Memory>
    ensures own { IsOwnName spool.now.current result }
    ensures shown { IfOk result (λ o. IfSome o IsName) }
{
    match spool.tables() {
        Some(tables) => Ok(Some(own_name(tables)?)),
        None => Ok(None),
    }
}

// The same, in a turn of the lock.
fn own_in_turn<R: Wait, D: Disk + Drop, C: Clock + Drop>(
    rt: &R,
    shared: &Shared<Spool<D, C>>,
    pass: &mut Pass<Step>,
) -> Result<Option<Word>, Memory>
    requires ready { IsReady (lock_of shared.now) pass.old }
    ensures worked { Worked pass.old pass.new }
    ensures own { InTurn D.model C.model (λ s t. IsOwnName s.current result × (t ≡ s)) pass.old pass.new }
    ensures shown { IfOk result (λ o. IfSome o IsName) }
{
    let turn = shared.take(rt, pass);
    let own = own_of(&turn.value);
    shared.give(pass, turn);
    own
}

// The session of a link by which a peer called.
fn listen<R: Wait, D: Disk + Drop, C: Clock + Drop, L: Link>(
    rt: &R,
    alloc: Global,
    shared: &Shared<Spool<D, C>>,
    pass: &mut Pass<Step>,
    link: &mut L,
    limits: &Limits,
) -> Served
    requires ready { IsReady (lock_of shared.now) pass.old }
    ensures worked { Worked pass.old pass.new }
    ensures listened { HasListened D.model C.model L.model limits.now.units pass.old link.old link.new pass.new result }
    ensures later { L.model.faults link.old ≤ L.model.faults link.new }
{
    let own = match own_in_turn(rt, shared, pass) {
        Ok(Some(own)) => own,
        Ok(None) => return none_begun(Halt::NoPeer),
        Err(_) => return none_begun(Halt::Memory),
    };
    let mut session = Session::responder(alloc, own, *limits);
    match tell(&mut session, Event::Go) {
        Ok(action) => run_session(rt, alloc, shared, pass, link, &mut session, action, None),
        Err(_) => give_up(alloc, link, false, Lost::Memory, None),
    }
}

/// Serves one session over a link that a station of this role gave.
pub fn serve_link<R: Wait, D: Disk + Drop, C: Clock + Drop, L: Link>(
    rt: &R,
    alloc: Global,
    shared: &Shared<Spool<D, C>>,
    pass: &mut Pass<Step>,
    link: &mut L,
    role: &Role,
    limits: &Limits,
) -> Served
    requires ready { IsReady (lock_of shared.now) pass.old }
    ensures worked { Worked pass.old pass.new }
    ensures served { IsLinkServed D.model C.model L.model role.now limits.now.units pass.old link.old link.new pass.new
        result }
    ensures later { L.model.faults link.old ≤ L.model.faults link.new }
{
    match role {
        Role::In => listen(rt, alloc, shared, pass, link, limits),
        Role::Out(peer) => call(rt, alloc, shared, pass, link, peer, limits),
    }
}

//! What stands before an initiator's session, in one turn of the lock: its lane is opened or bound.

ghost use Rattle.std.specs.Prelude.{◌≡◌, ℕ, Option, IfOk};
ghost use Rattle.mta_stations.specs.declared.end.Halt.{Halt as HaltValue};
ghost use Rattle.mta_shared.specs.Rule.{Grows};
ghost use Rattle.mta_spool.specs.Bases.{KeepsOn};
ghost use Rattle.mta_spool.specs.Stands.{TellsFewer};
ghost use Rattle.mta_worker.specs.Plans.{IsPlan};
ghost use Rattle.mta_session.specs.Session.{new_initiator};
ghost use Rattle.mta_session.specs.declared.event.InitiatorPlan.{InitiatorPlan as InitiatorPlanValue};
ghost use Rattle.mta_session_run.specs.Running.{IsCalled};
ghost use Rattle.mta_worker.specs.Begun.{MayGoOn};
ghost use Rattle.mta_worker.specs.Readying.{Begins, halt_before, IsReadied, IsStepped};
ghost use Rattle.mta_worker.specs.declared.proposal.Next.TheVariants as nexts;

use crate::plan::on_lane;
use crate::proposal::{Next, next_with};
use crate::telling::Lost;
use crate::turn::answer_looks;
use mta_ber::Word;
use mta_edge::{Clock, Disk};
use mta_records::{LaneRole, StepFault};
use mta_session::{Action, Event, InitiatorPlan, Limits, Session};
use mta_session_run::tell;
use mta_spool::Spool;
use mta_stations::{Halt, halt_of};
use std::alloc::Global;

/// What came of the turn before an initiator's session.
#[derive(Drop)]
pub enum Ready {
    /// No session begins, and the worker ends.
    Halts(Halt),
    /// A lane whose values were never agreed was closed; a new turn looks again.
    Closed,
    /// The lane is opened or bound, and its session begins with this action, or is given up.
    Begins(Session, Result<Action, Lost>),
}

// Why the worker ends whose step before a session was refused: for want of room, numbers or memory, or for the disk.
// For its lane none is refused that is made in the turn in which it was chosen: that is told as want of memory.
fn halt_before(fault: StepFault) -> Halt
    ensures { result ≡ halt_before fault }
{
    halt_of(fault).unwrap_or(Halt::Memory)
}

// The first call of a new session, and the looks behind it.
fn first_of<D: Disk + Drop, C: Clock + Drop>(
    spool: &Spool<D, C>,
    session: &mut Session,
    halt: &mut Option<Halt>,
) -> Result<Action, Lost>
    requires new { (plan : InitiatorPlanValue) × (units : ℕ) × (session.old ≡ new_initiator plan units)
        × IsPlan plan }
    ensures begins { (plan : InitiatorPlanValue) (units : ℕ) → session.old ≡ new_initiator plan units →
        Begins D.model C.model spool.now plan units halt.old session.new halt.new result }
    ensures called { IfOk result (λ a. IsCalled session.new a) }
{
    match tell(session, Event::Go) {
        Ok(action) => answer_looks(spool, session, action, halt),
        Err(_) => Err(Lost::Memory),
    }
}

// The session of a plan, behind the step that opened or bound its lane.
fn begin<D: Disk + Drop, C: Clock + Drop>(
    alloc: Global,
    spool: &Spool<D, C>,
    plan: InitiatorPlan,
    limits: &Limits,
    halt: &mut Option<Halt>,
) -> (Session, Result<Action, Lost>)
    requires plan { IsPlan plan }
    ensures begins { Begins D.model C.model spool.now plan limits.now.units halt.old result.0 halt.new result.1 }
    ensures called { IfOk result.1 (λ a. IsCalled result.0 a) }
{
    let mut session = Session::initiator(alloc, plan, *limits);
    let first = first_of(spool, &mut session, halt);
    (session, first)
}

// Opens a lane, and begins its session.
fn open_lane<D: Disk + Drop, C: Clock + Drop>(
    alloc: Global,
    spool: &mut Spool<D, C>,
    plan: InitiatorPlan,
    limits: &Limits,
    halt: &mut Option<Halt>,
) -> Ready
    requires plan { IsPlan plan }
    ensures stepped { IsStepped D.model C.model (nexts.Open plan) limits.now.units spool.old halt.old spool.new
        halt.new result }
    ensures called { MayGoOn result }
    ensures keeps { KeepsOn D.model C.model spool.old spool.new }
    ensures grows { Grows spool.old.entries spool.new.entries }
    ensures clock { TellsFewer C.model spool.old.clock spool.new.clock }
{
    let Ok(reference) = plan.reference.copy(alloc) else {
        return Ready::Halts(Halt::Memory);
    };
    let opened = spool.lane_open(
        LaneRole::Initiator,
        &plan.peer,
        reference,
        plan.twa,
        plan.checkpoint,
        plan.window,
    );
    match opened {
        Ok(lane) => {
            let (session, first) = begin(alloc, spool, on_lane(plan, lane, 1), limits, halt);
            Ready::Begins(session, first)
        }
        Err(fault) => Ready::Halts(halt_before(fault)),
    }
}

// Binds a lane, and begins its session.
fn bind_lane<D: Disk + Drop, C: Clock + Drop>(
    alloc: Global,
    spool: &mut Spool<D, C>,
    lane: u32,
    plan: InitiatorPlan,
    limits: &Limits,
    halt: &mut Option<Halt>,
) -> Ready
    requires plan { IsPlan plan }
    ensures stepped { IsStepped D.model C.model (nexts.Bind lane plan) limits.now.units spool.old halt.old spool.new
        halt.new result }
    ensures called { MayGoOn result }
    ensures keeps { KeepsOn D.model C.model spool.old spool.new }
    ensures grows { Grows spool.old.entries spool.new.entries }
    ensures clock { TellsFewer C.model spool.old.clock spool.new.clock }
{
    match spool.bind(lane) {
        Ok(generation) => {
            let plan = on_lane(plan, lane, generation);
            let (session, first) = begin(alloc, spool, plan, limits, halt);
            Ready::Begins(session, first)
        }
        Err(fault) => Ready::Halts(halt_before(fault)),
    }
}

// Closes a lane that was never agreed.
fn close_lane<D: Disk + Drop, C: Clock + Drop>(
    spool: &mut Spool<D, C>,
    lane: u32,
    generation: u64,
) -> Ready
    ensures stepped { (units : ℕ) (halt : Option HaltValue) →
        IsStepped D.model C.model (nexts.Close lane generation) units spool.old halt spool.new halt result }
    ensures called { MayGoOn result }
    ensures keeps { KeepsOn D.model C.model spool.old spool.new }
    ensures grows { Grows spool.old.entries spool.new.entries }
    ensures clock { TellsFewer C.model spool.old.clock spool.new.clock }
{
    match spool.close_lane(lane, generation) {
        Ok(()) => Ready::Closed,
        Err(fault) => Ready::Halts(halt_before(fault)),
    }
}

/// Looks the peer up, and opens or binds a lane to it. At most one step is made. `halt` is why the worker ends behind
/// the session, if it does.
pub fn get_ready<D: Disk + Drop, C: Clock + Drop>(
    alloc: Global,
    spool: &mut Spool<D, C>,
    peer: &Word,
    limits: &Limits,
    halt: &mut Option<Halt>,
) -> Ready
    ensures readied { IsReadied D.model C.model peer.now limits.now.units spool.old halt.old spool.new halt.new result }
    ensures called { MayGoOn result }
    ensures keeps { KeepsOn D.model C.model spool.old spool.new }
    ensures grows { Grows spool.old.entries spool.new.entries }
    ensures clock { TellsFewer C.model spool.old.clock spool.new.clock }
{
    match next_with(alloc, spool, peer) {
        Ok(Next::NoPeer) => Ready::Halts(Halt::NoPeer),
        Ok(Next::NoNumber { last }) => Ready::Halts(Halt::Spent {
            last: u64::from(last),
        }),
        Ok(Next::Close { lane, generation }) => close_lane(spool, lane, generation),
        Ok(Next::Bind { lane, plan }) => bind_lane(alloc, spool, lane, plan, limits, halt),
        Ok(Next::Open { plan }) => open_lane(alloc, spool, plan, limits, halt),
        Err(_) => Ready::Halts(Halt::Memory),
    }
}

//! A session.

ghost use Rattle.std.specs.Prelude.{◌≡◌, ◌≤◌, ◌↔◌, IsTrue, None};
ghost use Rattle.mta_session.specs.Fits.{Answers, Fits, ValuesFit};
ghost use Rattle.mta_session.specs.Groups.{has_turned};
ghost use Rattle.mta_session.specs.Holding.{HoldsLittle};
ghost use Rattle.mta_session.specs.Session.{StepsTo, new_machine, new_initiator, new_responder};

use crate::event::{Action, Event, InitiatorPlan, Side};
use crate::limits::Limits;
use crate::machine::Machine;
use crate::phase::Phase;
use crate::receiving::{RecvLink, Stage};
use crate::sending::SendLink;
use mta_ber::{Memory, Word};
use mta_lane_recv::RecvHalf;
use mta_lane_send::SendState;
use std::alloc::Global;
use std::marker::Model;

/// One association over one link, which contracts see as its state.
#[derive(Drop)]
pub struct Session {
    machine: Machine,
}

impl Model for Session {
    ghost use Rattle.mta_session.specs.State.{State};
    ghost use Rattle.mta_session.specs.Fits.{Fits};

    ghost Value = { State };

    ghost view = { λ s. s.machine };

    ghost invariant = { λ s. Fits s.machine };
}

fn new_machine(alloc: Global, side: Side, units: u32) -> Machine
    requires { 1 ≤ units }
    ensures { result ≡ new_machine side units }
{
    Machine {
        alloc,
        phase: Phase::Begin,
        left: units,
        side,
        opened: None,
        line: None,
        lane: 0,
        generation: 0,
        twa: false,
        agreed: false,
        ours: false,
        please: false,
        send: SendLink::new(0, 0, 1, true),
        recv: RecvLink {
            half: RecvHalf::new(0),
            stage: Stage::Free,
            from: 0,
            acked: 0,
        },
    }
}

impl Session {
    /// A session on a link that this end opened, for the lane that its worker opened or bound.
    pub fn initiator(alloc: Global, plan: InitiatorPlan, limits: Limits) -> Session
        requires values { ValuesFit plan.checkpoint plan.window }
        ensures { result ≡ new_initiator plan limits.units }
    {
        let (lane, generation) = (plan.lane, plan.generation);
        let (checkpoint, window, twa) = (plan.checkpoint, plan.window, plan.twa);
        let mut machine = new_machine(alloc, Side::Initiator(plan), limits.units);
        machine.lane = lane;
        machine.generation = generation;
        machine.twa = twa;
        machine.send = SendLink::new(generation, checkpoint, window, false);
        Session { machine }
    }

    /// A session on a link that the other end opened.
    pub fn responder(alloc: Global, own: Word, limits: Limits) -> Session
        ensures { result ≡ new_responder own limits.units }
    {
        Session {
            machine: new_machine(alloc, Side::Responder { own }, limits.units),
        }
    }

    /// Whether this event answers the last action, so that `step` may be told it.
    pub fn expects(&self, event: &Event) -> bool
        ensures { IsTrue result ↔ Answers self.now event.now }
    {
        self.machine.expects(event)
    }

    /// One event, and what the rules call for then. After want of memory the session is as before.
    #[tactic(auto, using(crate::proofs::Stepping::kept))]
    pub fn step(&mut self, event: Event) -> Result<Action, Memory>
        requires { Answers self.old event }
        ensures { StepsTo self.old event result self.new }
    {
        self.machine.step(event)
    }

    /// How far the own sending half is, as this end knows it.
    pub fn sending(&self) -> SendState
        ensures { result ≡ self.now.send.state }
    {
        self.machine.send.state()
    }

    /// Whether it comes to its end: of its own it puts its last unit now, or none any more.
    pub fn has_turned(&self) -> bool
        ensures { result ≡ has_turned self.now.phase }
    {
        matches!(
            self.machine.phase,
            Phase::AsksDenied
                | Phase::AsksLast { .. }
                | Phase::PutsLast { .. }
                | Phase::Ended { .. }
        )
    }

    /// What it keeps from call to call, of which the laws over its calls speak; it keeps no unit that was heard.
    pub fn fits(&self)
        ensures kept { Fits self.now }
        ensures heard { self.now.send.heard ≡ None }
    {
        self.machine.keeps_no_unit();
    }

    /// What it holds of messages is at most the largest unit and a window of pieces.
    pub fn holds_little(&self)
        ensures { HoldsLittle self.now }
    {
        self.machine.holds_little()
    }
}

//! What a session knows, and its last words.

ghost use Rattle.std.specs.Prelude.{◌≡◌, ◌≤◌, Result, Ok, Err, None};
ghost use Rattle.mta_session.specs.Rank.{FallsBelow};
ghost use Rattle.mta_session.specs.State.{let_go};
ghost use Rattle.mta_session.specs.Wanted.{Aborts, Rejects, Ends};
ghost use Rattle.mta_session.specs.Follows.{Does};
ghost use Rattle.mta_session.specs.Fits.{Fits};
ghost use Rattle.mta_session.specs.Holding.{HoldsLittle};

use crate::event::{Action, SessionEnd, Side};
use crate::peer::Peer;
use crate::phase::Phase;
use crate::receiving::{RecvLink, Stage};
use crate::sending::SendLink;
use mta_units::{OpenUnit, Unit};
use std::alloc::Global;
use std::marker::Model;

/// A session, between two of its calls and inside them.
pub struct Machine {
    pub alloc: Global,
    pub phase: Phase,
    pub left: u32,
    pub side: Side,
    pub opened: Option<OpenUnit>,
    pub line: Option<Peer>,
    pub lane: u32,
    pub generation: u64,
    pub twa: bool,
    pub agreed: bool,
    pub ours: bool,
    pub please: bool,
    pub send: SendLink,
    pub recv: RecvLink,
}

// Written out, since a derived one is opened anew, field by field, at each place where a value is let go.
impl Drop for Machine {
    fn drop(self) {
        let Machine {
            alloc: _,
            phase: _,
            left: _,
            side: _,
            opened: _,
            line: _,
            lane: _,
            generation: _,
            twa: _,
            agreed: _,
            ours: _,
            please: _,
            send: _,
            recv: _,
        } = self;
    }
}

impl Model for Machine {
    ghost use Rattle.mta_session.specs.State.{State};
    ghost use Rattle.mta_session.specs.Link.{send_end};
    ghost use Rattle.mta_session.specs.Receiving.{recv_end};

    ghost Value = { State };

    ghost view = { λ m. record {
      phase = m.phase;
      left = m.left;
      side = m.side;
      opened = m.opened;
      line = m.line;
      lane = m.lane;
      generation = m.generation;
      checkpoint = m.send.half.checkpoint;
      window = m.send.half.window;
      twa = m.twa;
      agreed = m.agreed;
      ours = m.ours;
      please = m.please;
      send = send_end m.send;
      recv = recv_end m.recv;
    } };
}

impl Machine {
    /// What it holds of messages is let go.
    pub fn let_go(&mut self)
        ensures { self.new ≡ let_go self.old }
    {
        self.send.let_go();
        self.recv.stage = Stage::Free;
    }

    /// Abort, as the last unit.
    pub fn abort(&mut self, reason: u32) -> Action
        ensures does { Does self.old (Aborts reason) result self.new }
        ensures fits { Fits self.new }
        ensures falls { FallsBelow self.old 2 self.new }
    {
        self.let_go();
        self.phase = Phase::PutsLast {
            end: SessionEnd::Aborted { reason },
        };
        Action::Put(Unit::Abort { reason })
    }

    /// Reject, as the last unit.
    pub fn reject(&mut self, reason: u32) -> Action
        ensures does { Does self.old (Rejects reason) result self.new }
        ensures fits { Fits self.new }
        ensures falls { FallsBelow self.old 2 self.new }
    {
        self.let_go();
        self.phase = Phase::PutsLast {
            end: SessionEnd::Refused { reason },
        };
        Action::Put(Unit::Reject { reason })
    }

    pub fn finish(&mut self, end: SessionEnd) -> Action
        ensures does { Does self.old (Ends end) result self.new }
        ensures fits { Fits self.new }
        ensures falls { FallsBelow self.old 1 self.new }
    {
        self.let_go();
        self.phase = Phase::Ended { end };
        Action::Finish(end)
    }

    /// No unit that was heard is kept.
    pub fn keeps_no_unit(&self)
        ensures { self.now.send.heard ≡ None }
    {
        let _ = &self.send;
    }

    /// What is held of messages is at most the largest unit and a window of pieces.
    pub fn holds_little(&self)
        requires { Fits self.now }
        ensures { HoldsLittle self.now }
    {}
}

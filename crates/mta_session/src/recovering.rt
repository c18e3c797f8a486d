//! What a recovered lane holds, and the answer to its link.

ghost use Rattle.std.specs.Prelude.{◌≡◌, false};
ghost use Rattle.mta_session.specs.State.{is_initiator};
ghost use Rattle.mta_session.specs.Wanted.{accepts, answers_link, after_accept, on_receiving, on_resumed};
ghost use Rattle.mta_session.specs.Fits.{AgreedFor, FitsAt, StepsAs, IsReady, HasLink, IsTold, ResumedFits};

use crate::ask::Ask;
use crate::event::Action;
use crate::machine::Machine;
use crate::phase::Phase;
use crate::receiving::{RecvLink, Stage};
use mta_ber::Memory;
use mta_lane_recv::{Last, RecvHalf};
use mta_lane_send::SendState;
use mta_records::Outgoing;
use mta_units::Unit;
use std::mem;

impl Machine {
    /// Accept, for the lane as it is.
    fn accept(&mut self) -> Result<Action, Memory>
        requires ready { IsReady self.old }
        requires responder { is_initiator self.old.side ≡ false }
        requires link { HasLink self.old.side self.old }
        requires agreed { AgreedFor self.old.side self.old.agreed }
        ensures { StepsAs self.old (accepts self.old) 11 result self.new }
    {
        let answer = self.answer_for()?;
        self.phase = Phase::PutsAccept;
        Ok(Action::Put(Unit::Accept {
            checkpoint: self.send.half().checkpoint(),
            window: self.send.half().window(),
            answer,
        }))
    }

    /// The initiator opens the link, the responder accepts it.
    fn answer_link(&mut self) -> Result<Action, Memory>
        requires ready { IsReady self.old }
        requires link { HasLink self.old.side self.old }
        requires agreed { AgreedFor self.old.side self.old.agreed }
        ensures { StepsAs self.old (answers_link self.old self.old.side) 11 result self.new }
    {
        if self.is_initiator() {
            self.put_open()
        } else {
            self.accept()
        }
    }

    /// The receiving half as it stands, and the sending half, whose octets are asked for where it has some.
    pub fn on_receiving(
        &mut self,
        state: SendState,
        told: Option<(u32, Last)>,
    ) -> Result<Action, Memory>
        requires fits { FitsAt (Phase.AsksReceiving state) self.old }
        requires told { IsTold told }
        ensures { StepsAs self.old (on_receiving self.old state told) 14 result self.new }
    {
        let Some((high, last)) = told else {
            unreachable!();
        };
        let receiving = RecvLink {
            half: RecvHalf::restore(self.generation, high, last),
            stage: Stage::Free,
            from: 0,
            acked: 0,
        };
        let before = mem::replace(&mut self.recv, receiving);
        if !state.is_idle() {
            self.phase = Phase::AsksResumed { state };
            return Ok(Action::Ask(Ask::Resumed { lane: self.lane }));
        }
        let sending = self.send.at_rest(self.generation, state);
        let blank = mem::replace(&mut self.send, sending);
        match self.answer_link() {
            Ok(action) => Ok(action),
            Err(memory) => {
                self.recv = before;
                self.send = blank;
                Err(memory)
            }
        }
    }

    /// The activity that was under way.
    pub fn on_resumed(
        &mut self,
        state: SendState,
        told: Result<Option<Outgoing>, Memory>,
    ) -> Result<Action, Memory>
        requires fits { FitsAt (Phase.AsksResumed state) self.old }
        requires told { ResumedFits self.old.checkpoint state told }
        ensures { StepsAs self.old (on_resumed self.old state told) 13 result self.new }
    {
        match told {
            Err(_) => Ok(self.abort(0)),
            Ok(None) => unreachable!(),
            Ok(Some(outgoing)) => {
                let sending = self.send.resumed(self.generation, state, outgoing);
                let blank = mem::replace(&mut self.send, sending);
                match self.answer_link() {
                    Ok(action) => Ok(action),
                    Err(memory) => {
                        self.send = blank;
                        Err(memory)
                    }
                }
            }
        }
    }

    /// Behind Accept a responder that has something to send asks for the turn.
    pub fn after_accept(&mut self) -> Result<Action, Memory>
        requires { FitsAt Phase.PutsAccept self.old }
        ensures { StepsAs self.old (after_accept self.old) 10 result self.new }
    {
        if !self.twa {
            return Ok(self.answer());
        }
        if !self.send.state().is_idle() {
            return Ok(self.put_please());
        }
        let peer = self.peer()?;
        self.phase = Phase::AsksDue;
        Ok(Action::Ask(Ask::BatchFor { peer }))
    }
}

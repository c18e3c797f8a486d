//! A session that is stepped by hand, with a spool that answers what the input says.

ghost use Rattle.std.specs.Prelude.{IfOk};
ghost use Rattle.mta_session.specs.Fits.{ValuesFit};

use crate::sessions::answers::answer;
use crate::sessions::held::Held;
use crate::sessions::made::{reference, word};
use crate::sessions::row::Row;
use crate::sessions::units::unit;
use crate::sessions::wants::action_text;
use mta_ber::{Memory, Octets};
use mta_session::{Action, Ask, Event, InitiatorPlan, Limits, Reply, Session};
use std::alloc::Global;

/// Both of a session and its spool.
pub struct Stepped {
    alloc: Global,
    session: Session,
    held: Held,
    asked: Option<Ask>,
}

// Written out, since a derived one is opened anew, field by field, at each place where a value is let go.
impl Drop for Stepped {
    fn drop(self) {
        let Stepped {
            alloc: _,
            session: _,
            held: _,
            asked: _,
        } = self;
    }
}

fn plan(alloc: Global, held: Held, recovering: bool) -> Result<InitiatorPlan, Memory>
    ensures { IfOk result (λ p. ValuesFit p.checkpoint p.window) }
{
    Ok(InitiatorPlan {
        own: word(alloc, b"EAST")?,
        peer: word(alloc, b"GOLD-1")?,
        lane: 1,
        generation: 1,
        recovering,
        reference: reference(alloc)?,
        checkpoint: 4,
        window: held.window.max(1).min(8),
        twa: held.twa,
        send_password: Octets::from_slice(alloc, b"pq")?,
        expected_password: Octets::from_slice(alloc, b"pw")?,
    })
}

fn limits(units: u32) -> Limits {
    Limits {
        sessions: 1,
        units: units.max(1),
    }
}

fn asked_by(action: Action) -> Option<Ask> {
    match action {
        Action::Ask(ask) => Some(ask),
        _other => None,
    }
}

impl Stepped {
    /// A responder's session that takes so many units.
    pub fn responder(alloc: Global, held: Held, units: u32) -> Result<Stepped, Memory> {
        Ok(Stepped {
            alloc,
            session: Session::responder(alloc, word(alloc, b"GOLD-1")?, limits(units)),
            held,
            asked: None,
        })
    }

    /// An initiator's session over a new lane, or one that is recovered.
    pub fn initiator(alloc: Global, held: Held, recovering: bool) -> Result<Stepped, Memory> {
        let plan = plan(alloc, held, recovering)?;
        Ok(Stepped {
            alloc,
            session: Session::initiator(alloc, plan, limits(1000)),
            held,
            asked: None,
        })
    }

    // The answer to a question, which is let go.
    fn answer_to(&self, ask: Ask, row: Row<'_>) -> Result<Reply, Memory> {
        answer(self.alloc, self.held, &ask, row)
    }

    fn reply(&mut self, row: Row<'_>) -> Result<Option<Event>, Memory> {
        match self.asked.take() {
            Some(ask) => Ok(Some(Event::Reply(self.answer_to(ask, row)?))),
            None => Ok(None),
        }
    }

    fn event(&mut self, row: Row<'_>) -> Result<Option<Event>, Memory> {
        match row.word {
            "go" => Ok(Some(Event::Go)),
            "over" => Ok(Some(Event::Over)),
            "nonsense" => Ok(Some(Event::BadUnit)),
            "told" | "none" | "refused" | "faulty" => self.reply(row),
            _ => match unit(self.alloc, self.held, row)? {
                Some(unit) => Ok(Some(Event::Unit(unit))),
                None => Ok(None),
            },
        }
    }

    /// The action as a text. A question is kept, to be answered.
    fn says(&mut self, action: Action) -> Result<String, Memory> {
        let text = action_text(self.alloc, &action);
        self.asked = asked_by(action);
        Ok(text?)
    }

    /// What the session wants done for this.
    pub fn step(&mut self, row: Row<'_>) -> Result<String, Memory> {
        let Some(event) = self.event(row)? else {
            return Ok(String::from_str(self.alloc, " is nothing to be told")?);
        };
        if !self.session.expects(&event) {
            return Ok(String::from_str(self.alloc, " does not come here")?);
        }
        let action = self.session.step(event)?;
        self.says(action)
    }
}

//! The input, line by line.

use crate::sessions::held::{Held, NOTHING};
use crate::sessions::row::Row;
use crate::sessions::stepped::Stepped;
use mta_ber::Memory;
use std::alloc::Global;
use std::mem;

/// The session that is stepped, another one over the same lane, and what the spool holds.
#[derive(Drop)]
pub struct Walk {
    alloc: Global,
    held: Held,
    session: Option<Stepped>,
    other: Option<Stepped>,
}

impl Walk {
    pub fn new(alloc: Global) -> Walk {
        Walk {
            alloc,
            held: NOTHING,
            session: None,
            other: None,
        }
    }

    /// A new session; the one before it is the other one then.
    fn begin(&mut self, session: Stepped) {
        self.other = mem::replace(&mut self.session, Some(session));
    }

    fn tell(&mut self, row: Row<'_>) -> Result<String, Memory> {
        match &mut self.session {
            Some(session) => session.step(row),
            None => Ok(String::from_str(self.alloc, " without a session")?),
        }
    }

    /// What a line sets up; None where it is told to the session.
    fn set_up(&mut self, row: Row<'_>) -> Result<Option<()>, Memory> {
        match row.word {
            "" => self.held = NOTHING,
            "Case:" => {}
            "lane" => self.held = self.held.lane(row),
            "sending" => self.held = self.held.sending(row.a, row.b),
            "ending" => self.held = self.held.ending(row.a, row.b),
            "partial" => self.held = self.held.partial(row.a, row.b),
            "done" => self.held = self.held.done(row.a),
            "responder" => self.begin(Stepped::responder(self.alloc, self.held, row.a)?),
            "initiator" => {
                let session = Stepped::initiator(self.alloc, self.held, row.first == "again")?;
                self.begin(session);
            }
            "other" => mem::swap(&mut self.session, &mut self.other),
            _ => return Ok(None),
        }
        Ok(Some(()))
    }

    /// What is wanted for this line, as a text behind it.
    pub fn take(&mut self, line: &str) -> Result<String, Memory> {
        let row = Row::of(line);
        match self.set_up(row)? {
            Some(()) => Ok(String::new(self.alloc)),
            None => self.tell(row),
        }
    }
}

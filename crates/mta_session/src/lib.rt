//! Sessions: one association over one link (X.218, X.228), as a step machine.
//!
//! A session is told one event at a time and answers what is to be done: a unit to be put, a question to the spool,
//! that it reads, or that it is over. It holds no link and no spool.
//!
//! `specs/Wanted.antt` is the table of what each event calls for, phase by phase, and `specs/Follows.antt` what is done
//! for it, in the words of the rules of the two ends of a lane. Each phase group has a file: `opening_initiator.rt`,
//! `opening_responder.rt` and `recovering.rt`; with the turn `put_with_turn.rt` (what the own activity calls for) and
//! `got_with_turn.rt`; without it `put_without_turn.rt` (what is answered) and `got_without_turn.rt` (also Give and
//! Close); `replies.rt` for the answers of the spool; `step.rt` and `told.rt` hand an event to its phase.
#![tactic(auto)]

mod ask;
mod event;
mod expects;
mod got_with_turn;
mod got_without_turn;
mod limits;
mod machine;
mod opening_initiator;
mod opening_responder;
mod password;
mod peer;
mod phase;
mod put_with_turn;
mod put_without_turn;
mod receiving;
mod recovering;
mod replies;
mod sending;
mod session;
mod step;
mod told;

pub use ask::{Ask, Reply};
pub use event::{Action, Event, InitiatorPlan, SessionEnd};
pub use limits::Limits;
pub use peer::Peer;
pub use session::Session;

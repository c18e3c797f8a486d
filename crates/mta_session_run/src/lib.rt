//! A session over its link: what it wants put is put, unit by unit, what comes is told to it, and its questions to the
//! spool are handed to whoever runs it.
#![tactic(auto)]

mod came;
mod get;
mod laws;
mod link;
mod put;
mod run;

pub use came::Came;
pub use get::{Heard, get_unit};
pub use laws::runs_are_calls;
pub use put::put_unit;
pub use run::{carry_on, tell};

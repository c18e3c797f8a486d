//! A standby on another machine: a spool that no agent is running is copied there, record by record, and each is kept
//! before the next is sent.
#![tactic(auto)]

mod get;
mod lines;
mod opening;
mod pull;
mod push;
mod put;
mod run;
mod stop;
mod take;
mod words;

pub use lines::tell;
pub use run::{Followed, follow_run};
pub use stop::Stop;
pub use words::{Command, command_of};

//! The message transfer agent as one call, over a disk, streams, stations and a clock that are handed in.
#![tactic(auto)]

mod command;
mod drill;
mod serve;

pub use command::{Finished, run};
pub use mta_commands::{Stop, tell};

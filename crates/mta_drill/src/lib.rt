//! `mta drill`: two agents in one process pass messages over a link that is broken on purpose, and what they hold
//! afterwards is counted.
#![tactic(auto)]

mod agent;
mod breaks;
mod counts;
mod drilling;
mod laws;
mod message;
mod round;
mod session;
mod side;
mod tables;

pub use drilling::{Drilled, drill};
pub use laws::sessions_come_to_an_end;

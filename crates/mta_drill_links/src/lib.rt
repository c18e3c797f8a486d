//! A link in memory between two agents of one thread: the units on the way to either.
#![tactic(auto)]

mod reading;
mod way;

pub use way::Way;

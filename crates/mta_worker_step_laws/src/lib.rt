//! The steps that workers make, and at which moments.
#![tactic(auto)]

mod laws;

pub use laws::steps_are_timed;

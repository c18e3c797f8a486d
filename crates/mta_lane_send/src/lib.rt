//! The sending half of a lane (X.228 clause 7): what it does with the activities that it sends.
//!
//! A half holds its durable state and what was put on the current link. Lanes hold one for what is durable, and
//! sessions one for what goes over their link. No call takes memory.
#![tactic(auto)]

mod half;
mod state;

pub use half::SendHalf;
pub use state::{NextData, OnLink, Recovery, SendState};

//! The receiving half of a lane (X.228 clause 7): what it holds of the activities that come.
//!
//! A half holds its durable state alone. Lanes hold one, and sessions one that follows the lane's. No call takes
//! memory.
#![tactic(auto)]

mod half;
mod state;

pub use half::{LIMIT, RecvHalf, longest_piece};
pub use state::Last;

//! The lanes of a spool in memory (X.228: associations with their recoveries): what is asked of a lane, each step on
//! one, and how lanes are looked up.
#![tactic(auto)]

mod change;
mod lane;
mod lanes;
mod pieces;
mod transfer;

pub use change::LaneChange;
pub use lane::Lane;
pub use lanes::Lanes;
pub use pieces::{Pieces, Places};
pub use transfer::Transfer;

//! What an image of the disk stands for: one history, or none from an offset on.
#![tactic(auto)]

mod law;

pub use law::{no_spool_at_one_place, no_spool_has_no_history, one_history, openings};

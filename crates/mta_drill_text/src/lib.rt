//! What a drill counts and prints: where its link is broken, the counts of its rounds, and its lines.
#![tactic(auto)]

mod breaks;
mod counts;
mod text;

pub use breaks::{Break, break_of, breaks_between};
pub use counts::Counts;
pub use text::drill_text;

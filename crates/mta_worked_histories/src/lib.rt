//! Worked histories.
#![tactic(auto)]

mod law;

pub use law::{lists_of_each_other_end, started_is_sent, unknown_name_is_reported};

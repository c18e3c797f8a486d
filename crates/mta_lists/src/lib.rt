//! Distribution lists (X.402, clause 7; X.411, clause 14: distribution list expansion): the copy of a message for the
//! members of a list.
#![tactic(auto)]

mod expansion;
mod history;
mod members;

pub use expansion::{expand, expanded_trace};

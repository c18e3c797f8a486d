//! The messages of a drill and the tables of its two agents: what the rules say of them.
#![tactic(auto)]

mod laws;

pub use laws::{copies_are_delivered, messages_are_relayed, tables_are_read};

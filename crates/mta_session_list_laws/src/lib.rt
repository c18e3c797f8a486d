//! Session lists of calls: what a session did, call by call, over a history that other workers add to.
#![tactic(auto)]

mod laws;

pub use laws::{abandons_stand, halves_send, lists_are_good, worked_rows};

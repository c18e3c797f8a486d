//! Idle items: those of which nothing is called for at once, and until when that stays so (X.411, clause 14: deferral,
//! maximum time).
#![tactic(auto)]

mod law;

pub use law::{idle_until_next, items_go_on, relays_are_routed, relays_within, verdicts_stay};

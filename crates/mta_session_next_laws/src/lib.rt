//! What a session does next: of what the rules of the two ends allow it to go on with, the one thing that is due.
#![tactic(auto)]

mod laws;

pub use laws::{
    answers_lead_on, calls_do_next, holders_go_on, listeners_go_on, pieces_are_admitted,
};

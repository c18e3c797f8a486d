//! What the spools of both agents of a drill hold, step by step: what is due in them, what is sent next, and what each
//! step of a message leaves.
#![tactic(auto)]

mod laws;

pub use laws::{first_goes_on, second_goes_on, steps_lead_on};

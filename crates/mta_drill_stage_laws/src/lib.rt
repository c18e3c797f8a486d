//! The stages of a session of a drill: what both agents and the link are in each, and that each act leads from one to
//! the next.
#![tactic(auto)]

mod laws;

pub use laws::{
    acts_lead_on, drills_begin, openings_lead_on, questions_are_answered, recoveries_lead_on,
    sessions_are_known, sessions_begin, sessions_end, sessions_go_on, sessions_lead_on,
};

//! Laws on a session and its lane in the spool's state: the two match while other workers use the same spool.
#![tactic(auto)]

mod laws;

pub use laws::{
    actions_know, asks_are_of_phase, calls_know, events_know, generations_begin_once,
    given_up_stays, lanes_alone_match, lanes_keep_roles, lanes_stay, looks_answer,
    only_abandons_drop, opened_lanes_match, others_keep, others_keep_all, own_steps_match,
    pieces_may_be_kept, refused_is_given_up, replies_answer, replies_match, starts_answer,
    turns_match, units_keep_halves,
};

//! Session lists of what workers do: each session that a worker serves has a list, and which of them are good.
#![tactic(auto)]

mod laws;

pub use laws::{
    all_are_good, all_have_parts, ends_agree, links_are_run, links_have_parts, lists_own_steps,
    reading_tells, segments_are_good, sessions_are_good, sessions_are_segments,
    sessions_have_lists, sides_agree, stations_agree, steps_have_sessions, untold_are_theirs,
    worked_row, workers_have_parts,
};

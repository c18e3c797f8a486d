//! Definitions of the spool's history: lanes beside the machine of recipients, which step is possible, and what it
//! leaves.
#![tactic(auto)]

mod law;

pub use law::{
    batches_may_start, compaction_is_possible, compaction_keeps, due_steps_are_possible,
    each_recipient_once, histories_are_runs, histories_grow, histories_keep, lanes_ask_enough,
    lanes_see_histories, last_is_highest_started, numbers_never_fall, numbers_suffice,
    settling_steps_are_due, snapshots_show_the_same, sound_stays, steps_keep,
};

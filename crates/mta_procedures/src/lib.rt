//! What a transfer agent does with a recipient (X.411, clause 14, the distributed operation procedures): the
//! definitions, and laws of them.
#![tactic(auto)]

mod case;
mod codes;
mod ends;
mod laws;
mod rows;
mod terms;
mod verdict;

pub use case::Case;
pub use codes::{
    CONTENT_TOO_LONG, DL, EXPANSION_PROHIBITED, LOOP_DETECTED, MAXIMUM_TIME_EXPIRED,
    NO_SUBMIT_PERMISSION, PROTOCOL_VIOLATION, PUBLIC, TRANSFER_FAILURE, UNABLE_TO_TRANSFER,
    UNRECOGNISED_NAME, UNSUPPORTED_CRITICAL_FUNCTION,
};
pub use ends::{
    copies_are_read, kinds_have_their_verdicts, lists_of_tables_are_writable, made_items_are_read,
    reports_go_where_the_walk_ends, verdicts_lead_where_they_say, what_is_expanded_has_room,
    what_is_relayed_has_copies,
};
pub use laws::{
    copies_are_as_long, copies_are_whole, copies_keep_all_else, expansions_are_recorded,
    made_reports_are_whole, members_copies_are_whole, responsibility_is_as_said,
    the_first_case_is_one, the_head_is_in_front,
};
pub use rows::{
    lists_end, the_chosen_are_responsible, the_crew_keeps_reports, the_deferred_is_held,
    the_latest_delivery_counts, the_longest_route_is_taken, the_sample_is_affirmed,
    the_sample_is_copied, the_sample_is_reported,
};
pub use terms::Terms;
pub use verdict::Verdict;

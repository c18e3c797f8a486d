//! APDUs whole (X.411, MTS-APDU): a message, a probe or a report, and nothing behind it.
#![tactic(auto)]

mod apdu;
mod kind;
mod laws;

pub use apdu::{Apdu, LONGEST_APDU, LONGEST_STORED};
pub use laws::{
    apdus_are_read_again, apdus_that_were_read_are_kept, no_apdu_begins_another,
    stored_apdus_are_read_again, what_was_read_is_read_again,
};

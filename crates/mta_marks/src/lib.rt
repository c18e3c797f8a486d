//! What was fetched and deleted of what mailboxes got: a journal of marks, on a disk of its own.
#![tactic(auto)]

mod law;
mod mark;
mod open;
mod reading;
mod replay;
mod standings;
mod writing;

pub use law::{marks_are_no_others, one_list, one_place};
pub use mark::{Mark, MarkKind, Standing};
pub use open::{Added, Marks, MarksFault};

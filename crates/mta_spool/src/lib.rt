//! The spool: items and their recipients, over a journal of steps on one disk.
#![tactic(auto)]

mod at_opening;
mod binding;
mod due;
mod entries;
mod find;
mod going_on;
mod historied;
mod lanes;
mod law;
mod looks;
mod make;
mod open;
mod opening;
mod receiving;
mod replay;
mod settling;
mod spool;
mod starting;
mod why;

pub use find::may_stand;
pub use law::first_cause_is_told;
pub use mta_journal::JOURNAL_LIMIT;
pub use mta_machine::{Item, MailboxLine, Origin, Status, Statuses};
pub use mta_records::{CompleteFault, Step, StepFault};
pub use mta_replay::{NotMade, Replay};
pub use mta_tables::Tables;
pub use open::SpoolOpen;
pub use spool::{Spool, Turned};
pub use why::OpenWhy;

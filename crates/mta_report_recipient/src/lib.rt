//! Recipients of whom is reported, and what came of a message for them (X.411, PerRecipientReportTransferFields): every
//! spelling is read, the one canonical spelling is written.
#![tactic(auto)]

mod delivery;
mod failure;
mod last;
mod laws;
mod length;
mod moment;
mod outcome;
mod recipients;
mod reported;

pub use laws::{
    no_recipient_begins_another, recipients_are_read_again, recipients_that_were_read_are_kept,
    recipients_that_were_read_are_read_again,
};
pub use length::recipients_length;
pub use moment::Moment;
pub use outcome::Outcome;
pub use recipients::{put_recipients, read_recipients};
pub use reported::{Reported, ReportedFields, fields_or_none};

//! Reports (X.411, ReportTransferEnvelope and ReportTransferContent): every spelling of them is read, the one canonical
//! spelling is written.
#![tactic(auto)]

mod content;
mod envelope;
mod fields;
mod laws;
mod length;
mod reading;
mod report;

pub use fields::ReportFields;
pub use laws::{
    no_report_begins_another, reports_are_read_again, reports_that_were_read_are_kept,
    reports_that_were_read_are_read_again,
};
pub use mta_envelope_common::ContentKind;
pub use mta_report_recipient::{Moment, Outcome, Reported, ReportedFields};
pub use report::Report;

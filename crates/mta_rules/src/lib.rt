//! What is done with a recipient of a message, a probe or a report (X.411, clause 14): the verdict, the report, and
//! the copies that go to peers, which are passed on from `mta_copies`.
#![tactic(auto)]

mod bits;
mod case;
mod identifier;
mod length;
mod list;
mod looks;
mod report;
mod verdict;
mod walk;

pub use identifier::put_digits;
pub use length::back_length;
pub use list::is_in_history;
pub use looks::{expiry, is_deferred, is_expired, report_terms, terms_of};
pub use mta_copies::{outgoing_head, outgoing_message, outgoing_probe, outgoing_report};
pub use mta_procedures::Verdict;
pub use report::{make_report, report_on};
pub use verdict::{
    verdict_message, verdict_on_message, verdict_on_probe, verdict_probe, verdict_report,
};
pub use walk::{list_named, report_walk};

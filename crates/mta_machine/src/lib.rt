//! The machine of recipients (X.411 clause 14): what becomes of each recipient for whom this agent is responsible.
#![tactic(auto)]

mod item;
mod law;

pub use item::{Item, Statuses, is_pending_status};
pub use law::each_recipient_once;
pub use mta_records::{MailboxLine, Origin, Status};

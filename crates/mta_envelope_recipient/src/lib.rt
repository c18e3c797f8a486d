//! The recipients of a message or a probe (X.411, PerRecipientMessageTransferFields and
//! PerRecipientProbeTransferFields): every spelling of them is read, the one canonical spelling is written.
#![tactic(auto)]

mod laws;
mod length;
mod list;
mod parts;
mod recipient;
mod writing;

pub use laws::{recipients_are_read_again, recipients_that_were_read_are_kept};
pub use length::recipients_length;
pub use list::{put_recipients, read_recipients};
pub use recipient::{Recipient, RecipientFields};

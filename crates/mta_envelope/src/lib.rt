//! Messages and probes whole (X.411, Message and Probe): every spelling of them is read, the one canonical spelling is
//! written.
#![tactic(auto)]

mod content;
mod envelope;
mod laws;
mod length;
mod message;
mod parts;
mod place;
mod priority;
mod probe;
mod reading;
mod transfer;
mod writing;

pub use content::Content;
pub use envelope::{Envelope, EnvelopeFields};
pub use laws::{
    envelopes_that_were_read_are_kept, messages_are_read_again, no_message_begins_another,
    probes_are_read_again, what_was_read_is_read_again,
};
pub use message::Message;
pub use mta_envelope_common::ContentKind;
pub use mta_envelope_recipient::Recipient;
pub use place::Place;
pub use priority::Priority;
pub use probe::Probe;

//! Copies of messages, probes and reports: equal values of their parts, and the copies that go to peers.
#![tactic(auto)]

mod chosen;
mod envelope;
mod fields;
mod header;
mod outgoing;
mod outgoing_parts;
mod parts;
mod reported;
mod responsibility;

pub use envelope::envelope_with;
pub use fields::{
    copied_domain, copied_expansion, copied_field, copied_fields, copied_history, copied_id,
    copied_trace, copied_trace_element, copied_type, relayed_element,
};
pub use outgoing::{outgoing_head, outgoing_message, outgoing_probe, outgoing_report};
pub use outgoing_parts::report_with;
pub use parts::{copied_kind, copied_kind_if, copied_text};
pub use reported::copied_reported;

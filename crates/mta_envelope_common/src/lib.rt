//! Fields that the envelopes of messages and probes and reports share (X.411): content types, traces, lists of
//! extension fields, indicators and content identifiers. Every spelling of them is read, the one canonical spelling is
//! written.
#![tactic(auto)]

mod content_id;
mod extensions;
mod indicators;
mod kind;
mod length;
mod traces;

pub use content_id::{put_content_id, read_content_id};
pub use extensions::{put_extensions, read_extensions};
pub use indicators::{put_indicators, read_indicators};
pub use kind::{
    ContentKind, is_content_kind_tag, put_content_kind, put_content_kind_in_front,
    put_content_kind_in_place, read_content_kind,
};
pub use length::{
    content_id_length, extensions_length, kind_in_front_length, kind_in_place_length, trace_length,
};
pub use traces::{put_trace, read_trace};

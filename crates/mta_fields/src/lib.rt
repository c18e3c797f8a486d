//! Fields of P1 that messages, probes and reports share (X.411): domains, MTS identifiers, trace elements, extension
//! fields and expansions. Every spelling of them is read, the one canonical spelling is written.
#![tactic(auto)]

mod domain;
mod expansion;
mod extension;
mod identifier;
mod laws;
mod length;
mod supplied;
mod trace;

pub use domain::{Domain, DomainFields};
pub use expansion::{Expansion, ExpansionFields};
pub use extension::{ExtField, ExtFields, ExtKind};
pub use identifier::{MtsId, MtsIdFields};
pub use laws::{
    domains_are_read_again, expansions_are_read_again, extension_fields_are_read_again,
    fields_that_fit_are_read_again, fields_that_were_read_are_read_again,
    mts_identifiers_are_read_again, no_field_begins_another, trace_elements_are_read_again,
    what_fits_is_kept, what_is_kept_is_kept_above, what_is_read_is_kept,
};
pub use supplied::{Action, Supplied};
pub use trace::{TraceElement, TraceFields};

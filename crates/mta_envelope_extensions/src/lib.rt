//! The extensions of a message's or a probe's envelope (X.411, clause 12): every field is kept, and of those of which a
//! transfer agent makes use the value is read: dl-expansion-history, latest-delivery-time and dl-expansion-prohibited.
#![tactic(auto)]

mod expansions;
mod extensions;
mod field;
mod laws;
mod value;

pub use extensions::{Extensions, no_extensions, read_extensions};
pub use laws::{envelope_extensions_are_read_again, envelope_extensions_that_were_read_are_kept};

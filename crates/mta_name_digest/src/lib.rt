//! Digests of O/R names and of the texts of patterns by their normal texts (X.402, clause 18), and an index of places
//! by digests: the same names have the same digest, whatever they have of capital letters and spaces.
#![tactic(auto)]

mod digest;
mod places;
mod text;

pub use digest::{name_digest, texts_digest};
pub use places::Places;
pub use text::{digest_step, octets_digest, text_digest};

//! The parts of a text form.

use crate::key::Key;
use mta_ber::Text;

/// An attribute with its key: its value, and the type of a domain-defined attribute, which is empty for any other.
#[derive(Drop)]
pub struct Part {
    pub key: Key,
    pub kind: Text,
    pub value: Text,
}

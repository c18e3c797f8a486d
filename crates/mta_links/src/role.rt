//! Which agent asks for the association.

use mta_ber::Word;

/// Whose links a station gives.
#[derive(Drop)]
pub enum Role {
    /// The peers call.
    In,
    /// This agent calls the peer of this name.
    Out(Word),
}

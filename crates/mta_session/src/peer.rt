//! What a session reads of the tables.

use mta_ber::{Octets, Word};

/// A peer, as the line of the tables says.
#[derive(Drop)]
pub struct Peer {
    /// The name that it goes by.
    pub name: Word,
    /// The password that it is sent, and the one that it has to send.
    pub send_password: Octets,
    pub expected_password: Octets,
    /// Whether two-way alternate dialogue is agreed with it.
    pub twa: bool,
    /// The checkpoint size that is proposed to it, in units of 1,024 octets, 0 to 64; 0 stands for whole messages.
    pub checkpoint: u32,
    /// The window that is proposed to it, 1 to 8 pieces.
    pub window: u32,
}

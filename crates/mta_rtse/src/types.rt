//! What the protocol data units carry.

use mta_ber::{Octets, Word};
use mta_records::Reference;

/// What an initiator asks for: an association of an agent that says nothing of itself, one of an agent with a name and
/// a password of at most 62 octets, or a broken association again.
#[derive(Drop)]
pub enum Request {
    Null,
    Bind { name: Word, password: Octets },
    Recover(Reference),
}

/// What a responder answers to a request that it takes.
#[derive(Drop)]
pub enum Answer {
    Bind { name: Word, password: Octets },
    Recover(Reference),
}

/// RTORQ: the checkpoint size in units of 1,024 octets (0: no checkpoints) and the window that the initiator proposes,
/// whether it asks for two-way alternate dialogue, and its request.
#[derive(Drop)]
pub struct OpenRequest {
    pub checkpoint: u32,
    pub window: u32,
    pub twa: bool,
    pub request: Request,
}

/// RTOAC: the agreed checkpoint size and window, and the answer.
#[derive(Drop)]
pub struct OpenAnswer {
    pub checkpoint: u32,
    pub window: u32,
    pub answer: Answer,
}

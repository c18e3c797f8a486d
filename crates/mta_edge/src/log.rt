//! What a disk in memory logs of its calls.

use mta_ber::Octets;

/// What a call did, or began to do where it failed.
#[derive(Drop)]
pub enum Done {
    /// A size, a read, or a sync that failed.
    Look,
    /// A write of these octets at this offset.
    Write { at: usize, octets: Octets },
    /// A cut to this size.
    Cut { size: usize },
    /// A sync that succeeded.
    Sync,
}

/// A call, with what a read gave before it.
#[derive(Drop)]
pub struct Called {
    pub before: Octets,
    pub done: Done,
}

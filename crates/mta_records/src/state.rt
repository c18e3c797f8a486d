//! What the state of a spool has of an item beside its octets, and of a delivery.

use mta_ber::Word;

/// Where an item came from.
#[derive(Clone, Copy, PartialEq, Eq)]
pub enum Origin {
    /// Handed in by `submit`.
    Submitted,
    /// Transferred over a lane.
    Lane,
    /// Made by this agent.
    Own,
}

/// What became of a recipient for whom this agent is responsible. Moments are seconds since 1950-01-01 00:00:00 UTC.
#[derive(Drop)]
pub enum Status {
    /// Not discharged yet.
    Pending,
    /// Delivered to a mailbox.
    Delivered(u64),
    /// A list that was expanded to its members.
    Expanded(u64),
    /// Transferred to this peer.
    Sent {
        moment: u64,
        peer: Word,
    },
    /// Reported as one who does not get it.
    Reported {
        moment: u64,
        reason: u32,
        diagnostic: Option<u32>,
    },
    /// A probe's recipient that was affirmed.
    Affirmed(u64),
    /// A report that went no further.
    Discarded(u64),
    /// A report that was passed back.
    Passed(u64),
}

/// One delivery: the mailbox, the number of the item, and when, in seconds since 1950-01-01 00:00:00 UTC.
#[derive(Drop)]
pub struct MailboxLine {
    pub mailbox: Word,
    pub item: u32,
    pub moment: u64,
}

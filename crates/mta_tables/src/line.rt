//! What one line says.

use crate::entry::{Mailbox, Peer};
use mta_ber::Word;
use mta_fields::Domain;
use mta_name_text::Pattern;
use mta_names::OrName;

/// The grade of delivery that a priority asks for (X.411, Priority).
#[derive(Clone, Copy)]
pub enum Grade {
    Urgent,
    Normal,
    NonUrgent,
}

/// A list, as its first line says it.
#[derive(Drop)]
pub struct ListHead {
    pub word: Word,
    pub back: bool,
    pub name: OrName,
}

/// Who may post to the list of this word.
#[derive(Drop)]
pub struct Permission {
    pub word: Word,
    pub pattern: Pattern,
}

/// A member of the list of this word.
#[derive(Drop)]
pub struct Membership {
    pub word: Word,
    pub name: OrName,
}

/// A route to the peer of this word, or to `here`.
#[derive(Drop)]
pub struct RouteLine {
    pub pattern: Pattern,
    pub peer: Option<Word>,
}

/// For how many seconds messages of a grade may wait.
#[derive(Clone, Copy)]
pub struct Hold {
    pub grade: Grade,
    pub seconds: u64,
}

/// What a line says.
#[derive(Drop)]
pub enum Line {
    /// Nothing: it is empty or begins with `#`.
    Nothing,
    /// The agent's own domain.
    Domain(Domain),
    /// The agent's own name.
    Name(Word),
    /// A peer.
    Peer(Peer),
    /// A mailbox.
    Mailbox(Mailbox),
    /// A list.
    List(ListHead),
    /// Who may post to a list.
    From(Permission),
    /// A member of a list.
    Member(Membership),
    /// A route.
    Route(RouteLine),
    /// A hold time.
    Hold(Hold),
}

/// The words of a line about a peer.
#[derive(Clone, Copy)]
pub struct PeerWords<'a> {
    pub name: &'a [u8],
    pub send: &'a [u8],
    pub expected: &'a [u8],
    pub mode: &'a [u8],
    pub size: &'a [u8],
    pub window: &'a [u8],
}

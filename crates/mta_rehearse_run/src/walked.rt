//! Walks: the agents that a name goes by, and where it ends.

ghost use Rattle.std.specs.Prelude.{◌↔◌, IsTrue, Contains};

use mta_ber::Word;
use mta_names::Row;

/// Where a walk ends.
#[derive(Drop)]
pub enum WalkEnd {
    /// At the mailbox of this place, from 0, in the last agent's tables.
    Mailbox(u32),
    /// At the list of this place, from 0, in the last agent's tables.
    List(u32),
    /// At the last agent, which has no route for the name.
    NoRoute,
    /// Behind the last agent, which sends the name on to a peer that is none of the agents.
    Unknown(Word),
    /// At the agent of this place, from 0, which is one of the walk: the last one sends the name back to it.
    Loop(u32),
}

/// The agents that a name goes by, each told by its place from 0, and where it ends.
#[derive(Drop)]
pub struct Walk {
    pub agents: Row<u32>,
    pub end: WalkEnd,
}

/// Whether the agent at this place is one of those.
pub fn is_walked(walked: &[u32], place: u32) -> bool
    ensures { IsTrue result ↔ Contains walked.now place }
{
    walked.contains(&place)
}

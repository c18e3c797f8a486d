//! The hop of a name at an agent, and what the tables say at places.

ghost use Rattle.std.specs.Prelude.{◌≡◌};
ghost use Rattle.std.specs.Option.{option_map};
ghost use Rattle.mta_rehearse_run.specs.Agents.{own_at, mailbox_at, list_at};
ghost use Rattle.mta_rehearse_run.specs.Turns.{hop_at, peer_at};

use mta_names::OrName;
use mta_tables::{Hop, Peer, Tables};

/// The hop of the name in the tables of the agent at this place; nowhere where there is no such agent.
pub fn hop_at(agents: &[Tables], name: &OrName, place: u32) -> Hop
    ensures { result ≡ hop_at agents.now name.now place }
{
    match agents.get(place as usize) {
        Some(tables) => tables.route(name),
        None => Hop::None,
    }
}

/// The peer at a place in the tables of an agent.
pub fn peer_at(agents: &[Tables], place: u32, peer: u32) -> Option<&Peer>
    ensures { option_map (λ p. p.now) result ≡ peer_at agents.now place peer }
{
    match agents.get(place as usize) {
        Some(tables) => tables.peers().get(peer as usize),
        None => None,
    }
}

/// The name of the agent at this place; nothing where there is none.
pub fn own_at(agents: &[Tables], place: u32) -> &[u8]
    ensures { result.now ≡ own_at agents.now place }
{
    match agents.get(place as usize) {
        Some(tables) => tables.own().as_slice(),
        None => b"",
    }
}

/// The word of the mailbox at a place in the tables of an agent; nothing where there is none.
pub fn mailbox_at(agents: &[Tables], place: u32, mailbox: u32) -> &[u8]
    ensures { result.now ≡ mailbox_at agents.now place mailbox }
{
    match agents.get(place as usize) {
        Some(tables) => match tables.mailboxes().get(mailbox as usize) {
            Some(mailbox) => mailbox.word.as_slice(),
            None => b"",
        },
        None => b"",
    }
}

/// The word of the list at a place in the tables of an agent; nothing where there is none.
pub fn list_at(agents: &[Tables], place: u32, list: u32) -> &[u8]
    ensures { result.now ≡ list_at agents.now place list }
{
    match agents.get(place as usize) {
        Some(tables) => match tables.lists().get(list as usize) {
            Some(list) => list.word.as_slice(),
            None => b"",
        },
        None => b"",
    }
}

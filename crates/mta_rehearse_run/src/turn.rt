//! What becomes of a name at one agent.

ghost use Rattle.std.specs.Prelude.{◌≡◌, ◌≤◌, ◌^◌, IfOk, length};
ghost use Rattle.mta_tables.specs.Indexes.{IsIndex};
ghost use Rattle.mta_rehearse_run.specs.Agents.{own_digest};
ghost use Rattle.mta_rehearse_run.specs.Turns.{to_word, to_peer, turn_of};

use crate::hops::{hop_at, peer_at};
use crate::named::agent_named;
use crate::walked::WalkEnd;
use mta_ber::{Memory, Word};
use mta_name_digest::Places;
use mta_names::OrName;
use mta_tables::{Hop, Tables};

/// What becomes of a name at an agent.
#[derive(Drop)]
pub enum Turn {
    /// It goes on to the agent at this place.
    On(u32),
    /// The walk is over.
    Over(WalkEnd),
}

fn to_word(agents: &[Tables], names: &Places, word: &Word) -> Result<Turn, Memory>
    requires index { IsIndex own_digest agents.now names.now }
    requires few { length agents.now ≤ 2 ^ 32 }
    ensures { IfOk result (λ t. t ≡ to_word agents.now word.now) }
{
    match agent_named(agents, names, word.as_slice()) {
        Some(place) => Ok(Turn::On(place)),
        None => {
            let unknown = word.share()?;
            Ok(Turn::Over(WalkEnd::Unknown(unknown)))
        }
    }
}

fn to_peer(agents: &[Tables], names: &Places, place: u32, peer: u32) -> Result<Turn, Memory>
    requires index { IsIndex own_digest agents.now names.now }
    requires few { length agents.now ≤ 2 ^ 32 }
    ensures { IfOk result (λ t. t ≡ to_peer agents.now place peer) }
{
    match peer_at(agents, place, peer) {
        Some(peer) => to_word(agents, names, &peer.name),
        None => Ok(Turn::Over(WalkEnd::NoRoute)),
    }
}

/// What becomes of the name at the agent of this place.
pub fn turn_of(agents: &[Tables], names: &Places, name: &OrName, place: u32) -> Result<Turn, Memory>
    requires index { IsIndex own_digest agents.now names.now }
    requires few { length agents.now ≤ 2 ^ 32 }
    ensures { IfOk result (λ t. t ≡ turn_of agents.now name.now place) }
{
    match hop_at(agents, name, place) {
        Hop::Local(mailbox) => Ok(Turn::Over(WalkEnd::Mailbox(mailbox))),
        Hop::List(list) => Ok(Turn::Over(WalkEnd::List(list))),
        Hop::None => Ok(Turn::Over(WalkEnd::NoRoute)),
        Hop::Peer(peer) => to_peer(agents, names, place, peer),
    }
}

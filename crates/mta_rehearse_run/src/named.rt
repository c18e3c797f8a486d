//! Agents by their names.

ghost use Rattle.std.specs.Prelude.{◌≡◌, ◌<◌, ◌≤◌, ◌^◌, IfOk, IfSome, length};
ghost use Rattle.std.specs.List.{position};
ghost use Rattle.std.specs.Str.{bytes_eq};
ghost use Rattle.mta_tables.specs.Indexes.{IsIndex, passes_at, checked};
ghost use Rattle.mta_rehearse_run.specs.Agents.{has_name, own_digest, agent_named};

use mta_ber::Memory;
use mta_name_digest::{Places, octets_digest};
use mta_tables::Tables;
use std::alloc::Global;

/// Whether two texts have the same octets.
pub fn is_text(first: &[u8], second: &[u8]) -> bool
    ensures { result ≡ bytes_eq first.now second.now }
{
    first == second
}

/// An index of agents by their names.
pub fn names_of(alloc: Global, agents: &[Tables]) -> Result<Places, Memory>
    requires { length agents.now ≤ 2 ^ 32 }
    ensures { IfOk result (IsIndex own_digest agents.now) }
{
    let mut names = Places::new(alloc);
    for (i, tables) in agents.iter().enumerate() {
        let digest = octets_digest(0, tables.own().as_slice());
        names.add(digest, i as u32)?;
    }
    Ok(names)
}

/// Whether the agent at this place has the name.
pub fn has_name_at(agents: &[Tables], place: u32, word: &[u8]) -> bool
    ensures { result ≡ passes_at (has_name word.now) agents.now place }
{
    match agents.get(place as usize) {
        Some(tables) => is_text(tables.own().as_slice(), word),
        None => false,
    }
}

// The place that an index says, where the agent there has the name.
fn checked_name(agents: &[Tables], said: Option<u32>, word: &[u8]) -> Option<u32>
    ensures { result ≡ checked (has_name word.now) agents.now said }
{
    match said {
        None => None,
        Some(place) => {
            if has_name_at(agents, place, word) {
                Some(place)
            } else {
                None
            }
        }
    }
}

/// The place of the agent of this name, from 0, found by going over all.
pub fn scan(agents: &[Tables], word: &[u8]) -> Option<usize>
    ensures exact { result ≡ position (has_name word.now) agents.now }
    ensures within { IfSome result (λ place. place < length agents.now) }
{
    agents
        .iter()
        .position(|t| is_text(t.own().as_slice(), word))
}

/// The place of the agent of this name, from 0. All agents are gone over only where two names have one digest.
pub fn agent_named(agents: &[Tables], names: &Places, word: &[u8]) -> Option<u32>
    requires index { IsIndex own_digest agents.now names.now }
    requires few { length agents.now ≤ 2 ^ 32 }
    ensures { result ≡ agent_named agents.now word.now }
{
    if names.is_whole() {
        return checked_name(agents, names.of(octets_digest(0, word)), word);
    }
    match scan(agents, word) {
        Some(place) => Some(place as u32),
        None => None,
    }
}

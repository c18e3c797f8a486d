//! The word of a station, as `serve` takes it.
//!
//! A station gives the links of associations: peers call in at a port, or this agent calls a peer. In comes
//! a word of the command line; out goes its station, or nothing where it is no station's (`IsStation`).

ghost use Rattle.std.specs.Prelude.{◌≡◌, IfOk, IsTrue, if◌then◌else◌, Some, None};
ghost use Rattle.mta_tables.specs.Words.{is_word, is_filled};
ghost use Rattle.mta_words.specs.Stations.{number_said, in_said, out_said, out_with, out_behind_peer};
ghost use Rattle.mta_words.specs.Stations.{out_station, station_behind, station_of};

use crate::cut::cut_at;
use crate::number::number_in;
use mta_ber::{Memory, Octets, Text, Word};
use mta_tables::is_word;
use std::alloc::Global;

/// Where the links of a station come from.
#[derive(Drop)]
pub enum StationWord {
    /// `in:PORT`: peers call at this port of TCP, 1 to 65,535.
    In { port: u32 },
    /// `out:PEER:HOST:PORT`: this agent calls the peer at this port of the host, 1 to 65,535. The host is not empty
    /// and has no colon.
    Out { peer: Word, host: Text, port: u32 },
}

fn in_station(text: &[u8]) -> Option<StationWord>
    ensures { result ≡ in_said (number_said 1 65535 text.now) }
{
    match number_in(1, 65_535, text) {
        Some(port) => Some(StationWord::In { port }),
        None => None,
    }
}

// The station that calls this peer, whose name is a word.
fn out_to(alloc: Global, peer: &[u8], host: &[u8], port: u32) -> Result<Option<StationWord>, Memory>
    requires { IsTrue (is_word peer.now) }
    ensures { IfOk result (λ o. o ≡ out_said peer.now host.now (Some port)) }
{
    let octets = Octets::from_slice(alloc, peer)?;
    let host = Text::from_slice(alloc, host)?;
    match Word::from_octets(alloc, octets)? {
        Some(peer) => Ok(Some(StationWord::Out { peer, host, port })),
        None => Ok(None),
    }
}

fn out_with(
    alloc: Global,
    peer: &[u8],
    host: &[u8],
    port: &[u8],
) -> Result<Option<StationWord>, Memory>
    ensures { IfOk result (λ o. o ≡ out_with peer.now host.now port.now) }
{
    if !is_word(peer) || host.is_empty() {
        return Ok(None);
    }
    match number_in(1, 65_535, port) {
        Some(port) => out_to(alloc, peer, host, port),
        None => Ok(None),
    }
}

fn out_behind(alloc: Global, peer: &[u8], rest: &[u8]) -> Result<Option<StationWord>, Memory>
    ensures { IfOk result (λ o. o ≡ out_behind_peer peer.now (Some rest.now)) }
{
    let (host, behind) = cut_at(b':', rest);
    match behind {
        Some(port) => out_with(alloc, peer, host, port),
        None => Ok(None),
    }
}

fn out_station(alloc: Global, text: &[u8]) -> Result<Option<StationWord>, Memory>
    ensures { IfOk result (λ o. o ≡ out_station text.now) }
{
    let (peer, behind) = cut_at(b':', text);
    match behind {
        Some(rest) => out_behind(alloc, peer, rest),
        None => Ok(None),
    }
}

fn station_behind(alloc: Global, front: &[u8], rest: &[u8]) -> Result<Option<StationWord>, Memory>
    ensures { IfOk result (λ o. o ≡ station_behind front.now (Some rest.now)) }
{
    if front == b"in".as_slice() {
        Ok(in_station(rest))
    } else if front == b"out".as_slice() {
        out_station(alloc, rest)
    } else {
        Ok(None)
    }
}

/// The station of a word; nothing where it is none's.
#[tactic(auto, unfolding(crate::specs::Stations::station_of))]
pub fn station_of(alloc: Global, word: &[u8]) -> Result<Option<StationWord>, Memory>
    ensures { IfOk result (λ o. o ≡ station_of word.now) }
{
    let (front, behind) = cut_at(b':', word);
    match behind {
        Some(rest) => station_behind(alloc, front, rest),
        None => Ok(None),
    }
}

//! Whether a walk is the one of a name.

ghost use Rattle.std.specs.Prelude.{◌≡◌, ◌<◌, ◌↔◌, IsTrue, None, length, slice_index};
ghost use Rattle.mta_rehearse_run.specs.declared.turn.Turn.TheVariants.{On, Over};
ghost use Rattle.mta_rehearse_run.specs.declared.walked.WalkEnd.TheVariants as Ends;
ghost use Rattle.mta_rehearse_run.specs.Agents.{AreApart, agent_named};
ghost use Rattle.mta_rehearse_run.specs.Turns.{to_word, to_peer, turn_of};
ghost use Rattle.mta_rehearse_run.specs.Walks.{AllDiffer, BeginsAt, EachGoesOn, EndsBy, GoesBack, IsWalk};

use crate::hops::{hop_at, peer_at};
use crate::named::{has_name_at, is_text, scan};
use crate::walked::{Walk, WalkEnd, is_walked};
use mta_names::OrName;
use mta_tables::{Hop, Tables};

fn begins_at(walked: &[u32], start: u32) -> bool
    ensures { IsTrue result ↔ BeginsAt start walked.now }
{
    match walked {
        [] => false,
        [first, ..] => *first == start,
    }
}

fn goes_to_peer(agents: &[Tables], from: u32, peer: u32, to: u32) -> bool
    requires { AreApart agents.now }
    ensures { IsTrue result ↔ (to_peer agents.now from peer ≡ On to) }
{
    match peer_at(agents, from, peer) {
        Some(peer) => has_name_at(agents, to, peer.name.as_slice()),
        None => false,
    }
}

// Whether the agent at the one place sends the name on to the one at the other.
fn goes_on(agents: &[Tables], name: &OrName, from: u32, to: u32) -> bool
    requires { AreApart agents.now }
    ensures { IsTrue result ↔ (turn_of agents.now name.now from ≡ On to) }
{
    match hop_at(agents, name, from) {
        Hop::Peer(peer) => goes_to_peer(agents, from, peer, to),
        Hop::Local(_) | Hop::List(_) | Hop::None => false,
    }
}

fn each_goes_on(agents: &[Tables], name: &OrName, walked: &[u32]) -> bool
    requires { AreApart agents.now }
    ensures { IsTrue result ↔ EachGoesOn (turn_of agents.now name.now) walked.now }
{
    for k in 1..walked.len() {
        if !goes_on(agents, name, walked[k - 1], walked[k]) {
            return false;
        }
    }
    true
}

fn all_differ(walked: &[u32]) -> bool
    ensures { IsTrue result ↔ AllDiffer walked.now }
{
    for k in 0..walked.len() {
        if walked[..k].contains(&walked[k]) {
            return false;
        }
    }
    true
}

fn is_mailbox(end: &WalkEnd, place: u32) -> bool
    ensures { IsTrue result ↔ (end.now ≡ Ends.Mailbox place) }
{
    match end {
        WalkEnd::Mailbox(said) => *said == place,
        _ => false,
    }
}

fn is_list(end: &WalkEnd, place: u32) -> bool
    ensures { IsTrue result ↔ (end.now ≡ Ends.List place) }
{
    match end {
        WalkEnd::List(said) => *said == place,
        _ => false,
    }
}

fn is_no_route(end: &WalkEnd) -> bool
    ensures { IsTrue result ↔ (end.now ≡ Ends.NoRoute) }
{
    matches!(end, WalkEnd::NoRoute)
}

// Whether no agent has the name.
fn is_no_name(agents: &[Tables], word: &[u8]) -> bool
    ensures { IsTrue result ↔ (agent_named agents.now word.now ≡ None) }
{
    scan(agents, word).is_none()
}

// Whether a name that is sent to a peer of this name is at an end, since no agent has the name, which is the one said.
fn is_unknown(agents: &[Tables], word: &[u8], said: &[u8]) -> bool
    ensures { IsTrue result ↔ (to_word agents.now word.now ≡ Over (Ends.Unknown said.now)) }
{
    is_text(said, word) && is_no_name(agents, word)
}

// Whether it goes back to the agent at this place, which is one of the walk.
fn goes_back(agents: &[Tables], walked: &[u32], word: &[u8], place: u32) -> bool
    requires { AreApart agents.now }
    ensures { IsTrue result ↔ GoesBack (to_word agents.now word.now) walked.now place }
{
    has_name_at(agents, place, word) && is_walked(walked, place)
}

// Whether the walk ends so where its last agent sends the name to a peer of this name.
fn ends_at_word(agents: &[Tables], walked: &[u32], word: &[u8], end: &WalkEnd) -> bool
    requires { AreApart agents.now }
    ensures { IsTrue result ↔ EndsBy (to_word agents.now word.now) walked.now end.now }
{
    match end {
        WalkEnd::Unknown(said) => is_unknown(agents, word, said.as_slice()),
        WalkEnd::Loop(place) => goes_back(agents, walked, word, *place),
        WalkEnd::Mailbox(_) | WalkEnd::List(_) | WalkEnd::NoRoute => false,
    }
}

fn ends_at_peer(agents: &[Tables], walked: &[u32], last: u32, peer: u32, end: &WalkEnd) -> bool
    requires { AreApart agents.now }
    ensures { IsTrue result ↔ EndsBy (to_peer agents.now last peer) walked.now end.now }
{
    match peer_at(agents, last, peer) {
        Some(peer) => ends_at_word(agents, walked, peer.name.as_slice(), end),
        None => is_no_route(end),
    }
}

// Whether a walk with this last agent ends so.
fn ends_behind(agents: &[Tables], name: &OrName, walked: &[u32], last: u32, end: &WalkEnd) -> bool
    requires { AreApart agents.now }
    ensures { IsTrue result ↔ EndsBy (turn_of agents.now name.now last) walked.now end.now }
{
    match hop_at(agents, name, last) {
        Hop::Local(place) => is_mailbox(end, place),
        Hop::List(place) => is_list(end, place),
        Hop::None => is_no_route(end),
        Hop::Peer(peer) => ends_at_peer(agents, walked, last, peer, end),
    }
}

/// Whether this is the walk of the name from the agent at the place `start`. It takes no memory, and goes by another
/// way than `walk_from`: each step and the end are looked at for themselves.
pub fn check_walk(agents: &[Tables], start: u32, name: &OrName, walk: &Walk) -> bool
    requires { AreApart agents.now }
    ensures { IsTrue result ↔ IsWalk agents.now start name.now walk.now }
{
    let walked = walk.agents.as_slice();
    begins_at(walked, start)
        && each_goes_on(agents, name, walked)
        && all_differ(walked)
        && ends_behind(agents, name, walked, walked[walked.len() - 1], &walk.end)
}

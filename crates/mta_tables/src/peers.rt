//! Peers, in the order of their lines.

use crate::cut::is_text;
use crate::entry::Peer;
use mta_ber::Memory;
use std::alloc::Global;
use std::marker::Model;

/// Peers, in the order of their lines.
#[derive(Drop)]
pub struct Peers {
    inner: Vec<Peer>,
}

impl Model for Peers {
    ghost use Rattle.std.specs.Prelude.{List, ◌≤◌, length};
    ghost use Rattle.mta_tables.specs.declared.entry.Peer.{Peer};

    ghost Value = { List Peer };

    ghost view = { λ p. p.inner.items };

    ghost invariant = { λ p. length p.inner.items ≤ 64 };
}

impl Peers {
    ghost use Rattle.std.specs.Prelude.{◌≡◌, ◌<◌, ◌≤◌, ◌++◌, [], ◌∷◌, length, OnOk, IfSome};
    ghost use Rattle.std.specs.List.{list_any, position};
    ghost use Rattle.mta_tables.specs.Reading.{has_peer_word};

    /// No peers.
    pub fn new(alloc: Global) -> Peers
        ensures { result ≡ [] }
    {
        Peers {
            inner: Vec::new(alloc),
        }
    }

    /// The peers, lent.
    pub fn as_slice(&self) -> &[Peer]
        ensures exact { result.now ≡ self.now }
        ensures few { length self.now ≤ 64 }
    {
        self.inner.as_slice()
    }

    /// Appends a peer.
    pub fn push(&mut self, peer: Peer) -> Result<(), Memory>
        requires { length self.old < 64 }
        ensures { OnOk result (self.new ≡ self.old ++ peer ∷ []) }
    {
        self.inner.push(peer)?;
        Ok(())
    }

    /// Whether one of them has this word.
    pub fn has_word(&self, word: &[u8]) -> bool
        ensures { result ≡ list_any (has_peer_word word.now) self.now }
    {
        self.inner.iter().any(|p| is_text(p.name.as_slice(), word))
    }

    fn place_of(&self, word: &[u8]) -> Option<usize>
        ensures exact { result ≡ position (has_peer_word word.now) self.now }
        ensures bound { IfSome result (λ place. place < 64) }
    {
        self.inner
            .iter()
            .position(|p| is_text(p.name.as_slice(), word))
    }

    /// The place of the first that has this word, from 0.
    pub fn of_word(&self, word: &[u8]) -> Option<u32>
        ensures { result ≡ position (has_peer_word word.now) self.now }
    {
        match self.place_of(word) {
            Some(place) => Some(place as u32),
            None => None,
        }
    }
}

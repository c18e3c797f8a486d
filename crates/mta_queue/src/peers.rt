//! The peers, each with its queue, by their words.

ghost use Rattle.std.specs.Prelude.{◌≡◌, ◌≤◌, ◌<◌, ◌+◌, ◌^◌, ◌++◌, ◌∷◌, ℕ, [], Some, None, length, slice_get};
ghost use Rattle.std.specs.Prelude.{IfSome, OnOk, OnErr, if◌then◌else◌, ◌==◌};
ghost use Rattle.std.specs.Option.{option_copied, option_map};
ghost use Rattle.mta_queue.specs.Queue.{QueueValue, more_of};
ghost use Rattle.mta_queue.specs.Queues.{HasRoom, Names, places_at, place_of, room_at, waits_at};

use crate::queue::Queue;
use indexmap::IndexMap;
use mta_ber::Memory;
use std::alloc::Global;
use std::marker::Model;

/// Peers in the order in which they were named, each with its queue.
#[derive(Drop)]
pub(crate) struct Peers {
    by_word: IndexMap<Vec<u8>, Queue>,
}

impl Model for Peers {
    ghost use Rattle.std.specs.Prelude.{map};
    ghost use Rattle.indexmap.specs.IndexMap.{keys, values};
    ghost use Rattle.mta_queue.specs.Queues.{PeersValue};

    ghost Value = { PeersValue };

    ghost view = { λ p. record { words = map (λ k. k.items) (keys p.by_word); queues = values p.by_word } };
}

impl Peers {
    /// No peer, which takes no memory.
    pub(crate) fn new(alloc: Global) -> Peers
        ensures words { result.words ≡ [] }
        ensures queues { result.queues ≡ [] }
    {
        Peers {
            by_word: IndexMap::new(alloc),
        }
    }

    /// How many they are.
    pub(crate) fn len(&self) -> usize
        ensures { result ≡ length self.now.queues }
    {
        self.by_word.len()
    }

    /// The place of the peer of a word, from 0.
    pub(crate) fn place_of(&self, word: &[u8]) -> Option<usize>
        ensures exact { result ≡ place_of self.now.words word.now }
        ensures within { IfSome result (λ place. place < length self.now.queues) }
    {
        self.by_word.get_index_of(word)
    }

    /// The queue at a place.
    pub(crate) fn get(&self, place: usize) -> Option<&Queue>
        ensures { option_copied result ≡ slice_get self.now.queues place }
    {
        match self.by_word.get_index(place) {
            None => None,
            Some((_, queue)) => Some(queue),
        }
    }

    /// A peer more, for whom nothing waits, unless it was named before.
    pub(crate) fn name(&mut self, alloc: Global, word: &[u8]) -> Result<(), Memory>
        ensures words { OnOk result (Names self.old.words self.new.words word.now) }
        ensures waits { (p i : ℕ) → waits_at self.new.queues p i ≡ waits_at self.old.queues p i }
    {
        if self.by_word.get_index_of(word).is_some() {
            return Ok(());
        }
        let mut octets: Vec<u8> = Vec::new(alloc);
        octets.extend_from_slice(word)?;
        self.by_word.insert(octets, Queue::new(alloc))?;
        Ok(())
    }

    // Finds places for as many items more in the queue at a place.
    fn reserve_at(&mut self, place: usize, count: usize) -> Result<(), Memory>
        requires { place < length self.old.queues }
        ensures words { self.new.words ≡ self.old.words }
        ensures count { length self.new.queues ≡ length self.old.queues }
        ensures waits { (p i : ℕ) → waits_at self.new.queues p i ≡ waits_at self.old.queues p i }
        ensures room { (p : ℕ) → room_at self.old.queues p ≤ room_at self.new.queues p }
        ensures here { OnOk result (count ≤ room_at self.new.queues place) }
    {
        self.by_word[place].reserve(count)
    }

    /// Finds places for as many items more in each queue.
    #[tactic(auto, using(crate::proofs::Places::room_more))]
    pub(crate) fn reserve(&mut self, count: usize) -> Result<(), Memory>
        ensures words { self.new.words ≡ self.old.words }
        ensures count { length self.new.queues ≡ length self.old.queues }
        ensures waits { (p i : ℕ) → waits_at self.new.queues p i ≡ waits_at self.old.queues p i }
        ensures room { OnOk result (HasRoom self.new.queues count) }
    {
        let mut place: usize = 0;
        while place < self.len() {
            self.reserve_at(place, count)?;
            place += 1;
        }
        Ok(())
    }

    /// A recipient more of an item waits at a place.
    pub(crate) fn add_at(&mut self, place: usize, item: u32)
        requires within { place < length self.old.queues }
        requires fits { waits_at self.old.queues place item + 1 < 2 ^ 32 }
        requires room { 1 ≤ places_at self.old.queues place item }
        ensures words { self.new.words ≡ self.old.words }
        ensures count { length self.new.queues ≡ length self.old.queues }
        ensures waits { (p i : ℕ) → waits_at self.new.queues p i
            ≡ waits_at self.old.queues p i + (if p == place then more_of item 1 i else 0) }
        ensures room { (p : ℕ) → places_at self.old.queues p item ≤ places_at self.new.queues p item }
    {
        self.by_word[place].add(item, 1);
    }

    /// A recipient fewer of an item waits at a place.
    pub(crate) fn take_at(&mut self, place: usize, item: u32)
        requires within { place < length self.old.queues }
        requires some { 1 ≤ waits_at self.old.queues place item }
        ensures words { self.new.words ≡ self.old.words }
        ensures count { length self.new.queues ≡ length self.old.queues }
        ensures waits { (p i : ℕ) → waits_at self.new.queues p i
            + (if p == place then more_of item 1 i else 0) ≡ waits_at self.old.queues p i }
        ensures room { (p : ℕ) → places_at self.old.queues p item ≤ places_at self.new.queues p item }
    {
        self.by_word[place].take(item, 1);
    }
}

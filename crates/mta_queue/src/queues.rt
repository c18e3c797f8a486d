//! The queues of peers, and the recipients that are counted in them.

ghost use Rattle.std.specs.Prelude.{◌≡◌, ◌≤◌, ◌<◌, ◌+◌, ◌^◌, ◌++◌, ◌∷◌, ℕ, [], true, false, Some, None, length};
ghost use Rattle.std.specs.Prelude.{vec_capacity, vec_len};
ghost use Rattle.std.specs.Prelude.{IfSome, IsNone, OnOk, OnErr, ◌↔◌};
ghost use Rattle.mta_queue.specs.Marks.{mark_of, row_of, set_mark, waits_in};
ghost use Rattle.mta_queue.specs.Queues.{AreFor, HasPlaces, HasRoom, IsCountedAs, MayCount, Names, more_at};
ghost use Rattle.mta_queue.specs.Queues.{place_of, places_at, room_at, waits_at};

use crate::mark::{Mark, Marks};
use crate::peers::Peers;
use mta_ber::Memory;
use std::alloc::Global;
use std::marker::Model;

/// For each peer the items of which a recipient waits for it, and for each item its recipients.
#[derive(Drop)]
pub struct Queues {
    peers: Peers,
    rows: Vec<Marks>,
}

impl Model for Queues {
    ghost use Rattle.std.specs.Prelude.{◌-◌, vec_capacity, vec_len};
    ghost use Rattle.mta_queue.specs.Queues.{QueuesValue, IsWholeOf};

    ghost Value = { QueuesValue };

    ghost view = { λ q. record {
      words = q.peers.words;
      queues = q.peers.queues;
      rows = q.rows.items;
      room = vec_capacity q.rows - vec_len q.rows;
    } };

    ghost invariant = { λ q. IsWholeOf q.peers.queues q.rows.items };
}

// Whether a recipient of an item waits is put down.
fn set_in(rows: &mut Vec<Marks>, item: u32, recipient: u32, waits: bool)
    ensures items { rows.new.items ≡ set_mark rows.old.items item recipient waits }
    ensures len { vec_len rows.new ≡ vec_len rows.old }
    ensures capacity { vec_capacity rows.new ≡ vec_capacity rows.old }
{
    if item == 0 {
        return;
    }
    if let Some(row) = rows.get_mut(item as usize - 1) {
        row.set(recipient, waits);
    }
}

// A recipient more of an item waits where his route leads, or one fewer.
fn count_at(peers: &mut Peers, route: Option<usize>, item: u32, waits: bool)
    requires may { MayCount waits peers.old.queues route item }
    requires places { HasPlaces peers.old.queues item }
    ensures words { peers.new.words ≡ peers.old.words }
    ensures count { length peers.new.queues ≡ length peers.old.queues }
    ensures waits { (p i : ℕ) → p < length peers.old.queues
        → IsCountedAs waits (waits_at peers.old.queues p i) (more_at p route item i) (waits_at peers.new.queues p i) }
    ensures room { (p : ℕ) → places_at peers.old.queues p item ≤ places_at peers.new.queues p item }
{
    let Some(place) = route else {
        return;
    };
    if place >= peers.len() {
        return;
    }
    if waits {
        peers.add_at(place, item);
    } else {
        peers.take_at(place, item);
    }
}

impl Queues {
    /// No peers and no items, which takes no memory.
    pub fn new(alloc: Global) -> Queues
        ensures words { result.words ≡ [] }
        ensures rows { result.rows ≡ [] }
    {
        Queues {
            peers: Peers::new(alloc),
            rows: Vec::new(alloc),
        }
    }

    /// The place of the peer of a word, from 0.
    pub fn place_of(&self, word: &[u8]) -> Option<usize>
        ensures { result ≡ place_of self.now.words word.now }
    {
        self.peers.place_of(word)
    }

    /// A peer more, unless it was named before. There are no items yet.
    pub fn name(&mut self, alloc: Global, word: &[u8]) -> Result<(), Memory>
        requires { self.old.rows ≡ [] }
        ensures rows { self.new.rows ≡ [] }
        ensures words { OnOk result (Names self.old.words self.new.words word.now) }
    {
        self.peers.name(alloc, word)
    }

    /// Finds places for as many items more in each queue, and for as many more at all.
    pub fn reserve(&mut self, count: usize, items: usize) -> Result<(), Memory>
        ensures words { self.new.words ≡ self.old.words }
        ensures rows { self.new.rows ≡ self.old.rows }
        ensures queues { OnOk result (HasRoom self.new.queues count) }
        ensures room { OnOk result (items ≤ self.new.room) }
    {
        self.peers.reserve(count)?;
        self.rows.try_reserve(items)?;
        Ok(())
    }

    /// An item more, of which nobody waits yet. There is a place for it.
    pub fn push(&mut self, row: Marks)
        requires room { 1 ≤ self.old.room }
        requires few { length row < 2 ^ 32 }
        requires idle { (r : ℕ) → waits_in (row ∷ []) 1 r ≡ false }
        ensures words { self.new.words ≡ self.old.words }
        ensures queues { self.new.queues ≡ self.old.queues }
        ensures rows { self.new.rows ≡ self.old.rows ++ row ∷ [] }
        ensures room { self.old.room ≤ self.new.room + 1 }
    {
        self.rows.push_reserved(row);
    }

    /// The recipient of these numbers.
    pub fn mark(&self, item: u32, recipient: u32) -> Option<Mark>
        ensures { result ≡ mark_of (row_of self.now.rows item) recipient }
    {
        if item == 0 {
            return None;
        }
        self.rows.get(item as usize - 1)?.get(recipient)
    }

    /// Whether the recipient of these numbers waits.
    pub fn waits(&self, item: u32, recipient: u32) -> bool
        ensures { result ≡ waits_in self.now.rows item recipient }
    {
        match self.mark(item, recipient) {
            None => false,
            Some(mark) => mark.waits,
        }
    }

    /// Whether the recipient of these numbers waits is put down. There is a place for the item in each queue.
    pub fn put(&mut self, item: u32, recipient: u32, waits: bool)
        requires { HasPlaces self.old.queues item }
        ensures words { self.new.words ≡ self.old.words }
        ensures rows { self.new.rows ≡ set_mark self.old.rows item recipient waits }
        ensures count { length self.new.queues ≡ length self.old.queues }
        ensures queues { (p : ℕ) → places_at self.old.queues p item ≤ places_at self.new.queues p item }
        ensures room { self.new.room ≡ self.old.room }
    {
        let Some(mark) = self.mark(item, recipient) else {
            return;
        };
        if mark.waits == waits {
            return;
        }
        count_at(&mut self.peers, mark.route, item, waits);
        set_in(&mut self.rows, item, recipient, waits);
    }

    /// How many items there are.
    pub fn items(&self) -> usize
        ensures { result ≡ length self.now.rows }
    {
        self.rows.len()
    }

    // How many recipients an item has, who are fewer than there are numbers.
    fn count_of(&self, item: u32) -> usize
        ensures exact { result ≡ length (row_of self.now.rows item) }
        ensures few { length (row_of self.now.rows item) < 2 ^ 32 }
    {
        if item == 0 {
            return 0;
        }
        match self.rows.get(item as usize - 1) {
            None => 0,
            Some(row) => row.len(),
        }
    }

    /// How many recipients an item has.
    pub fn recipients(&self, item: u32) -> u32
        ensures { result ≡ length (row_of self.now.rows item) }
    {
        self.count_of(item) as u32
    }

    /// The items of which a recipient waits for the peer of a word, ascending, lent; none where there is no such peer.
    pub fn get(&self, word: &[u8]) -> Option<&[u32]>
        ensures some { IfSome result (λ items. AreFor self.now word.now items.now) }
        ensures none { IsNone result → place_of self.now.words word.now ≡ None }
    {
        let place = self.peers.place_of(word)?;
        let queue = self.peers.get(place)?;
        Some(queue.as_slice())
    }
}

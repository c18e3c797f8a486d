//! The items that wait for a peer.

ghost use Rattle.std.specs.Prelude.{◌≡◌, ◌≤◌, ◌<◌, ◌+◌, ◌^◌, ℕ, [], OnOk, min};
ghost use Rattle.mta_queue.specs.Queue.{more_of, waits, IsWhole};

use crate::row::Row;
use mta_ber::Memory;
use std::alloc::Global;
use std::marker::Model;

/// The items of which recipients wait for a peer, by ascending numbers, and how many recipients of each.
#[derive(Drop)]
pub struct Queue {
    numbers: Row,
    counts: Row,
}

impl Model for Queue {
    ghost use Rattle.std.specs.Prelude.{min};
    ghost use Rattle.mta_queue.specs.Queue.{QueueValue, IsWhole};

    ghost Value = { QueueValue };

    ghost view = { λ q. record {
      numbers = q.numbers.items;
      counts = q.counts.items;
      room = min q.numbers.room q.counts.room;
    } };

    ghost invariant = { λ q. IsWhole q.numbers.items q.counts.items };
}

impl Queue {
    /// Nothing waits. It takes no memory.
    pub fn new(alloc: Global) -> Queue
        ensures { result.numbers ≡ [] }
    {
        Queue {
            numbers: Row::new(alloc),
            counts: Row::new(alloc),
        }
    }

    /// The numbers of the items, ascending, lent.
    pub fn as_slice(&self) -> &[u32]
        ensures numbers { result.now ≡ self.now.numbers }
        ensures whole { IsWhole self.now.numbers self.now.counts }
    {
        self.numbers.as_slice()
    }

    /// Finds places for as many items more.
    pub fn reserve(&mut self, count: usize) -> Result<(), Memory>
        ensures waits { (i : ℕ) → waits self.new i ≡ waits self.old i }
        ensures room { self.old.room ≤ self.new.room }
        ensures places { OnOk result (count ≤ self.new.room) }
    {
        self.numbers.reserve(count)?;
        self.counts.reserve(count)
    }

    /// As many recipients more of an item wait. There is a place for it, or it stands in one.
    pub fn add(&mut self, item: u32, count: u32)
        requires some { 1 ≤ count }
        requires fits { waits self.old item + count < 2 ^ 32 }
        requires room { 1 ≤ self.old.room + waits self.old item }
        ensures waits { (i : ℕ) → waits self.new i ≡ waits self.old i + more_of item count i }
        ensures room { self.old.room + min 1 (waits self.old item) ≤ self.new.room + min 1 (waits self.new item) }
    {
        match self.numbers.as_slice().binary_search(&item) {
            Ok(place) => {
                let before = self.counts.as_slice()[place];
                self.counts.set(place, before + count);
            }
            Err(place) => {
                self.numbers.insert(place, item);
                self.counts.insert(place, count);
            }
        }
    }

    /// As many recipients fewer of an item wait.
    pub fn take(&mut self, item: u32, count: u32)
        requires { count ≤ waits self.old item }
        ensures waits { (i : ℕ) → waits self.new i + more_of item count i ≡ waits self.old i }
        ensures room { self.old.room + min 1 (waits self.old item) ≤ self.new.room + min 1 (waits self.new item) }
    {
        let Ok(place) = self.numbers.as_slice().binary_search(&item) else {
            return;
        };
        let before = self.counts.as_slice()[place];
        if before == count {
            self.numbers.remove(place);
            self.counts.remove(place);
        } else {
            self.counts.set(place, before - count);
        }
    }
}

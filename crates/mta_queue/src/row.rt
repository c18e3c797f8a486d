//! Numbers in a row, lent as one slice.

ghost use Rattle.std.specs.Prelude.{◌≡◌, ◌≤◌, ◌<◌, ◌+◌, [], OnOk, insert, length, remove, slice_get, slice_set};

use mta_ber::Memory;
use std::alloc::Global;
use std::marker::Model;

/// Numbers in a row, with places for more. The first goes at once: those before `gone` are no more, and are moved over
/// when they are as many as those that are left, so a number that goes costs a constant on the average. Their places
/// are free, and are closed up where no other is.
#[derive(Drop)]
pub(crate) struct Row {
    numbers: Vec<u32>,
    gone: usize,
}

impl Model for Row {
    ghost use Rattle.std.specs.Prelude.{◌≤◌, ◌+◌, ◌-◌, drop, vec_capacity, vec_len};
    ghost use Rattle.mta_queue.specs.Row.{RowValue};

    ghost Value = { RowValue };

    ghost view = { λ r. record {
      items = drop r.gone r.numbers.items;
      room = vec_capacity r.numbers - vec_len r.numbers + r.gone;
      free = vec_capacity r.numbers - vec_len r.numbers;
    } };

    ghost invariant = { λ r. r.gone ≤ vec_len r.numbers };
}

impl Row {
    /// No numbers, which takes no memory.
    pub(crate) fn new(alloc: Global) -> Row
        ensures { result.items ≡ [] }
    {
        Row {
            numbers: Vec::new(alloc),
            gone: 0,
        }
    }

    /// The numbers, lent.
    pub(crate) fn as_slice(&self) -> &[u32]
        ensures { result.now ≡ self.now.items }
    {
        &self.numbers[self.gone..]
    }

    /// Finds places for as many more.
    pub(crate) fn reserve(&mut self, count: usize) -> Result<(), Memory>
        ensures items { self.new.items ≡ self.old.items }
        ensures room { self.old.room ≤ self.new.room }
        ensures places { OnOk result (count ≤ self.new.room) }
    {
        self.numbers.try_reserve(count)?;
        Ok(())
    }

    // Those that are gone are moved over.
    fn close_up(&mut self)
        ensures items { self.new.items ≡ self.old.items }
        ensures room { self.old.room ≤ self.new.room }
        ensures free { self.new.free ≡ self.new.room }
    {
        let left = self.numbers.len() - self.gone;
        self.numbers.rotate_left(self.gone);
        self.numbers.truncate(left);
        self.gone = 0;
    }

    // Where there is a place there is one that is free at once.
    fn make_way(&mut self)
        ensures items { self.new.items ≡ self.old.items }
        ensures room { self.old.room ≤ self.new.room }
        ensures free { 1 ≤ self.old.room → 1 ≤ self.new.free }
    {
        if self.numbers.len() == self.numbers.capacity() {
            self.close_up();
        }
    }

    /// The number stands at this place, and those there were move up.
    pub(crate) fn insert(&mut self, place: usize, number: u32)
        requires within { place ≤ length self.old.items }
        requires room { 1 ≤ self.old.room }
        ensures items { self.new.items ≡ insert self.old.items place number }
        ensures room { self.old.room ≤ self.new.room + 1 }
    {
        self.make_way();
        match self.numbers.insert(self.gone + place, number) {
            Ok(()) => {}
            Err(_) => unreachable!(),
        }
    }

    // Those that are gone are moved over, where they are as many as those that are left.
    fn pack(&mut self)
        ensures items { self.new.items ≡ self.old.items }
        ensures room { self.old.room ≤ self.new.room }
    {
        if self.numbers.len() - self.gone <= self.gone {
            self.close_up();
        }
    }

    /// The number at this place goes.
    pub(crate) fn remove(&mut self, place: usize)
        requires { place < length self.old.items }
        ensures items { self.new.items ≡ remove self.old.items place }
        ensures room { self.old.room + 1 ≤ self.new.room }
    {
        if place == 0 {
            self.gone += 1;
            self.pack();
        } else {
            self.numbers.remove(self.gone + place);
        }
    }

    /// Another number stands at this place.
    pub(crate) fn set(&mut self, place: usize, number: u32)
        requires { place < length self.old.items }
        ensures items { self.new.items ≡ slice_set self.old.items place number }
        ensures room { self.new.room ≡ self.old.room }
    {
        self.numbers[self.gone + place] = number;
    }
}

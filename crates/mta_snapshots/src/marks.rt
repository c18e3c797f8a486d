//! Marks of the recipients of items.

ghost use Rattle.std.specs.Prelude.{◌≡◌, ◌&&◌, ◌==◌, not, ℕ, IfOk, map, replicate, slice_get, slice_set, false};
ghost use Rattle.mta_snapshots.specs.Marks.{AreMarked, AreNamed, is_marked, is_waiting, mark_at, marks_in};

use mta_ber::Memory;
use mta_machine::{Item, MailboxLine, Status, is_pending_status};
use std::alloc::Global;
use std::marker::Model;

/// The marks of the recipients of an item, which contracts see as a list.
#[derive(Drop)]
pub(crate) struct Flags {
    inner: Vec<bool>,
}

impl Model for Flags {
    ghost use Rattle.std.specs.Prelude.{Bool, List};

    ghost Value = { List Bool };

    ghost view = { λ f. f.inner.items };
}

/// The marks of the recipients of each item, which contracts see as a list of lists.
#[derive(Drop)]
pub(crate) struct Marks {
    inner: Vec<Flags>,
}

impl Model for Marks {
    ghost use Rattle.std.specs.Prelude.{Bool, List};

    ghost Value = { List (List Bool) };

    ghost view = { λ m. m.inner.items };
}

fn is_waiting(status: &Option<Status>) -> bool
    ensures { result ≡ is_waiting status.now }
{
    match status {
        None => false,
        Some(status) => is_pending_status(status),
    }
}

impl Flags {
    // A mark of each recipient of the item who is pending.
    fn of(alloc: Global, item: &Item) -> Result<Flags, Memory>
        ensures { IfOk result (λ f. f ≡ marks_in item.now) }
    {
        let statuses = item.statuses();
        let mut inner = Vec::with_capacity(alloc, statuses.len())?;
        for status in statuses {
            inner.push(is_waiting(status))?;
        }
        Ok(Flags { inner })
    }

    // No marks, of so many items or recipients.
    fn none(alloc: Global, count: usize) -> Result<Flags, Memory>
        ensures { IfOk result (λ f. f ≡ replicate count false) }
    {
        let mut inner = Vec::with_capacity(alloc, count)?;
        for _ in 0..count {
            inner.push(false)?;
        }
        Ok(Flags { inner })
    }

    // A mark at this number, from 1, where there is that number.
    fn mark(&mut self, number: u32)
        ensures { AreMarked self.old self.new number }
    {
        if number == 0 {
            return;
        }
        if let Some(mark) = self.inner.get_mut(number as usize - 1) {
            *mark = true;
        }
    }

    /// A mark of each item that a delivery names, of so many items.
    pub(crate) fn named(alloc: Global, count: usize, lines: &[MailboxLine]) -> Result<Flags, Memory>
        ensures { IfOk result (AreNamed count lines.now) }
    {
        let mut flags = Flags::none(alloc, count)?;
        for line in lines {
            flags.mark(line.item);
        }
        Ok(flags)
    }

    /// Whether there is a mark at a place, from 0.
    pub(crate) fn at(&self, place: usize) -> bool
        ensures { result ≡ is_marked (slice_get self.now place) }
    {
        match self.inner.get(place) {
            None => false,
            Some(mark) => *mark,
        }
    }

    // The mark at a place, from 0, which is gone from now on.
    fn take(&mut self, place: usize) -> bool
        ensures was { result ≡ is_marked (slice_get self.old place) }
        ensures gone { self.new ≡ slice_set self.old place false }
    {
        match self.inner.get_mut(place) {
            None => false,
            Some(mark) => {
                let was = *mark;
                *mark = false;
                was
            }
        }
    }
}

impl Marks {
    /// A mark of each recipient who is pending.
    pub(crate) fn of(alloc: Global, items: &[Item]) -> Result<Marks, Memory>
        ensures { IfOk result (λ m. m ≡ map marks_in items.now) }
    {
        let mut inner = Vec::with_capacity(alloc, items.len())?;
        for item in items {
            let flags = Flags::of(alloc, item)?;
            inner.push(flags)?;
        }
        Ok(Marks { inner })
    }

    /// Whether the recipient of this number of the item of a number is marked, both from 1. The mark is gone from now
    /// on.
    pub(crate) fn take(&mut self, item: u32, recipient: u32) -> bool
        ensures was { result ≡ mark_at self.old item recipient }
        ensures gone { (j q : ℕ) → mark_at self.new j q
            ≡ (mark_at self.old j q && not ((j == item) && (q == recipient))) }
    {
        if item == 0 {
            return false;
        }
        if recipient == 0 {
            return false;
        }
        let place = item as usize - 1;
        if self.inner.len() <= place {
            return false;
        }
        let flags = &mut self.inner[place];
        flags.take(recipient as usize - 1)
    }
}

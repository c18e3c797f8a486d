//! A disk in memory.

ghost use Rattle.std.specs.Prelude.{◌≡◌, ◌≤◌, ◌++◌, [], ◌∷◌, List, ℕ, Some, length, take, is_err, OnOk, OnErr, IfOk};
ghost use Rattle.mta_edge.specs.Causes.{HasCause, Rose};
ghost use Rattle.mta_edge.specs.Outside.{Reads, written};

use crate::calls::Calls;
use crate::images::image_of;
use crate::log::{Called, Done};
use crate::outside::{Disk, Failed};
use crate::tear::with_piece;
use mta_ber::{Memory, Octets};
use std::alloc::Global;
use std::marker::Model;

// Moves the octets from this offset on, as many as there are or the buffer takes, and answers how many.
pub(crate) fn read_piece(octets: &[u8], at: usize, into: &mut [u8]) -> usize
    ensures bound { result ≤ length into.new }
    ensures octets { Reads at result into.new octets.now }
{
    if octets.len() < at {
        return 0;
    }
    let left = &octets[at..];
    let count = left.len().min(into.len());
    into[..count].copy_from_slice(&left[..count]);
    count
}

/// A disk with these octets, which fails at the listed calls (numbers from 1). It logs its calls, and tells what a
/// crash at each of them may leave.
#[derive(Drop)]
pub struct MemDisk {
    alloc: Global,
    octets: Octets,
    calls: Calls,
    log: Vec<Called>,
}

impl Model for MemDisk {
    ghost use Rattle.mta_edge.specs.Held.{HeldDisk};

    ghost Value = { HeldDisk };

    ghost view = { λ d. record {
      octets = d.octets;
      faults = d.calls.faults;
      log = d.log.items;
      calls = d.calls.made;
      fail = d.calls.fail.items;
    } };
}

impl MemDisk {
    ghost use Rattle.mta_edge.specs.Crashes.{Stays};
    ghost use Rattle.mta_edge.specs.Held.{FailsAsListed};
    ghost use Rattle.mta_edge.specs.Images.{LeftAt, MemoryCrash, image_of, seen_at};

    pub fn new(alloc: Global, octets: Octets, fail: Vec<u64>) -> MemDisk
        ensures content { result.octets ≡ octets }
        ensures faults { result.faults ≡ 0 }
        ensures log { result.log ≡ [] }
        ensures calls { result.calls ≡ 0 }
        ensures fail { result.fail ≡ fail.items }
    {
        MemDisk {
            alloc,
            octets,
            calls: Calls::new(fail),
            log: Vec::new(alloc),
        }
    }

    /// What a read gives.
    pub fn octets(&self) -> &[u8]
        ensures { result.now ≡ self.now.octets }
    {
        self.octets.as_slice()
    }

    /// How many calls were made.
    pub fn calls(&self) -> u64
        ensures { result ≡ length self.now.log }
    {
        self.log.len() as u64
    }

    /// An image that a crash behind the call with this number leaves, where 0 is before the first call. The octal
    /// digits of the choice, the last one first, say how each write and each cut since the last sync is torn.
    pub fn image(&self, call: u64, choice: u64) -> Result<Octets, Memory>
        ensures image { IfOk result (λ o. o ≡ image_of self.now call choice) }
        ensures left { IfOk result (λ o. LeftAt self.now call o) }
    {
        let count = self.log.len().min(call as usize);
        let image = image_of(self.alloc, choice, &self.log[..count], self.first())?;
        Ok(image)
    }

    // What a read gave before the first call.
    fn first(&self) -> &[u8]
        ensures { result.now ≡ seen_at self.now.log 0 self.now.octets }
    {
        match self.log.first() {
            Some(called) => called.before.as_slice(),
            None => self.octets.as_slice(),
        }
    }

    // Logs a call that does nothing to the disk.
    fn look(&mut self) -> Result<(), Failed>
        ensures octets { self.new.octets ≡ self.old.octets }
        ensures cause { HasCause self.old.faults self.new.faults result }
        ensures crash { MemoryCrash Stays self.old self.new }
        ensures fails { FailsAsListed self.old self.new result }
    {
        let begun = self.calls.begin();
        self.log(Done::Look)?;
        begun
    }

    // Logs a call. Without memory for it nothing is logged, and a fault is counted.
    fn log(&mut self, done: Done) -> Result<(), Failed>
        ensures octets { self.new.octets ≡ self.old.octets }
        ensures logged { OnOk result (self.new.log ≡ self.old.log ++ record { before = self.old.octets; done = done } ∷
            []) }
        ensures refused { OnErr result (self.new.log ≡ self.old.log) }
        ensures cause { HasCause self.old.faults self.new.faults result }
        ensures calls { self.new.calls ≡ self.old.calls }
        ensures fail { self.new.fail ≡ self.old.fail }
    {
        let before = self.calls.kept(self.octets.copy(self.alloc))?;
        match self.log.push(Called { before, done }) {
            Ok(()) => Ok(()),
            Err(_) => Err(self.calls.fault()),
        }
    }
}

impl Disk for MemDisk {
    ghost use Rattle.mta_edge.specs.Crashes.{Crash, CutShort, Settled, Stays};
    ghost use Rattle.mta_edge.specs.Held.{FailsAsListed};
    ghost use Rattle.mta_edge.specs.Images.{memory_disk};
    ghost use Rattle.mta_edge.specs.ImageLaws.{memory_disk_laws};
    ghost use Rattle.mta_edge.specs.Outside.{ContentGoes, Cut, Reads, Torn, Within, written};
    ghost use Rattle.mta_edge.specs.Views.{WhereTold};

    ghost model = { memory_disk };

    ghost laws = { memory_disk_laws };

    fn size(&mut self) -> Result<u64, Failed>
        ensures size { IfOk result (λ n. WhereTold memory_disk self.old (λ f. n ≡ length f)) }
        ensures content { Some self.new.octets ≡ Some self.old.octets }
        ensures cause { HasCause self.old.faults self.new.faults result }
        ensures crash { Crash memory_disk Stays self.old self.new }
        ensures fails { FailsAsListed self.old self.new result }
    {
        self.look()?;
        Ok(self.octets.len() as u64)
    }

    fn read(&mut self, at: u64, into: &mut [u8]) -> Result<usize, Failed>
        ensures bound { IfOk result (λ n. n ≤ length into.new) }
        ensures octets { IfOk result (λ n. WhereTold memory_disk self.old (Reads at n into.new)) }
        ensures content { Some self.new.octets ≡ Some self.old.octets }
        ensures cause { HasCause self.old.faults self.new.faults result }
        ensures crash { Crash memory_disk Stays self.old self.new }
        ensures fails { FailsAsListed self.old self.new result }
    {
        self.look()?;
        Ok(read_piece(self.octets.as_slice(), at as usize, into))
    }

    fn write_at(&mut self, at: u64, bytes: &[u8]) -> Result<(), Failed>
        requires { Within at (Some self.old.octets) }
        ensures written { OnOk result (ContentGoes memory_disk (λ f g. g ≡ written at bytes.now f) self.old self.new) }
        ensures torn { OnErr result (ContentGoes memory_disk (Torn at (length bytes.now)) self.old self.new) }
        ensures cause { HasCause self.old.faults self.new.faults result }
        ensures crash { Crash memory_disk (Torn at (length bytes.now)) self.old self.new }
        ensures fails { FailsAsListed self.old self.new result }
    {
        let begun = self.calls.begin();
        let at = at as usize;
        let octets = self.calls.kept(Octets::from_slice(self.alloc, bytes))?;
        let found = with_piece(self.alloc, self.octets.as_slice(), at, bytes);
        let next = self.calls.kept(found)?;
        self.log(Done::Write { at, octets })?;
        begun?;
        self.octets = next;
        Ok(())
    }

    fn cut(&mut self, size: u64) -> Result<(), Failed>
        requires { Within size (Some self.old.octets) }
        ensures cut { OnOk result (ContentGoes memory_disk (λ f g. g ≡ take size f) self.old self.new) }
        ensures torn { OnErr result (ContentGoes memory_disk (Cut size) self.old self.new) }
        ensures cause { HasCause self.old.faults self.new.faults result }
        ensures crash { Crash memory_disk (CutShort size) self.old self.new }
        ensures fails { FailsAsListed self.old self.new result }
    {
        let begun = self.calls.begin();
        let size = size as usize;
        self.log(Done::Cut { size })?;
        begun?;
        self.octets.truncate(size);
        Ok(())
    }

    fn sync(&mut self) -> Result<(), Failed>
        ensures content { Some self.new.octets ≡ Some self.old.octets }
        ensures cause { HasCause self.old.faults self.new.faults result }
        ensures crash { Crash memory_disk Stays self.old self.new }
        ensures fails { FailsAsListed self.old self.new result }
        ensures settled { OnOk result (Settled memory_disk self.new) }
    {
        if let Err(failed) = self.calls.begin() {
            self.log(Done::Look)?;
            return Err(failed);
        }
        self.log(Done::Sync)?;
        Ok(())
    }
}

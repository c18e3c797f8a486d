//! A disk in memory that is changed in place. What it notes of its calls is for proofs alone and takes no memory.

ghost use Rattle.std.specs.Prelude.{◌≡◌, ◌≤◌, ◌<◌, ◌++◌, [], ◌∷◌, List, ℕ, length, OnOk, OnErr, IfOk};
ghost use Rattle.mta_edge.specs.Causes.{HasCause, Rose};
ghost use Rattle.mta_edge.specs.Outside.{written};

use crate::log::{Called, Done};
use crate::memory_disk::read_piece;
use crate::outside::{Disk, Failed};
use mta_ber::{Memory, Octets};
use std::alloc::Global;
use std::marker::Model;
use std::mem;
use std::snapshot::Snapshot;

// A call as clauses see it. It has no octets.
#[derive(Drop)]
struct Noted {
    called: Snapshot<Called>,
}

impl Model for Noted {
    ghost use Rattle.mta_edge.specs.declared.log.Called.{Called};

    ghost Value = { Called };

    ghost view = { λ n. n.called.value };
}

/// A disk with these octets that fails only where memory for them is refused.
#[derive(Drop)]
pub struct SafeDisk {
    alloc: Global,
    octets: Vec<u8>,
    faults: u64,
    log: Vec<Noted>,
}

impl Model for SafeDisk {
    ghost use Rattle.std.specs.Prelude.{[], length};
    ghost use Rattle.mta_edge.specs.Held.{HeldDisk};

    ghost Value = { HeldDisk };

    ghost view = { λ d. record {
      octets = d.octets.items;
      faults = d.faults;
      log = d.log.items;
      calls = length d.log.items;
      fail = [];
    } };
}

// Puts these octets in place of those at this offset, and behind them where there are fewer.
fn put_over(octets: &mut Vec<u8>, at: usize, bytes: &[u8]) -> Result<(), Memory>
    requires { at ≤ length octets.old.items }
    ensures ok { OnOk result (octets.new.items ≡ written at bytes.now octets.old.items) }
    ensures err { OnErr result (octets.new.items ≡ octets.old.items) }
{
    let inside = bytes.len().min(octets.len() - at);
    octets.extend_from_slice(&bytes[inside..])?;
    octets[at..at + inside].copy_from_slice(&bytes[..inside]);
    Ok(())
}

impl SafeDisk {
    ghost use Rattle.mta_edge.specs.Crashes.{Stays};
    ghost use Rattle.mta_edge.specs.Images.{MemoryCrash};

    pub fn new(alloc: Global, octets: Octets) -> SafeDisk
        ensures content { result.octets ≡ octets }
        ensures faults { result.faults ≡ 0 }
        ensures log { result.log ≡ [] }
        ensures fail { result.fail ≡ [] }
    {
        SafeDisk {
            alloc,
            octets: octets.into_vec(),
            faults: 0,
            log: Vec::new(alloc),
        }
    }

    /// What a read gives.
    pub fn octets(&self) -> &[u8]
        ensures { result.now ≡ self.now.octets }
    {
        self.octets.as_slice()
    }

    // Counts a fault.
    fn fault(&mut self) -> Failed
        ensures octets { self.new.octets ≡ self.old.octets }
        ensures log { self.new.log ≡ self.old.log }
        ensures later { self.old.faults ≤ self.new.faults }
        ensures rose { Rose self.old.faults self.new.faults }
    {
        self.faults = self.faults.saturating_add(1);
        Failed
    }

    // Notes a call. Without memory for it nothing is noted, and a fault is counted.
    fn note(&mut self, done: Done) -> Result<(), Failed>
        ensures octets { self.new.octets ≡ self.old.octets }
        ensures logged { OnOk result (self.new.log ≡ self.old.log ++ record { before = self.old.octets; done = done } ∷
            []) }
        ensures refused { OnErr result (self.new.log ≡ self.old.log) }
        ensures cause { HasCause self.old.faults self.new.faults result }
    {
        let octets = mem::replace(&mut self.octets, Vec::new(self.alloc));
        let called = Called {
            before: Octets::from_vec(octets),
            done,
        };
        let noted = Noted {
            called: Snapshot::of(&called),
        };
        let Called { before, done: _ } = called;
        self.octets = before.into_vec();
        match self.log.push(noted) {
            Ok(()) => Ok(()),
            Err(_) => Err(self.fault()),
        }
    }
}

impl Disk for SafeDisk {
    ghost use Rattle.mta_edge.specs.Images.{memory_disk};
    ghost use Rattle.mta_edge.specs.ImageLaws.{memory_disk_laws};

    ghost model = { memory_disk };

    ghost laws = { memory_disk_laws };

    fn size(&mut self) -> Result<u64, Failed> {
        self.note(Done::Look)?;
        Ok(self.octets.len() as u64)
    }

    fn read(&mut self, at: u64, into: &mut [u8]) -> Result<usize, Failed> {
        self.note(Done::Look)?;
        Ok(read_piece(self.octets.as_slice(), at as usize, into))
    }

    fn write_at(&mut self, at: u64, bytes: &[u8]) -> Result<(), Failed> {
        let at = at as usize;
        let Ok(octets) = Octets::from_slice(self.alloc, bytes) else {
            return Err(self.fault());
        };
        self.note(Done::Write { at, octets })?;
        match put_over(&mut self.octets, at, bytes) {
            Ok(()) => Ok(()),
            Err(_) => Err(self.fault()),
        }
    }

    fn cut(&mut self, size: u64) -> Result<(), Failed> {
        let size = size as usize;
        self.note(Done::Cut { size })?;
        self.octets.truncate(size);
        Ok(())
    }

    fn sync(&mut self) -> Result<(), Failed> {
        self.note(Done::Sync)?;
        Ok(())
    }
}

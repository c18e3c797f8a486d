//! Octets of a disk that are read ahead of the records that they hold: one call of the disk serves many short records.

ghost use Rattle.std.specs.Prelude.{◌≡◌, ◌≤◌, [], drop};

use mta_edge::Octets;
use std::alloc::Global;
use std::marker::Model;

// How many octets are read ahead where records are short.
const MANY: u32 = 65_536;

// How many octets of a record are read at first where the one before was long.
const FEW: u32 = 512;

// How many octets a short record has at most.
const SHORT: usize = 4_096;

/// The octets of a disk that were read and not passed yet.
#[derive(Drop)]
pub struct Ahead {
    octets: Octets,
    // How many of them are passed.
    passed: usize,
    // Whether the record that was passed last is long: nothing is read ahead then, which would be read twice.
    is_long: bool,
}

impl Model for Ahead {
    ghost use Rattle.std.specs.Prelude.{◌≤◌, List, ℕ, drop, length};

    ghost Value = { List ℕ };

    ghost view = { λ a. drop a.passed a.octets };

    ghost invariant = { λ a. a.passed ≤ length a.octets };
}

impl Ahead {
    /// None.
    pub fn new(alloc: Global) -> Ahead
        ensures { result ≡ [] }
    {
        Ahead {
            octets: Octets::new(alloc),
            passed: 0,
            is_long: false,
        }
    }

    /// The octets, lent.
    pub fn as_slice(&self) -> &[u8]
        ensures { result.now ≡ self.now }
    {
        &self.octets.as_slice()[self.passed..]
    }

    /// How many are to be read next.
    pub fn count(&self) -> u32
        ensures { 5 ≤ result }
    {
        if self.is_long { FEW } else { MANY }
    }

    /// These were read.
    pub fn put(&mut self, octets: Octets)
        ensures { self.new ≡ octets }
    {
        self.octets = octets;
        self.passed = 0;
    }

    /// A record of so many octets is passed.
    pub fn pass(&mut self, count: usize)
        ensures { self.new ≡ drop count self.old }
    {
        let left = self.octets.len() - self.passed;
        self.passed += count.min(left);
        self.is_long = count > SHORT;
    }
}

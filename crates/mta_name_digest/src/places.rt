//! Places by digests.

use mta_ber::Memory;
use std::alloc::Global;
use std::collections::BTreeMap;
use std::marker::Model;

/// An index of places by digests. Where two places had one digest it is no longer whole, and says nothing.
#[derive(Drop)]
pub struct Places {
    map: BTreeMap<u64, u32>,
    whole: bool,
}

impl Model for Places {
    ghost use Rattle.mta_name_digest.specs.Places.{PlacesValue};

    ghost Value = { PlacesValue };

    ghost view = { λ p. record { whole = p.whole; entries = p.map.entries } };
}

impl Places {
    ghost use Rattle.std.specs.Prelude.{◌≡◌, ℕ, true, None, OnOk, OnErr};
    ghost use Rattle.mta_name_digest.specs.Places.{place_of, Adds};

    /// No places.
    pub fn new(alloc: Global) -> Places
        ensures whole { result.whole ≡ true }
        ensures none { (d : ℕ) → place_of result d ≡ None }
    {
        Places {
            map: BTreeMap::new(alloc),
            whole: true,
        }
    }

    /// Whether no two places had one digest.
    pub fn is_whole(&self) -> bool
        ensures { result ≡ self.now.whole }
    {
        self.whole
    }

    /// The place of a digest.
    pub fn of(&self, digest: u64) -> Option<u32>
        ensures { result ≡ place_of self.now digest }
    {
        self.map.get(&digest).copied()
    }

    /// Adds a place under its digest.
    pub fn add(&mut self, digest: u64, place: u32) -> Result<(), Memory>
        ensures ok { OnOk result (self.new.whole ≡ true → Adds self.old digest place self.new) }
        ensures free { OnOk result (self.old.whole ≡ true → place_of self.old digest ≡ None → self.new.whole ≡ true) }
        ensures err { OnErr result (self.new ≡ self.old) }
    {
        let earlier = self.map.insert(digest, place)?;
        if earlier.is_some() {
            self.whole = false;
        }
        Ok(())
    }
}

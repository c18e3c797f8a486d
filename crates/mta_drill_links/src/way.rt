//! The units on the way to one end of a link.
//!
//! In come units, which are written as they are put, and out they go in the same order, read from their octets. That
//! the link is broken is put down here; whoever puts or reads asks for it first.

ghost use Rattle.std.specs.Prelude.{◌≡◌, [], ◌∷◌, ◌++◌, IfOk, List, None, OnOk, Some, false, true};
ghost use Rattle.mta_units.specs.declared.unit.Unit.{Unit as AnyUnit};
ghost use Rattle.mta_units.specs.Canon.{IsWritable};
ghost use Rattle.mta_drill_links.specs.Ways.{AreOnWay, unit_in};

use crate::reading::is_read_again;
use mta_ber::Memory;
use mta_units::{Frames, Next, Unit, write_unit};
use std::alloc::Global;
use std::marker::Model;

/// The way to one end: octets that were put and not read yet.
#[derive(Drop)]
pub struct Way {
    octets: Frames,
    is_broken: bool,
}

// The unit that was found, if it is one.
fn unit_in(found: Next) -> Option<Unit>
    ensures { result ≡ unit_in found }
{
    match found {
        Next::Unit(unit) => Some(unit),
        Next::More | Next::Bad { .. } => None,
    }
}

impl Model for Way {
    ghost use Rattle.mta_drill_links.specs.Ways.{WayValue};

    ghost Value = { WayValue };

    ghost view = { λ w. record { feed = w.octets; is_broken = w.is_broken } };
}

impl Way {
    /// Nothing is on the way.
    pub fn new(alloc: Global) -> Way
        ensures none { AreOnWay [] result.feed }
        ensures whole { result.is_broken ≡ false }
    {
        Way {
            octets: Frames::new(alloc),
            is_broken: false,
        }
    }

    /// Puts down that the link is broken. What is on the way stays.
    pub fn break_off(&mut self)
        ensures broken { self.new.is_broken ≡ true }
        ensures feed { self.new.feed ≡ self.old.feed }
    {
        self.is_broken = true;
    }

    /// Whether the link is broken.
    pub fn is_broken(&self) -> bool
        ensures { result ≡ self.now.is_broken }
    {
        self.is_broken
    }

    /// Puts a unit behind those that are on the way. 2^64 octets in all are as if there were no memory for them.
    pub fn put(&mut self, alloc: Global, unit: &Unit) -> Result<(), Memory>
        requires writable { IsWritable unit.now }
        ensures put { (us : List AnyUnit) → AreOnWay us self.old.feed
            → OnOk result (AreOnWay (us ++ unit.now ∷ []) self.new.feed) }
        ensures broken { self.new.is_broken ≡ self.old.is_broken }
    {
        let octets = write_unit(alloc, unit)?;
        is_read_again(unit);
        if self.octets.room() < octets.len() as u64 {
            return Err(Memory);
        }
        self.octets.feed(octets.as_slice())
    }

    /// The first unit that is on the way, if there is one.
    pub fn next(&mut self) -> Result<Option<Unit>, Memory>
        ensures first { (u : AnyUnit) (us : List AnyUnit) → AreOnWay (u ∷ us) self.old.feed
            → IfOk result (λ o. (o ≡ Some u) × AreOnWay us self.new.feed) }
        ensures none { AreOnWay [] self.old.feed → IfOk result (λ o. (o ≡ None) × AreOnWay [] self.new.feed) }
        ensures broken { self.new.is_broken ≡ self.old.is_broken }
    {
        let found = self.octets.next()?;
        Ok(unit_in(found))
    }
}

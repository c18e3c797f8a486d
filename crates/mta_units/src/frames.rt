//! Units of a stream that comes in pieces.

ghost use Rattle.std.specs.Prelude.{◌≡◌, ◌≤◌, drop, length, vec_capacity};

use crate::front::BadUnit;
use crate::look::{Look, look_at};
use crate::next::Next;
use mta_ber::Memory;
use std::alloc::Global;
use std::marker::Model;

/// A stream of units, fed in pieces of any size: what was fed and not yet taken. A fault, once found, is kept.
pub struct Frames {
    alloc: Global,
    octets: Vec<u8>,
    taken: usize,
    at: u64,
    bad: Option<BadUnit>,
    spare: usize,
}

// Written out, since a derived one is opened anew, field by field, at each place where a value is let go.
impl Drop for Frames {
    fn drop(self) {
        let Frames {
            alloc: _,
            octets: _,
            taken: _,
            at: _,
            bad: _,
            spare: _,
        } = self;
    }
}

impl Model for Frames {
    ghost use Rattle.std.specs.Prelude.{drop, vec_capacity};
    ghost use Rattle.mta_units.specs.Feed.{Feed, Holds};

    ghost Value = { Feed };

    ghost view = { λ f. record { at = f.at; left = drop f.taken f.octets.items; bad = f.bad; spare = f.spare } };

    ghost invariant = { λ f. Holds f.taken f.octets.items f.at f.bad f.spare (vec_capacity f.octets) };
}

/// Drops the first `taken` octets, where they are no fewer than those behind them.
fn forget(octets: &mut Vec<u8>, taken: usize) -> usize
    requires { taken ≤ length octets.old.items }
    ensures left { drop result octets.new.items ≡ drop taken octets.old.items }
    ensures within { result ≤ length octets.new.items }
    ensures shorter { length octets.new.items ≤ length octets.old.items }
    ensures capacity { vec_capacity octets.new ≡ vec_capacity octets.old }
{
    let left = octets.len() - taken;
    if taken < left || taken == 0 {
        return taken;
    }
    octets.copy_within(taken.., 0);
    octets.truncate(left);
    0
}

impl Frames {
    ghost use Rattle.std.specs.Prelude.{◌≡◌, ◌+◌, ◌++◌, ◌<◌, ◌≤◌, ◌^◌, false, List, [], ℕ};
    ghost use Rattle.std.specs.Prelude.{length, drop, OnOk, OnErr, IfOk, IsOk, IsSome};
    ghost use Rattle.mta_units.specs.Front.{front, may_take_memory};
    ghost use Rattle.mta_ber.specs.Octet.{IsOctets};
    ghost use Rattle.mta_units.specs.declared.front.BadUnit.{BadUnit as TheBadUnit};
    ghost use Rattle.mta_units.specs.declared.unit.Unit.{Unit as AnyUnit};
    ghost use Rattle.mta_units.specs.Look.{KeepsFault};
    ghost use Rattle.mta_units.specs.Spelling.{SpellsUnit, HasFault, IsCutOff};
    ghost use Rattle.mta_units.specs.Feed.{no_feed, fed, with_spare, Goes};
    ghost use Rattle.mta_units.specs.Reading.{HasRead, and_next, Says};

    /// No octets fed.
    pub fn new(alloc: Global) -> Frames
        ensures exact { result ≡ no_feed }
        ensures reading { HasRead [] [] result }
    {
        Frames {
            alloc,
            octets: Vec::new(alloc),
            taken: 0,
            at: 0,
            bad: None,
            spare: 0,
        }
    }

    /// How many octets may still be fed.
    pub fn room(&self) -> u64
        ensures { result + (self.now.at + length self.now.left) ≡ u64.MAX }
    {
        let left = (self.octets.len() - self.taken) as u64;
        u64::MAX - (self.at + left)
    }

    /// Takes the memory for a piece of so many octets, which is fed next.
    pub fn reserve(&mut self, count: usize) -> Result<(), Memory>
        ensures ok { OnOk result (self.new ≡ with_spare self.old count) }
        ensures err { OnErr result (self.new ≡ self.old) }
    {
        self.taken = forget(&mut self.octets, self.taken);
        self.octets.reserve(count)?;
        self.spare = count;
        Ok(())
    }

    /// The stream so far is followed by the piece. A piece for which the memory was taken before takes none.
    pub fn feed(&mut self, piece: &[u8]) -> Result<(), Memory>
        requires { self.old.at + length self.old.left + length piece.now < 2 ^ 64 }
        ensures ok { OnOk result (self.new ≡ fed self.old piece.now) }
        ensures reading { (us : List AnyUnit) (stream : List ℕ) → HasRead us stream self.old
            → OnOk result (HasRead us (stream ++ piece.now) self.new) }
        ensures err { OnErr result (self.new ≡ self.old) }
        ensures memory { length piece.now ≤ self.old.spare → IsOk result }
    {
        self.taken = forget(&mut self.octets, self.taken);
        self.octets.extend_from_slice(piece)?;
        self.spare = 0;
        Ok(())
    }

    fn next_of(&mut self) -> Result<Next, Memory>
        ensures exact { IfOk result (λ n. Goes self.old n self.new) }
        ensures err { OnErr result (self.new ≡ self.old) }
        ensures memory { may_take_memory (front self.old.left) ≡ false → IsOk result }
        ensures found { IsSome self.old.bad → IsOk result }
        ensures bytes { IsOctets self.old.left }
        ensures kept { KeepsFault self.old.bad self.old.left }
    {
        if let Some(kind) = self.bad {
            return Ok(Next::Bad { at: self.at, kind });
        }
        match look_at(self.alloc, &self.octets[self.taken..])? {
            Look::Cut => Ok(Next::More),
            Look::Faulty(kind) => {
                self.bad = Some(kind);
                Ok(Next::Bad { at: self.at, kind })
            }
            Look::Read(unit, size) => {
                self.taken += size;
                self.at += size as u64;
                Ok(Next::Unit(unit))
            }
        }
    }

    /// What comes next: the next unit; that a whole unit has not come yet, and no fault; or why none comes from an
    /// offset of the stream on, which is answered for good.
    pub fn next(&mut self) -> Result<Next, Memory>
        ensures exact { IfOk result (λ n. Goes self.old n self.new) }
        ensures err { OnErr result (self.new ≡ self.old) }

        // A unit of one size takes no memory, nor does a fault that was found.
        ensures memory { may_take_memory (front self.old.left) ≡ false → IsOk result }
        ensures found { IsSome self.old.bad → IsOk result }

        // The units answered so far, with what was not taken, are all that was fed; and what is left begins with no
        // unit where none is answered.
        ensures reading { (us : List AnyUnit) (stream : List ℕ) → HasRead us stream self.old
            → IfOk result (λ n. HasRead (and_next us n) stream self.new) }
        ensures says { IfOk result (λ n. Says n self.new) }

        // And what stands in what was fed and not taken is answered.
        ensures more { IsCutOff self.old.left → IfOk result (λ n. n ≡ Next.More) }
        ensures bad { (k : TheBadUnit) → HasFault k self.old.left → IfOk result (λ n. n ≡ Next.Bad self.old.at k) }
        ensures unit { (u : AnyUnit) (first rest : List ℕ) → SpellsUnit u first → self.old.left ≡ first ++ rest
            → IfOk result (λ n. n ≡ Next.Unit u) }
    {
        self.next_of()
    }
}

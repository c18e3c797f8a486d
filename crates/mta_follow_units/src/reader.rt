//! A stream of units that is fed in pieces.
//!
//! What was fed of the unit that is due is kept once, however long it is: a record's body is lent from there. Room is
//! taken piece by piece, and not for a length that was only told. A piece ends no later than that unit, so that nothing
//! behind it is read (`wants`).

ghost use Rattle.std.specs.Prelude.{◌≡◌, ◌≤◌, ◌<◌, length, vec_capacity, IsOk, OnOk, OnErr};
ghost use Rattle.mta_follow_units.specs.Look.{Cut, IsLook, look};
ghost use Rattle.mta_follow_units.specs.Feed.{fed, no_feed, passed, unit_size, wanted, with_spare};
ghost use Rattle.mta_follow_units.specs.Laws.{StandsAlone};

use crate::due::Due;
use crate::look::{Look, look_at};
use mta_ber::Memory;
use std::alloc::Global;
use std::marker::Model;

// The octets of a unit in front of its body.
const HEAD: usize = 5;

/// What was fed of the unit that is due, how many octets of the stream stand in front of it, and for how many more the
/// memory was taken.
#[derive(Drop)]
pub struct Reader {
    octets: Vec<u8>,
    at: u64,
    spare: usize,
}

impl Model for Reader {
    ghost use Rattle.std.specs.Prelude.{vec_capacity};
    ghost use Rattle.mta_follow_units.specs.Feed.{Feed, IsFeed};

    ghost Value = { Feed };

    ghost view = { λ r. record { at = r.at; left = r.octets.items; spare = r.spare } };

    ghost invariant = { λ r. IsFeed r.at r.octets.items r.spare (vec_capacity r.octets) };
}

// How many octets the unit has that begins with these, as far as they tell: its head, and the body behind it.
#[tactic(auto, unfolding(crate::specs::Feed::unit_size))]
fn size_of(octets: &[u8]) -> usize
    ensures { result ≡ unit_size octets.now }
{
    match octets {
        [a, b, c, d, _, ..] => HEAD + u32::from_be_bytes([*a, *b, *c, *d]) as usize,
        _ => HEAD,
    }
}

impl Reader {
    /// Nothing was fed.
    pub fn new(alloc: Global) -> Reader
        ensures { result ≡ no_feed }
    {
        Reader {
            octets: Vec::new(alloc),
            at: 0,
            spare: 0,
        }
    }

    /// The offset in the stream of the unit that is due.
    pub fn at(&self) -> u64
        ensures { result ≡ self.now.at }
    {
        self.at
    }

    /// How many octets the next piece may have: those that are still to come of the unit's length and kind, and then
    /// those of its body. None only where it is whole.
    pub fn wants(&self) -> usize
        ensures { result ≡ wanted self.now.left }
    {
        size_of(self.octets.as_slice()).saturating_sub(self.octets.len())
    }

    /// Takes the memory for a piece of so many octets, which is fed next.
    ///
    /// # Errors
    /// Want of memory, also where the stream would have 2^64 octets.
    pub fn reserve(&mut self, count: usize) -> Result<(), Memory>
        ensures ok { OnOk result (self.new ≡ with_spare self.old count) }
        ensures err { OnErr result (self.new ≡ self.old) }
    {
        let used = self.octets.len() as u64;
        if count as u64 > u64::MAX - self.at - used {
            return Err(Memory);
        }
        self.octets.reserve(count)?;
        self.spare = count;
        Ok(())
    }

    /// The stream so far is followed by the piece. A piece for which the memory was taken before takes none.
    ///
    /// # Errors
    /// Want of memory, also where the stream would have 2^64 octets. What was fed stays.
    pub fn feed(&mut self, piece: &[u8]) -> Result<(), Memory>
        requires { length piece.now ≤ wanted self.old.left }
        ensures ok { OnOk result (self.new ≡ fed self.old piece.now) }
        ensures err { OnErr result (self.new ≡ self.old) }
        ensures memory { length piece.now ≤ self.old.spare → IsOk result }
    {
        let used = self.octets.len() as u64;
        if piece.len() as u64 > u64::MAX - self.at - used {
            return Err(Memory);
        }
        self.octets.extend_from_slice(piece)?;
        self.spare = 0;
        Ok(())
    }

    /// The unit that is due, as far as it was fed. Nothing was fed of what stands behind it.
    pub fn look(&self, due: Due) -> Look<'_>
        ensures exact { IsLook result (look due self.now.left) }
        ensures stands { StandsAlone due (look due self.now.left) self.now.left }
        ensures wants { look due self.now.left ≡ Cut → 0 < wanted self.now.left }
    {
        look_at(due, self.octets.as_slice())
    }

    /// Goes on behind what was fed.
    pub fn pass(&mut self)
        ensures { self.new ≡ passed self.old }
    {
        self.at += self.octets.len() as u64;
        self.octets.clear();
        self.spare = 0;
    }
}

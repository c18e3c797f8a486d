//! Bit strings (X.690, 8.6).

ghost use Rattle.std.specs.Prelude.{◌≡◌, ◌↔◌, ◌+◌, ◌-◌, ◌*◌, ◌/◌, ◌^◌, ◌<◌, ◌≤◌, max, length};
ghost use Rattle.std.specs.Prelude.{false, true, Ok, Err, IsTrue, Result, IfOk};
ghost use Rattle.mta_ber.specs.Head.{base};
ghost use Rattle.mta_ber.specs.Bits.{BitString, bit, padded, good_unused, bits_of, with_bits, at_most_64};
ghost use Rattle.mta_ber.specs.Bits.{bits_behind, bits_piece, bits_in, too_many, no_bits};
ghost use Rattle.mta_ber.specs.Segmented.{SpellsBits};
ghost use Rattle.mta_ber.specs.Parts.{Leaves};
ghost use Rattle.mta_ber.specs.Seen.{Gives, view};

use crate::fault::{Fault, Kind, ReadFault};
use crate::gather::{Gathers, gather_of};
use crate::head::length_number;
use crate::view::View;
use std::marker::Model;

/// At most 64 bits: how many, and the number whose binary digits they are, the first bit the most significant.
#[derive(Clone, Copy, Debug, PartialEq, Eq)]
pub struct Bits {
    count: u8,
    word: u64,
}

impl Model for Bits {
    ghost use Rattle.std.specs.Prelude.{◌^◌, ◌<◌, ◌≤◌};
    ghost use Rattle.mta_ber.specs.Bits.{BitString};

    ghost Value = { BitString };

    ghost view = { λ b. record { count = b.count; word = b.word } };

    ghost invariant = { λ b. (b.count ≤ 64) × (b.word < 2 ^ b.count) };

    ghost inverse = { λ v. record { count = v.count; word = v.word } };
}

/// Bits so far, up to 64 of them.
#[derive(Drop)]
struct Gathered {
    count: u8,
    word: u64,
}

impl Model for Gathered {
    ghost use Rattle.std.specs.Prelude.{◌^◌, ◌<◌, ◌≤◌};
    ghost use Rattle.mta_ber.specs.Bits.{BitString};

    ghost Value = { BitString };

    ghost view = { λ b. record { count = b.count; word = b.word } };

    ghost invariant = { λ b. (b.count ≤ 65) × (b.word < 2 ^ b.count) };
}

impl Bits {
    /// The bits of a number below 2 to the power of `count`, the first bit the most significant.
    pub fn new(count: u8, word: u64) -> Bits
        requires few { count ≤ 64 }
        requires within { word < 2 ^ count }
        ensures { result ≡ record { count = count; word = word } }
    {
        Bits { count, word }
    }

    /// How many bits there are.
    pub fn count(self) -> u8
        ensures exact { result ≡ self.count }
        ensures few { result ≤ 64 }
    {
        self.count
    }

    /// The number whose binary digits they are.
    pub fn word(self) -> u64
        ensures exact { result ≡ self.word }
        ensures within { result < 2 ^ self.count }
    {
        self.word
    }

    /// Whether the bit at a place is set; one that is absent is not.
    pub fn is_set(self, place: u8) -> bool
        ensures { result ≡ bit self place }
    {
        if place >= self.count {
            return false;
        }
        (self.word >> (self.count - 1 - place)) % 2 == 1
    }

    /// With zeros behind them, up to a least count.
    pub fn padded(self, least: u8) -> Bits
        requires { least ≤ 64 }
        ensures { result ≡ padded least self }
    {
        if self.count >= least {
            return self;
        }
        Bits {
            count: least,
            word: shifted(self.word, self.count, least - self.count),
        }
    }
}

/// The number with zeros behind its `count` binary digits.
fn shifted(word: u64, count: u8, zeros: u8) -> u64
    requires within { word < 2 ^ count }
    requires few { count + zeros ≤ 64 }
    ensures exact { result ≡ word * 2 ^ zeros }
    ensures room { result + 2 ^ zeros ≤ 2 ^ (count + zeros) }
{
    if count == 0 { 0 } else { word << zeros }
}

fn is_good_unused(last: bool, unused: u8, octets: &[u8]) -> bool
    ensures { result ≡ good_unused last unused octets.now }
{
    match octets {
        [] => unused == 0,
        [_, ..] => unused < 8 && (unused == 0 || last),
    }
}

/// Bits so far, and those of a piece behind them.
fn with_piece(before: &Gathered, unused: u8, octets: &[u8]) -> Gathered
    requires few { unused < 8 }
    requires within { unused ≤ 8 * length octets.now }
    ensures { result ≡ at_most_64 (with_bits before.now (bits_of unused octets.now)) }
{
    if octets.len() > 8 {
        return Gathered { count: 65, word: 0 };
    }
    let more = 8 * octets.len() as u8 - unused;
    if before.count + more > 64 {
        return Gathered { count: 65, word: 0 };
    }
    let number = length_number(octets) >> unused;
    Gathered {
        count: before.count + more,
        word: shifted(before.word, before.count, more) + number,
    }
}

impl Gathers for Gathered {
    ghost piece = { bits_piece };

    ghost takes_memory = { false };

    fn take(&mut self, last: bool, part: &View) -> Result<(), ReadFault> {
        match part.content {
            [unused, octets @ ..] if is_good_unused(last, *unused, octets) => {
                *self = with_piece(self, *unused, octets);
                Ok(())
            }
            _ => Err(ReadFault::Bad(Fault {
                at: part.at,
                kind: Kind::BadInt,
            })),
        }
    }
}

impl View<'_> {
    #[tactic(auto, unfolding(crate::specs::Bits::bits_in))]
    fn bits_of(&self) -> Result<Bits, Fault>
        ensures { result ≡ bits_in (view self.now) }
    {
        let mut gathered = Gathered { count: 0, word: 0 };
        match gather_of(&mut gathered, self, 3, 3, true) {
            Err(ReadFault::Bad(fault)) => Err(fault),
            Err(ReadFault::Memory) => unreachable!(),
            Ok(()) => {
                let Gathered { count, word } = gathered;
                if count > 64 {
                    return Err(Fault {
                        at: self.at,
                        kind: Kind::BadInt,
                    });
                }
                Ok(Bits { count, word })
            }
        }
    }

    /// A bit string of at most 64 bits (X.690, 8.6). Segments have the tag of BIT STRING, and only the last one has
    /// unused bits.
    pub fn bits(&self) -> Result<Bits, Fault>
        ensures exact { result ≡ bits_in (view self.now) }

        // What is answered is spelled by the content, and what the content spells is answered.
        ensures found { IfOk result (SpellsBits self.now.depth self.now.tag.constructed self.now.content.now) }
        ensures only { (b : BitString) → SpellsBits self.now.depth self.now.tag.constructed self.now.content.now b
            → result ≡ Ok b }
    {
        self.bits_of()
    }
}

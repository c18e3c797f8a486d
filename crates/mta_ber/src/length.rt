//! How many octets elements have that are written, told without writing them: no call here takes memory. Each answers
//! 2^64 - 1 where there are as many octets or more.

ghost use Rattle.std.specs.Prelude.{◌≡◌, ◌<◌, ◌≤◌, ◌++◌, List, ℕ, length};
ghost use Rattle.mta_ber.specs.Canon.{element, length_octets};
ghost use Rattle.mta_ber.specs.Contents.{canon_int, canon_bits, canon_utc};
ghost use Rattle.mta_ber.specs.Lengths.{octet_length};
ghost use Rattle.mta_ber.specs.Times.{last_moment};

use crate::bits::Bits;
use crate::encoding::significant;
use crate::put::{as_primitive_of, shortest_of};
use crate::tag::Tag;

/// How many octets there are.
pub fn slice_length(octets: &[u8]) -> u64
    ensures { result ≡ octet_length octets.now }
{
    octets.len() as u64
}

/// How many octets there are with others behind them.
pub fn length_of_both(first: u64, second: u64) -> u64
    ensures { (xs ys : List ℕ) → first ≡ octet_length xs → second ≡ octet_length ys
        → result ≡ octet_length (xs ++ ys) }
{
    first.saturating_add(second)
}

/// How many length octets (X.690, 8.1.3) stand before so many contents octets.
#[tactic(auto, unfolding(crate::specs::Canon::length_octets))]
fn header_length(content: u64) -> u64
    ensures exact { result ≡ length (length_octets content) }
    ensures few { result ≤ 9 }
{
    if content < 128 {
        return 1;
    }
    let octets = content.to_be_bytes();
    1 + significant(&octets).len() as u64
}

/// How many octets an element has with so many contents octets, under a tag that has one identifier octet.
pub fn element_length(tag: Tag, content: u64) -> u64
    requires { tag.number < 31 }
    ensures { (c : List ℕ) → content ≡ octet_length c → result ≡ octet_length (element tag c) }
{
    content.saturating_add(1 + header_length(content))
}

/// How many octets an INTEGER or an ENUMERATED has.
pub fn int_length(tag: Tag, n: i64) -> u64
    requires { tag.number < 31 }
    ensures { result ≡ octet_length (canon_int tag n) }
{
    let octets = n.cast_unsigned().to_be_bytes();
    element_length(as_primitive_of(tag), slice_length(shortest_of(&octets)))
}

/// How many octets a BIT STRING has.
pub fn bits_length(tag: Tag, bits: Bits) -> u64
    requires { tag.number < 31 }
    ensures { result ≡ octet_length (canon_bits tag bits) }
{
    element_length(as_primitive_of(tag), 1 + (bits.count() as u64 + 7) / 8)
}

/// How many octets a UTCTime has.
pub fn utc_length(tag: Tag, moment: u64) -> u64
    requires tag { tag.number < 31 }
    requires moment { moment ≤ last_moment }
    ensures { result ≡ octet_length (canon_utc tag moment) }
{
    element_length(as_primitive_of(tag), 13)
}

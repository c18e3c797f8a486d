//! Writing integers, bit strings and times in their canonical form.

ghost use Rattle.std.specs.Prelude.{◌≡◌, ◌<◌, ◌≤◌, ◌+◌, ◌-◌, ◌*◌, ◌%◌, ◌^◌, ◌/◌, length, OnOk, OnErr, IfOk, pos, ◌≤ℤ◌};
ghost use Rattle.std.specs.Int.{w64, bytes_high_first};
ghost use Rattle.mta_ber.specs.Canon.{IsTag, appended, element};
ghost use Rattle.mta_ber.specs.Contents.{as_primitive, is_redundant, shortest, int_content, canon_int, octet_count};
ghost use Rattle.mta_ber.specs.Contents.{unused_bits, bits_content, canon_bits, civil_of, utc_content, canon_utc};
ghost use Rattle.mta_ber.specs.Times.{last_moment};

use crate::bits::Bits;
use crate::memory::Memory;
use crate::octets::Octets;
use crate::tag::Tag;
use crate::writer::Writer;
use jiff_core::civil::Date;
use std::alloc::Global;

/// The tag of a primitive element.
pub fn as_primitive_of(tag: Tag) -> Tag
    ensures { result ≡ as_primitive tag }
{
    Tag {
        class: tag.class,
        constructed: false,
        number: tag.number,
    }
}

fn is_redundant_of(first: u8, rest: &[u8]) -> bool
    ensures { result ≡ is_redundant first rest.now }
{
    match rest {
        [] => false,
        [second, ..] => first == 0 && *second < 128 || first == 255 && *second >= 128,
    }
}

/// The shortest octets of the same number.
pub fn shortest_of(octets: &[u8]) -> &[u8]
    ensures { result.now ≡ shortest octets.now }
{
    match octets {
        [] => octets,
        [first, rest @ ..] => {
            if is_redundant_of(*first, rest) {
                shortest_of(rest)
            } else {
                octets
            }
        }
    }
}

/// Writes an INTEGER or an ENUMERATED (X.690, 8.3) under a tag.
#[tactic(auto, unfolding(crate::specs::Contents::int_content))]
pub fn put_int(w: &mut Writer, tag: Tag, n: i64) -> Result<(), Memory>
    requires { IsTag tag }
    ensures ok { OnOk result (w.new ≡ appended w.old (canon_int tag n)) }
    ensures err { OnErr result (w.new ≡ w.old) }
{
    let octets = n.cast_unsigned().to_be_bytes();
    w.put(as_primitive_of(tag), shortest_of(&octets))
}

/// The contents of a bit string.
#[tactic(auto, unfolding(crate::specs::Contents::bits_content))]
fn bits_content_of(alloc: Global, bits: Bits) -> Result<Octets, Memory>
    ensures { IfOk result (λ o. o ≡ bits_content bits) }
{
    let bit_count = bits.count();
    let count = (bit_count + 7) / 8;
    let octets = bits.padded(8 * count).word().to_be_bytes();
    let mut content = Octets::from_slice(alloc, &[8 * count - bit_count])?;
    content.extend(&octets[8 - count as usize..])?;
    Ok(content)
}

/// Writes a BIT STRING (X.690, 8.6) under a tag.
pub fn put_bits(w: &mut Writer, tag: Tag, bits: Bits) -> Result<(), Memory>
    requires { IsTag tag }
    ensures ok { OnOk result (w.new ≡ appended w.old (canon_bits tag bits)) }
    ensures err { OnErr result (w.new ≡ w.old) }
{
    let content = bits_content_of(w.alloc(), bits)?;
    w.put(as_primitive_of(tag), content.as_slice())
}

/// The date of a day counted from 1950-01-01.
fn date_of(day: u64) -> Date
    requires { day < 36525 }
    ensures year { result.year ≡ pos ((civil_of day).year) }
    ensures month { result.month ≡ (civil_of day).month }
    ensures day { result.day ≡ (civil_of day).day }
    ensures low { pos 1950 ≤ℤ result.year }
    ensures high { result.year ≤ℤ pos 2049 }
{
    match Date::from_unix_epoch_day(day as i64 - 7305) {
        Ok(date) => date,
        Err(_) => unreachable!(),
    }
}

fn ten(n: u8) -> u8
    requires { n < 100 }
    ensures { result ≡ 48 + n / 10 }
{
    48 + n / 10
}

fn one(n: u8) -> u8
    ensures { result ≡ 48 + n % 10 }
{
    48 + n % 10
}

/// The text of a moment.
#[tactic(auto, unfolding(crate::specs::Contents::utc_content))]
fn utc_content_of(moment: u64) -> [u8; 13]
    requires { moment ≤ last_moment }
    ensures { result ≡ utc_content moment }
{
    let date = date_of(moment / 86400);
    let second = (moment % 86400) as u32;
    let year = (date.year as u16 % 100) as u8;
    let hour = (second / 3600) as u8;
    let minute = (second / 60 % 60) as u8;
    let last = (second % 60) as u8;
    [
        ten(year),
        one(year),
        ten(date.month),
        one(date.month),
        ten(date.day),
        one(date.day),
        ten(hour),
        one(hour),
        ten(minute),
        one(minute),
        ten(last),
        one(last),
        90,
    ]
}

/// Writes a UTCTime with seconds and Z (X.690, 11.8) under a tag: the moment of so many seconds from 1950-01-01
/// 00:00:00 UTC.
pub fn put_utc(w: &mut Writer, tag: Tag, moment: u64) -> Result<(), Memory>
    requires tag { IsTag tag }
    requires moment { moment ≤ last_moment }
    ensures ok { OnOk result (w.new ≡ appended w.old (canon_utc tag moment)) }
    ensures err { OnErr result (w.new ≡ w.old) }
{
    w.put(as_primitive_of(tag), &utc_content_of(moment))
}

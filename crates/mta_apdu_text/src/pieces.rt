//! Pieces of texts, each appended to what was printed before.

ghost use Rattle.std.specs.Prelude.{◌≡◌, ◌<◌, ◌≤◌, ◌++◌, drop, OnOk, OnErr, decimal};
ghost use Rattle.mta_ber.specs.Canon.{Begins};
ghost use Rattle.mta_ber.specs.Times.{last_moment};
ghost use Rattle.mta_name_text.specs.Forms.{text_form};
ghost use Rattle.mta_apdu_text.specs.Pieces.{hex_digit, hex_octet, hex_text, bit_digit, bits_text};
ghost use Rattle.mta_apdu_text.specs.Pieces.{escaped, escaped_text, printed_moment, moment_text};
ghost use Rattle.mta_apdu_text.specs.Pieces.{prmd_text, domain_text, id_text, word_if};

use itoa::Buffer;
use mta_ber::{Bits, LAST_MOMENT, Memory, Octets, Tag, Writer, put_utc};
use mta_fields::{Domain, MtsId};
use mta_name_text::NameForm;
use mta_names::{Label, OrName};
use std::alloc::Global;

/// A number in decimal digits.
pub fn put_number(out: &mut Octets, number: u64) -> Result<(), Memory>
    ensures ok { OnOk result (out.new ≡ out.old ++ decimal number) }
    ensures err { OnErr result (out.new ≡ out.old) }
{
    let mut buffer = Buffer::new();
    out.extend(buffer.format(number).as_bytes())
}

fn hex_digit(number: u8) -> u8
    requires { number < 16 }
    ensures { result ≡ hex_digit number }
{
    if number < 10 {
        48 + number
    } else {
        87 + number
    }
}

fn hex_of(octet: u8) -> [u8; 2]
    ensures { result ≡ hex_octet octet }
{
    [hex_digit(octet / 16), hex_digit(octet % 16)]
}

/// Two hexadecimal digits per octet.
pub fn put_hex(out: &mut Octets, octets: &[u8]) -> Result<(), Memory>
    ensures { OnOk result (out.new ≡ out.old ++ hex_text octets.now) }
{
    for octet in octets {
        out.extend(&hex_of(*octet))?;
    }
    Ok(())
}

/// A bit as the digit 0 or 1.
pub fn bit_digit(bit: bool) -> u8
    ensures { result ≡ bit_digit bit }
{
    if bit { b'1' } else { b'0' }
}

/// Bits as 0 and 1, the first one first.
#[tactic(auto, using(crate::proofs::Bits::one_bit_less), unfolding(crate::specs::Pieces::bits_text))]
pub fn put_bits(out: &mut Octets, bits: Bits) -> Result<(), Memory>
    ensures { OnOk result (out.new ≡ out.old ++ bits_text bits) }
{
    let count = bits.count();
    for place in 0..count {
        out.extend(&[bit_digit(bits.is_set(place))])?;
    }
    Ok(())
}

/// An octet, or where it is outside 20 to 7E a backslash and its hexadecimal digits.
fn put_escaped_octet(out: &mut Octets, octet: u8) -> Result<(), Memory>
    ensures ok { OnOk result (out.new ≡ out.old ++ escaped octet) }
    ensures begins { Begins out.old out.new }
{
    if matches!(octet, 32..=126) {
        return out.extend(&[octet]);
    }
    let [high, low] = hex_of(octet);
    out.extend(&[b'\\', high, low])
}

/// The octets, those outside 20 to 7E as a backslash and hexadecimal digits.
pub fn put_escaped(out: &mut Octets, octets: &[u8]) -> Result<(), Memory>
    ensures ok { OnOk result (out.new ≡ out.old ++ escaped_text octets.now) }
    ensures begins { Begins out.old out.new }
{
    for octet in octets {
        put_escaped_octet(out, *octet)?;
    }
    Ok(())
}

/// The tag of UTCTime (X.690, 8.25), whose contents are the text of a moment.
const UTC_TIME: Tag = Tag {
    class: 0,
    constructed: false,
    number: 23,
};

/// The moment, or the last one of a UTCTime where it is past that.
fn printed_moment(moment: u64) -> u64
    ensures exact { result ≡ printed_moment moment }
    ensures bound { result ≤ last_moment }
{
    if moment > LAST_MOMENT {
        LAST_MOMENT
    } else {
        moment
    }
}

/// What stands behind a header of two octets.
fn behind_header(octets: &[u8]) -> &[u8]
    ensures { result.now ≡ drop 2 octets.now }
{
    match octets {
        [_, _, content @ ..] => content,
        _ => &octets[..0],
    }
}

/// A moment as YYMMDDhhmmssZ. Moments are seconds from 1950-01-01 00:00:00 UTC; one past the last second of 2049 is
/// printed as that.
pub fn put_moment(alloc: Global, out: &mut Octets, moment: u64) -> Result<(), Memory>
    ensures ok { OnOk result (out.new ≡ out.old ++ moment_text moment) }
    ensures err { OnErr result (out.new ≡ out.old) }
{
    let mut writer = Writer::new(alloc);
    put_utc(&mut writer, UTC_TIME, printed_moment(moment))?;
    out.extend(behind_header(writer.as_slice()))
}

fn put_prmd(out: &mut Octets, prmd: &Option<Label>) -> Result<(), Memory>
    ensures ok { OnOk result (out.new ≡ out.old ++ prmd_text prmd.now) }
    ensures begins { Begins out.old out.new }
{
    match prmd {
        None => Ok(()),
        Some(label) => {
            out.extend(b";P=")?;
            out.extend(label.text.as_slice())
        }
    }
}

/// The text form of a domain: its country, its administration domain, and its private domain where it has one.
#[tactic(auto, unfolding(crate::specs::Pieces::domain_text))]
pub fn put_domain(out: &mut Octets, domain: &Domain) -> Result<(), Memory>
    ensures ok { OnOk result (out.new ≡ out.old ++ domain_text domain.now) }
    ensures begins { Begins out.old out.new }
{
    let fields = domain.fields();
    out.extend(b"C=")?;
    out.extend(fields.country.text.as_slice())?;
    out.extend(b";A=")?;
    out.extend(fields.admd.text.as_slice())?;
    put_prmd(out, &fields.prmd)
}

/// The text form of an identifier's domain, a slash, and its local part.
#[tactic(auto, unfolding(crate::specs::Pieces::id_text))]
fn put_id_parts(out: &mut Octets, id: &MtsId) -> Result<(), Memory>
    ensures ok { OnOk result (out.new ≡ out.old ++ id_text id.now) }
    ensures begins { Begins out.old out.new }
{
    let fields = id.fields();
    put_domain(out, &fields.domain)?;
    out.extend(b"/")?;
    put_escaped(out, fields.local.as_slice())
}

/// The text form of an identifier's domain, a slash, and its local part.
pub fn put_id(out: &mut Octets, id: &MtsId) -> Result<(), Memory>
    ensures ok { OnOk result (out.new ≡ out.old ++ id_text id.now) }
    ensures err { OnErr result (out.new ≡ out.old) }
{
    let before = out.len();
    match put_id_parts(out, id) {
        Ok(()) => Ok(()),
        Err(Memory) => {
            out.truncate(before);
            Err(Memory)
        }
    }
}

/// The text form of a name, which is empty where no part of it is printed.
pub fn put_name(alloc: Global, out: &mut Octets, name: &OrName) -> Result<(), Memory>
    ensures ok { OnOk result (out.new ≡ out.old ++ text_form name.now) }
    ensures err { OnErr result (out.new ≡ out.old) }
{
    let text = name.to_text(alloc)?;
    out.extend(text.as_slice())
}

/// A word where something holds.
pub fn put_word_if(out: &mut Octets, holds: bool, word: &[u8]) -> Result<(), Memory>
    ensures ok { OnOk result (out.new ≡ out.old ++ word_if holds word.now) }
    ensures err { OnErr result (out.new ≡ out.old) }
{
    if holds { out.extend(word) } else { Ok(()) }
}

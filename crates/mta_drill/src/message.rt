//! The messages of a drill.
//!
//! In comes the number of a message, from 1. Out go its identifier, its content and its octets, which are those of a
//! message from bell to watt (X.411, Message): both are names of C=GB;A=GOLD, as its identifier is. The content has
//! 1,500 octets and up to 2,002 more.

ghost use Rattle.std.specs.Prelude.{◌≡◌, ◌≤◌, IfOk, OnOk};
ghost use Rattle.mta_ber.specs.Canon.{appended};
ghost use Rattle.mta_drill_text.specs.Text.{content_length};
ghost use Rattle.mta_drill_laws.specs.Messages.{content_of};
ghost use Rattle.mta_drill_laws.specs.Messages.{envelope_element, identifier_of, identifier_element, message_of};

use mta_ber::{Memory, Octets, Writer};
use mta_names::{constructed, primitive};
use mta_rules::put_digits;
use std::alloc::Global;

// C=GB;A=GOLD, [APPLICATION 3].
const DOMAIN: &[u8] = b"\x63\x0E\x61\x04\x13\x02GB\x62\x06\x13\x04GOLD";

// C=GB;A=GOLD;S=BELL, [APPLICATION 0].
const ORIGINATOR: &[u8] =
    b"\x60\x18\x30\x16\x61\x04\x13\x02GB\x62\x06\x13\x04GOLD\xA5\x06\x80\x04BELL";

// Content type 22 and an empty trace.
const CONTENT_TYPE_AND_TRACE: &[u8] = b"\x46\x01\x16\x69\x00";

// C=GB;A=GOLD;S=WATT, number 1, indicators 10101000.
const RECIPIENTS: &[u8] =
    b"\xA2\x23\x31\x21\x60\x18\x30\x16\x61\x04\x13\x02GB\x62\x06\x13\x04GOLD\xA5\x06\x80\x04WATT\
\x80\x01\x01\x81\x02\x00\xA8";

/// How many octets the content of a message has.
pub fn content_length(message: u32) -> u32
    ensures exact { result ≡ content_length message }
    ensures some { 1 ≤ result }
    ensures most { result ≤ 3502 }
{
    1_500 + (u64::from(message) * 7_919 % 2_003) as u32
}

/// The content of a message.
#[tactic(auto, using(mta_drill_laws::proofs::Contents::none_yet, mta_drill_laws::proofs::Contents::one_octet_more))]
pub fn content_of(alloc: Global, message: u32) -> Result<Octets, Memory>
    ensures { IfOk result (λ octets. octets ≡ content_of message) }
{
    let length = content_length(message);
    let mut octets = Vec::with_capacity(alloc, length as usize)?;
    for place in 0..length {
        octets.push(((u64::from(message) + u64::from(place)) % 256) as u8)?;
    }
    Ok(Octets::from_vec(octets))
}

/// The local identifier of a message.
pub fn identifier_of(alloc: Global, message: u32) -> Result<Octets, Memory>
    ensures { IfOk result (λ octets. octets ≡ identifier_of message) }
{
    let mut octets = Vec::new(alloc);
    octets.push(b'D')?;
    put_digits(&mut octets, 10, u64::from(message))?;
    Ok(Octets::from_vec(octets))
}

// Puts the identifier of a message in its domain.
#[tactic(auto, unfolding(mta_drill_laws::specs::Messages::identifier_element))]
fn put_identifier(alloc: Global, writer: &mut Writer, message: u32) -> Result<(), Memory>
    ensures { OnOk result (writer.new ≡ appended writer.old (identifier_element message)) }
{
    let local = identifier_of(alloc, message)?;
    writer.begin(constructed(1, 4))?;
    writer.put_raw(DOMAIN)?;
    writer.put(primitive(0, 22), local.as_slice())?;
    writer.end()
}

// Puts what the envelope of a message has.
#[tactic(auto, unfolding(mta_drill_laws::specs::Messages::envelope_element))]
fn put_envelope(alloc: Global, writer: &mut Writer, message: u32) -> Result<(), Memory>
    ensures { OnOk result (writer.new ≡ appended writer.old (envelope_element message)) }
{
    writer.begin(constructed(0, 17))?;
    writer.put_raw(ORIGINATOR)?;
    put_identifier(alloc, writer, message)?;
    writer.put_raw(CONTENT_TYPE_AND_TRACE)?;
    writer.put_raw(RECIPIENTS)?;
    writer.end()
}

/// The octets of a message.
#[tactic(auto, unfolding(mta_drill_laws::specs::Messages::message_of))]
pub fn message_of(alloc: Global, message: u32) -> Result<Octets, Memory>
    ensures { IfOk result (λ octets. octets ≡ message_of message) }
{
    let content = content_of(alloc, message)?;
    let mut writer = Writer::new(alloc);
    writer.begin(constructed(2, 0))?;
    put_envelope(alloc, &mut writer, message)?;
    writer.put(primitive(0, 4), content.as_slice())?;
    writer.end()?;
    Ok(writer.finish())
}

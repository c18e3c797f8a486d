//! APDUs.

ghost use Rattle.std.specs.Prelude.{◌≡◌, ◌<◌, ◌≤◌, ◌^◌, ◌+◌, ◌-◌, [], length, IfOk, Ok};
ghost use Rattle.mta_ber.specs.Element.{first, outermost};
ghost use Rattle.mta_ber.specs.Place.{IsAt};
ghost use Rattle.mta_ber.specs.Seen.{view};
ghost use Rattle.mta_ber.specs.Spelling.{Standing};
ghost use Rattle.mta_envelope.specs.Contents.{ReadsSeen};
ghost use Rattle.mta_apdu.specs.Apdus.{apdu_value, apdu_as, apdu_in, ends, whole_in, front_in, stored_of, apdu_of};
ghost use Rattle.mta_apdu.specs.Apdus.{longest_apdu, longest_stored, IsPlacedInside, IsPlacedIn};

use crate::kind::{ApduKind, kind_of};
use mta_ber::{Kind, Memory, Octets, ReadFault, View, bad};
use mta_envelope::{Message, Probe};
use mta_report::Report;
use std::alloc::Global;

/// The most octets of an APDU that is submitted or received.
pub const LONGEST_APDU: u32 = 2_097_152;

/// The most octets of an APDU that is kept, which may have been made here: offsets have 32 bits.
pub const LONGEST_STORED: u32 = 4_294_967_295;

/// An APDU (X.411, MTS-APDU). The content of a message is lent where it stands in one piece.
#[derive(Drop)]
pub enum Apdu<'a> {
    Message(Message<'a>),
    Probe(Probe),
    Report(Report),
}

fn discard_message(_message: Message<'_>) {}

fn discard_probe(_probe: Probe) {}

fn discard_report(_report: Report) {}

/// The APDU of this choice.
#[tactic(auto, unfolding(crate::specs::Apdus::apdu_as))]
fn read_as<'a>(alloc: Global, kind: ApduKind, whole: &View<'a>) -> Result<Apdu<'a>, ReadFault>
    ensures exact { ReadsSeen apdu_value result (apdu_as kind (view whole.now)) }
    ensures placed { IfOk result (IsPlacedInside whole.now.depth whole.now.start whole.now.content) }
{
    match kind {
        ApduKind::OfMessage => {
            let message = Message::read(alloc, whole)?;
            Ok(Apdu::Message(message))
        }
        ApduKind::OfReport => {
            let report = Report::read(alloc, whole)?;
            Ok(Apdu::Report(report))
        }
        ApduKind::OfProbe => {
            let probe = Probe::read(alloc, whole)?;
            Ok(Apdu::Probe(probe))
        }
    }
}

/// The APDU that an element spells.
#[tactic(auto, unfolding(crate::specs::Apdus::apdu_in))]
fn read_element<'a>(alloc: Global, whole: &View<'a>) -> Result<Apdu<'a>, ReadFault>
    ensures exact { ReadsSeen apdu_value result (apdu_in (view whole.now)) }
    ensures placed { IfOk result (IsPlacedInside whole.now.depth whole.now.start whole.now.content) }
{
    match kind_of(whole.tag) {
        None => bad(whole.at, Kind::BadTag),
        Some(kind) => read_as(alloc, kind, whole),
    }
}

/// The element at the front of octets that are not too many.
fn first_of(bytes: &[u8]) -> Result<View<'_>, ReadFault>
    requires { length bytes.now ≤ longest_stored }
    ensures exact { ReadsSeen view result (first 0 bytes.now) }
    ensures found { IfOk result (λ v. Standing 0 (outermost v.tag) (view v) bytes.now) }
    ensures place { IfOk result (λ v. IsAt (v.start - 0) v.content bytes.entry) }
{
    let whole = View::first(bytes, 0)?;
    Ok(whole)
}

/// The APDU that an element spells, where nothing is behind it.
#[tactic(auto, unfolding(crate::specs::Apdus::ends))]
fn read_alone<'a>(alloc: Global, whole: &View<'a>) -> Result<Apdu<'a>, ReadFault>
    ensures exact { ReadsSeen apdu_value result (whole_in (view whole.now)) }
    ensures alone { IfOk result (λ _. whole.now.rest.now ≡ []) }
    ensures placed { IfOk result (IsPlacedInside whole.now.depth whole.now.start whole.now.content) }
{
    match read_element(alloc, whole) {
        Err(fault) => Err(fault),
        Ok(apdu) => {
            if whole.rest.is_empty() {
                Ok(apdu)
            } else {
                apdu.discard();
                bad(whole.at + whole.octets.len() as u32, Kind::Trailing)
            }
        }
    }
}

/// The APDU of octets that are not too many.
fn read_front<'a>(alloc: Global, bytes: &'a [u8]) -> Result<Apdu<'a>, ReadFault>
    requires { length bytes.now ≤ longest_stored }
    ensures exact { ReadsSeen apdu_value result (front_in bytes.now) }
    ensures placed { IfOk result (IsPlacedIn bytes.entry) }
{
    let whole = first_of(bytes)?;
    read_alone(alloc, &whole)
}

#[tactic(auto, unfolding(crate::specs::Apdus::apdu_of))]
fn read_whole<'a>(alloc: Global, bytes: &'a [u8]) -> Result<Apdu<'a>, ReadFault>
    ensures exact { ReadsSeen apdu_value result (apdu_of bytes.now) }
    ensures placed { IfOk result (IsPlacedIn bytes.entry) }
{
    if bytes.len() > LONGEST_APDU as usize {
        return bad(LONGEST_APDU, Kind::TooLong);
    }
    read_front(alloc, bytes)
}

#[tactic(auto, unfolding(crate::specs::Apdus::stored_of))]
fn read_kept<'a>(alloc: Global, bytes: &'a [u8]) -> Result<Apdu<'a>, ReadFault>
    ensures exact { ReadsSeen apdu_value result (stored_of bytes.now) }
    ensures placed { IfOk result (IsPlacedIn bytes.entry) }
{
    if bytes.len() > LONGEST_STORED as usize {
        return bad(LONGEST_STORED, Kind::TooLong);
    }
    read_front(alloc, bytes)
}

impl<'a> Apdu<'a> {
    ghost use Rattle.std.specs.Prelude.{◌≡◌, List, ℕ, IfOk};
    ghost use Rattle.mta_ber.specs.Lengths.{octet_length};
    ghost use Rattle.mta_envelope.specs.Contents.{ReadsSeen, IsSeenAs};
    ghost use Rattle.mta_apdu.specs.Apdus.{ApduValue, apdu_value, apdu_of, SpellsApdu, stored_of, SpellsStored};
    ghost use Rattle.mta_apdu.specs.Apdus.{canonical_apdu, IsPlacedIn};

    /// The APDU that octets spell. TooLong at 2,097,152 where there are more octets, before all else; then the first
    /// fault of the element at their front; then Trailing at the first octet behind it.
    pub fn read(alloc: Global, bytes: &'a [u8]) -> Result<Apdu<'a>, ReadFault>
        // Which APDU it is, or which fault comes first. A message's content is lent exactly where it is primitive.
        ensures exact { ReadsSeen apdu_value result (apdu_of bytes.now) }

        // What is answered is spelled by the octets, and what they spell is answered.
        ensures found { IfOk result (λ a. SpellsApdu bytes.now (apdu_value a)) }
        ensures only { (v : ApduValue) → SpellsApdu bytes.now v → IsSeenAs apdu_value result v }

        // What is lent is the input itself, at the offset of the content's octets, which the message's place tells.
        ensures placed { IfOk result (IsPlacedIn bytes.entry) }
    {
        match read_whole(alloc, bytes) {
            Ok(apdu) => Ok(apdu),
            Err(fault) => Err(fault),
        }
    }

    /// The APDU that octets spell which are kept: one that was made here may be longer than one that is submitted or
    /// received. As
    /// `read`, but TooLong at 4,294,967,295 alone, where there are more octets.
    pub fn read_stored(alloc: Global, bytes: &'a [u8]) -> Result<Apdu<'a>, ReadFault>
        // Which APDU it is, or which fault comes first. A message's content is lent exactly where it is primitive.
        ensures exact { ReadsSeen apdu_value result (stored_of bytes.now) }

        // What is answered is spelled by the octets, and what they spell is answered.
        ensures found { IfOk result (λ a. SpellsStored bytes.now (apdu_value a)) }
        ensures only { (v : ApduValue) → SpellsStored bytes.now v → IsSeenAs apdu_value result v }

        // What is lent is the input itself, at the offset of the content's octets, which the message's place tells.
        ensures placed { IfOk result (IsPlacedIn bytes.entry) }
    {
        match read_kept(alloc, bytes) {
            Ok(apdu) => Ok(apdu),
            Err(fault) => Err(fault),
        }
    }

    /// Lets the APDU go. In a call of its own, so that no caller's proof goes through all its parts.
    pub fn discard(self) {
        match self {
            Apdu::Message(message) => discard_message(message),
            Apdu::Probe(probe) => discard_probe(probe),
            Apdu::Report(report) => discard_report(report),
        }
    }

    /// How many canonical octets there are, told without memory; 2^64 - 1 where there are as many or more.
    pub fn length(&self) -> u64
        ensures { result ≡ octet_length (canonical_apdu (apdu_value self.now)) }
    {
        match self {
            Apdu::Message(message) => message.length(),
            Apdu::Probe(probe) => probe.length(),
            Apdu::Report(report) => report.length(),
        }
    }

    /// The canonical octets.
    pub fn write(&self, alloc: Global) -> Result<Octets, Memory>
        ensures { IfOk result (λ o. o ≡ canonical_apdu (apdu_value self.now)) }
    {
        match self {
            Apdu::Message(message) => message.write(alloc),
            Apdu::Probe(probe) => probe.write(alloc),
            Apdu::Report(report) => report.write(alloc),
        }
    }
}

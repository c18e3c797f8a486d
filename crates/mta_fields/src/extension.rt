//! Extension fields.

ghost use Rattle.std.specs.Prelude.{◌≡◌, OnOk, IfOk, unwrap_or};
ghost use Rattle.std.specs.Str.{bytes_eq};
ghost use Rattle.mta_ber.specs.Canon.{appended};
ghost use Rattle.mta_ber.specs.Element.{explicit};
ghost use Rattle.mta_ber.specs.Parts.{Leaves, Reads};
ghost use Rattle.mta_ber.specs.Seen.{view};
ghost use Rattle.mta_fields.specs.ExtensionFields.{null, plain_kind_in, kind_in, whole_in, ext_part_of, ext_place};
ghost use Rattle.mta_fields.specs.ExtensionFields.{ext_needed, ext_part_in, ext_step, ext_in, three_bits};
ghost use Rattle.mta_fields.specs.ExtensionFields.{canonical_kind, canonical_criticality, canonical_value};
ghost use Rattle.mta_fields.specs.ExtensionFields.{ext_content};
ghost use Rattle.mta_fields.specs.Traces.{bit_if};

use crate::length::extension_length;
use crate::supplied::is_set;
use mta_ber::{
    Bits, Components, Kind, Memory, Octets, ReadFault, Tag, View, Writer, bad, check_order,
    is_constructed_tag, is_tag_of, put_bits, put_int, take_parts, take_required,
};
use mta_names::{Code, ObjectId, constructed, primitive, put_around, read_code};
use std::alloc::Global;
use std::marker::Model;

/// The type of an extension: a standard number of 0 to 32,767, or an object identifier. It holds no other value.
#[derive(Drop)]
pub enum ExtKind {
    Standard(Code),
    Private(ObjectId),
}

/// What an extension field has.
pub struct ExtFields {
    pub kind: ExtKind,
    /// Critical for submission.
    pub submission: bool,
    /// Critical for transfer.
    pub transfer: bool,
    /// Critical for delivery.
    pub delivery: bool,
    /// The whole element that is the value; NULL where none stands.
    pub value: Octets,
}

// Written out, since a derived one is opened anew, field by field, at each place where a value is let go.
impl Drop for ExtFields {
    fn drop(self) {
        let ExtFields {
            kind: _,
            submission: _,
            transfer: _,
            delivery: _,
            value: _,
        } = self;
    }
}

/// An extension field (X.411, ExtensionField), whose value is kept unread.
pub struct ExtField {
    fields: ExtFields,
}

// Written out, since a derived one is opened anew, field by field, at each place where a value is let go.
impl Drop for ExtField {
    fn drop(self) {
        let ExtField { fields: _ } = self;
    }
}

impl Model for ExtField {
    ghost use Rattle.mta_fields.specs.declared.extension.ExtFields.{ExtFields};
    ghost use Rattle.mta_fields.specs.ExtensionFields.{IsExtField};

    ghost Value = { ExtFields };

    ghost view = { λ e. e.fields };

    ghost invariant = { λ e. IsExtField e.fields };
}

/// The components of a field.
#[derive(Clone, Copy)]
pub enum ExtPart {
    ExtType,
    Criticality,
    Value,
}

/// The place of the last component that was read, 0 where there is none, and the components so far.
#[derive(Drop)]
pub struct ExtParts {
    pub last: u8,
    pub kind: Option<ExtKind>,
    pub criticality: Option<Bits>,
    pub value: Option<Octets>,
}

#[tactic(auto, unfolding(crate::specs::ExtensionFields::plain_kind_in))]
fn read_plain_kind(alloc: Global, part: &View) -> Result<ExtKind, ReadFault>
    ensures { Reads result (plain_kind_in (view part.now)) }
{
    if is_tag_of(part.tag, 2, 0) {
        let number = read_code(part)?;
        Ok(ExtKind::Standard(number))
    } else if is_tag_of(part.tag, 2, 3) {
        let oid = ObjectId::read(alloc, part)?;
        Ok(ExtKind::Private(oid))
    } else {
        bad(part.at, Kind::BadTag)
    }
}

fn read_kind_inside(alloc: Global, part: &View) -> Result<ExtKind, ReadFault>
    ensures { Reads result (explicit plain_kind_in (view part.now)) }
{
    let inside = part.inner()?;
    let kind = read_plain_kind(alloc, &inside)?;
    inside.alone()?;
    Ok(kind)
}

/// A type, which may also stand inside one further `[0]`.
#[tactic(auto, unfolding(crate::specs::ExtensionFields::kind_in))]
fn read_kind(alloc: Global, part: &View) -> Result<ExtKind, ReadFault>
    ensures { Reads result (kind_in (view part.now)) }
{
    if is_tag_of(part.tag, 2, 0) && part.tag.constructed {
        read_kind_inside(alloc, part)
    } else {
        read_plain_kind(alloc, part)
    }
}

/// The octets of the one element inside an explicit tag.
fn read_value(alloc: Global, part: &View) -> Result<Octets, ReadFault>
    ensures { Reads result (explicit whole_in (view part.now)) }
{
    let inside = part.inner()?;
    let octets = Octets::from_slice(alloc, inside.octets)?;
    inside.alone()?;
    Ok(octets)
}

fn part_of(tag: Tag) -> Option<ExtPart>
    ensures { result ≡ ext_part_of tag }
{
    if is_tag_of(tag, 2, 0) || is_tag_of(tag, 2, 3) {
        Some(ExtPart::ExtType)
    } else if is_tag_of(tag, 2, 1) {
        Some(ExtPart::Criticality)
    } else if is_tag_of(tag, 2, 2) {
        Some(ExtPart::Value)
    } else {
        None
    }
}

fn place_of(part: ExtPart) -> u8
    ensures { result ≡ ext_place part }
{
    match part {
        ExtPart::ExtType => 1,
        ExtPart::Criticality => 2,
        ExtPart::Value => 3,
    }
}

fn needed_of(part: ExtPart) -> u8
    ensures { result ≡ ext_needed part }
{
    match part {
        ExtPart::ExtType => 0,
        ExtPart::Criticality | ExtPart::Value => 1,
    }
}

impl ExtParts {
    fn put(&mut self, alloc: Global, place: ExtPart, part: &View) -> Result<(), ReadFault>
        ensures { Leaves result self.new (ext_part_in place self.old (view part.now)) }
    {
        match place {
            ExtPart::ExtType => {
                self.kind = Some(read_kind(alloc, part)?);
            }
            ExtPart::Criticality => {
                self.criticality = Some(part.bits()?);
            }
            ExtPart::Value => {
                self.value = Some(read_value(alloc, part)?);
            }
        }
        self.last = place_of(place);
        Ok(())
    }
}

impl Components for ExtParts {
    ghost step = { ext_step };

    #[tactic(auto, unfolding(crate::specs::ExtensionFields::ext_step))]
    fn take(&mut self, alloc: Global, part: &View) -> Result<(), ReadFault> {
        match part_of(part.tag) {
            None => bad(part.at, Kind::BadTag),
            Some(place) => {
                check_order(self.last, needed_of(place), place_of(place), part.at)?;
                self.put(alloc, place, part)
            }
        }
    }
}

fn value_or_null(alloc: Global, value: Option<Octets>) -> Result<Octets, Memory>
    ensures { IfOk result (λ o. o ≡ unwrap_or value null) }
{
    match value {
        Some(value) => Ok(value),
        None => Octets::from_slice(alloc, &[5, 0]),
    }
}

#[tactic(auto, unfolding(crate::specs::ExtensionFields::ext_in))]
fn read_fields(alloc: Global, whole: &View) -> Result<ExtFields, ReadFault>
    ensures { Reads result (ext_in (view whole.now)) }
{
    if !is_constructed_tag(whole.tag, 0, 16) {
        return bad(whole.at, Kind::BadTag);
    }
    let mut parts = ExtParts {
        last: 0,
        kind: None,
        criticality: None,
        value: None,
    };
    take_parts(alloc, whole, &mut parts)?;
    let ExtParts {
        last: _,
        kind,
        criticality,
        value,
    } = parts;
    let kind = take_required(kind, whole.at)?;
    let value = value_or_null(alloc, value)?;
    Ok(ExtFields {
        kind,
        submission: is_set(&criticality, 0),
        transfer: is_set(&criticality, 1),
        delivery: is_set(&criticality, 2),
        value,
    })
}

fn put_kind(w: &mut Writer, kind: &ExtKind) -> Result<(), Memory>
    ensures { OnOk result (w.new ≡ appended w.old (canonical_kind kind.now)) }
{
    match kind {
        ExtKind::Standard(number) => put_int(w, primitive(2, 0), number.number() as i64),
        ExtKind::Private(oid) => w.put(primitive(2, 3), oid.as_slice()),
    }
}

pub fn three_bits_of(first: bool, second: bool, third: bool) -> Bits
    ensures { result ≡ three_bits first second third }
{
    match (first, second, third) {
        (false, false, false) => Bits::new(3, 0),
        (false, false, true) => Bits::new(3, 1),
        (false, true, false) => Bits::new(3, 2),
        (false, true, true) => Bits::new(3, 3),
        (true, false, false) => Bits::new(3, 4),
        (true, false, true) => Bits::new(3, 5),
        (true, true, false) => Bits::new(3, 6),
        (true, true, true) => Bits::new(3, 7),
    }
}

#[tactic(auto, using(crate::proofs::Written::appended_none))]
fn put_criticality(
    w: &mut Writer,
    submission: bool,
    transfer: bool,
    delivery: bool,
) -> Result<(), Memory>
    ensures { OnOk result (w.new ≡ appended w.old (canonical_criticality submission transfer delivery)) }
{
    if !submission && !transfer && !delivery {
        return Ok(());
    }
    put_bits(
        w,
        primitive(2, 1),
        three_bits_of(submission, transfer, delivery),
    )
}

pub fn is_null(value: &[u8]) -> bool
    ensures { result ≡ bytes_eq value.now null }
{
    value == [5, 0].as_slice()
}

/// Appends a value inside its explicit tag, but for NULL.
#[tactic(auto, using(crate::proofs::Written::appended_none))]
fn put_value(w: &mut Writer, value: &[u8]) -> Result<(), Memory>
    ensures { OnOk result (w.new ≡ appended w.old (canonical_value value.now)) }
{
    if is_null(value) {
        return Ok(());
    }
    w.put(constructed(2, 2), value)
}

/// The components of a field, in a writer of their own.
fn put_fields(alloc: Global, field: &ExtFields) -> Result<Writer, Memory>
    ensures { IfOk result (λ w. w.octets ≡ ext_content field.now) }
{
    let mut inside = Writer::new(alloc);
    put_kind(&mut inside, &field.kind)?;
    put_criticality(
        &mut inside,
        field.submission,
        field.transfer,
        field.delivery,
    )?;
    put_value(&mut inside, field.value.as_slice())?;
    Ok(inside)
}

impl ExtField {
    ghost use Rattle.std.specs.Prelude.{◌≡◌, IfOk, OnOk, OnErr};
    ghost use Rattle.mta_ber.specs.Canon.{appended};
    ghost use Rattle.mta_ber.specs.Lengths.{octet_length};
    ghost use Rattle.mta_ber.specs.Parts.{Reads, IsReadAs};
    ghost use Rattle.mta_ber.specs.Seen.{view};
    ghost use Rattle.mta_fields.specs.declared.extension.ExtFields.{ExtFields};
    ghost use Rattle.mta_fields.specs.ExtensionFields.{ext_in, IsExtField, SpellsExtField, canonical_ext};

    /// The extension field that an element spells, a SEQUENCE. BadTag at an element of any other tag.
    pub fn read(alloc: Global, whole: &View) -> Result<ExtField, ReadFault>
        // Which field it is, or which fault comes first.
        ensures exact { Reads result (ext_in (view whole.now)) }

        // What is answered is spelled by the element, and what the element spells is answered.
        ensures found { IfOk result (SpellsExtField whole.now.depth whole.now.tag whole.now.content.now) }
        ensures only { (v : ExtFields) → SpellsExtField whole.now.depth whole.now.tag whole.now.content.now v
            → IsReadAs result v }
    {
        match read_fields(alloc, whole) {
            Ok(fields) => Ok(ExtField { fields }),
            Err(fault) => Err(fault),
        }
    }

    /// Appends the field in its canonical octets.
    #[tactic(auto, unfolding(crate::specs::ExtensionFields::canonical_ext))]
    pub fn write(&self, w: &mut Writer) -> Result<(), Memory>
        ensures ok { OnOk result (w.new ≡ appended w.old (canonical_ext self.now)) }
        ensures err { OnErr result (w.new ≡ w.old) }
    {
        let inside = put_fields(w.alloc(), &self.fields)?;
        put_around(w, constructed(0, 16), &inside)
    }

    /// How many octets `write` appends, told without memory; 2^64 - 1 where there are as many or more.
    pub fn length(&self) -> u64
        ensures { result ≡ octet_length (canonical_ext self.now) }
    {
        extension_length(&self.fields)
    }

    /// A field of these parts, which takes no memory.
    pub fn from_fields(fields: ExtFields) -> ExtField
        requires { IsExtField fields }
        ensures { result ≡ fields }
    {
        ExtField { fields }
    }

    /// The parts, lent.
    pub fn fields(&self) -> &ExtFields
        ensures exact { result.now ≡ self.now }
        ensures field { IsExtField self.now }
    {
        &self.fields
    }
}

//! One extension field of an envelope.

ghost use Rattle.std.specs.Prelude.{◌≡◌, IfOk};
ghost use Rattle.mta_ber.specs.Element.{explicit};
ghost use Rattle.mta_ber.specs.Parts.{Leaves, Reads};
ghost use Rattle.mta_ber.specs.Seen.{view};
ghost use Rattle.mta_fields.specs.ExtensionFields.{plain_kind_in, kind_in, IsExtField};
ghost use Rattle.mta_fields.specs.Traces.{bit_if};
ghost use Rattle.mta_envelope_extensions.specs.Topics.{topic_of};
ghost use Rattle.mta_envelope_extensions.specs.Fields.{is_held, field_part_of, field_place, field_needed};
ghost use Rattle.mta_envelope_extensions.specs.Fields.{typed, type_in, valued, field_part_in, field_step};
ghost use Rattle.mta_envelope_extensions.specs.Fields.{null_of, value_or, field_in};

use crate::value::{ExtValue, Said, Topic, read_value, topic_of};
use mta_ber::{
    Bits, Components, Kind, Octets, ReadFault, Tag, View, bad, check_order, is_tag_of, take_parts,
    take_required,
};
use mta_fields::{ExtFields, ExtKind};
use mta_names::{ObjectId, read_code};
use std::alloc::Global;

/// Which of the extensions that are read are there already.
#[derive(Clone, Copy)]
pub struct Held {
    pub history: bool,
    pub latest: bool,
    pub prohibited: bool,
}

/// A field, and what its value says.
#[derive(Drop)]
pub struct Told {
    pub field: ExtFields,
    pub said: Said,
}

/// The components of a field.
#[derive(Clone, Copy)]
pub enum FieldPart {
    FieldType,
    Criticality,
    FieldValue,
}

/// What stood before the field, the offset of the field, the place of the last component that was read, 0 where there
/// is none, and the components so far.
#[derive(Drop)]
pub struct FieldParts {
    pub held: Held,
    pub at: u32,
    pub last: u8,
    pub kind: Option<ExtKind>,
    pub criticality: Option<Bits>,
    pub value: Option<ExtValue>,
}

fn is_held(topic: Topic, held: Held) -> bool
    ensures { result ≡ is_held topic held }
{
    match topic {
        Topic::ExpansionHistory => held.history,
        Topic::LatestDelivery => held.latest,
        Topic::ExpansionProhibited => held.prohibited,
        Topic::Other => false,
    }
}

#[tactic(auto, unfolding(mta_fields::specs::ExtensionFields::plain_kind_in))]
fn read_plain_kind(alloc: Global, part: &View) -> Result<ExtKind, ReadFault>
    ensures { Reads result (plain_kind_in (view part.now)) }
{
    if is_tag_of(part.tag, 2, 0) {
        let number = read_code(part)?;
        Ok(ExtKind::Standard(number))
    } else if is_tag_of(part.tag, 2, 3) {
        let oid = ObjectId::read(alloc, part)?;
        Ok(ExtKind::Private(oid))
    } else {
        bad(part.at, Kind::BadTag)
    }
}

fn read_kind_inside(alloc: Global, part: &View) -> Result<ExtKind, ReadFault>
    ensures { Reads result (explicit plain_kind_in (view part.now)) }
{
    let inside = part.inner()?;
    let kind = read_plain_kind(alloc, &inside)?;
    inside.alone()?;
    Ok(kind)
}

/// A type, which may also stand inside one further `[0]`.
#[tactic(auto, unfolding(mta_fields::specs::ExtensionFields::kind_in))]
fn read_kind(alloc: Global, part: &View) -> Result<ExtKind, ReadFault>
    ensures { Reads result (kind_in (view part.now)) }
{
    if is_tag_of(part.tag, 2, 0) && part.tag.constructed {
        read_kind_inside(alloc, part)
    } else {
        read_plain_kind(alloc, part)
    }
}

fn part_of(tag: Tag) -> Option<FieldPart>
    ensures { result ≡ field_part_of tag }
{
    if is_tag_of(tag, 2, 0) || is_tag_of(tag, 2, 3) {
        Some(FieldPart::FieldType)
    } else if is_tag_of(tag, 2, 1) {
        Some(FieldPart::Criticality)
    } else if is_tag_of(tag, 2, 2) {
        Some(FieldPart::FieldValue)
    } else {
        None
    }
}

fn place_of(part: FieldPart) -> u8
    ensures { result ≡ field_place part }
{
    match part {
        FieldPart::FieldType => 1,
        FieldPart::Criticality => 2,
        FieldPart::FieldValue => 3,
    }
}

fn needed_of(part: FieldPart) -> u8
    ensures { result ≡ field_needed part }
{
    match part {
        FieldPart::FieldType => 0,
        FieldPart::Criticality | FieldPart::FieldValue => 1,
    }
}

impl FieldParts {
    /// A type that is read and stood before is a fault of the whole field, before anything else of it is read.
    fn put_type(&mut self, alloc: Global, part: &View) -> Result<(), ReadFault>
        ensures { Leaves result self.new (type_in self.old (view part.now)) }
    {
        let kind = read_kind(alloc, part)?;
        if is_held(topic_of(&kind), self.held) {
            return bad(self.at, Kind::Twice);
        }
        self.last = 1;
        self.kind = Some(kind);
        Ok(())
    }

    fn put_value(&mut self, alloc: Global, part: &View) -> Result<(), ReadFault>
        ensures { Leaves result self.new (valued self.old self.old.kind (view part.now)) }
    {
        match &self.kind {
            None => bad(part.at, Kind::BadTag),
            Some(kind) => {
                let topic = topic_of(kind);
                self.value = Some(read_value(alloc, topic, part)?);
                self.last = 3;
                Ok(())
            }
        }
    }

    fn put(&mut self, alloc: Global, place: FieldPart, part: &View) -> Result<(), ReadFault>
        ensures { Leaves result self.new (field_part_in place self.old (view part.now)) }
    {
        match place {
            FieldPart::FieldType => self.put_type(alloc, part),
            FieldPart::Criticality => {
                self.criticality = Some(part.bits()?);
                self.last = 2;
                Ok(())
            }
            FieldPart::FieldValue => self.put_value(alloc, part),
        }
    }
}

impl Components for FieldParts {
    ghost step = { field_step };

    #[tactic(auto, unfolding(crate::specs::Fields::field_step))]
    fn take(&mut self, alloc: Global, part: &View) -> Result<(), ReadFault> {
        match part_of(part.tag) {
            None => bad(part.at, Kind::BadTag),
            Some(place) => {
                check_order(self.last, needed_of(place), place_of(place), part.at)?;
                self.put(alloc, place, part)
            }
        }
    }
}

/// NULL, where the value is not read.
fn null_of(alloc: Global, topic: Topic, at: u32) -> Result<ExtValue, ReadFault>
    ensures { Reads result (null_of topic at) }
{
    match topic {
        Topic::Other => {
            let octets = Octets::from_slice(alloc, &[5, 0])?;
            Ok(ExtValue {
                octets,
                said: Said::Unread,
            })
        }
        Topic::ExpansionHistory | Topic::LatestDelivery | Topic::ExpansionProhibited => {
            bad(at, Kind::Missing)
        }
    }
}

/// NULL stands for a value that is absent, but where the value is read.
fn value_or_null(
    alloc: Global,
    topic: Topic,
    value: Option<ExtValue>,
    at: u32,
) -> Result<ExtValue, ReadFault>
    ensures { Reads result (value_or topic value at) }
{
    match value {
        Some(value) => Ok(value),
        None => null_of(alloc, topic, at),
    }
}

/// Whether a bit is set, in bits that may be absent.
fn is_set(bits: &Option<Bits>, place: u8) -> bool
    ensures { result ≡ bit_if bits.now place }
{
    match bits {
        None => false,
        Some(bits) => (*bits).is_set(place),
    }
}

#[tactic(auto, unfolding(crate::specs::Fields::field_in))]
fn read_parts(alloc: Global, held: Held, whole: &View) -> Result<Told, ReadFault>
    ensures { Reads result (field_in held (view whole.now)) }
{
    if !whole.tag.constructed {
        return bad(whole.at, Kind::BadTag);
    }
    let mut parts = FieldParts {
        held,
        at: whole.at,
        last: 0,
        kind: None,
        criticality: None,
        value: None,
    };
    take_parts(alloc, whole, &mut parts)?;
    let FieldParts {
        held: _,
        at: _,
        last: _,
        kind,
        criticality,
        value,
    } = parts;
    let kind = take_required(kind, whole.at)?;
    let ExtValue { octets, said } = value_or_null(alloc, topic_of(&kind), value, whole.at)?;
    let field = ExtFields {
        kind,
        submission: is_set(&criticality, 0),
        transfer: is_set(&criticality, 1),
        delivery: is_set(&criticality, 2),
        value: octets,
    };
    Ok(Told { field, said })
}

/// One field, where `held` says which of those that are read are there already. Twice at the field where it is one of
/// these; Missing at the field where its value is to be read and absent.
pub fn read_field(alloc: Global, held: Held, whole: &View) -> Result<Told, ReadFault>
    ensures exact { Reads result (field_in held (view whole.now)) }
    ensures field { IfOk result (λ t. IsExtField t.field) }
{
    match read_parts(alloc, held, whole) {
        Ok(told) => Ok(told),
        Err(fault) => Err(fault),
    }
}

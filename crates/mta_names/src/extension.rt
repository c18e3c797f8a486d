//! Extension attributes.

ghost use Rattle.std.specs.Prelude.{◌≡◌};
ghost use Rattle.mta_ber.specs.Element.{explicit};
ghost use Rattle.mta_ber.specs.Parts.{Leaves, Reads};
ghost use Rattle.mta_ber.specs.Seen.{view};
ghost use Rattle.mta_names.specs.Extensions.{common_choice, value_in, type_in, valued, attribute_step};
ghost use Rattle.mta_names.specs.Extensions.{attribute_parts_in, attribute, IsAttribute, attribute_in, with_attribute};
ghost use Rattle.mta_names.specs.Extensions.{answer, extension_step, extension_count, extensions_in};
ghost use Rattle.mta_names.specs.Strings.{number_in};

use crate::attributes::{Attribute, Extra, ExtraFields};
use crate::row::Row;
use mta_ber::{
    Components, Fault, Kind, Octets, ReadFault, Text, TextClass, View, bad, is_constructed_tag,
    is_tag_of, take_parts, take_required,
};
use std::alloc::Global;

/// The value of an attribute: a common name, or the octets of the explicit tag that is kept.
#[derive(Drop)]
pub enum AttributeValue {
    Name(Text),
    Raw(Octets),
}

/// An attribute so far: whether a common name is there already, the offset of the attribute, its type, and its value.
#[derive(Drop)]
pub struct AttributeParts {
    pub taken: bool,
    pub at: u32,
    pub number: Option<u32>,
    pub value: Option<AttributeValue>,
}

/// The type and the value of an attribute.
#[derive(Drop)]
pub struct AttributeFields {
    pub number: u32,
    pub value: AttributeValue,
}

/// The attributes so far.
#[derive(Drop)]
pub struct ExtensionParts {
    pub common: Option<Text>,
    pub extras: Row<Extra>,
}

/// An INTEGER of `low` to `high`.
#[tactic(auto, unfolding(crate::specs::Strings::number_in))]
pub fn read_number(part: &View, low: u32, high: u32) -> Result<u32, Fault>
    ensures { result ≡ number_in low high (view part.now) }
{
    let number = part.int(low as i64, high as i64)?;
    Ok(number as u32)
}

fn read_common_choice(alloc: Global, part: &View) -> Result<Text, ReadFault>
    ensures { Reads result (common_choice (view part.now)) }
{
    if !is_tag_of(part.tag, 0, 19) {
        return bad(part.at, Kind::BadTag);
    }
    part.text(alloc, TextClass::Printable, 1, 64)
}

fn read_common(alloc: Global, part: &View) -> Result<Text, ReadFault>
    ensures { Reads result (explicit common_choice (view part.now)) }
{
    let inside = part.inner()?;
    let text = read_common_choice(alloc, &inside)?;
    inside.alone()?;
    Ok(text)
}

#[tactic(auto, unfolding(crate::specs::Extensions::value_in))]
fn read_value(alloc: Global, number: u32, part: &View) -> Result<AttributeValue, ReadFault>
    ensures { Reads result (value_in number (view part.now)) }
{
    if number == 1 {
        let text = read_common(alloc, part)?;
        Ok(AttributeValue::Name(text))
    } else {
        let octets = Octets::from_slice(alloc, part.octets)?;
        Ok(AttributeValue::Raw(octets))
    }
}

impl AttributeParts {
    fn put_type(&mut self, part: &View) -> Result<(), ReadFault>
        ensures { Leaves result self.new (type_in self.old (view part.now)) }
    {
        if self.number.is_some() {
            return bad(part.at, Kind::BadTag);
        }
        let number = read_number(part, 0, 32767)?;
        if number == 1 && self.taken {
            return bad(self.at, Kind::Twice);
        }
        self.number = Some(number);
        Ok(())
    }

    fn put_value(&mut self, alloc: Global, part: &View) -> Result<(), ReadFault>
        ensures { Leaves result self.new (valued self.old self.old.number (view part.now)) }
    {
        match self.number {
            None => bad(part.at, Kind::BadTag),
            Some(number) => {
                if self.value.is_some() {
                    return bad(part.at, Kind::BadTag);
                }
                self.value = Some(read_value(alloc, number, part)?);
                Ok(())
            }
        }
    }
}

impl Components for AttributeParts {
    ghost step = { attribute_step };

    #[tactic(auto, unfolding(crate::specs::Extensions::attribute_step))]
    fn take(&mut self, alloc: Global, part: &View) -> Result<(), ReadFault> {
        if is_tag_of(part.tag, 2, 0) {
            self.put_type(part)
        } else if is_constructed_tag(part.tag, 2, 1) {
            self.put_value(alloc, part)
        } else {
            bad(part.at, Kind::BadTag)
        }
    }
}

#[tactic(auto, unfolding(crate::specs::Extensions::attribute_parts_in))]
fn read_parts(alloc: Global, taken: bool, whole: &View) -> Result<AttributeFields, ReadFault>
    ensures { Reads result (attribute_parts_in taken (view whole.now)) }
{
    if !whole.tag.constructed {
        return bad(whole.at, Kind::BadTag);
    }
    let mut parts = AttributeParts {
        taken,
        at: whole.at,
        number: None,
        value: None,
    };
    take_parts(alloc, whole, &mut parts)?;
    let AttributeParts {
        taken: _,
        at: _,
        number,
        value,
    } = parts;
    let number = take_required(number, whole.at)?;
    let value = take_required(value, whole.at)?;
    Ok(AttributeFields { number, value })
}

/// The attribute of a type and a value that go together.
fn attribute_of(fields: AttributeFields) -> Attribute
    requires { IsAttribute fields }
    ensures { result ≡ attribute fields }
{
    let AttributeFields { number, value } = fields;
    match value {
        AttributeValue::Name(text) => Attribute::Common(text),
        AttributeValue::Raw(raw) => {
            Attribute::Other(Extra::from_fields(ExtraFields { number, raw }))
        }
    }
}

#[tactic(auto, unfolding(crate::specs::Extensions::attribute_in))]
fn read_attribute(alloc: Global, taken: bool, whole: &View) -> Result<Attribute, ReadFault>
    ensures { Reads result (attribute_in taken (view whole.now)) }
{
    let fields = read_parts(alloc, taken, whole)?;
    Ok(attribute_of(fields))
}

impl ExtensionParts {
    fn put(&mut self, attribute: Attribute) -> Result<(), ReadFault>
        ensures { Leaves result self.new (answer (with_attribute attribute self.old)) }
    {
        match attribute {
            Attribute::Common(text) => self.common = Some(text),
            Attribute::Other(extra) => self.extras.push(extra)?,
        }
        Ok(())
    }
}

impl Components for ExtensionParts {
    ghost step = { extension_step };

    #[tactic(auto, unfolding(crate::specs::Extensions::extension_step))]
    fn take(&mut self, alloc: Global, part: &View) -> Result<(), ReadFault> {
        if !is_tag_of(part.tag, 0, 16) {
            return bad(part.at, Kind::BadTag);
        }
        let attribute = read_attribute(alloc, self.common.is_some(), part)?;
        self.put(attribute)
    }
}

/// One to 256 extension attributes.
#[tactic(auto, unfolding(crate::specs::Extensions::extensions_in))]
pub fn read_extensions(alloc: Global, whole: &View) -> Result<ExtensionParts, ReadFault>
    ensures { Reads result (extensions_in (view whole.now)) }
{
    if !whole.tag.constructed {
        return bad(whole.at, Kind::BadTag);
    }
    let mut parts = ExtensionParts {
        common: None,
        extras: Row::new(alloc),
    };
    take_parts(alloc, whole, &mut parts)?;
    let count = parts.extras.len();
    let common = parts.common.is_some();
    if (count < 1 && !common) || 256 < count || (256 <= count && common) {
        return bad(whole.at, Kind::BadSize);
    }
    Ok(parts)
}

//! The components of a recipient.

ghost use Rattle.std.specs.Prelude.{◌≡◌};
ghost use Rattle.mta_ber.specs.Parts.{Leaves};
ghost use Rattle.mta_ber.specs.Seen.{view};
ghost use Rattle.mta_envelope_recipient.specs.declared.parts.RecipientPart.TheVariants.{Addressee, Number};
ghost use Rattle.mta_envelope_recipient.specs.declared.parts.RecipientPart.TheVariants.{Indicators, Conversion};
ghost use Rattle.mta_envelope_recipient.specs.declared.parts.RecipientPart.TheVariants.{Extensions};
ghost use Rattle.mta_envelope_recipient.specs.Recipients.{recipient_part_of, recipient_part_in, recipient_step};

use mta_ber::{
    Bits, Components, Kind, Octets, ReadFault, Tag, View, bad, is_constructed_tag,
    is_primitive_tag, is_tag_of,
};
use mta_envelope_common::{read_extensions, read_indicators};
use mta_fields::ExtField;
use mta_names::{OrName, Row, read_number};
use std::alloc::Global;

/// The components.
#[derive(Clone, Copy)]
pub enum RecipientPart {
    Addressee,
    Number,
    Indicators,
    Conversion,
    Extensions,
}

/// The components so far.
#[derive(Drop)]
pub struct RecipientParts {
    pub name: Option<OrName>,
    pub number: Option<u32>,
    pub indicators: Option<Bits>,
    pub conversion: Option<Octets>,
    pub extensions: Option<Row<ExtField>>,
}

fn part_of(tag: Tag) -> Option<RecipientPart>
    ensures { result ≡ recipient_part_of tag }
{
    if is_constructed_tag(tag, 1, 0) {
        Some(RecipientPart::Addressee)
    } else if is_primitive_tag(tag, 2, 0) {
        Some(RecipientPart::Number)
    } else if is_tag_of(tag, 2, 1) {
        Some(RecipientPart::Indicators)
    } else if is_tag_of(tag, 2, 2) {
        Some(RecipientPart::Conversion)
    } else if is_constructed_tag(tag, 2, 3) {
        Some(RecipientPart::Extensions)
    } else {
        None
    }
}

impl RecipientParts {
    fn put_name(&mut self, alloc: Global, part: &View) -> Result<(), ReadFault>
        ensures { Leaves result self.new (recipient_part_in Addressee self.old (view part.now)) }
    {
        if self.name.is_some() {
            return bad(part.at, Kind::Twice);
        }
        self.name = Some(OrName::read(alloc, part)?);
        Ok(())
    }

    fn put_number(&mut self, part: &View) -> Result<(), ReadFault>
        ensures { Leaves result self.new (recipient_part_in Number self.old (view part.now)) }
    {
        if self.number.is_some() {
            return bad(part.at, Kind::Twice);
        }
        self.number = Some(read_number(part, 1, 32767)?);
        Ok(())
    }

    fn put_indicators(&mut self, part: &View) -> Result<(), ReadFault>
        ensures { Leaves result self.new (recipient_part_in Indicators self.old (view part.now)) }
    {
        if self.indicators.is_some() {
            return bad(part.at, Kind::Twice);
        }
        self.indicators = Some(read_indicators(part)?);
        Ok(())
    }

    fn put_conversion(&mut self, alloc: Global, part: &View) -> Result<(), ReadFault>
        ensures { Leaves result self.new (recipient_part_in Conversion self.old (view part.now)) }
    {
        if self.conversion.is_some() {
            return bad(part.at, Kind::Twice);
        }
        self.conversion = Some(Octets::from_slice(alloc, part.octets)?);
        Ok(())
    }

    fn put_extensions(&mut self, alloc: Global, part: &View) -> Result<(), ReadFault>
        ensures { Leaves result self.new (recipient_part_in Extensions self.old (view part.now)) }
    {
        if self.extensions.is_some() {
            return bad(part.at, Kind::Twice);
        }
        self.extensions = Some(read_extensions(alloc, part)?);
        Ok(())
    }

    fn put(&mut self, alloc: Global, place: RecipientPart, part: &View) -> Result<(), ReadFault>
        ensures { Leaves result self.new (recipient_part_in place self.old (view part.now)) }
    {
        match place {
            RecipientPart::Addressee => self.put_name(alloc, part),
            RecipientPart::Number => self.put_number(part),
            RecipientPart::Indicators => self.put_indicators(part),
            RecipientPart::Conversion => self.put_conversion(alloc, part),
            RecipientPart::Extensions => self.put_extensions(alloc, part),
        }
    }
}

impl Components for RecipientParts {
    ghost step = { recipient_step };

    #[tactic(auto, unfolding(crate::specs::Recipients::recipient_step))]
    fn take(&mut self, alloc: Global, part: &View) -> Result<(), ReadFault> {
        match part_of(part.tag) {
            None => bad(part.at, Kind::BadTag),
            Some(place) => self.put(alloc, place, part),
        }
    }
}

//! The components of an envelope.

ghost use Rattle.std.specs.Prelude.{◌≡◌};
ghost use Rattle.mta_ber.specs.Parts.{Leaves, Reads};
ghost use Rattle.mta_ber.specs.Seen.{view};
ghost use Rattle.mta_envelope.specs.declared.parts.EnvelopePart.TheVariants.{Originator, Identifier};
ghost use Rattle.mta_envelope.specs.declared.parts.EnvelopePart.TheVariants.{InformationTypes, ContentType};
ghost use Rattle.mta_envelope.specs.declared.parts.EnvelopePart.TheVariants.{MessagePriority, Indicators, TraceList};
ghost use Rattle.mta_envelope.specs.declared.parts.EnvelopePart.TheVariants.{ContentIdentifier, Deferral, Length};
ghost use Rattle.mta_envelope.specs.declared.parts.EnvelopePart.TheVariants.{Bilateral, RecipientList, ExtensionSet};
ghost use Rattle.mta_envelope.specs.Components.{length_in, context_part_of, envelope_part_of};
ghost use Rattle.mta_envelope.specs.Components.{no_envelope, envelope_part_in, envelope_step};

use crate::priority::{Priority, read_priority};
use mta_ber::{
    Bits, Components, Kind, Octets, ReadFault, Tag, Text, View, bad, is_constructed_tag,
    is_primitive_tag, is_tag_of,
};
use mta_envelope_common::{
    ContentKind, is_content_kind_tag, read_content_id, read_content_kind, read_indicators,
    read_trace,
};
use mta_envelope_extensions::{Extensions, read_extensions};
use mta_envelope_recipient::{Recipient, read_recipients};
use mta_fields::{MtsId, TraceElement};
use mta_names::{OrName, Row};
use std::alloc::Global;

/// The components.
#[derive(Clone, Copy)]
pub enum EnvelopePart {
    Originator,
    Identifier,
    InformationTypes,
    ContentType,
    MessagePriority,
    Indicators,
    TraceList,
    ContentIdentifier,
    Deferral,
    Length,
    Bilateral,
    RecipientList,
    ExtensionSet,
}

/// Whether the envelope is that of a probe, and the components so far.
#[derive(Drop)]
pub struct EnvelopeParts {
    pub probe: bool,
    pub originator: Option<OrName>,
    pub id: Option<MtsId>,
    pub eits: Option<Octets>,
    pub content_kind: Option<ContentKind>,
    pub priority: Option<Priority>,
    pub indicators: Option<Bits>,
    pub trace: Option<Row<TraceElement>>,
    pub content_id: Option<Text>,
    pub deferral: Option<u64>,
    pub length: Option<u64>,
    pub bilateral: Option<Octets>,
    pub recipients: Option<Row<Recipient>>,
    pub extensions: Option<Extensions>,
}

/// No components yet.
pub fn no_parts(probe: bool) -> EnvelopeParts
    ensures { result ≡ no_envelope probe }
{
    EnvelopeParts {
        probe,
        originator: None,
        id: None,
        eits: None,
        content_kind: None,
        priority: None,
        indicators: None,
        trace: None,
        content_id: None,
        deferral: None,
        length: None,
        bilateral: None,
        recipients: None,
        extensions: None,
    }
}

fn part_of(probe: bool, tag: Tag) -> Option<EnvelopePart>
    ensures { result ≡ envelope_part_of probe tag }
{
    if is_constructed_tag(tag, 1, 0) {
        Some(EnvelopePart::Originator)
    } else if is_constructed_tag(tag, 1, 4) {
        Some(EnvelopePart::Identifier)
    } else if is_tag_of(tag, 1, 5) {
        Some(EnvelopePart::InformationTypes)
    } else if is_content_kind_tag(tag) {
        Some(EnvelopePart::ContentType)
    } else if is_primitive_tag(tag, 1, 7) && !probe {
        Some(EnvelopePart::MessagePriority)
    } else if is_tag_of(tag, 1, 8) {
        Some(EnvelopePart::Indicators)
    } else if is_constructed_tag(tag, 1, 9) {
        Some(EnvelopePart::TraceList)
    } else if is_tag_of(tag, 1, 10) {
        Some(EnvelopePart::ContentIdentifier)
    } else {
        context_part_of(probe, tag)
    }
}

/// The components under context tags.
fn context_part_of(probe: bool, tag: Tag) -> Option<EnvelopePart>
    ensures { result ≡ context_part_of probe tag }
{
    if is_tag_of(tag, 2, 0) && !probe {
        Some(EnvelopePart::Deferral)
    } else if is_primitive_tag(tag, 2, 0) && probe {
        Some(EnvelopePart::Length)
    } else if is_tag_of(tag, 2, 1) {
        Some(EnvelopePart::Bilateral)
    } else if is_constructed_tag(tag, 2, 2) {
        Some(EnvelopePart::RecipientList)
    } else if is_constructed_tag(tag, 2, 3) {
        Some(EnvelopePart::ExtensionSet)
    } else {
        None
    }
}

/// A content length: an INTEGER of 0 to 2^63 - 1.
#[tactic(auto, unfolding(crate::specs::Components::length_in, mta_names::specs::Strings::number_in))]
fn read_length(part: &View) -> Result<u64, ReadFault>
    ensures { Reads result (length_in (view part.now)) }
{
    let number = part.int(0, i64::MAX)?;
    Ok(number as u64)
}

impl EnvelopeParts {
    fn put_originator(&mut self, alloc: Global, part: &View) -> Result<(), ReadFault>
        ensures { Leaves result self.new (envelope_part_in Originator self.old (view part.now)) }
    {
        if self.originator.is_some() {
            return bad(part.at, Kind::Twice);
        }
        self.originator = Some(OrName::read(alloc, part)?);
        Ok(())
    }

    fn put_id(&mut self, alloc: Global, part: &View) -> Result<(), ReadFault>
        ensures { Leaves result self.new (envelope_part_in Identifier self.old (view part.now)) }
    {
        if self.id.is_some() {
            return bad(part.at, Kind::Twice);
        }
        self.id = Some(MtsId::read(alloc, part)?);
        Ok(())
    }

    fn put_eits(&mut self, alloc: Global, part: &View) -> Result<(), ReadFault>
        ensures { Leaves result self.new (envelope_part_in InformationTypes self.old (view part.now)) }
    {
        if self.eits.is_some() {
            return bad(part.at, Kind::Twice);
        }
        self.eits = Some(Octets::from_slice(alloc, part.octets)?);
        Ok(())
    }

    fn put_content_kind(&mut self, alloc: Global, part: &View) -> Result<(), ReadFault>
        ensures { Leaves result self.new (envelope_part_in ContentType self.old (view part.now)) }
    {
        if self.content_kind.is_some() {
            return bad(part.at, Kind::Twice);
        }
        self.content_kind = Some(read_content_kind(alloc, part)?);
        Ok(())
    }

    fn put_priority(&mut self, part: &View) -> Result<(), ReadFault>
        ensures { Leaves result self.new (envelope_part_in MessagePriority self.old (view part.now)) }
    {
        if self.priority.is_some() {
            return bad(part.at, Kind::Twice);
        }
        self.priority = Some(read_priority(part)?);
        Ok(())
    }

    fn put_indicators(&mut self, part: &View) -> Result<(), ReadFault>
        ensures { Leaves result self.new (envelope_part_in Indicators self.old (view part.now)) }
    {
        if self.indicators.is_some() {
            return bad(part.at, Kind::Twice);
        }
        self.indicators = Some(read_indicators(part)?);
        Ok(())
    }

    fn put_trace(&mut self, alloc: Global, part: &View) -> Result<(), ReadFault>
        ensures { Leaves result self.new (envelope_part_in TraceList self.old (view part.now)) }
    {
        if self.trace.is_some() {
            return bad(part.at, Kind::Twice);
        }
        self.trace = Some(read_trace(alloc, part)?);
        Ok(())
    }

    fn put_content_id(&mut self, alloc: Global, part: &View) -> Result<(), ReadFault>
        ensures { Leaves result self.new (envelope_part_in ContentIdentifier self.old (view part.now)) }
    {
        if self.content_id.is_some() {
            return bad(part.at, Kind::Twice);
        }
        self.content_id = Some(read_content_id(alloc, part)?);
        Ok(())
    }

    fn put_deferral(&mut self, part: &View) -> Result<(), ReadFault>
        ensures { Leaves result self.new (envelope_part_in Deferral self.old (view part.now)) }
    {
        if self.deferral.is_some() {
            return bad(part.at, Kind::Twice);
        }
        self.deferral = Some(part.utc()?);
        Ok(())
    }

    fn put_length(&mut self, part: &View) -> Result<(), ReadFault>
        ensures { Leaves result self.new (envelope_part_in Length self.old (view part.now)) }
    {
        if self.length.is_some() {
            return bad(part.at, Kind::Twice);
        }
        self.length = Some(read_length(part)?);
        Ok(())
    }

    fn put_bilateral(&mut self, alloc: Global, part: &View) -> Result<(), ReadFault>
        ensures { Leaves result self.new (envelope_part_in Bilateral self.old (view part.now)) }
    {
        if self.bilateral.is_some() {
            return bad(part.at, Kind::Twice);
        }
        self.bilateral = Some(Octets::from_slice(alloc, part.octets)?);
        Ok(())
    }

    fn put_recipients(&mut self, alloc: Global, part: &View) -> Result<(), ReadFault>
        ensures { Leaves result self.new (envelope_part_in RecipientList self.old (view part.now)) }
    {
        if self.recipients.is_some() {
            return bad(part.at, Kind::Twice);
        }
        self.recipients = Some(read_recipients(alloc, part)?);
        Ok(())
    }

    fn put_extensions(&mut self, alloc: Global, part: &View) -> Result<(), ReadFault>
        ensures { Leaves result self.new (envelope_part_in ExtensionSet self.old (view part.now)) }
    {
        if self.extensions.is_some() {
            return bad(part.at, Kind::Twice);
        }
        self.extensions = Some(read_extensions(alloc, part)?);
        Ok(())
    }

    fn put(&mut self, alloc: Global, place: EnvelopePart, part: &View) -> Result<(), ReadFault>
        ensures { Leaves result self.new (envelope_part_in place self.old (view part.now)) }
    {
        match place {
            EnvelopePart::Originator => self.put_originator(alloc, part),
            EnvelopePart::Identifier => self.put_id(alloc, part),
            EnvelopePart::InformationTypes => self.put_eits(alloc, part),
            EnvelopePart::ContentType => self.put_content_kind(alloc, part),
            EnvelopePart::MessagePriority => self.put_priority(part),
            EnvelopePart::Indicators => self.put_indicators(part),
            EnvelopePart::TraceList => self.put_trace(alloc, part),
            EnvelopePart::ContentIdentifier => self.put_content_id(alloc, part),
            EnvelopePart::Deferral => self.put_deferral(part),
            EnvelopePart::Length => self.put_length(part),
            EnvelopePart::Bilateral => self.put_bilateral(alloc, part),
            EnvelopePart::RecipientList => self.put_recipients(alloc, part),
            EnvelopePart::ExtensionSet => self.put_extensions(alloc, part),
        }
    }
}

impl Components for EnvelopeParts {
    ghost step = { envelope_step };

    #[tactic(auto, unfolding(crate::specs::Components::envelope_step))]
    fn take(&mut self, alloc: Global, part: &View) -> Result<(), ReadFault> {
        match part_of(self.probe, part.tag) {
            None => bad(part.at, Kind::BadTag),
            Some(place) => self.put(alloc, place, part),
        }
    }
}

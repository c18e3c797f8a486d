//! The envelope of a report.

ghost use Rattle.std.specs.Prelude.{◌≡◌, OnOk, IfOk, OnErr, IsTrue, Ok, ℕ, unwrap_or, List, []};
ghost use Rattle.mta_ber.specs.Canon.{appended, optional};
ghost use Rattle.mta_ber.specs.Parts.{Leaves, Reads};
ghost use Rattle.mta_ber.specs.Seen.{view};
ghost use Rattle.mta_report.specs.ReportEnvelopes.{envelope_part_of, envelope_held, envelope_part_in};
ghost use Rattle.mta_report.specs.ReportEnvelopes.{envelope_step, envelope_complete, envelope_from, envelope_in};
ghost use Rattle.mta_report.specs.ReportEnvelopes.{envelope_content, canonical_envelope};

use crate::fields::ReportFields;
use mta_ber::{
    Components, Kind, Memory, ReadFault, Tag, View, Writer, bad, is_constructed_tag, take_parts,
};
use mta_envelope_common::{put_extensions, put_trace, read_extensions, read_trace};
use mta_fields::{ExtField, MtsId, TraceElement};
use mta_names::{OrName, Row, constructed, put_around};
use mta_report_recipient::fields_or_none;
use std::alloc::Global;

/// What an envelope has.
#[derive(Drop)]
pub struct EnvelopeFields {
    pub destination: OrName,
    pub id: MtsId,
    pub trace: Row<TraceElement>,
    pub extensions: Row<ExtField>,
}

/// The components.
#[derive(Clone, Copy)]
pub enum EnvelopePart {
    Destination,
    Identifier,
    Trace,
    Extensions,
}

/// The components so far.
#[derive(Drop)]
pub struct EnvelopeParts {
    pub destination: Option<OrName>,
    pub id: Option<MtsId>,
    pub trace: Option<Row<TraceElement>>,
    pub extensions: Option<Row<ExtField>>,
}

fn part_of(tag: Tag) -> Option<EnvelopePart>
    ensures { result ≡ envelope_part_of tag }
{
    if is_constructed_tag(tag, 1, 0) {
        Some(EnvelopePart::Destination)
    } else if is_constructed_tag(tag, 1, 4) {
        Some(EnvelopePart::Identifier)
    } else if is_constructed_tag(tag, 1, 9) {
        Some(EnvelopePart::Trace)
    } else if is_constructed_tag(tag, 2, 1) {
        Some(EnvelopePart::Extensions)
    } else {
        None
    }
}

impl EnvelopeParts {
    /// Whether a component is there already.
    fn is_held(&self, place: EnvelopePart) -> bool
        ensures { result ≡ envelope_held place self.now }
    {
        match place {
            EnvelopePart::Destination => self.destination.is_some(),
            EnvelopePart::Identifier => self.id.is_some(),
            EnvelopePart::Trace => self.trace.is_some(),
            EnvelopePart::Extensions => self.extensions.is_some(),
        }
    }

    /// Whether the required components are there.
    fn is_complete(&self) -> bool
        ensures { result ≡ envelope_complete self.now }
    {
        self.destination.is_some() && self.id.is_some() && self.trace.is_some()
    }

    fn put(&mut self, alloc: Global, place: EnvelopePart, part: &View) -> Result<(), ReadFault>
        ensures { Leaves result self.new (envelope_part_in place self.old (view part.now)) }
    {
        match place {
            EnvelopePart::Destination => self.destination = Some(OrName::read(alloc, part)?),
            EnvelopePart::Identifier => self.id = Some(MtsId::read(alloc, part)?),
            EnvelopePart::Trace => self.trace = Some(read_trace(alloc, part)?),
            EnvelopePart::Extensions => self.extensions = Some(read_extensions(alloc, part)?),
        }
        Ok(())
    }
}

impl Components for EnvelopeParts {
    ghost step = { envelope_step };

    #[tactic(auto, unfolding(crate::specs::ReportEnvelopes::envelope_step))]
    fn take(&mut self, alloc: Global, part: &View) -> Result<(), ReadFault> {
        match part_of(part.tag) {
            None => bad(part.at, Kind::BadTag),
            Some(place) => {
                if self.is_held(place) {
                    return bad(part.at, Kind::Twice);
                }
                self.put(alloc, place, part)
            }
        }
    }
}

/// What the components are, where the required ones are there.
fn completed(alloc: Global, parts: EnvelopeParts) -> EnvelopeFields
    requires { IsTrue (envelope_complete parts) }
    ensures { (at : ℕ) → envelope_from parts at ≡ Ok result }
{
    let EnvelopeParts {
        destination,
        id,
        trace,
        extensions,
    } = parts;
    let destination = destination.unwrap();
    let id = id.unwrap();
    let trace = trace.unwrap();
    EnvelopeFields {
        destination,
        id,
        trace,
        extensions: fields_or_none(alloc, extensions),
    }
}

fn finished(alloc: Global, parts: EnvelopeParts, at: u32) -> Result<EnvelopeFields, ReadFault>
    ensures { Reads result (envelope_from parts at) }
{
    if parts.is_complete() {
        Ok(completed(alloc, parts))
    } else {
        bad(at, Kind::Missing)
    }
}

/// An envelope, its components in any order.
#[tactic(auto, unfolding(crate::specs::ReportEnvelopes::envelope_in))]
pub fn read_envelope(alloc: Global, whole: &View) -> Result<EnvelopeFields, ReadFault>
    ensures { Reads result (envelope_in (view whole.now)) }
{
    if !whole.tag.constructed {
        return bad(whole.at, Kind::BadTag);
    }
    let mut parts = EnvelopeParts {
        destination: None,
        id: None,
        trace: None,
        extensions: None,
    };
    take_parts(alloc, whole, &mut parts)?;
    finished(alloc, parts, whole.at)
}

/// Appends the envelope of a report.
#[tactic(auto, unfolding(crate::specs::ReportEnvelopes::canonical_envelope))]
pub fn put_envelope(w: &mut Writer, v: &ReportFields) -> Result<(), Memory>
    ensures ok { OnOk result (w.new ≡ appended w.old (canonical_envelope v.now)) }
    ensures err { OnErr result (w.new ≡ w.old) }
{
    let mut inside = Writer::new(w.alloc());
    v.destination.write(&mut inside, constructed(1, 0))?;
    v.id.write(&mut inside)?;
    put_trace(&mut inside, &v.trace)?;
    put_extensions(&mut inside, constructed(2, 1), &v.extensions)?;
    put_around(w, constructed(0, 17), &inside)
}

//! Recipients of whom is reported.

ghost use Rattle.std.specs.Prelude.{◌≡◌, OnOk, IfOk, OnErr, IsTrue, Ok, ℕ, unwrap_or, List, []};
ghost use Rattle.mta_ber.specs.Canon.{appended, optional};
ghost use Rattle.mta_ber.specs.Parts.{Leaves, Reads};
ghost use Rattle.mta_ber.specs.Seen.{view};
ghost use Rattle.mta_report_recipient.specs.Values.{IsReported};
ghost use Rattle.mta_report_recipient.specs.ReportedRecipients.{reported_part_of, reported_held, reported_part_in};
ghost use Rattle.mta_report_recipient.specs.ReportedRecipients.{reported_step, reported_complete, reported_from};
ghost use Rattle.mta_report_recipient.specs.ReportedRecipients.{reported_in, canonical_intended, reported_content};

use crate::last::{LastTrace, put_last, read_last};
use crate::length::components_length;
use crate::outcome::Outcome;
use mta_ber::{
    Bits, Components, Kind, Memory, Octets, ReadFault, Tag, View, Writer, bad, element_length,
    is_constructed_tag, is_primitive_tag, is_tag_of, put_int, take_parts,
};
use mta_envelope_common::{put_extensions, put_indicators, read_extensions, read_indicators};
use mta_fields::ExtField;
use mta_names::{OrName, Row, constructed, primitive, put_around, put_raw_if, read_number};
use std::alloc::Global;
use std::marker::Model;

/// What a recipient of whom is reported has.
pub struct ReportedFields {
    /// The actual recipient.
    pub name: OrName,
    /// The number of the recipient in the subject message, 1 to 32,767.
    pub number: u32,
    /// Per-recipient indicators, 8 to 64 bits.
    pub indicators: Bits,
    /// When the message arrived, in seconds from 1950-01-01 00:00:00 UTC, at most the last second of 2049.
    pub arrival: u64,
    /// Converted encoded information types: the whole element, `[APPLICATION 5]`.
    pub converted: Option<Octets>,
    /// What came of the message.
    pub outcome: Outcome,
    /// The recipient that was intended originally.
    pub intended: Option<OrName>,
    /// Supplementary information: the whole element, `[5]`.
    pub supplementary: Option<Octets>,
    pub extensions: Row<ExtField>,
}

// Written out, since a derived one is opened anew, field by field, at each place where a value is let go.
impl Drop for ReportedFields {
    fn drop(self) {
        let ReportedFields {
            name: _,
            number: _,
            indicators: _,
            arrival: _,
            converted: _,
            outcome: _,
            intended: _,
            supplementary: _,
            extensions: _,
        } = self;
    }
}

/// A recipient of whom is reported (X.411, PerRecipientReportTransferFields).
pub struct Reported {
    fields: ReportedFields,
}

// Written out, since a derived one is opened anew, field by field, at each place where a value is let go.
impl Drop for Reported {
    fn drop(self) {
        let Reported { fields: _ } = self;
    }
}

impl Model for Reported {
    ghost use Rattle.mta_report_recipient.specs.declared.reported.ReportedFields.{ReportedFields};

    ghost Value = { ReportedFields };

    ghost use Rattle.mta_report_recipient.specs.Values.{IsReported};

    ghost view = { λ r. r.fields };

    ghost invariant = { λ r. IsReported r.fields };
}

/// The components.
#[derive(Clone, Copy)]
pub enum ReportedPart {
    Actual,
    Number,
    Indicators,
    Last,
    Intended,
    Supplementary,
    Extensions,
}

/// The components so far.
#[derive(Drop)]
pub struct ReportedParts {
    pub name: Option<OrName>,
    pub number: Option<u32>,
    pub indicators: Option<Bits>,
    pub last: Option<LastTrace>,
    pub intended: Option<OrName>,
    pub supplementary: Option<Octets>,
    pub extensions: Option<Row<ExtField>>,
}

fn part_of(tag: Tag) -> Option<ReportedPart>
    ensures { result ≡ reported_part_of tag }
{
    if is_constructed_tag(tag, 2, 0) {
        Some(ReportedPart::Actual)
    } else if is_primitive_tag(tag, 2, 1) {
        Some(ReportedPart::Number)
    } else if is_tag_of(tag, 2, 2) {
        Some(ReportedPart::Indicators)
    } else if is_constructed_tag(tag, 2, 3) {
        Some(ReportedPart::Last)
    } else if is_constructed_tag(tag, 2, 4) {
        Some(ReportedPart::Intended)
    } else if is_tag_of(tag, 2, 5) {
        Some(ReportedPart::Supplementary)
    } else if is_constructed_tag(tag, 2, 6) {
        Some(ReportedPart::Extensions)
    } else {
        None
    }
}

impl ReportedParts {
    /// Whether a component is there already.
    fn is_held(&self, place: ReportedPart) -> bool
        ensures { result ≡ reported_held place self.now }
    {
        match place {
            ReportedPart::Actual => self.name.is_some(),
            ReportedPart::Number => self.number.is_some(),
            ReportedPart::Indicators => self.indicators.is_some(),
            ReportedPart::Last => self.last.is_some(),
            ReportedPart::Intended => self.intended.is_some(),
            ReportedPart::Supplementary => self.supplementary.is_some(),
            ReportedPart::Extensions => self.extensions.is_some(),
        }
    }

    /// Whether the required components are there.
    fn is_complete(&self) -> bool
        ensures { result ≡ reported_complete self.now }
    {
        self.name.is_some()
            && self.number.is_some()
            && self.indicators.is_some()
            && self.last.is_some()
    }

    fn put(&mut self, alloc: Global, place: ReportedPart, part: &View) -> Result<(), ReadFault>
        ensures { Leaves result self.new (reported_part_in place self.old (view part.now)) }
    {
        match place {
            ReportedPart::Actual => self.name = Some(OrName::read(alloc, part)?),
            ReportedPart::Number => self.number = Some(read_number(part, 1, 32767)?),
            ReportedPart::Indicators => self.indicators = Some(read_indicators(part)?),
            ReportedPart::Last => self.last = Some(read_last(alloc, part)?),
            ReportedPart::Intended => self.intended = Some(OrName::read(alloc, part)?),
            ReportedPart::Supplementary => self.supplementary = Some(Octets::from_slice(
                alloc,
                part.octets,
            )?),
            ReportedPart::Extensions => self.extensions = Some(read_extensions(alloc, part)?),
        }
        Ok(())
    }
}

impl Components for ReportedParts {
    ghost step = { reported_step };

    #[tactic(auto, unfolding(crate::specs::ReportedRecipients::reported_step))]
    fn take(&mut self, alloc: Global, part: &View) -> Result<(), ReadFault> {
        match part_of(part.tag) {
            None => bad(part.at, Kind::BadTag),
            Some(place) => {
                if self.is_held(place) {
                    return bad(part.at, Kind::Twice);
                }
                self.put(alloc, place, part)
            }
        }
    }
}

/// Extension fields, none where they are absent.
pub fn fields_or_none(alloc: Global, fields: Option<Row<ExtField>>) -> Row<ExtField>
    ensures { result ≡ unwrap_or fields [] }
{
    match fields {
        Some(fields) => fields,
        None => Row::new(alloc),
    }
}

/// What the components are, where the required ones are there.
fn completed(alloc: Global, parts: ReportedParts) -> ReportedFields
    requires { IsTrue (reported_complete parts) }
    ensures { (at : ℕ) → reported_from parts at ≡ Ok result }
{
    let ReportedParts {
        name,
        number,
        indicators,
        last,
        intended,
        supplementary,
        extensions,
    } = parts;
    let name = name.unwrap();
    let number = number.unwrap();
    let indicators = indicators.unwrap();
    let last = last.unwrap();
    let LastTrace {
        arrival,
        converted,
        outcome,
    } = last;
    ReportedFields {
        name,
        number,
        indicators,
        arrival,
        converted,
        outcome,
        intended,
        supplementary,
        extensions: fields_or_none(alloc, extensions),
    }
}

fn finished(alloc: Global, parts: ReportedParts, at: u32) -> Result<ReportedFields, ReadFault>
    ensures { Reads result (reported_from parts at) }
{
    if parts.is_complete() {
        Ok(completed(alloc, parts))
    } else {
        bad(at, Kind::Missing)
    }
}

/// The parts of a recipient, its components in any order.
#[tactic(auto, unfolding(crate::specs::ReportedRecipients::reported_in))]
fn read_fields(alloc: Global, whole: &View) -> Result<ReportedFields, ReadFault>
    ensures { Reads result (reported_in (view whole.now)) }
{
    if !is_constructed_tag(whole.tag, 0, 17) {
        return bad(whole.at, Kind::BadTag);
    }
    let mut parts = ReportedParts {
        name: None,
        number: None,
        indicators: None,
        last: None,
        intended: None,
        supplementary: None,
        extensions: None,
    };
    take_parts(alloc, whole, &mut parts)?;
    finished(alloc, parts, whole.at)
}

/// Appends the name of the recipient that was intended, where it is there.
#[tactic(auto, using(crate::proofs::Written::appended_none))]
fn put_intended(w: &mut Writer, name: &Option<OrName>) -> Result<(), Memory>
    ensures { OnOk result (w.new ≡ appended w.old (optional canonical_intended name.now)) }
{
    match name {
        None => Ok(()),
        Some(name) => name.write(w, constructed(2, 4)),
    }
}

/// The components of a recipient, in a writer of their own.
fn put_fields(alloc: Global, v: &ReportedFields) -> Result<Writer, Memory>
    requires { IsReported v.now }
    ensures { IfOk result (λ w. w.octets ≡ reported_content v.now) }
{
    let mut inside = Writer::new(alloc);
    v.name.write(&mut inside, constructed(2, 0))?;
    put_int(&mut inside, primitive(2, 1), v.number as i64)?;
    put_indicators(&mut inside, primitive(2, 2), v.indicators)?;
    put_last(&mut inside, v.arrival, &v.converted, &v.outcome)?;
    put_intended(&mut inside, &v.intended)?;
    put_raw_if(&mut inside, &v.supplementary)?;
    put_extensions(&mut inside, constructed(2, 6), &v.extensions)?;
    Ok(inside)
}

impl Reported {
    ghost use Rattle.std.specs.Prelude.{◌≡◌, IfOk, OnOk, OnErr};
    ghost use Rattle.mta_ber.specs.Canon.{appended};
    ghost use Rattle.mta_ber.specs.Lengths.{octet_length};
    ghost use Rattle.mta_ber.specs.Parts.{Reads, IsReadAs};
    ghost use Rattle.mta_ber.specs.Seen.{view};
    ghost use Rattle.mta_report_recipient.specs.declared.reported.ReportedFields.{ReportedFields};
    ghost use Rattle.mta_report_recipient.specs.Values.{IsReported};
    ghost use Rattle.mta_report_recipient.specs.ReportedRecipients.{reported_in, SpellsReported, canonical_reported};

    /// The recipient that an element spells, a SET. BadTag at an element of any other tag.
    pub fn read(alloc: Global, whole: &View) -> Result<Reported, ReadFault>
        // Which recipient it is, or which fault comes first.
        ensures exact { Reads result (reported_in (view whole.now)) }

        // What is answered is spelled by the element, and what the element spells is answered.
        ensures found { IfOk result (SpellsReported whole.now.depth whole.now.tag whole.now.content.now) }
        ensures only { (v : ReportedFields) → SpellsReported whole.now.depth whole.now.tag whole.now.content.now v
            → IsReadAs result v }
    {
        match read_fields(alloc, whole) {
            Ok(fields) => Ok(Reported { fields }),
            Err(fault) => Err(fault),
        }
    }

    /// Appends the recipient in its canonical octets.
    #[tactic(auto, unfolding(crate::specs::ReportedRecipients::canonical_reported))]
    pub fn write(&self, w: &mut Writer) -> Result<(), Memory>
        ensures ok { OnOk result (w.new ≡ appended w.old (canonical_reported self.now)) }
        ensures err { OnErr result (w.new ≡ w.old) }
    {
        let inside = put_fields(w.alloc(), &self.fields)?;
        put_around(w, constructed(0, 17), &inside)
    }

    /// How many octets `write` appends, told without memory; 2^64 - 1 where there are as many or more.
    #[tactic(auto, unfolding(crate::specs::ReportedRecipients::canonical_reported))]
    pub fn length(&self) -> u64
        ensures { result ≡ octet_length (canonical_reported self.now) }
    {
        element_length(constructed(0, 17), components_length(&self.fields))
    }

    /// A recipient of these parts, which takes no memory.
    pub fn from_fields(fields: ReportedFields) -> Reported
        requires { IsReported fields }
        ensures { result ≡ fields }
    {
        Reported { fields }
    }

    /// The parts, lent.
    pub fn fields(&self) -> &ReportedFields
        ensures exact { result.now ≡ self.now }
        ensures reported { IsReported self.now }
    {
        &self.fields
    }
}

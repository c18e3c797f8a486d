//! The content of a report.

ghost use Rattle.std.specs.Prelude.{◌≡◌, OnOk, IfOk, OnErr, IsTrue, Ok, ℕ, unwrap_or, List, []};
ghost use Rattle.mta_ber.specs.Canon.{appended, optional};
ghost use Rattle.mta_ber.specs.Parts.{Leaves, Reads};
ghost use Rattle.mta_ber.specs.Seen.{view};
ghost use Rattle.mta_report.specs.ReportContents.{content_part_of, content_held, content_part_in};
ghost use Rattle.mta_report.specs.ReportContents.{content_step, content_complete, content_from, content_in};
ghost use Rattle.mta_report.specs.ReportContents.{content_content, canonical_content};

use crate::fields::ReportFields;
use mta_ber::{
    Components, Kind, Memory, Octets, ReadFault, Tag, Text, View, Writer, bad, is_constructed_tag,
    is_tag_of, take_parts,
};
use mta_envelope_common::{
    ContentKind, is_content_kind_tag, put_content_id, put_content_kind_in_front,
    put_content_kind_in_place, put_extensions, read_content_id, read_content_kind, read_extensions,
};
use mta_fields::{ExtField, MtsId};
use mta_names::{Row, constructed, put_around, put_raw_if};
use mta_report_recipient::{Reported, fields_or_none, put_recipients, read_recipients};
use std::alloc::Global;

/// What a content has.
#[derive(Drop)]
pub struct ContentFields {
    pub subject: MtsId,
    pub subject_trace: Option<Octets>,
    pub eits: Option<Octets>,
    pub content_kind: Option<ContentKind>,
    pub content_id: Option<Text>,
    pub returned: Option<Octets>,
    pub additional: Option<Octets>,
    pub extensions: Row<ExtField>,
    pub recipients: Row<Reported>,
}

/// The components.
#[derive(Clone, Copy)]
pub enum ContentPart {
    Subject,
    Eits,
    ContentType,
    SubjectTrace,
    ContentId,
    Recipients,
    Returned,
    Additional,
    Extensions,
}

/// The components so far.
#[derive(Drop)]
pub struct ContentParts {
    pub subject: Option<MtsId>,
    pub eits: Option<Octets>,
    pub content_kind: Option<ContentKind>,
    pub subject_trace: Option<Octets>,
    pub content_id: Option<Text>,
    pub recipients: Option<Row<Reported>>,
    pub returned: Option<Octets>,
    pub additional: Option<Octets>,
    pub extensions: Option<Row<ExtField>>,
}

fn part_of(tag: Tag) -> Option<ContentPart>
    ensures { result ≡ content_part_of tag }
{
    if is_constructed_tag(tag, 1, 4) {
        Some(ContentPart::Subject)
    } else if is_tag_of(tag, 1, 5) {
        Some(ContentPart::Eits)
    } else if is_content_kind_tag(tag) {
        Some(ContentPart::ContentType)
    } else if is_tag_of(tag, 1, 9) {
        Some(ContentPart::SubjectTrace)
    } else if is_tag_of(tag, 1, 10) {
        Some(ContentPart::ContentId)
    } else if is_constructed_tag(tag, 2, 0) {
        Some(ContentPart::Recipients)
    } else if is_tag_of(tag, 2, 1) {
        Some(ContentPart::Returned)
    } else if is_tag_of(tag, 2, 2) {
        Some(ContentPart::Additional)
    } else if is_constructed_tag(tag, 2, 3) {
        Some(ContentPart::Extensions)
    } else {
        None
    }
}

impl ContentParts {
    /// Whether a component is there already.
    fn is_held(&self, place: ContentPart) -> bool
        ensures { result ≡ content_held place self.now }
    {
        match place {
            ContentPart::Subject => self.subject.is_some(),
            ContentPart::Eits => self.eits.is_some(),
            ContentPart::ContentType => self.content_kind.is_some(),
            ContentPart::SubjectTrace => self.subject_trace.is_some(),
            ContentPart::ContentId => self.content_id.is_some(),
            ContentPart::Recipients => self.recipients.is_some(),
            ContentPart::Returned => self.returned.is_some(),
            ContentPart::Additional => self.additional.is_some(),
            ContentPart::Extensions => self.extensions.is_some(),
        }
    }

    /// Whether the required components are there.
    fn is_complete(&self) -> bool
        ensures { result ≡ content_complete self.now }
    {
        self.subject.is_some() && self.recipients.is_some()
    }

    fn put(&mut self, alloc: Global, place: ContentPart, part: &View) -> Result<(), ReadFault>
        ensures { Leaves result self.new (content_part_in place self.old (view part.now)) }
    {
        match place {
            ContentPart::Subject => self.subject = Some(MtsId::read(alloc, part)?),
            ContentPart::Eits => self.eits = Some(Octets::from_slice(alloc, part.octets)?),
            ContentPart::ContentType => self.content_kind = Some(read_content_kind(alloc, part)?),
            ContentPart::SubjectTrace => self.subject_trace = Some(Octets::from_slice(
                alloc,
                part.octets,
            )?),
            ContentPart::ContentId => self.content_id = Some(read_content_id(alloc, part)?),
            ContentPart::Recipients => self.recipients = Some(read_recipients(alloc, part)?),
            ContentPart::Returned => self.returned = Some(Octets::from_slice(alloc, part.octets)?),
            ContentPart::Additional => self.additional = Some(Octets::from_slice(
                alloc,
                part.octets,
            )?),
            ContentPart::Extensions => self.extensions = Some(read_extensions(alloc, part)?),
        }
        Ok(())
    }
}

impl Components for ContentParts {
    ghost step = { content_step };

    #[tactic(auto, unfolding(crate::specs::ReportContents::content_step))]
    fn take(&mut self, alloc: Global, part: &View) -> Result<(), ReadFault> {
        match part_of(part.tag) {
            None => bad(part.at, Kind::BadTag),
            Some(place) => {
                if self.is_held(place) {
                    return bad(part.at, Kind::Twice);
                }
                self.put(alloc, place, part)
            }
        }
    }
}

/// What the components are, where the required ones are there.
fn completed(alloc: Global, parts: ContentParts) -> ContentFields
    requires { IsTrue (content_complete parts) }
    ensures { (at : ℕ) → content_from parts at ≡ Ok result }
{
    let ContentParts {
        subject,
        eits,
        content_kind,
        subject_trace,
        content_id,
        recipients,
        returned,
        additional,
        extensions,
    } = parts;
    let subject = subject.unwrap();
    let recipients = recipients.unwrap();
    ContentFields {
        subject,
        subject_trace,
        eits,
        content_kind,
        content_id,
        returned,
        additional,
        extensions: fields_or_none(alloc, extensions),
        recipients,
    }
}

fn finished(alloc: Global, parts: ContentParts, at: u32) -> Result<ContentFields, ReadFault>
    ensures { Reads result (content_from parts at) }
{
    if parts.is_complete() {
        Ok(completed(alloc, parts))
    } else {
        bad(at, Kind::Missing)
    }
}

/// A content, its components in any order.
#[tactic(auto, unfolding(crate::specs::ReportContents::content_in))]
pub fn read_content(alloc: Global, whole: &View) -> Result<ContentFields, ReadFault>
    ensures { Reads result (content_in (view whole.now)) }
{
    if !whole.tag.constructed {
        return bad(whole.at, Kind::BadTag);
    }
    let mut parts = ContentParts {
        subject: None,
        eits: None,
        content_kind: None,
        subject_trace: None,
        content_id: None,
        recipients: None,
        returned: None,
        additional: None,
        extensions: None,
    };
    take_parts(alloc, whole, &mut parts)?;
    finished(alloc, parts, whole.at)
}

/// The components of a content, in a writer of their own.
fn put_fields(alloc: Global, v: &ReportFields) -> Result<Writer, Memory>
    ensures { IfOk result (λ w. w.octets ≡ content_content v.now) }
{
    let mut inside = Writer::new(alloc);
    put_content_kind_in_front(&mut inside, &v.content_kind)?;
    v.subject.write(&mut inside)?;
    put_raw_if(&mut inside, &v.eits)?;
    put_content_kind_in_place(&mut inside, &v.content_kind)?;
    put_raw_if(&mut inside, &v.subject_trace)?;
    put_content_id(&mut inside, &v.content_id)?;
    put_recipients(&mut inside, &v.recipients)?;
    put_raw_if(&mut inside, &v.returned)?;
    put_raw_if(&mut inside, &v.additional)?;
    put_extensions(&mut inside, constructed(2, 3), &v.content_extensions)?;
    Ok(inside)
}

/// Appends the content of a report.
#[tactic(auto, unfolding(crate::specs::ReportContents::canonical_content))]
pub fn put_content(w: &mut Writer, v: &ReportFields) -> Result<(), Memory>
    ensures ok { OnOk result (w.new ≡ appended w.old (canonical_content v.now)) }
    ensures err { OnErr result (w.new ≡ w.old) }
{
    let inside = put_fields(w.alloc(), v)?;
    put_around(w, constructed(0, 17), &inside)
}

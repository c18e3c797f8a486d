//! Reading reports.

ghost use Rattle.std.specs.Prelude.{◌≡◌, OnOk, IfOk, OnErr, IsTrue, Ok, ℕ, unwrap_or, List, []};
ghost use Rattle.mta_ber.specs.Canon.{appended, optional};
ghost use Rattle.mta_ber.specs.Parts.{Leaves, Reads};
ghost use Rattle.mta_ber.specs.Seen.{view};
ghost use Rattle.mta_report.specs.Reports.{report_part_of, report_place, report_needed, report_part_in, report_step};
ghost use Rattle.mta_report.specs.Reports.{report, report_complete, report_from, report_in};

use crate::content::{ContentFields, read_content};
use crate::envelope::{EnvelopeFields, read_envelope};
use crate::fields::ReportFields;
use mta_ber::{
    Components, Kind, ReadFault, Tag, View, bad, check_order, is_constructed_tag, is_tag_of,
    take_parts,
};
use std::alloc::Global;

/// The components of a report.
#[derive(Clone, Copy)]
pub enum ReportPart {
    Envelope,
    Content,
}

/// The place of the last component that was read, 0 where there is none, and the components so far.
#[derive(Drop)]
pub struct ReportParts {
    pub last: u8,
    pub envelope: Option<EnvelopeFields>,
    pub content: Option<ContentFields>,
}

fn part_of(last: u8, tag: Tag) -> Option<ReportPart>
    ensures { result ≡ report_part_of last tag }
{
    if !is_tag_of(tag, 0, 17) {
        None
    } else if last == 0 {
        Some(ReportPart::Envelope)
    } else {
        Some(ReportPart::Content)
    }
}

fn place_of(part: ReportPart) -> u8
    ensures { result ≡ report_place part }
{
    match part {
        ReportPart::Envelope => 1,
        ReportPart::Content => 2,
    }
}

fn needed_of(part: ReportPart) -> u8
    ensures { result ≡ report_needed part }
{
    match part {
        ReportPart::Envelope => 0,
        ReportPart::Content => 1,
    }
}

impl ReportParts {
    /// Whether the envelope and the content are there.
    fn is_complete(&self) -> bool
        ensures { result ≡ report_complete self.now }
    {
        self.envelope.is_some() && self.content.is_some()
    }

    fn put(&mut self, alloc: Global, place: ReportPart, part: &View) -> Result<(), ReadFault>
        ensures { Leaves result self.new (report_part_in place self.old (view part.now)) }
    {
        match place {
            ReportPart::Envelope => self.envelope = Some(read_envelope(alloc, part)?),
            ReportPart::Content => self.content = Some(read_content(alloc, part)?),
        }
        self.last = place_of(place);
        Ok(())
    }
}

impl Components for ReportParts {
    ghost step = { report_step };

    #[tactic(auto, unfolding(crate::specs::Reports::report_step))]
    fn take(&mut self, alloc: Global, part: &View) -> Result<(), ReadFault> {
        match part_of(self.last, part.tag) {
            None => bad(part.at, Kind::BadTag),
            Some(place) => {
                check_order(self.last, needed_of(place), place_of(place), part.at)?;
                self.put(alloc, place, part)
            }
        }
    }
}

/// A report of an envelope and a content.
fn joined(envelope: EnvelopeFields, content: ContentFields) -> ReportFields
    ensures { result ≡ report envelope content }
{
    let EnvelopeFields {
        destination,
        id,
        trace,
        extensions,
    } = envelope;
    let ContentFields {
        subject,
        subject_trace,
        eits,
        content_kind,
        content_id,
        returned,
        additional,
        extensions: content_extensions,
        recipients,
    } = content;
    ReportFields {
        id,
        destination,
        trace,
        extensions,
        subject,
        subject_trace,
        eits,
        content_kind,
        content_id,
        returned,
        additional,
        content_extensions,
        recipients,
    }
}

/// What the components are, where the required ones are there.
fn completed(parts: ReportParts) -> ReportFields
    requires { IsTrue (report_complete parts) }
    ensures { (at : ℕ) → report_from parts at ≡ Ok result }
{
    let ReportParts {
        last: _,
        envelope,
        content,
    } = parts;
    let envelope = envelope.unwrap();
    let content = content.unwrap();
    joined(envelope, content)
}

fn finished(parts: ReportParts, at: u32) -> Result<ReportFields, ReadFault>
    ensures { Reads result (report_from parts at) }
{
    if parts.is_complete() {
        Ok(completed(parts))
    } else {
        bad(at, Kind::Missing)
    }
}

/// The parts of a report, under `[1]`.
#[tactic(auto, unfolding(crate::specs::Reports::report_in))]
pub fn read_report(alloc: Global, whole: &View) -> Result<ReportFields, ReadFault>
    ensures { Reads result (report_in (view whole.now)) }
{
    if !is_constructed_tag(whole.tag, 2, 1) {
        return bad(whole.at, Kind::BadTag);
    }
    let mut parts = ReportParts {
        last: 0,
        envelope: None,
        content: None,
    };
    take_parts(alloc, whole, &mut parts)?;
    finished(parts, whole.at)
}

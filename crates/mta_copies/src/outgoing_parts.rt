//! Reports with another trace.

ghost use Rattle.std.specs.Prelude.{◌≡◌, IfOk};
ghost use Rattle.mta_copies.specs.Parts.{IsSubject, AreOthers};

use crate::fields::{copied_fields, copied_id};
use crate::parts::{copied_kind_if, copied_text};
use crate::reported::copied_reported;
use mta_ber::{Memory, Octets, Text};
use mta_envelope_common::ContentKind;
use mta_fields::{ExtField, MtsId, TraceElement};
use mta_names::{OrName, Row, copied_raw};
use mta_report::ReportFields;
use mta_report_recipient::Reported;
use std::alloc::Global;

/// What a report says of its subject message.
#[derive(Drop)]
pub struct Subject {
    pub subject: MtsId,
    pub subject_trace: Option<Octets>,
    pub eits: Option<Octets>,
    pub content_kind: Option<ContentKind>,
    pub content_id: Option<Text>,
}

/// What else a report has, but its trace.
#[derive(Drop)]
pub struct Others {
    pub id: MtsId,
    pub destination: OrName,
    pub extensions: Row<ExtField>,
    pub returned: Option<Octets>,
    pub additional: Option<Octets>,
    pub content_extensions: Row<ExtField>,
    pub recipients: Row<Reported>,
}

fn copied_subject(alloc: Global, fields: &ReportFields) -> Result<Subject, Memory>
    ensures { IfOk result (λ s. IsSubject fields.now s) }
{
    let subject = copied_id(alloc, &fields.subject)?;
    let subject_trace = copied_raw(alloc, &fields.subject_trace)?;
    let eits = copied_raw(alloc, &fields.eits)?;
    let content_kind = copied_kind_if(alloc, &fields.content_kind)?;
    let content_id = copied_text(alloc, &fields.content_id)?;
    Ok(Subject {
        subject,
        subject_trace,
        eits,
        content_kind,
        content_id,
    })
}

fn copied_others(alloc: Global, fields: &ReportFields) -> Result<Others, Memory>
    ensures { IfOk result (λ o. AreOthers fields.now o) }
{
    let id = copied_id(alloc, &fields.id)?;
    let destination = fields.destination.copy(alloc)?;
    let extensions = copied_fields(alloc, fields.extensions.as_slice())?;
    let returned = copied_raw(alloc, &fields.returned)?;
    let additional = copied_raw(alloc, &fields.additional)?;
    let content_extensions = copied_fields(alloc, fields.content_extensions.as_slice())?;
    let recipients = copied_reported(alloc, fields.recipients.as_slice())?;
    Ok(Others {
        id,
        destination,
        extensions,
        returned,
        additional,
        content_extensions,
        recipients,
    })
}

fn of_parts(subject: Subject, others: Others, trace: Row<TraceElement>) -> ReportFields
    ensures { result ≡ record {
      id = others.id;
      destination = others.destination;
      trace = trace;
      extensions = others.extensions;
      subject = subject.subject;
      subject_trace = subject.subject_trace;
      eits = subject.eits;
      content_kind = subject.content_kind;
      content_id = subject.content_id;
      returned = others.returned;
      additional = others.additional;
      content_extensions = others.content_extensions;
      recipients = others.recipients;
    } }
{
    let Subject {
        subject,
        subject_trace,
        eits,
        content_kind,
        content_id,
    } = subject;
    let Others {
        id,
        destination,
        extensions,
        returned,
        additional,
        content_extensions,
        recipients,
    } = others;
    ReportFields {
        id,
        destination,
        trace,
        extensions,
        subject,
        subject_trace,
        eits,
        content_kind,
        content_id,
        returned,
        additional,
        content_extensions,
        recipients,
    }
}

/// The parts of a report with this trace in place of its own, and equal ones else.
pub fn report_with(
    alloc: Global,
    fields: &ReportFields,
    trace: Row<TraceElement>,
) -> Result<ReportFields, Memory>
    ensures { IfOk result (λ r. r ≡ record fields.now { trace = trace }) }
{
    let subject = copied_subject(alloc, fields)?;
    let others = copied_others(alloc, fields)?;
    Ok(of_parts(subject, others, trace))
}

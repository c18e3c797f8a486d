//! The lines of reports.

ghost use Rattle.std.specs.Prelude.{◌≡◌, ◌++◌, OnOk, codes};
ghost use Rattle.mta_apdu_text.specs.Lines.{line_if, content_type_line};
ghost use Rattle.mta_apdu_text.specs.Reports.{subject_lines, report_text};

use crate::lines::{
    put_content_id_line, put_content_type_line, put_id_line, put_name_line, put_trace_lines,
};
use crate::reported::put_reported_lines;
use mta_ber::{Memory, Octets};
use mta_envelope_common::ContentKind;
use mta_report::{Report, ReportFields};
use std::alloc::Global;

fn put_content_type_if(out: &mut Octets, kind: &Option<ContentKind>) -> Result<(), Memory>
    ensures { OnOk result (out.new ≡ out.old ++ line_if content_type_line kind.now) }
{
    match kind {
        None => Ok(()),
        Some(kind) => put_content_type_line(out, kind),
    }
}

/// What is said of the subject: identifier, content type and content identifier.
#[tactic(auto, unfolding(crate::specs::Reports::subject_lines))]
fn put_subject_lines(out: &mut Octets, fields: &ReportFields) -> Result<(), Memory>
    ensures { OnOk result (out.new ≡ out.old ++ subject_lines fields.now) }
{
    put_id_line(out, b"subject ", &fields.subject)?;
    put_content_type_if(out, &fields.content_kind)?;
    put_content_id_line(out, &fields.content_id)
}

/// The lines of a report.
#[tactic(auto, unfolding(crate::specs::Reports::report_text))]
pub fn put_report(alloc: Global, out: &mut Octets, report: &Report) -> Result<(), Memory>
    ensures { OnOk result (out.new ≡ out.old ++ report_text report.now) }
{
    let fields = report.fields();
    put_id_line(out, b"report ", &fields.id)?;
    put_name_line(alloc, out, b"destination ", &fields.destination)?;
    put_trace_lines(alloc, out, fields.trace.as_slice())?;
    put_subject_lines(out, fields)?;
    put_reported_lines(alloc, out, fields.recipients.as_slice())
}

//! How many octets the parts of a report have that are written, told without writing them: no call here takes memory.
//! Each answers 2^64 - 1 where there are as many octets or more.

ghost use Rattle.std.specs.Prelude.{◌≡◌};
ghost use Rattle.mta_ber.specs.Canon.{optional};
ghost use Rattle.mta_ber.specs.Lengths.{octet_length};
ghost use Rattle.mta_envelope_common.specs.ContentKinds.{kind_in_front, kind_in_place};
ghost use Rattle.mta_report.specs.Lengths.{content_front};
ghost use Rattle.mta_report.specs.ReportContents.{canonical_content};
ghost use Rattle.mta_report.specs.ReportEnvelopes.{canonical_envelope};

use crate::fields::ReportFields;
use mta_ber::{element_length, length_of_both};
use mta_envelope_common::{
    ContentKind, content_id_length, extensions_length, kind_in_front_length, kind_in_place_length,
    trace_length,
};
use mta_names::{constructed, raw_length};
use mta_report_recipient::recipients_length;

fn front_length(kind: &Option<ContentKind>) -> u64
    ensures { result ≡ octet_length (optional kind_in_front kind.now) }
{
    match kind {
        None => 0,
        Some(kind) => kind_in_front_length(kind),
    }
}

fn place_length(kind: &Option<ContentKind>) -> u64
    ensures { result ≡ octet_length (optional kind_in_place kind.now) }
{
    match kind {
        None => 0,
        Some(kind) => kind_in_place_length(kind),
    }
}

/// How many octets the envelope has.
#[tactic(auto, unfolding(crate::specs::ReportEnvelopes::canonical_envelope))]
pub fn envelope_length(v: &ReportFields) -> u64
    ensures { result ≡ octet_length (canonical_envelope v.now) }
{
    let id = length_of_both(v.destination.length(constructed(1, 0)), v.id.length());
    let trace = length_of_both(id, trace_length(&v.trace));
    let whole = length_of_both(trace, extensions_length(constructed(2, 1), &v.extensions));
    element_length(constructed(0, 17), whole)
}

/// How many octets the components of the content have up to its content identifier.
fn content_front_length(v: &ReportFields) -> u64
    ensures { result ≡ octet_length (content_front v.now) }
{
    let subject = length_of_both(front_length(&v.content_kind), v.subject.length());
    let eits = length_of_both(subject, raw_length(&v.eits));
    let kind = length_of_both(eits, place_length(&v.content_kind));
    let trace = length_of_both(kind, raw_length(&v.subject_trace));
    length_of_both(trace, content_id_length(&v.content_id))
}

/// How many octets the content has.
#[tactic(auto, unfolding(crate::specs::ReportContents::canonical_content))]
pub fn content_length(v: &ReportFields) -> u64
    ensures { result ≡ octet_length (canonical_content v.now) }
{
    let front = content_front_length(v);
    let recipients = length_of_both(front, recipients_length(&v.recipients));
    let returned = length_of_both(recipients, raw_length(&v.returned));
    let additional = length_of_both(returned, raw_length(&v.additional));
    let fields = extensions_length(constructed(2, 3), &v.content_extensions);
    element_length(constructed(0, 17), length_of_both(additional, fields))
}

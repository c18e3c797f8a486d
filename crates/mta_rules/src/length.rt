//! How many octets the copies for peers have, told without writing them: no call here takes memory. Each answers
//! 2^64 - 1 where there are as many octets or more.

ghost use Rattle.std.specs.Prelude.{◌≡◌, ◌++◌, ◌∷◌, [], ◌≤◌, false, IfSome};
ghost use Rattle.std.specs.List.{flat_map};
ghost use Rattle.mta_ber.specs.Canon.{optional};
ghost use Rattle.mta_ber.specs.Lengths.{octet_length};
ghost use Rattle.mta_ber.specs.Times.{last_moment};
ghost use Rattle.mta_envelope_common.specs.ContentKinds.{kind_in_front, kind_in_place};
ghost use Rattle.mta_envelope_common.specs.TraceLists.{canonical_trace_list};
ghost use Rattle.mta_fields.specs.TraceElements.{canonical_trace};
ghost use Rattle.mta_fields.specs.Traces.{canonical_supplied};
ghost use Rattle.mta_envelope_recipient.specs.Lists.{canonical_recipients};
ghost use Rattle.mta_envelope.specs.Components.{longest};
ghost use Rattle.mta_envelope.specs.Envelopes.{IsEnvelope, canonical_or_none, canonical_deferral, canonical_length};
ghost use Rattle.mta_envelope.specs.Envelopes.{envelope_front, envelope_middle, envelope_back, envelope_content};
ghost use Rattle.mta_envelope.specs.Messages.{message_value};
ghost use Rattle.mta_envelope.specs.Priorities.{canonical_priority};
ghost use Rattle.mta_report.specs.Lengths.{content_front};
ghost use Rattle.mta_report.specs.ReportContents.{canonical_content};
ghost use Rattle.mta_report.specs.ReportEnvelopes.{canonical_envelope};
ghost use Rattle.mta_procedures.specs.Copies.{deferred_time, responsible_for, outgoing_envelope, outgoing_fields};
ghost use Rattle.mta_procedures.specs.Copies.{outgoing_message, outgoing_probe, outgoing_report};
ghost use Rattle.mta_procedures.specs.Situations.{situation};
ghost use Rattle.mta_procedures.specs.Traces.{own_trace};
ghost use Rattle.mta_rules.specs.Cases.{IsBackOf};

use mta_ber::{
    Bits, bits_length, element_length, int_length, length_of_both, slice_length, utc_length,
};
use mta_envelope::{EnvelopeFields, Message, Priority, Probe};
use mta_envelope_common::{
    ContentKind, content_id_length, extensions_length, kind_in_front_length, kind_in_place_length,
};
use mta_envelope_recipient::recipients_length;
use mta_fields::TraceElement;
use mta_names::{constructed, primitive, raw_length};
use mta_report::{Report, ReportFields};
use mta_tables::Tables;

/// What an element has of this agent that relays: its arrival and its action, in a SET.
const RELAYED: u64 = 20;
/// A deferred time behind the arrival.
const DEFERRED: u64 = 15;

// ---- traces

/// How many octets that has which this agent supplies as it relays.
fn supplied_length(tables: &Tables, arrival: u64, moment: u64, deferral: Option<u64>) -> u64
    ensures { let s = situation tables.now arrival moment in
        result ≡ octet_length (canonical_supplied (own_trace s (deferred_time s deferral) false).supplied) }
{
    match deferral {
        None => RELAYED,
        Some(deferral) => {
            if arrival < deferral {
                RELAYED + DEFERRED
            } else {
                RELAYED
            }
        }
    }
}

/// How many octets the own element has.
#[tactic(auto, unfolding(mta_fields::specs::TraceElements::canonical_trace))]
fn own_length(tables: &Tables, arrival: u64, moment: u64, deferral: Option<u64>) -> u64
    ensures { let s = situation tables.now arrival moment in
        result ≡ octet_length (canonical_trace (own_trace s (deferred_time s deferral) false)) }
{
    let domain = tables.domain().length();
    let supplied = supplied_length(tables, arrival, moment, deferral);
    element_length(constructed(0, 16), length_of_both(domain, supplied))
}

fn elements_length(elements: &[TraceElement]) -> u64
    ensures { result ≡ octet_length (flat_map canonical_trace elements.now) }
{
    let mut total = 0;
    for element in elements {
        total = length_of_both(total, element.length());
    }
    total
}

/// How many octets a trace has with the own element behind it.
#[tactic(auto, unfolding(mta_envelope_common::specs::TraceLists::canonical_trace_list), using(crate::proofs::Lengths::one_more))]
fn longer_trace_length(
    tables: &Tables,
    arrival: u64,
    moment: u64,
    trace: &[TraceElement],
    deferral: Option<u64>,
) -> u64
    ensures { let s = situation tables.now arrival moment in
        result ≡ octet_length (canonical_trace_list
        (trace.now ++ own_trace s (deferred_time s deferral) false ∷ [])) }
{
    let own = own_length(tables, arrival, moment, deferral);
    element_length(
        constructed(1, 9),
        length_of_both(elements_length(trace), own),
    )
}

// ---- envelopes

fn priority_length(priority: Priority) -> u64
    ensures { result ≡ octet_length (canonical_priority priority) }
{
    match priority {
        Priority::Normal => 0,
        Priority::NonUrgent => int_length(primitive(1, 7), 1),
        Priority::Urgent => int_length(primitive(1, 7), 2),
    }
}

fn indicators_length(bits: Bits) -> u64
    ensures { result ≡ octet_length (canonical_or_none bits) }
{
    if bits.count() == 8 && bits.word() == 0 {
        return 0;
    }
    bits_length(primitive(1, 8), bits)
}

fn deferral_length(moment: Option<u64>) -> u64
    requires { IfSome moment (λ m. m ≤ last_moment) }
    ensures { result ≡ octet_length (optional canonical_deferral moment) }
{
    match moment {
        None => 0,
        Some(moment) => utc_length(primitive(2, 0), moment),
    }
}

fn content_length_length(length: Option<u64>) -> u64
    requires { IfSome length (λ n. n ≤ longest) }
    ensures { result ≡ octet_length (optional canonical_length length) }
{
    match length {
        None => 0,
        Some(length) => int_length(primitive(2, 0), length as i64),
    }
}

/// How many octets the components have that stand in front of the indicators, which are those of the item.
#[tactic(auto, unfolding(mta_envelope::specs::Envelopes::envelope_front))]
fn front_length(tables: &Tables, arrival: u64, moment: u64, v: &EnvelopeFields) -> u64
    ensures { let s = situation tables.now arrival moment in
        result ≡ octet_length (envelope_front (outgoing_envelope s v.now [])) }
{
    let name = v.originator.length(constructed(1, 0));
    let originator = length_of_both(kind_in_front_length(&v.content_kind), name);
    let id = length_of_both(originator, v.id.length());
    let eits = length_of_both(id, raw_length(&v.eits));
    let kind = length_of_both(eits, kind_in_place_length(&v.content_kind));
    length_of_both(kind, priority_length(v.priority))
}

/// How many octets indicators, trace and content identifier have.
#[tactic(auto, unfolding(mta_envelope::specs::Envelopes::envelope_middle))]
fn middle_length(tables: &Tables, arrival: u64, moment: u64, v: &EnvelopeFields) -> u64
    ensures { let s = situation tables.now arrival moment in
        result ≡ octet_length (envelope_middle (outgoing_envelope s v.now [])) }
{
    let longer = longer_trace_length(tables, arrival, moment, v.trace.as_slice(), v.deferral);
    let trace = length_of_both(indicators_length(v.indicators), longer);
    length_of_both(trace, content_id_length(&v.content_id))
}

/// How many octets recipients have, whichever are responsible.
#[tactic(auto, using(crate::proofs::Lengths::recipients_told))]
fn copied_recipients_length(v: &EnvelopeFields) -> u64
    ensures { result ≡ octet_length (canonical_recipients (responsible_for [] v.now.recipients)) }
{
    recipients_length(&v.recipients)
}

/// How many octets the components of a copy have from the deferred delivery time on: recipients and extension fields
/// are among them, so that this alone costs by how many there are. It is the same under all tables and at each moment.
#[tactic(auto, unfolding(mta_envelope::specs::Envelopes::envelope_back))]
pub fn back_length(v: &EnvelopeFields) -> u64
    requires { IsEnvelope v.now }
    ensures { IsBackOf v.now result }
{
    let length = length_of_both(deferral_length(v.deferral), content_length_length(v.length));
    let bilateral = length_of_both(length, raw_length(&v.bilateral));
    let recipients = length_of_both(bilateral, copied_recipients_length(v));
    length_of_both(
        recipients,
        extensions_length(constructed(2, 3), &v.extensions),
    )
}

/// How many contents octets the envelope of a copy has.
#[tactic(auto, unfolding(mta_envelope::specs::Envelopes::envelope_content))]
fn envelope_length(tables: &Tables, arrival: u64, moment: u64, v: &EnvelopeFields, back: u64) -> u64
    requires { IsBackOf v.now back }
    ensures { let s = situation tables.now arrival moment in
        result ≡ octet_length (envelope_content (outgoing_envelope s v.now [])) }
{
    let front = front_length(tables, arrival, moment, v);
    let middle = length_of_both(front, middle_length(tables, arrival, moment, v));
    length_of_both(middle, back)
}

/// How many octets the copies of a message have, where that was counted which costs by the recipients.
pub fn message_copy_length(
    tables: &Tables,
    arrival: u64,
    moment: u64,
    message: &Message,
    back: u64,
) -> u64
    requires { IsBackOf message.now.envelope back }
    ensures { let s = situation tables.now arrival moment in
        result ≡ octet_length (outgoing_message s (message_value message.now) []) }
{
    let content = slice_length(message.content.as_slice());
    let envelope = envelope_length(tables, arrival, moment, message.envelope.fields(), back);
    let set = element_length(constructed(0, 17), envelope);
    let both = length_of_both(set, element_length(primitive(0, 4), content));
    element_length(constructed(2, 0), both)
}

/// How many octets the copies of a probe have, where that was counted which costs by the recipients.
#[tactic(auto, using(crate::proofs::Wholes::probe_is))]
pub fn probe_copy_length(
    tables: &Tables,
    arrival: u64,
    moment: u64,
    probe: &Probe,
    back: u64,
) -> u64
    requires { IsBackOf probe.now.envelope back }
    ensures { result ≡ octet_length (outgoing_probe (situation tables.now arrival moment) probe.now.envelope []) }
{
    let envelope = envelope_length(tables, arrival, moment, probe.envelope.fields(), back);
    element_length(constructed(2, 2), envelope)
}

// ---- reports

fn kind_front_length(kind: &Option<ContentKind>) -> u64
    ensures { result ≡ octet_length (optional kind_in_front kind.now) }
{
    match kind {
        None => 0,
        Some(kind) => kind_in_front_length(kind),
    }
}

fn kind_place_length(kind: &Option<ContentKind>) -> u64
    ensures { result ≡ octet_length (optional kind_in_place kind.now) }
{
    match kind {
        None => 0,
        Some(kind) => kind_in_place_length(kind),
    }
}

/// How many octets the envelope of a report's copy has.
#[tactic(auto, unfolding(mta_report::specs::ReportEnvelopes::canonical_envelope))]
fn report_envelope_length(tables: &Tables, arrival: u64, moment: u64, v: &ReportFields) -> u64
    ensures { let s = situation tables.now arrival moment in
        result ≡ octet_length (canonical_envelope (outgoing_fields s v.now)) }
{
    let id = length_of_both(v.destination.length(constructed(1, 0)), v.id.length());
    let longer = longer_trace_length(tables, arrival, moment, v.trace.as_slice(), None);
    let trace = length_of_both(id, longer);
    let whole = length_of_both(trace, extensions_length(constructed(2, 1), &v.extensions));
    element_length(constructed(0, 17), whole)
}

/// How many octets the components of a report's content have up to its content identifier.
fn report_front_length(v: &ReportFields) -> u64
    ensures { result ≡ octet_length (content_front v.now) }
{
    let subject = length_of_both(kind_front_length(&v.content_kind), v.subject.length());
    let eits = length_of_both(subject, raw_length(&v.eits));
    let kind = length_of_both(eits, kind_place_length(&v.content_kind));
    let trace = length_of_both(kind, raw_length(&v.subject_trace));
    length_of_both(trace, content_id_length(&v.content_id))
}

/// How many octets the content of a report has.
#[tactic(auto, unfolding(mta_report::specs::ReportContents::canonical_content))]
fn report_content_length(v: &ReportFields) -> u64
    ensures { result ≡ octet_length (canonical_content v.now) }
{
    let front = report_front_length(v);
    let recipients = length_of_both(
        front,
        mta_report_recipient::recipients_length(&v.recipients),
    );
    let returned = length_of_both(recipients, raw_length(&v.returned));
    let additional = length_of_both(returned, raw_length(&v.additional));
    let fields = extensions_length(constructed(2, 3), &v.content_extensions);
    element_length(constructed(0, 17), length_of_both(additional, fields))
}

/// How many octets the copy of a report has.
pub fn report_copy_length(tables: &Tables, arrival: u64, moment: u64, report: &Report) -> u64
    ensures { result ≡ octet_length (outgoing_report (situation tables.now arrival moment) report.now) }
{
    let fields = report.fields();
    let envelope = report_envelope_length(tables, arrival, moment, fields);
    let content = report_content_length(fields);
    element_length(constructed(2, 1), length_of_both(envelope, content))
}

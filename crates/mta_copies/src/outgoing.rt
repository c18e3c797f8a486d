//! The copies that go to peers.

ghost use Rattle.std.specs.Prelude.{◌≡◌, ◌++◌, ◌∷◌, [], ◌<◌, ◌≤◌, ◌^◌, length, IfOk, IfSome, false};
ghost use Rattle.mta_ber.specs.Times.{last_moment};
ghost use Rattle.mta_envelope.specs.Messages.{canonical_probe, message_value};
ghost use Rattle.mta_tables.specs.Tables.{TablesValue};
ghost use Rattle.mta_procedures.specs.Copies.{deferred_time, outgoing_envelope, outgoing_fields, outgoing_message};
ghost use Rattle.mta_procedures.specs.Copies.{outgoing_probe, outgoing_report};
ghost use Rattle.mta_procedures.specs.Heads.{before_content, message_head, outgoing_head};
ghost use Rattle.mta_procedures.specs.Situations.{situation};
ghost use Rattle.mta_procedures.specs.Traces.{longest_trace, own_trace};

use crate::envelope::envelope_with;
use crate::fields::{copied_fields, copied_history, copied_trace, relayed_element};
use crate::header::put_header;
use crate::outgoing_parts::report_with;
use crate::responsibility::responsible_for;
use mta_ber::{Memory, Octets, Writer};
use mta_envelope::{Envelope, EnvelopeFields, Message, Probe};
use mta_envelope_recipient::Recipient;
use mta_fields::TraceElement;
use mta_names::{Row, constructed, primitive};
use mta_report::Report;
use mta_tables::Tables;
use std::alloc::Global;

/// The moment as deferred time, where the item was deferred behind its arrival.
fn deferred_time(arrival: u64, moment: u64, deferral: Option<u64>) -> Option<u64>
    requires { moment ≤ last_moment }
    ensures exact { (t : TablesValue) → result ≡ deferred_time (situation t arrival moment) deferral }
    ensures moment { IfSome result (λ m. m ≤ last_moment) }
{
    let until = deferral?;
    if arrival < until { Some(moment) } else { None }
}

/// A trace with the own element behind it, which is the same at each moment.
fn outgoing_trace(
    alloc: Global,
    tables: &Tables,
    arrival: u64,
    trace: &[TraceElement],
    deferred: Option<u64>,
) -> Result<Row<TraceElement>, Memory>
    requires arrival { arrival ≤ last_moment }
    requires deferred { IfSome deferred (λ m. m ≤ last_moment) }
    ensures { IfOk result (λ r. r ≡ trace.now ++ own_trace (situation tables.now arrival 0) deferred false ∷ []) }
{
    let own = relayed_element(alloc, tables.domain(), arrival, deferred, false)?;
    let mut row = copied_trace(alloc, trace)?;
    row.push(own)?;
    Ok(row)
}

/// The parts of an envelope with these recipients and this trace in place of its own, and equal ones else.
fn envelope_for(
    alloc: Global,
    fields: &EnvelopeFields,
    recipients: Row<Recipient>,
    trace: Row<TraceElement>,
) -> Result<EnvelopeFields, Memory>
    ensures { IfOk result (λ e. e ≡ record fields.now { recipients = recipients; trace = trace }) }
{
    let extensions = copied_fields(alloc, fields.extensions.as_slice())?;
    let history = copied_history(alloc, fields.history.as_slice())?;
    envelope_with(alloc, fields, recipients, trace, extensions, history)
}

/// The envelope of a copy.
fn outgoing_envelope(
    alloc: Global,
    tables: &Tables,
    arrival: u64,
    envelope: &Envelope,
    chosen: &[u32],
    moment: u64,
) -> Result<Envelope, Memory>
    requires room { length envelope.now.trace < longest_trace }
    requires arrival { arrival ≤ last_moment }
    requires moment { moment ≤ last_moment }
    ensures { let s = situation tables.now arrival moment in
        IfOk result (λ e. e ≡ outgoing_envelope s envelope.now chosen.now) }
{
    let fields = envelope.fields();
    let deferred = deferred_time(arrival, moment, fields.deferral);
    let recipients = responsible_for(alloc, fields.recipients.as_slice(), chosen)?;
    let trace = outgoing_trace(alloc, tables, arrival, fields.trace.as_slice(), deferred)?;
    let parts = envelope_for(alloc, fields, recipients, trace)?;
    Ok(Envelope::from_fields(parts))
}

/// The envelope of a message, and the header of a content of so many octets.
fn before_content(alloc: Global, envelope: &Envelope, content: u64) -> Result<Vec<u8>, Memory>
    ensures { IfOk result (λ v. v.items ≡ before_content envelope.now content) }
{
    let mut w = Writer::new(alloc);
    envelope.write(&mut w, constructed(0, 17))?;
    let mut octets = w.finish().into_vec();
    put_header(&mut octets, primitive(0, 4), content)?;
    Ok(octets)
}

/// What stands in front of a content of so many octets.
fn message_head(alloc: Global, envelope: &Envelope, content: u64) -> Result<Octets, Memory>
    requires { content < 2 ^ 63 }
    ensures { IfOk result (λ o. o ≡ message_head envelope.now content) }
{
    let before = before_content(alloc, envelope, content)?;
    let whole = before.len() as u64 + content;
    let mut octets = Vec::new(alloc);
    put_header(&mut octets, constructed(2, 0), whole)?;
    octets.extend_from_slice(before.as_slice())?;
    Ok(Octets::from_vec(octets))
}

/// What stands in front of the content of a message's copy: the octets that, followed by the content, are the copy.
/// Conditions and arguments are those of `outgoing_message`.
pub fn outgoing_head(
    alloc: Global,
    tables: &Tables,
    arrival: u64,
    message: &Message,
    chosen: &[u32],
    moment: u64,
) -> Result<Octets, Memory>
    requires room { length message.now.envelope.trace < longest_trace }
    requires arrival { arrival ≤ last_moment }
    requires moment { moment ≤ last_moment }
    ensures { let s = situation tables.now arrival moment in
        IfOk result (λ o. o ≡ outgoing_head s (message_value message.now) chosen.now) }
{
    let envelope = outgoing_envelope(alloc, tables, arrival, &message.envelope, chosen, moment)?;
    message_head(alloc, &envelope, message.content.as_slice().len() as u64)
}

/// The canonical octets of the copy of a message that goes to a peer: it has responsibility for the recipients at the
/// chosen positions, from 1, and for no others, and an own element behind its trace, with `moment` as deferred time
/// where the message was deferred behind its arrival. Both are seconds from 1950-01-01 00:00:00 UTC. All else is the
/// message's.
pub fn outgoing_message(
    alloc: Global,
    tables: &Tables,
    arrival: u64,
    message: &Message,
    chosen: &[u32],
    moment: u64,
) -> Result<Octets, Memory>
    requires room { length message.now.envelope.trace < longest_trace }
    requires arrival { arrival ≤ last_moment }
    requires moment { moment ≤ last_moment }
    ensures { let s = situation tables.now arrival moment in
        IfOk result (λ o. o ≡ outgoing_message s (message_value message.now) chosen.now) }
{
    let mut octets = outgoing_head(alloc, tables, arrival, message, chosen, moment)?;
    octets.extend(message.content.as_slice())?;
    Ok(octets)
}

/// The canonical octets of a probe of an envelope.
#[tactic(auto, using(crate::proofs::Copied::probe_is))]
fn probe_octets(alloc: Global, envelope: &Envelope) -> Result<Octets, Memory>
    ensures { IfOk result (λ o. o ≡ canonical_probe envelope.now) }
{
    let mut w = Writer::new(alloc);
    envelope.write(&mut w, constructed(2, 2))?;
    Ok(w.finish())
}

/// The canonical octets of the copy of a probe that goes to a peer. Conditions and arguments are those of
/// `outgoing_message`.
pub fn outgoing_probe(
    alloc: Global,
    tables: &Tables,
    arrival: u64,
    probe: &Probe,
    chosen: &[u32],
    moment: u64,
) -> Result<Octets, Memory>
    requires room { length probe.now.envelope.trace < longest_trace }
    requires arrival { arrival ≤ last_moment }
    requires moment { moment ≤ last_moment }
    ensures { let s = situation tables.now arrival moment in
        IfOk result (λ o. o ≡ outgoing_probe s probe.now.envelope chosen.now) }
{
    let envelope = outgoing_envelope(alloc, tables, arrival, &probe.envelope, chosen, moment)?;
    probe_octets(alloc, &envelope)
}

/// The report that is the copy for a peer, which is the same at each moment.
fn report_copy(
    alloc: Global,
    tables: &Tables,
    arrival: u64,
    report: &Report,
) -> Result<Report, Memory>
    requires room { length report.now.trace < longest_trace }
    requires arrival { arrival ≤ last_moment }
    ensures { IfOk result (λ r. r ≡ outgoing_fields (situation tables.now arrival 0) report.now) }
{
    let fields = report.fields();
    let trace = outgoing_trace(alloc, tables, arrival, fields.trace.as_slice(), None)?;
    let parts = report_with(alloc, fields, trace)?;
    Ok(Report::from_fields(parts))
}

/// The canonical octets of the copy of a report that goes to a peer, which is the same at each moment: an own element
/// stands behind its trace, and all else is the report's.
pub fn outgoing_report(
    alloc: Global,
    tables: &Tables,
    arrival: u64,
    report: &Report,
    moment: u64,
) -> Result<Octets, Memory>
    requires room { length report.now.trace < longest_trace }
    requires arrival { arrival ≤ last_moment }
    ensures { IfOk result (λ o. o ≡ outgoing_report (situation tables.now arrival moment) report.now) }
{
    let copy = report_copy(alloc, tables, arrival, report)?;
    copy.write(alloc)
}

//! What becomes of recipients.

ghost use Rattle.std.specs.Prelude.{◌≡◌, ◌≤◌, ◌<◌, ℕ, IfOk, Some, length};
ghost use Rattle.std.specs.Option.{option_map, option_map_or};
ghost use Rattle.mta_ber.specs.Lengths.{octet_length};
ghost use Rattle.mta_ber.specs.Times.{last_moment};
ghost use Rattle.mta_envelope.specs.Messages.{message_value};
ghost use Rattle.mta_apdu.specs.Apdus.{apdu_value};
ghost use Rattle.mta_apdu.specs.Apdus as apdus;
ghost use Rattle.mta_tables.specs.Hops.{best_hop};
ghost use Rattle.mta_tables.specs.declared.hop.Hop.TheVariants as Hops;
ghost use Rattle.mta_procedures.specs.Histories.{longest_history};
ghost use Rattle.mta_procedures.specs.Members.{message_octets};
ghost use Rattle.mta_procedures.specs.Situations.{situation, terms_of};
ghost use Rattle.mta_procedures.specs.Situations as situations;
ghost use Rattle.mta_procedures.specs.Traces.{longest_trace};
ghost use Rattle.mta_procedures.specs.Verdicts.{verdict_of_probe, verdict_on_message};
ghost use Rattle.mta_machine.specs.Items.{numbered};
ghost use Rattle.mta_machine.specs.Rules.{expired_under, is_expired, verdict_of, verdict_under};
ghost use Rattle.mta_table_rules.specs.Counts.{CountsAsLength};
ghost use Rattle.mta_state.specs.Asked.{CodesAreCodes};
ghost use Rattle.mta_state.specs.Readings.{IsCounted, IsReadingOf};
ghost use Rattle.mta_rules.specs.Cases.{IsBackOf};

use crate::reading::{recipient_of, text_reads};
use mta_apdu::Apdu;
use mta_ber::Memory;
use mta_envelope::{Envelope, Message, Probe};
use mta_envelope_recipient::RecipientFields;
use mta_lists::expand;
use mta_machine::Item;
use mta_procedures::Verdict;
use mta_report::Report;
use mta_rules::{
    is_expired, report_terms, terms_of, verdict_on_message, verdict_on_probe, verdict_report,
};
use mta_state::Reading;
use mta_tables::{Hop, Tables};
use std::alloc::Global;

/// How many octets a members' copy has; 0 where there is none.
fn length_of(copy: Option<Message<'_>>) -> u64
    ensures { result ≡ option_map_or (λ c. octet_length (message_octets c)) (option_map message_value copy.entry) 0 }
{
    match copy {
        Some(message) => message.length(),
        None => 0,
    }
}

/// How many octets the members' copy has, in whichever format and at whichever moment.
fn copy_length(
    alloc: Global,
    tables: &Tables,
    list: u32,
    arrival: u64,
    message: &Message<'_>,
    recipient: u32,
    who: &RecipientFields,
) -> Result<u64, Memory>
    requires list { best_hop tables.now who.now.name ≡ Hops.List list }
    requires place { list < length tables.now.lists }
    requires who { numbered message.now.envelope.recipients recipient ≡ Some who.now }
    requires trace { length message.now.envelope.trace < longest_trace }
    requires history { length message.now.envelope.history < longest_history }
    requires arrival { arrival ≤ last_moment }
    ensures { IfOk result (CountsAsLength tables.now arrival (message_value message.now) who.now) }
{
    let copy = expand(alloc, tables, list, arrival, message, recipient, arrival)?;
    Ok(length_of(copy))
}

/// A number that stands for the length of the members' copy where that counts: the list is looked at, and trace and
/// history have room.
fn members_length(
    alloc: Global,
    tables: &Tables,
    arrival: u64,
    message: &Message<'_>,
    recipient: u32,
    who: &RecipientFields,
) -> Result<u64, Memory>
    requires who { numbered message.now.envelope.recipients recipient ≡ Some who.now }
    requires arrival { arrival ≤ last_moment }
    ensures { IfOk result (CountsAsLength tables.now arrival (message_value message.now) who.now) }
{
    let envelope = message.envelope.fields();
    if envelope.trace.len() >= 512 {
        return Ok(0);
    }
    if envelope.history.len() >= 512 {
        return Ok(0);
    }
    match tables.route(&who.name) {
        Hop::List(list) => copy_length(alloc, tables, list, arrival, message, recipient, who),
        Hop::Local(_) | Hop::Peer(_) | Hop::None => Ok(0),
    }
}

fn of_message(
    alloc: Global,
    format: u32,
    tables: &Tables,
    message: &Message<'_>,
    back: u64,
    arrival: u64,
    recipient: u32,
    moment: u64,
) -> Result<Option<Verdict>, Memory>
    requires arrival { arrival ≤ last_moment }
    requires back { IsBackOf message.now.envelope back }
    ensures { let s = situation tables.now arrival moment in
        let recipients = message.now.envelope.recipients in
        IfOk result (λ v. v
        ≡ option_map (verdict_on_message format s (message_value message.now)) (numbered recipients recipient)) }
{
    let recipients = message.envelope.fields().recipients.as_slice();
    let Some(found) = recipient_of(recipients, recipient) else {
        return Ok(None);
    };
    let who = found.fields();
    let members = members_length(alloc, tables, arrival, message, recipient, who)?;
    let verdict = verdict_on_message(format, tables, arrival, message, back, who, members, moment);
    Ok(Some(verdict))
}

fn of_probe(
    format: u32,
    tables: &Tables,
    probe: &Probe,
    back: u64,
    arrival: u64,
    recipient: u32,
    moment: u64,
) -> Option<Verdict>
    requires arrival { arrival ≤ last_moment }
    requires back { IsBackOf probe.now.envelope back }
    ensures { let s = situation tables.now arrival moment in
        result
        ≡ option_map (verdict_of_probe format s probe.now.envelope) (numbered probe.now.envelope.recipients recipient) }
{
    let recipients = probe.envelope.fields().recipients.as_slice();
    let found = recipient_of(recipients, recipient)?;
    Some(verdict_on_probe(format, tables, arrival, probe, back, found.fields(), moment))
}

/// A report that comes to a list has the verdict Back.
fn of_report(
    format: u32,
    tables: &Tables,
    report: &Report,
    arrival: u64,
    recipient: u32,
    moment: u64,
) -> Option<Verdict>
    requires { arrival ≤ last_moment }
    ensures { result ≡ verdict_under format tables.now (apdus.report report.now) arrival recipient moment }
{
    if recipient != 1 {
        return None;
    }
    let back = &report.fields().destination;
    Some(verdict_report(format, tables, arrival, report, Some(back), moment))
}

/// The verdict in a format on a recipient of an APDU that was read, where that was counted which is counted once for
/// all.
pub fn verdict_under(
    alloc: Global,
    format: u32,
    tables: &Tables,
    apdu: &Apdu<'_>,
    back: u64,
    arrival: u64,
    recipient: u32,
    moment: u64,
) -> Result<Option<Verdict>, Memory>
    requires arrival { arrival ≤ last_moment }
    requires back { IsCounted apdu.now back }
    ensures { IfOk result (λ v. v ≡ verdict_under format tables.now (apdu_value apdu.now) arrival recipient moment) }
{
    match apdu {
        Apdu::Message(message) => {
            of_message(
                alloc, format, tables, message, back, arrival, recipient, moment,
            )
        }
        Apdu::Probe(probe) => Ok(of_probe(format, tables, probe, back, arrival, recipient, moment)),
        Apdu::Report(report) => Ok(of_report(format, tables, report, arrival, recipient, moment)),
    }
}

/// The verdict in a format on a recipient of an item, looked at at a moment; none where its octets are those of no
/// APDU, or where it has no such recipient.
pub fn verdict(
    alloc: Global,
    format: u32,
    tables: &Tables,
    item: &Item,
    reading: &Reading<'_>,
    recipient: u32,
    moment: u64,
) -> Result<Option<Verdict>, Memory>
    requires arrived { item.now.arrival ≤ last_moment }
    requires reading { IsReadingOf item.now.octets reading.now }
    ensures exact { IfOk result
        (λ v. v ≡ verdict_of format tables.now.text item.now.octets item.now.arrival recipient moment) }
    ensures codes { IfOk result CodesAreCodes }
{
    text_reads(tables);
    let arrival = item.arrival();
    let Some(apdu) = &reading.apdu else {
        return Ok(None);
    };
    verdict_under(
        alloc,
        format,
        tables,
        apdu,
        reading.back,
        arrival,
        recipient,
        moment,
    )
}

fn envelope_expired(
    format: u32,
    tables: &Tables,
    envelope: &Envelope,
    arrival: u64,
    moment: u64,
) -> bool
    requires { arrival ≤ last_moment }
    ensures { result ≡ situations.is_expired (situation tables.now arrival moment) (terms_of format envelope.now) }
{
    let terms = terms_of(format, envelope.fields());
    is_expired(tables, arrival, moment, terms)
}

fn expired_under(format: u32, tables: &Tables, apdu: &Apdu<'_>, arrival: u64, moment: u64) -> bool
    requires { arrival ≤ last_moment }
    ensures { result ≡ expired_under format (Some tables.now) (Some (apdu_value apdu.now)) arrival moment }
{
    match apdu {
        Apdu::Message(message) => envelope_expired(
            format,
            tables,
            &message.envelope,
            arrival,
            moment,
        ),
        Apdu::Probe(probe) => envelope_expired(format, tables, &probe.envelope, arrival, moment),
        Apdu::Report(_) => is_expired(tables, arrival, moment, report_terms()),
    }
}

/// Whether an item has waited at a moment for its hold time, or in format 2 until its latest delivery time.
pub fn has_expired(
    format: u32,
    tables: &Tables,
    item: &Item,
    reading: &Reading<'_>,
    moment: u64,
) -> bool
    requires arrived { item.now.arrival ≤ last_moment }
    requires reading { IsReadingOf item.now.octets reading.now }
    ensures { result ≡ is_expired format tables.now.text item.now.octets item.now.arrival moment }
{
    text_reads(tables);
    let arrival = item.arrival();
    let Some(apdu) = &reading.apdu else {
        return false;
    };
    expired_under(format, tables, apdu, arrival, moment)
}

//! Reports that come to a list and are passed back (X.411, clause 14: distribution lists, reports).

ghost use Rattle.std.specs.Prelude.{◌≡◌, ◌≤◌, ◌<◌, ℕ, IfOk, Some, is_some, length, map};
ghost use Rattle.std.specs.List.{find, list_any, zip};
ghost use Rattle.std.specs.Option.{option_and_then, option_copied, option_map};
ghost use Rattle.mta_ber.specs.Times.{last_moment};
ghost use Rattle.mta_apdu.specs.Apdus.{apdu_value};
ghost use Rattle.mta_apdu.specs.Apdus as apdus;
ghost use Rattle.mta_names.specs.Normal.{is_same_name};
ghost use Rattle.mta_fields.specs.Identifiers.{is_same_id};
ghost use Rattle.mta_tables.specs.Hops.{list_named};
ghost use Rattle.mta_procedures.specs.Situations.{situation};
ghost use Rattle.mta_procedures.specs.Traces.{longest_trace};
ghost use Rattle.mta_procedures.specs.Walks.{behind_list, is_expanded_as, is_subject_of, passed_to, report_walk};
ghost use Rattle.mta_procedures.specs.Walks.{walk_of};
ghost use Rattle.mta_procedures.specs.Walks as walks;
ghost use Rattle.mta_machine.specs.Machine.{own_item};
ghost use Rattle.mta_machine.specs.Rules.{accepted_as, accepted_in, accepted_of, is_expanded, is_own};
ghost use Rattle.mta_machine.specs.Rules.{passed_under, verdict_of};
ghost use Rattle.mta_machine.specs.Rules as rules;
ghost use Rattle.mta_state.specs.Asked.{Passes};
ghost use Rattle.mta_state.specs.Readings.{IsReadingOf};
ghost use Rattle.mta_table_rules.specs.Copied.{trace_in};

use crate::reading::{read_kept, text_reads};
use crate::reports::report_item;
use mta_apdu::Apdu;
use mta_ber::Memory;
use mta_copies::report_with;
use mta_envelope::Message;
use mta_envelope_recipient::Recipient;
use mta_fields::MtsId;
use mta_lists::expanded_trace;
use mta_machine::{Item, Origin, Status};
use mta_names::OrName;
use mta_report::Report;
use mta_rules::{list_named, report_walk};
use mta_state::Reading;
use mta_tables::{MailList, Tables};
use std::alloc::Global;

fn is_expanded(status: &Option<Status>) -> bool
    ensures { result ≡ is_expanded status.now }
{
    match status {
        Some(Status::Expanded(_)) => true,
        _ => false,
    }
}

fn is_of_list(list: &MailList, recipient: &Recipient) -> bool
    ensures { result ≡ is_same_name recipient.now.name list.now.name }
{
    recipient.fields().name.same(&list.name)
}

/// Whether a recipient who is this list was expanded.
fn was_expanded(list: &MailList, recipients: &[Recipient], statuses: &[Option<Status>]) -> bool
    ensures { result ≡ list_any (is_expanded_as list.now) (zip recipients.now (map is_expanded statuses.now)) }
{
    recipients.iter().zip(statuses).any(|(recipient, status)| is_expanded(status)
        && is_of_list(list, recipient))
}

fn is_same_id(first: &MtsId, second: &MtsId) -> bool
    ensures { result ≡ is_same_id first.now second.now }
{
    first.same(second)
}

/// Whether the report says something of this message, which was expanded here for the list.
fn is_subject(
    report: &Report,
    list: &MailList,
    message: &Message<'_>,
    statuses: &[Option<Status>],
) -> bool
    ensures { result ≡ is_subject_of report.now list.now
        (record { envelope = message.now.envelope; expanded = map is_expanded statuses.now }) }
{
    let envelope = message.envelope.fields();
    is_same_id(&envelope.id, &report.fields().subject)
        && was_expanded(list, envelope.recipients.as_slice(), statuses)
}

/// To whom a report on this message goes.
fn copied_walk(
    alloc: Global,
    tables: &Tables,
    message: &Message<'_>,
) -> Result<Option<OrName>, Memory>
    ensures { IfOk result (λ n. n ≡ report_walk tables.now message.now.envelope) }
{
    match report_walk(tables, message.envelope.fields()) {
        Some(name) => Ok(Some(name.copy(alloc)?)),
        None => Ok(None),
    }
}

/// To whom an APDU with these statuses leads, where it is the message of which the report says something.
fn walk_in(
    alloc: Global,
    tables: &Tables,
    report: &Report,
    list: &MailList,
    apdu: &Apdu<'_>,
    statuses: &[Option<Status>],
) -> Result<Option<Option<OrName>>, Memory>
    ensures { IfOk result (λ walk. walk ≡ option_map (walk_of tables.now)
        (find (is_subject_of report.now list.now) (accepted_as statuses.now (Some (apdu_value apdu.now))))) }
{
    match apdu {
        Apdu::Message(message) => {
            if !is_subject(report, list, message, statuses) {
                return Ok(None);
            }
            Ok(Some(copied_walk(alloc, tables, message)?))
        }
        Apdu::Probe(_) | Apdu::Report(_) => Ok(None),
    }
}

/// To whom an item leads, where it is the message of which the report says something.
fn walk_behind(
    alloc: Global,
    tables: &Tables,
    report: &Report,
    list: &MailList,
    item: &Item,
) -> Result<Option<Option<OrName>>, Memory>
    ensures { IfOk result (λ walk. walk ≡ option_map (walk_of tables.now)
        (find (is_subject_of report.now list.now) (accepted_of item.now))) }
{
    let Some(apdu) = read_kept(alloc, item.octets())? else {
        return Ok(None);
    };
    let walk = walk_in(alloc, tables, report, list, &apdu, item.statuses());
    apdu.discard();
    walk
}

/// To whom the first message among the items leads of which the report says something.
fn first_walk(
    alloc: Global,
    tables: &Tables,
    report: &Report,
    list: &MailList,
    items: &[Item],
) -> Result<Option<OrName>, Memory>
    ensures { IfOk result (λ name. name ≡ option_and_then (walk_of tables.now)
        (find (is_subject_of report.now list.now) (accepted_in items.now))) }
{
    for item in items {
        if let Some(walk) = walk_behind(alloc, tables, report, list, item)? {
            return Ok(walk);
        }
    }
    Ok(None)
}

/// To whom a report that comes to this list is passed back.
fn behind_list(
    alloc: Global,
    tables: &Tables,
    report: &Report,
    list: &MailList,
    items: &[Item],
) -> Result<Option<OrName>, Memory>
    ensures { IfOk result (λ name. name ≡ behind_list tables.now report.now (accepted_in items.now) list.now) }
{
    if !list.back {
        return Ok(None);
    }
    first_walk(alloc, tables, report, list, items)
}

fn is_own(origin: Origin) -> bool
    ensures { result ≡ is_own origin }
{
    match origin {
        Origin::Own => true,
        Origin::Submitted | Origin::Lane => false,
    }
}

/// To whom a report is passed back, among these items; nobody where this agent made it itself.
fn passed_to(
    alloc: Global,
    tables: &Tables,
    origin: Origin,
    report: &Report,
    items: &[Item],
) -> Result<Option<OrName>, Memory>
    ensures { IfOk result (λ name. name
        ≡ passed_to tables.now (is_own origin) report.now (accepted_in items.now)) }
{
    if is_own(origin) {
        return Ok(None);
    }
    match list_named(tables, &report.fields().destination) {
        Some(list) => behind_list(alloc, tables, report, list, items),
        None => Ok(None),
    }
}

fn is_somebody(name: Option<OrName>) -> bool
    ensures { result ≡ is_some name }
{
    name.is_some()
}

/// Whether an APDU is a report that can be passed back, among these items.
#[tactic(auto, using(crate::proofs::Walking::is_some_mapped))]
fn passes_under(
    alloc: Global,
    tables: &Tables,
    origin: Origin,
    arrival: u64,
    apdu: &Apdu<'_>,
    items: &[Item],
) -> Result<bool, Memory>
    ensures { IfOk result (λ b. b
        ≡ is_some (passed_under items.now origin arrival tables.now (apdu_value apdu.now))) }
{
    match apdu {
        Apdu::Report(report) => {
            let name = passed_to(alloc, tables, origin, report, items)?;
            Ok(is_somebody(name))
        }
        Apdu::Message(_) | Apdu::Probe(_) => Ok(false),
    }
}

/// Whether a report that comes to a list can be passed back, among these items.
pub fn passes_back(
    alloc: Global,
    tables: &Tables,
    items: &[Item],
    item: &Item,
    reading: &Reading<'_>,
) -> Result<bool, Memory>
    requires { IsReadingOf item.now.octets reading.now }
    ensures { IfOk result (λ b. b ≡ is_some (rules.passed_back tables.now.text items.now item.now)) }
{
    text_reads(tables);
    let Some(apdu) = &reading.apdu else {
        return Ok(false);
    };
    passes_under(alloc, tables, item.origin(), item.arrival(), apdu, items)
}

/// The report with another destination, and an own element more in its trace.
fn redirected(
    alloc: Global,
    tables: &Tables,
    arrival: u64,
    report: &Report,
    name: OrName,
) -> Result<Report, Memory>
    requires arrived { arrival ≤ last_moment }
    requires room { length report.now.trace < longest_trace }
    ensures { IfOk result (λ r. r ≡ walks.passed_back (situation tables.now arrival 0) report.now name) }
{
    let fields = report.fields();
    let trace = expanded_trace(alloc, tables, arrival, fields.trace.as_slice())?;
    let mut parts = report_with(alloc, fields, trace)?;
    parts.destination = name;
    Ok(Report::from_fields(parts))
}

fn report_passed(
    alloc: Global,
    tables: &Tables,
    origin: Origin,
    arrival: u64,
    report: &Report,
    items: &[Item],
) -> Result<Option<Report>, Memory>
    requires arrived { arrival ≤ last_moment }
    requires room { length report.now.trace < longest_trace }
    ensures { IfOk result (λ r. option_map apdus.report r
        ≡ passed_under items.now origin arrival tables.now (apdus.report report.now)) }
{
    match passed_to(alloc, tables, origin, report, items)? {
        Some(name) => Ok(Some(redirected(alloc, tables, arrival, report, name)?)),
        None => Ok(None),
    }
}

fn passed_under(
    alloc: Global,
    tables: &Tables,
    origin: Origin,
    arrival: u64,
    apdu: &Apdu<'_>,
    items: &[Item],
) -> Result<Option<Report>, Memory>
    requires arrived { arrival ≤ last_moment }
    requires room { length (trace_in (apdu_value apdu.now)) < longest_trace }
    ensures { IfOk result (λ r. option_map apdus.report r
        ≡ passed_under items.now origin arrival tables.now (apdu_value apdu.now)) }
{
    match apdu {
        Apdu::Report(report) => report_passed(alloc, tables, origin, arrival, report, items),
        Apdu::Message(_) | Apdu::Probe(_) => Ok(None),
    }
}

/// The item that is a report which is passed back at a moment from a recipient who is a list, among these items; none
/// where it cannot be.
pub fn passed_item(
    alloc: Global,
    tables: &Tables,
    items: &[Item],
    item: &Item,
    reading: &Reading<'_>,
    recipient: u32,
    moment: u64,
) -> Result<Option<Item>, Memory>
    requires arrived { item.now.arrival ≤ last_moment }
    requires reading { IsReadingOf item.now.octets reading.now }
    requires passed { (format : ℕ)
        × Passes (verdict_of format tables.now.text item.now.octets item.now.arrival recipient moment) }
    ensures { IfOk result (λ made. made
        ≡ option_map (own_item moment) (rules.passed_back tables.now.text items.now item.now)) }
{
    text_reads(tables);
    let Some(apdu) = &reading.apdu else {
        return Ok(None);
    };
    let made = passed_under(alloc, tables, item.origin(), item.arrival(), apdu, items)?;
    report_item(alloc, made, moment)
}

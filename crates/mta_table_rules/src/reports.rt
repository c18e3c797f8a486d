//! Reports on recipients of messages and probes.

ghost use Rattle.std.specs.Prelude.{◌≡◌, ◌≤◌, IfOk, IfSome};
ghost use Rattle.std.specs.Option.{option_copied, option_map};
ghost use Rattle.mta_ber.specs.Times.{last_moment};
ghost use Rattle.mta_names.specs.Bounded.{IsCode};
ghost use Rattle.mta_envelope_recipient.specs.Recipients.{IsRecipient};
ghost use Rattle.mta_apdu.specs.Apdus.{apdu_value, report};
ghost use Rattle.mta_procedures.specs.Bits.{asks_report};
ghost use Rattle.mta_procedures.specs.Reports.{delivery_report, non_delivery_report, user_of};
ghost use Rattle.mta_machine.specs.Machine.{own_item};
ghost use Rattle.mta_machine.specs.Rules.{envelope_in, report_on};
ghost use Rattle.mta_machine.specs.Rules as rules;
ghost use Rattle.mta_state.specs.Readings.{IsReadingOf};

use crate::reading::{own_item, recipient_of, text_reads};
use mta_apdu::Apdu;
use mta_ber::Memory;
use mta_envelope::Envelope;
use mta_envelope_recipient::RecipientFields;
use mta_machine::Item;
use mta_names::Code;
use mta_procedures::{DL, PUBLIC};
use mta_report::Report;
use mta_report_recipient::{Moment, Outcome};
use mta_rules::report_on;
use mta_state::Reading;
use mta_tables::{Hop, Tables};
use std::alloc::Global;

/// The envelope of a message or a probe.
fn envelope_in<'a>(apdu: &'a Apdu<'_>) -> Option<&'a Envelope>
    ensures { option_copied result ≡ envelope_in (apdu_value apdu.now) }
{
    match apdu {
        Apdu::Message(message) => Some(&message.envelope),
        Apdu::Probe(probe) => Some(&probe.envelope),
        Apdu::Report(_) => None,
    }
}

/// Whether a delivery is to be reported.
pub fn asks_report(recipient: &RecipientFields) -> bool
    ensures { result ≡ asks_report recipient.now }
{
    recipient.indicators.is_set(1) || recipient.indicators.is_set(3)
}

fn user_of(hop: Hop) -> Code
    ensures { result ≡ user_of hop }
{
    match hop {
        Hop::List(_) => Code::new(DL),
        Hop::Local(_) | Hop::Peer(_) | Hop::None => Code::new(PUBLIC),
    }
}

/// The delivery report on a recipient; none where none is asked for, or where the walk ends.
fn delivery_report(
    alloc: Global,
    tables: &Tables,
    number: u64,
    arrival: u64,
    envelope: &Envelope,
    recipient: &RecipientFields,
    moment: u64,
) -> Result<Option<Report>, Memory>
    requires recipient { IsRecipient recipient.now }
    requires arrived { arrival ≤ last_moment }
    requires fits { moment ≤ last_moment }
    ensures { IfOk result (λ r. r
        ≡ delivery_report tables.now number arrival envelope.now recipient.now moment) }
{
    if !asks_report(recipient) {
        return Ok(None);
    }
    let outcome = Outcome::Delivery {
        moment: Moment::new(moment),
        user: user_of(tables.route(&recipient.name)),
    };
    report_on(alloc, tables, number, arrival, envelope, recipient, outcome)
}

fn code_if(number: Option<u32>) -> Option<Code>
    requires { IfSome number IsCode }
    ensures { result ≡ number }
{
    match number {
        Some(number) => Some(Code::new(number)),
        None => None,
    }
}

/// The non-delivery report on a recipient; none where the walk ends.
fn non_delivery_report(
    alloc: Global,
    tables: &Tables,
    number: u64,
    arrival: u64,
    envelope: &Envelope,
    recipient: &RecipientFields,
    reason: u32,
    diagnostic: Option<u32>,
) -> Result<Option<Report>, Memory>
    requires recipient { IsRecipient recipient.now }
    requires arrived { arrival ≤ last_moment }
    requires reason { IsCode reason }
    requires diagnostic { IfSome diagnostic IsCode }
    ensures { IfOk result (λ r. r
        ≡ non_delivery_report tables.now number arrival envelope.now recipient.now reason diagnostic) }
{
    let outcome = Outcome::NonDelivery {
        reason: Code::new(reason),
        diagnostic: code_if(diagnostic),
    };
    report_on(alloc, tables, number, arrival, envelope, recipient, outcome)
}

/// The delivery report on a recipient of an APDU that was read; none where none is asked for, or where the walk ends.
pub fn delivery_report_in(
    alloc: Global,
    tables: &Tables,
    number: u64,
    arrival: u64,
    apdu: &Apdu<'_>,
    recipient: u32,
    moment: u64,
) -> Result<Option<Report>, Memory>
    requires arrived { arrival ≤ last_moment }
    requires fits { moment ≤ last_moment }
    ensures { IfOk result (λ r. option_map report r
        ≡ report_on (λ e x. delivery_report tables.now number arrival e x moment) recipient (apdu_value apdu.now)) }
{
    let Some(envelope) = envelope_in(apdu) else {
        return Ok(None);
    };
    let Some(found) = recipient_of(envelope.fields().recipients.as_slice(), recipient) else {
        return Ok(None);
    };
    let who = found.fields();
    delivery_report(alloc, tables, number, arrival, envelope, who, moment)
}

fn non_delivery_report_in(
    alloc: Global,
    tables: &Tables,
    number: u64,
    arrival: u64,
    apdu: &Apdu<'_>,
    recipient: u32,
    reason: u32,
    diagnostic: Option<u32>,
) -> Result<Option<Report>, Memory>
    requires arrived { arrival ≤ last_moment }
    requires reason { IsCode reason }
    requires diagnostic { IfSome diagnostic IsCode }
    ensures { IfOk result (λ r. option_map report r
        ≡ report_on (λ e x. non_delivery_report tables.now number arrival e x reason diagnostic) recipient
        (apdu_value apdu.now)) }
{
    let Some(envelope) = envelope_in(apdu) else {
        return Ok(None);
    };
    let Some(found) = recipient_of(envelope.fields().recipients.as_slice(), recipient) else {
        return Ok(None);
    };
    let who = found.fields();
    non_delivery_report(
        alloc, tables, number, arrival, envelope, who, reason, diagnostic,
    )
}

/// The item that is a report, where there is one.
pub fn report_item(alloc: Global, made: Option<Report>, moment: u64) -> Result<Option<Item>, Memory>
    ensures { IfOk result (λ i. i ≡ option_map (own_item moment) (option_map report made)) }
{
    let Some(report) = made else {
        return Ok(None);
    };
    let apdu = Apdu::Report(report);
    let item = own_item(alloc, &apdu, moment);
    apdu.discard();
    Ok(Some(item?))
}

/// The item that is the delivery report on a recipient of an item, made at a moment as the item of a number; none
/// where no report is asked for, or where the walk ends.
pub fn delivery_item(
    alloc: Global,
    tables: &Tables,
    number: u64,
    item: &Item,
    reading: &Reading<'_>,
    recipient: u32,
    moment: u64,
) -> Result<Option<Item>, Memory>
    requires arrived { item.now.arrival ≤ last_moment }
    requires reading { IsReadingOf item.now.octets reading.now }
    requires fits { moment ≤ last_moment }
    ensures { IfOk result (λ made. made
        ≡ option_map (own_item moment) (rules.delivery_report tables.now.text number item.now recipient moment)) }
{
    text_reads(tables);
    let arrival = item.arrival();
    let Some(apdu) = &reading.apdu else {
        return Ok(None);
    };
    let made = delivery_report_in(alloc, tables, number, arrival, apdu, recipient, moment)?;
    report_item(alloc, made, moment)
}

/// The item that is the non-delivery report on a recipient of an item, made at a moment as the item of a number; none
/// where the walk ends.
pub fn non_delivery_item(
    alloc: Global,
    tables: &Tables,
    number: u64,
    item: &Item,
    reading: &Reading<'_>,
    recipient: u32,
    reason: u32,
    diagnostic: Option<u32>,
    moment: u64,
) -> Result<Option<Item>, Memory>
    requires arrived { item.now.arrival ≤ last_moment }
    requires reading { IsReadingOf item.now.octets reading.now }
    requires reason { IsCode reason }
    requires diagnostic { IfSome diagnostic IsCode }
    ensures { let about = rules.non_delivery_report tables.now.text number item.now recipient reason diagnostic in
        IfOk result (λ made. made ≡ option_map (own_item moment) about) }
{
    text_reads(tables);
    let arrival = item.arrival();
    let Some(apdu) = &reading.apdu else {
        return Ok(None);
    };
    let made = non_delivery_report_in(
        alloc, tables, number, arrival, apdu, recipient, reason, diagnostic,
    )?;
    report_item(alloc, made, moment)
}

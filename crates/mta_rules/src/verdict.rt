//! Verdicts.

ghost use Rattle.std.specs.Prelude.{◌≡◌, ◌-◌, ◌≤◌, [], length, slice_get, is_some, unwrap_or};
ghost use Rattle.mta_ber.specs.Times.{last_moment};
ghost use Rattle.mta_envelope.specs.Messages.{message_value};
ghost use Rattle.mta_envelope_recipient.specs.declared.recipient.RecipientFields.{RecipientFields};
ghost use Rattle.mta_procedures.specs.Copies.{outgoing_message, outgoing_probe, outgoing_report};
ghost use Rattle.mta_procedures.specs.Situations.{situation};
ghost use Rattle.mta_procedures.specs.Verdicts.{place_of, message_column, probe_column, report_column};
ghost use Rattle.mta_procedures.specs.Verdicts.{verdict_of_message, verdict_of_probe, verdict_of_report};
ghost use Rattle.mta_rules.specs.Cases.{IsBackOf, IsCopyLength};

use crate::case::{case_of, case_of_report};
use crate::length::{back_length, message_copy_length, probe_copy_length, report_copy_length};
use mta_envelope::{Message, Probe};
use mta_envelope_recipient::RecipientFields;
use mta_names::OrName;
use mta_procedures::{
    CONTENT_TOO_LONG, Case, EXPANSION_PROHIBITED, LOOP_DETECTED, MAXIMUM_TIME_EXPIRED,
    NO_SUBMIT_PERMISSION, TRANSFER_FAILURE, UNABLE_TO_TRANSFER, UNRECOGNISED_NAME,
    UNSUPPORTED_CRITICAL_FUNCTION, Verdict,
};
use mta_report::Report;
use mta_tables::{Hop, Tables};

fn place_of(hop: Hop) -> u32
    ensures { result ≡ place_of hop }
{
    match hop {
        Hop::Local(place) | Hop::List(place) | Hop::Peer(place) => place,
        Hop::None => 0,
    }
}

fn failed(diagnostic: u32) -> Verdict
    ensures { result ≡ Verdict.NonDeliver TRANSFER_FAILURE diagnostic }
{
    Verdict::NonDeliver {
        reason: TRANSFER_FAILURE,
        diagnostic,
    }
}

fn unable(diagnostic: u32) -> Verdict
    ensures { result ≡ Verdict.NonDeliver UNABLE_TO_TRANSFER diagnostic }
{
    Verdict::NonDeliver {
        reason: UNABLE_TO_TRANSFER,
        diagnostic,
    }
}

fn for_message(hop: Hop, deferral: u64, case: Case) -> Verdict
    ensures { result ≡ message_column hop deferral case }
{
    match case {
        Case::Looped | Case::FullHistory => failed(LOOP_DETECTED),
        Case::CriticalExtension => unable(UNSUPPORTED_CRITICAL_FUNCTION),
        Case::NoRoute => unable(UNRECOGNISED_NAME),
        Case::Expired => failed(MAXIMUM_TIME_EXPIRED),
        Case::Deferred => Verdict::Hold(deferral),
        Case::ListProhibited => unable(EXPANSION_PROHIBITED),
        Case::PosterNotPermitted => unable(NO_SUBMIT_PERMISSION),
        Case::LongMembersCopy | Case::LongCopy => unable(CONTENT_TOO_LONG),
        Case::ListInHistory | Case::ToList => Verdict::Expand(place_of(hop)),
        Case::ToMailbox => Verdict::Deliver(place_of(hop)),
        Case::ToPeer => Verdict::Relay(place_of(hop)),
    }
}

fn for_probe(hop: Hop, case: Case) -> Verdict
    ensures { result ≡ probe_column hop case }
{
    match case {
        Case::Looped => failed(LOOP_DETECTED),
        Case::CriticalExtension => unable(UNSUPPORTED_CRITICAL_FUNCTION),
        Case::NoRoute => unable(UNRECOGNISED_NAME),
        Case::Expired => failed(MAXIMUM_TIME_EXPIRED),
        Case::ListProhibited => unable(EXPANSION_PROHIBITED),
        Case::PosterNotPermitted => unable(NO_SUBMIT_PERMISSION),
        Case::LongCopy => unable(CONTENT_TOO_LONG),
        Case::Deferred
        | Case::ListInHistory
        | Case::FullHistory
        | Case::LongMembersCopy
        | Case::ToList
        | Case::ToMailbox => Verdict::Affirm,
        Case::ToPeer => Verdict::Relay(place_of(hop)),
    }
}

fn for_report(hop: Hop, back: bool, case: Case) -> Verdict
    ensures { result ≡ report_column hop back case }
{
    match case {
        Case::ToList => {
            if back {
                Verdict::Back
            } else {
                Verdict::Discard
            }
        }
        Case::ToMailbox => Verdict::Deliver(place_of(hop)),
        Case::ToPeer => Verdict::Relay(place_of(hop)),
        _ => Verdict::Discard,
    }
}

fn deferral_or_zero(deferral: Option<u64>) -> u64
    ensures { result ≡ unwrap_or deferral 0 }
{
    match deferral {
        Some(deferral) => deferral,
        None => 0,
    }
}

/// The length of the copy, where the name leads to a peer; 0 elsewhere, where it is not asked for.
fn message_length(
    tables: &Tables,
    arrival: u64,
    moment: u64,
    message: &Message,
    back: u64,
    hop: Hop,
) -> u64
    requires { IsBackOf message.now.envelope back }
    ensures { let s = situation tables.now arrival moment in
        IsCopyLength hop (outgoing_message s (message_value message.now) []) result }
{
    match hop {
        Hop::Peer(_) => message_copy_length(tables, arrival, moment, message, back),
        Hop::Local(_) | Hop::List(_) | Hop::None => 0,
    }
}

fn probe_length(
    tables: &Tables,
    arrival: u64,
    moment: u64,
    probe: &Probe,
    back: u64,
    hop: Hop,
) -> u64
    requires { IsBackOf probe.now.envelope back }
    ensures { IsCopyLength hop (outgoing_probe (situation tables.now arrival moment) probe.now.envelope []) result }
{
    match hop {
        Hop::Peer(_) => probe_copy_length(tables, arrival, moment, probe, back),
        Hop::Local(_) | Hop::List(_) | Hop::None => 0,
    }
}

fn report_length(tables: &Tables, arrival: u64, moment: u64, report: &Report, hop: Hop) -> u64
    ensures { IsCopyLength hop (outgoing_report (situation tables.now arrival moment) report.now) result }
{
    match hop {
        Hop::Peer(_) => report_copy_length(tables, arrival, moment, report),
        Hop::Local(_) | Hop::List(_) | Hop::None => 0,
    }
}

/// What is done in a format with a recipient of a message that is lent, where the members' copy would have so many
/// octets, and `back` is what `back_length` counted. It takes no memory.
#[tactic(auto, unfolding(mta_procedures::specs::Verdicts::verdict_of_message), using(crate::proofs::Copies::steps))]
pub fn verdict_on_message(
    format: u32,
    tables: &Tables,
    arrival: u64,
    message: &Message,
    back: u64,
    recipient: &RecipientFields,
    members_length: u64,
    moment: u64,
) -> Verdict
    requires arrival { arrival ≤ last_moment }
    requires back { IsBackOf message.now.envelope back }
    ensures { let s = situation tables.now arrival moment in
        result ≡ verdict_of_message format s (message_value message.now) recipient.now members_length }
{
    let envelope = message.envelope.fields();
    let hop = tables.route(&recipient.name);
    let copy = message_length(tables, arrival, moment, message, back, hop);
    let case = case_of(
        format,
        tables,
        arrival,
        moment,
        envelope,
        recipient,
        hop,
        members_length,
        copy,
    );
    for_message(hop, deferral_or_zero(envelope.deferral), case)
}

/// What is done in a format with a recipient of a probe that is lent, where `back` is what `back_length` counted. It
/// takes no memory.
#[tactic(auto, unfolding(mta_procedures::specs::Verdicts::verdict_of_probe), using(crate::proofs::Copies::steps))]
pub fn verdict_on_probe(
    format: u32,
    tables: &Tables,
    arrival: u64,
    probe: &Probe,
    back: u64,
    recipient: &RecipientFields,
    moment: u64,
) -> Verdict
    requires arrival { arrival ≤ last_moment }
    requires back { IsBackOf probe.now.envelope back }
    ensures { let s = situation tables.now arrival moment in
        result ≡ verdict_of_probe format s probe.now.envelope recipient.now }
{
    let hop = tables.route(&recipient.name);
    let copy = probe_length(tables, arrival, moment, probe, back, hop);
    let envelope = probe.envelope.fields();
    let case = case_of(
        format, tables, arrival, moment, envelope, recipient, hop, 0, copy,
    );
    for_probe(hop, case)
}

/// What is done in a format, 1 or 2, with the recipient at a position, from 1, of a message that arrived at a moment,
/// as it is looked at at another. In format 2 the latest delivery time counts. Both moments are seconds from 1950-01-01
/// 00:00:00 UTC, at most the last second of 2049. The members' copy would have `members_length` octets, which counts
/// where the recipient is a list. It takes no memory.
pub fn verdict_message(
    format: u32,
    tables: &Tables,
    arrival: u64,
    message: &Message,
    recipient: u32,
    members_length: u64,
    moment: u64,
) -> Verdict
    requires some { 1 ≤ recipient }
    requires few { recipient ≤ length message.now.envelope.recipients }
    requires arrival { arrival ≤ last_moment }
    ensures { (r : RecipientFields) → slice_get message.now.envelope.recipients (recipient - 1) ≡ Some r
        → result
        ≡ verdict_of_message format (situation tables.now arrival moment) (message_value message.now) r members_length }
{
    let recipients = message.envelope.fields().recipients.as_slice();
    let chosen = recipients[recipient as usize - 1].fields();
    let back = back_length(message.envelope.fields());
    verdict_on_message(
        format,
        tables,
        arrival,
        message,
        back,
        chosen,
        members_length,
        moment,
    )
}

/// What is done in a format with the recipient at a position, from 1, of a probe that arrived at a moment, as it is
/// looked at at another. It takes no memory.
pub fn verdict_probe(
    format: u32,
    tables: &Tables,
    arrival: u64,
    probe: &Probe,
    recipient: u32,
    moment: u64,
) -> Verdict
    requires some { 1 ≤ recipient }
    requires few { recipient ≤ length probe.now.envelope.recipients }
    requires arrival { arrival ≤ last_moment }
    ensures { (r : RecipientFields) → slice_get probe.now.envelope.recipients (recipient - 1) ≡ Some r
        → result ≡ verdict_of_probe format (situation tables.now arrival moment) probe.now.envelope r }
{
    let recipients = probe.envelope.fields().recipients.as_slice();
    let chosen = recipients[recipient as usize - 1].fields();
    let back = back_length(probe.envelope.fields());
    verdict_on_probe(format, tables, arrival, probe, back, chosen, moment)
}

/// What is done with a report that arrived at a moment, as it is looked at at another; in each format it is the same.
/// Where the report comes to a list, `back` is to whom it can go back. It takes no memory.
#[tactic(auto, unfolding(mta_procedures::specs::Verdicts::verdict_of_report), using(crate::proofs::Copies::told))]
pub fn verdict_report(
    _format: u32,
    tables: &Tables,
    arrival: u64,
    report: &Report,
    back: Option<&OrName>,
    moment: u64,
) -> Verdict
    requires { arrival ≤ last_moment }
    ensures { result ≡ verdict_of_report (situation tables.now arrival moment) report.now (is_some back.entry) }
{
    let fields = report.fields();
    let hop = tables.route(&fields.destination);
    let copy = report_length(tables, arrival, moment, report, hop);
    let case = case_of_report(tables, arrival, moment, fields, hop, copy);
    for_report(hop, back.is_some(), case)
}

//! What the expansion of a list makes.

ghost use Rattle.std.specs.Prelude.{◌≡◌, ◌≤◌, ◌+◌, ◌^◌, ℕ, IfOk, Some, None, length, map, slice_get, option_to_list};
ghost use Rattle.std.specs.Option.{option_copied, option_map};
ghost use Rattle.mta_ber.specs.Times.{last_moment};
ghost use Rattle.mta_envelope_recipient.specs.Recipients.{IsRecipient};
ghost use Rattle.mta_envelope.specs.Messages.{message_value};
ghost use Rattle.mta_apdu.specs.Apdus.{apdu_value};
ghost use Rattle.mta_apdu.specs.Apdus as apdus;
ghost use Rattle.mta_tables.specs.Hops.{best_hop};
ghost use Rattle.mta_procedures.specs.Facts.{list_at};
ghost use Rattle.mta_procedures.specs.Members.{members_copy};
ghost use Rattle.mta_procedures.specs.Reports.{expansion_report};
ghost use Rattle.mta_procedures.specs.Situations.{situation};
ghost use Rattle.mta_machine.specs.Items.{numbered};
ghost use Rattle.mta_machine.specs.Machine.{own_item};
ghost use Rattle.mta_machine.specs.Rules.{expanded_for, expanded_to, expansion, expansion_under, verdict_of};
ghost use Rattle.mta_machine.specs.Rules.{verdict_under, with_list_report};
ghost use Rattle.mta_state.specs.Parts.{made_items};
ghost use Rattle.mta_state.specs.Asked.{Expands};
ghost use Rattle.mta_state.specs.Readings.{IsReadingOf};
ghost use Rattle.mta_table_rules.specs.Counts.{HasRoom};

use crate::reading::{own_item, recipient_of, text_reads};
use crate::reports::{asks_report, report_item};
use mta_apdu::Apdu;
use mta_ber::Memory;
use mta_envelope::{Envelope, Message};
use mta_envelope_recipient::RecipientFields;
use mta_lists::expand;
use mta_machine::Item;
use mta_names::Code;
use mta_procedures::DL;
use mta_report::Report;
use mta_report_recipient::{Moment, Outcome};
use mta_rules::{is_in_history, report_on};
use mta_state::{Made, Reading};
use mta_tables::{Hop, MailList, Tables};
use std::alloc::Global;

/// The copy of a message for the members of the list at a place of the tables, from 0; none where the list has no
/// members, or was expanded before.
fn members_copy<'a>(
    alloc: Global,
    tables: &Tables,
    place: u32,
    list: &MailList,
    arrival: u64,
    message: &'a Message<'a>,
    recipient: u32,
    who: &RecipientFields,
    moment: u64,
) -> Result<Option<Message<'a>>, Memory>
    requires list { slice_get tables.now.lists place ≡ Some list.now }
    requires who { numbered message.now.envelope.recipients recipient ≡ Some who.now }
    requires room { HasRoom list.now message.now.envelope }
    requires arrived { arrival ≤ last_moment }
    requires fits { moment ≤ last_moment }
    ensures { let s = situation tables.now arrival moment in IfOk result (λ made. option_map message_value made
        ≡ members_copy s list.now (message_value message.now) who.now) }
{
    if is_in_history(list, message.envelope.fields()) {
        return Ok(None);
    }
    expand(alloc, tables, place, arrival, message, recipient, moment)
}

/// The item that is a message, where there is one.
fn message_item(
    alloc: Global,
    made: Option<Message<'_>>,
    moment: u64,
) -> Result<Option<Item>, Memory>
    ensures { IfOk result (λ i. i
        ≡ option_map (own_item moment) (option_map apdus.message (option_map message_value made.entry))) }
{
    let Some(message) = made else {
        return Ok(None);
    };
    let apdu = Apdu::Message(message);
    let item = own_item(alloc, &apdu, moment);
    apdu.discard();
    Ok(Some(item?))
}

/// The report on a list that keeps reports, where a report is asked for; none where the list was expanded before, or
/// where the walk ends.
fn expansion_report(
    alloc: Global,
    tables: &Tables,
    number: u64,
    arrival: u64,
    envelope: &Envelope,
    who: &RecipientFields,
    list: &MailList,
    moment: u64,
) -> Result<Option<Report>, Memory>
    requires who { IsRecipient who.now }
    requires arrived { arrival ≤ last_moment }
    requires fits { moment ≤ last_moment }
    ensures { IfOk result (λ r. r
        ≡ expansion_report tables.now number arrival envelope.now who.now list.now moment) }
{
    if list.back || !asks_report(who) || is_in_history(list, envelope.fields()) {
        return Ok(None);
    }
    let outcome = Outcome::Delivery {
        moment: Moment::new(moment),
        user: Code::new(DL),
    };
    report_on(alloc, tables, number, arrival, envelope, who, outcome)
}

/// The number of the item behind one that was made, where one was made.
fn number_behind(number: u64, made: &Option<Item>) -> u64
    requires { number ≤ 2 ^ 32 }
    ensures { result ≡ number + length (option_to_list made.now) }
{
    match made {
        None => number,
        Some(_) => number + 1,
    }
}

/// The item that is the members' copy, where there is one.
fn copy_item(
    alloc: Global,
    tables: &Tables,
    place: u32,
    list: &MailList,
    arrival: u64,
    message: &Message<'_>,
    recipient: u32,
    who: &RecipientFields,
    moment: u64,
) -> Result<Option<Item>, Memory>
    requires list { slice_get tables.now.lists place ≡ Some list.now }
    requires who { numbered message.now.envelope.recipients recipient ≡ Some who.now }
    requires room { HasRoom list.now message.now.envelope }
    requires arrived { arrival ≤ last_moment }
    requires fits { moment ≤ last_moment }
    ensures { let s = situation tables.now arrival moment in
        let copy = members_copy s list.now (message_value message.now) who.now in
        IfOk result (λ made. made ≡ option_map (own_item moment) (option_map apdus.message copy)) }
{
    let made = members_copy(
        alloc, tables, place, list, arrival, message, recipient, who, moment,
    )?;
    message_item(alloc, made, moment)
}

/// What the expansion of this list makes.
fn expanded_to(
    alloc: Global,
    tables: &Tables,
    number: u64,
    place: u32,
    list: &MailList,
    arrival: u64,
    message: &Message<'_>,
    recipient: u32,
    who: &RecipientFields,
    moment: u64,
) -> Result<Made, Memory>
    requires number { number ≤ 2 ^ 32 }
    requires list { slice_get tables.now.lists place ≡ Some list.now }
    requires who { numbered message.now.envelope.recipients recipient ≡ Some who.now }
    requires recipient { IsRecipient who.now }
    requires room { HasRoom list.now message.now.envelope }
    requires arrived { arrival ≤ last_moment }
    requires fits { moment ≤ last_moment }
    ensures { let m = message_value message.now in IfOk result (λ made. made_items made
        ≡ map (own_item moment) (expanded_to tables.now number arrival m who.now (Some list.now) moment)) }
{
    let first = copy_item(
        alloc, tables, place, list, arrival, message, recipient, who, moment,
    )?;
    let behind = number_behind(number, &first);
    let envelope = &message.envelope;
    let report = expansion_report(alloc, tables, behind, arrival, envelope, who, list, moment)?;
    let second = report_item(alloc, report, moment)?;
    Ok(Made { first, second })
}

fn nothing() -> Made
    ensures { result ≡ record { first = None; second = None } }
{
    Made {
        first: None,
        second: None,
    }
}

/// The list at a place of the tables, from 0.
fn list_of(tables: &Tables, place: u32) -> Option<&MailList>
    ensures { option_copied result ≡ slice_get tables.now.lists place }
{
    tables.lists().get(place as usize)
}

/// What the expansion of a recipient of a message makes.
fn expanded_for(
    alloc: Global,
    tables: &Tables,
    number: u64,
    arrival: u64,
    message: &Message<'_>,
    recipient: u32,
    moment: u64,
) -> Result<Made, Memory>
    requires number { number ≤ 2 ^ 32 }
    requires arrived { arrival ≤ last_moment }
    requires fits { moment ≤ last_moment }
    requires list { let about = apdus.message (message_value message.now) in
        (format : ℕ) × Expands (verdict_under format tables.now about arrival recipient moment) }
    ensures { let m = message_value message.now in
        let who = numbered message.now.envelope.recipients recipient in IfOk result (λ made. made_items made
        ≡ map (own_item moment) (expanded_for tables.now number arrival m who moment)) }
{
    let recipients = message.envelope.fields().recipients.as_slice();
    let Some(found) = recipient_of(recipients, recipient) else {
        return Ok(nothing());
    };
    let who = found.fields();
    let Hop::List(place) = tables.route(&who.name) else {
        return Ok(nothing());
    };
    let Some(list) = list_of(tables, place) else {
        return Ok(nothing());
    };
    expanded_to(
        alloc, tables, number, place, list, arrival, message, recipient, who, moment,
    )
}

fn expanded_in(
    alloc: Global,
    tables: &Tables,
    number: u64,
    arrival: u64,
    apdu: &Apdu<'_>,
    recipient: u32,
    moment: u64,
) -> Result<Made, Memory>
    requires number { number ≤ 2 ^ 32 }
    requires arrived { arrival ≤ last_moment }
    requires fits { moment ≤ last_moment }
    requires list { (format : ℕ)
        × Expands (verdict_under format tables.now (apdu_value apdu.now) arrival recipient moment) }
    ensures { let about = Some (apdu_value apdu.now) in IfOk result (λ made. made_items made
        ≡ map (own_item moment) (expansion_under (Some tables.now) number arrival about recipient moment)) }
{
    match apdu {
        Apdu::Message(message) => {
            expanded_for(alloc, tables, number, arrival, message, recipient, moment)
        }
        Apdu::Probe(_) | Apdu::Report(_) => Ok(nothing()),
    }
}

/// The items that the expansion of a recipient makes, of which the first has this number: the members' copy, and then
/// the report of the list, where there is one.
pub fn expansion_items(
    alloc: Global,
    tables: &Tables,
    number: u64,
    item: &Item,
    reading: &Reading<'_>,
    recipient: u32,
    moment: u64,
) -> Result<Made, Memory>
    requires number { number ≤ 2 ^ 32 }
    requires arrived { item.now.arrival ≤ last_moment }
    requires reading { IsReadingOf item.now.octets reading.now }
    requires fits { moment ≤ last_moment }
    requires list { (format : ℕ)
        × Expands (verdict_of format tables.now.text item.now.octets item.now.arrival recipient moment) }
    ensures { IfOk result (λ made. made_items made
        ≡ map (own_item moment) (expansion tables.now.text number item.now recipient moment)) }
{
    text_reads(tables);
    let arrival = item.arrival();
    let Some(apdu) = &reading.apdu else {
        return Ok(nothing());
    };
    expanded_in(alloc, tables, number, arrival, apdu, recipient, moment)
}

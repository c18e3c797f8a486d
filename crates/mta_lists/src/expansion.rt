//! Expansion of a list.

ghost use Rattle.std.specs.Prelude.{◌≡◌, ◌-◌, ◌∷◌, [], ◌++◌, ◌<◌, ◌≤◌, length, slice_get};
ghost use Rattle.std.specs.Prelude.{Some, None, true, IfOk};
ghost use Rattle.std.specs.Option.{option_map};
ghost use Rattle.mta_ber.specs.Times.{last_moment};
ghost use Rattle.mta_envelope_recipient.specs.declared.recipient.RecipientFields.{RecipientFields};
ghost use Rattle.mta_envelope_recipient.specs.Recipients.{IsRecipient};
ghost use Rattle.mta_envelope.specs.Contents.{content_value};
ghost use Rattle.mta_envelope.specs.Messages.{message_value};
ghost use Rattle.mta_tables.specs.declared.entry.MailList.{MailList};
ghost use Rattle.mta_procedures.specs.Histories.{longest_history};
ghost use Rattle.mta_procedures.specs.Members.{has_no_copy, members_copy, members_envelope};
ghost use Rattle.mta_procedures.specs.Readings.{IsWritableList};
ghost use Rattle.mta_procedures.specs.Situations.{situation};
ghost use Rattle.mta_procedures.specs.Traces.{longest_trace, own_trace};

use crate::history::{expanded_history, history_octets, with_history};
use crate::members::members_of;
use mta_ber::Memory;
use mta_copies::{copied_trace, envelope_with, relayed_element};
use mta_envelope::{Content, Envelope, Message};
use mta_envelope_recipient::RecipientFields;
use mta_fields::TraceElement;
use mta_names::Row;
use mta_rules::is_in_history;
use mta_tables::{MailList, Tables};
use std::alloc::Global;

/// A trace with an own element behind it that has dl-operation, as where a list is expanded (X.411, clause 12: other
/// actions): the item arrived at this moment, in seconds since 1950-01-01 00:00:00 UTC.
pub fn expanded_trace(
    alloc: Global,
    tables: &Tables,
    arrival: u64,
    trace: &[TraceElement],
) -> Result<Row<TraceElement>, Memory>
    requires { arrival ≤ last_moment }
    ensures { IfOk result (λ r. r ≡ trace.now ++ own_trace (situation tables.now arrival 0) None true ∷ []) }
{
    let own = relayed_element(alloc, tables.domain(), arrival, None, true)?;
    let mut row = copied_trace(alloc, trace)?;
    row.push(own)?;
    Ok(row)
}

/// The envelope of the members' copy.
fn members_envelope(
    alloc: Global,
    tables: &Tables,
    list: &MailList,
    arrival: u64,
    envelope: &Envelope,
    recipient: &RecipientFields,
    moment: u64,
) -> Result<Envelope, Memory>
    requires list { IsWritableList list.now }
    requires some { 1 ≤ length list.now.members }
    requires few { length list.now.members ≤ 1000 }
    requires recipient { IsRecipient recipient.now }
    requires trace { length envelope.now.trace < longest_trace }
    requires history { length envelope.now.history < longest_history }
    requires arrival { arrival ≤ last_moment }
    requires moment { moment ≤ last_moment }
    ensures { let s = situation tables.now arrival moment in
        IfOk result (λ e. e ≡ members_envelope s list.now envelope.now recipient.now) }
{
    let fields = envelope.fields();
    let recipients = members_of(alloc, list.members.as_slice(), recipient)?;
    let trace = expanded_trace(alloc, tables, arrival, fields.trace.as_slice())?;
    let history = expanded_history(alloc, list, fields, moment)?;
    let value = history_octets(alloc, history.as_slice())?;
    let extensions = with_history(alloc, value, fields.extensions.as_slice())?;
    let parts = envelope_with(alloc, fields, recipients, trace, extensions, history)?;
    Ok(Envelope::from_fields(parts))
}

/// The content again: lent where it is lent, else copied.
fn content_of<'a>(alloc: Global, content: &'a Content<'a>) -> Result<Content<'a>, Memory>
    ensures { IfOk result (λ c. content_value c ≡ content_value content.now) }
{
    match content {
        Content::Lent(octets) => Ok(Content::Lent(octets)),
        Content::Joined(octets) => Ok(Content::Joined(octets.copy(alloc)?)),
    }
}

/// The copy for the members of a list that is lent.
#[tactic(auto, unfolding(mta_procedures::specs::Members::members_copy))]
fn copy_for<'a>(
    alloc: Global,
    tables: &Tables,
    list: &MailList,
    arrival: u64,
    message: &'a Message<'a>,
    recipient: &RecipientFields,
    moment: u64,
) -> Result<Option<Message<'a>>, Memory>
    requires list { IsWritableList list.now }
    requires few { length list.now.members ≤ 1000 }
    requires recipient { IsRecipient recipient.now }
    requires trace { length message.now.envelope.trace < longest_trace }
    requires history { length message.now.envelope.history < longest_history }
    requires arrival { arrival ≤ last_moment }
    requires moment { moment ≤ last_moment }
    ensures { IfOk result (λ made. option_map message_value made
        ≡ members_copy (situation tables.now arrival moment) list.now (message_value message.now) recipient.now) }
{
    if list.members.len() == 0 || is_in_history(list, message.envelope.fields()) {
        return Ok(None);
    }
    let content = content_of(alloc, &message.content)?;
    let envelope = members_envelope(
        alloc,
        tables,
        list,
        arrival,
        &message.envelope,
        recipient,
        moment,
    )?;
    Ok(Some(Message {
        envelope,
        content,
        place: message.place,
    }))
}

/// The copy of a message for the members of the list at a place of the tables, from 0, to which the recipient at a
/// position, from 1, leads: the members are its recipients, and the expansion stands in its history and in its trace;
/// all else is the message's. None exactly where the list has no members, or was expanded before. The moments are
/// seconds from 1950-01-01 00:00:00 UTC, at most the last second of 2049.
pub fn expand<'a>(
    alloc: Global,
    tables: &Tables,
    list: u32,
    arrival: u64,
    message: &'a Message<'a>,
    recipient: u32,
    moment: u64,
) -> Result<Option<Message<'a>>, Memory>
    requires list { list < length tables.now.lists }
    requires some { 1 ≤ recipient }
    requires few { recipient ≤ length message.now.envelope.recipients }
    requires trace { length message.now.envelope.trace < longest_trace }
    requires history { length message.now.envelope.history < longest_history }
    requires arrival { arrival ≤ last_moment }
    requires moment { moment ≤ last_moment }
    ensures { IfOk result (λ made. (l : MailList) (r : RecipientFields) → slice_get tables.now.lists list ≡ Some l
        → slice_get message.now.envelope.recipients (recipient - 1) ≡ Some r
        → option_map message_value made
        ≡ members_copy (situation tables.now arrival moment) l (message_value message.now) r) }
{
    tables.are_whole();
    let _text = tables.text();
    let lists = tables.lists();
    let chosen = &lists[list as usize];
    let recipients = message.envelope.fields().recipients.as_slice();
    let who = recipients[recipient as usize - 1].fields();
    copy_for(alloc, tables, chosen, arrival, message, who, moment)
}

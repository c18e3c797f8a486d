//! What two spools hold of the messages of a round.
//!
//! In come the spools as they were opened again, how many messages were before, how many the round has, and how often
//! the link was broken. Out go the counts: of the messages that are the items of their numbers at both agents, sent by
//! the first and delivered to watt by the second.

ghost use Rattle.std.specs.Prelude.{◌≡◌, ◌≢◌, ◌≤◌, ◌<◌, ◌+◌, ◌^◌, ◌↔◌, IfOk, IfSome, IsTrue, None, length};
ghost use Rattle.mta_envelope.specs.Messages.{MessageValue, message_value};
ghost use Rattle.mta_drill_laws.specs.Messages.{content_of, identifier_of};
ghost use Rattle.mta_drill_text.specs.Text.{content_length, octets_up_to};
ghost use Rattle.mta_drill.specs.Held.{AreDeliveries, AreMessages, AreSent, HoldsDelivered, HoldsSent, IsDelivery};
ghost use Rattle.mta_drill.specs.Held.{IsDeliveredAt, IsMessage, IsRead, IsSent, IsSentOn};
ghost use Rattle.mta_drill.specs.Rounds.{IsWhole};
ghost use Rattle.mta_drill.specs.Worked.{AreBreaksOf};

use crate::agent::Agent;
use crate::message::{content_of, identifier_of};
use crate::tables::is_mailbox;
use mta_apdu::Apdu;
use mta_ber::{Memory, ReadFault};
use mta_drill_text::Counts;
use mta_envelope::Message;
use mta_spool::{Item, MailboxLine, Status};
use std::alloc::Global;

/// How many messages were delivered, and how many octets their contents have.
#[derive(Clone, Copy, Drop)]
struct Delivered {
    messages: u32,
    octets: u64,
}

// Whether a message has the identifier of this one of the drill.
fn is_named(alloc: Global, found: &Message<'_>, message: u32) -> Result<bool, Memory>
    ensures { IfOk result
        (λ b. IsTrue b ↔ ((message_value found.now).envelope.id.local ≡ identifier_of message)) }
{
    let identifier = identifier_of(alloc, message)?;
    Ok(found.envelope.fields().id.fields().local.as_slice() == identifier.as_slice())
}

// Whether a message has the content of this one of the drill.
fn has_content(alloc: Global, found: &Message<'_>, message: u32) -> Result<bool, Memory>
    ensures { IfOk result (λ b. IsTrue b ↔ ((message_value found.now).content.octets ≡ content_of message)) }
{
    let content = content_of(alloc, message)?;
    Ok(found.content.as_slice() == content.as_slice())
}

// The message that an item is; none where it is none.
#[tactic(auto, unfolding(mta_machine::specs::Apdu::value_of))]
fn message_in<'a>(alloc: Global, item: &'a Item) -> Result<Option<Message<'a>>, Memory>
    ensures some { IfOk result (λ o. IfSome o (λ m. IsRead item.now.octets (message_value m))) }
    ensures none { IfOk result (λ o. o ≡ None → (v : MessageValue) → IsRead item.now.octets v → ⊥) }
{
    match Apdu::read_stored(alloc, item.octets()) {
        Ok(Apdu::Message(found)) => Ok(Some(found)),
        Ok(other) => {
            other.discard();
            Ok(None)
        }
        Err(ReadFault::Memory) => Err(Memory),
        Err(ReadFault::Bad(_)) => Ok(None),
    }
}

// Whether the one recipient of an item was sent on.
fn is_sent_on(statuses: &[Option<Status>]) -> bool
    ensures { IsTrue result ↔ IsSentOn statuses.now }
{
    match statuses {
        [Some(Status::Sent { .. })] => true,
        _ => false,
    }
}

// Whether an item is this message of the drill, and was sent.
fn is_sent(alloc: Global, item: &Item, message: u32) -> Result<bool, Memory>
    ensures { IfOk result (λ b. IsTrue b ↔ IsSent item.now message) }
{
    if !is_sent_on(item.statuses()) {
        return Ok(false);
    }
    match message_in(alloc, item)? {
        Some(found) => is_named(alloc, &found, message),
        None => Ok(false),
    }
}

// How many octets the content has of an item that is this message of the drill, with its content; none where it is not.
fn octets_of(alloc: Global, item: &Item, message: u32) -> Result<Option<u64>, Memory>
    ensures some { IfOk result (λ o. IfSome o
        (λ n. IsMessage item.now.octets message × (n ≡ content_length message))) }
    ensures none { IfOk result (λ o. o ≡ None → IsMessage item.now.octets message → ⊥) }
{
    let Some(found) = message_in(alloc, item)? else {
        return Ok(None);
    };
    if is_named(alloc, &found, message)? && has_content(alloc, &found, message)? {
        Ok(Some(found.content.as_slice().len() as u64))
    } else {
        Ok(None)
    }
}

// Whether this is the delivery of the item of this number to watt.
fn is_delivery(line: &MailboxLine, number: u32) -> bool
    ensures { IsTrue result ↔ IsDelivery number line.now }
{
    line.item == number && is_mailbox(line.mailbox.as_slice())
}

// How many of the first items are messages of the round, each at its number, that were sent.
fn sent_in(alloc: Global, items: &[Item], before: u32, count: u32) -> Result<u32, Memory>
    requires fits { before + count < 2 ^ 32 }
    ensures most { IfOk result (λ n. n ≤ count) }
    ensures sent { IfOk result (λ n. AreSent items.now before n) }
    ensures all { count ≤ length items.now → AreSent items.now before count → IfOk result (λ n. n ≡ count) }
{
    for place in 0..count {
        let Some(item) = items.get(place as usize) else {
            return Ok(place);
        };
        if !is_sent(alloc, item, before + place + 1)? {
            return Ok(place);
        }
    }
    Ok(count)
}

// How many octets the content has of the item and the delivery of this number, which are those of this message; none
// where they are not.
fn delivered_at(
    alloc: Global,
    items: &[Item],
    lines: &[MailboxLine],
    before: u32,
    place: u32,
) -> Result<Option<u64>, Memory>
    requires fits { before + place + 1 < 2 ^ 32 }
    ensures some { IfOk result (λ o. IfSome o (IsDeliveredAt items.now lines.now before (place + 1))) }
    ensures none { place < length items.now → place < length lines.now
        → AreMessages items.now before (place + 1) → AreDeliveries lines.now (place + 1)
        → IfOk result (λ o. o ≢ None) }
{
    match (items.get(place as usize), lines.get(place as usize)) {
        (Some(item), Some(line)) => {
            if is_delivery(line, place + 1) {
                octets_of(alloc, item, before + place + 1)
            } else {
                Ok(None)
            }
        }
        _ => Ok(None),
    }
}

// How many of the first deliveries are those of the messages of the round, each with its content.
fn delivered_in(
    alloc: Global,
    items: &[Item],
    lines: &[MailboxLine],
    before: u32,
    count: u32,
) -> Result<Delivered, Memory>
    requires fits { before + count < 2 ^ 32 }
    ensures most { IfOk result (λ d. d.messages ≤ count) }
    ensures messages { IfOk result (λ d. AreMessages items.now before d.messages) }
    ensures deliveries { IfOk result (λ d. AreDeliveries lines.now d.messages) }
    ensures octets { IfOk result (λ d. d.octets + octets_up_to before ≡ octets_up_to (before + d.messages)) }
    ensures all { count ≤ length items.now → count ≤ length lines.now → AreMessages items.now before count
        → AreDeliveries lines.now count → IfOk result (λ d. d.messages ≡ count) }
{
    let mut octets = 0;
    for place in 0..count {
        match delivered_at(alloc, items, lines, before, place)? {
            Some(more) => octets += more,
            None => {
                return Ok(Delivered {
                    messages: place,
                    octets,
                });
            }
        }
    }
    Ok(Delivered {
        messages: count,
        octets,
    })
}

/// The counts of a round: how many messages the first agent took, how many of them it sent, each at its number, and how
/// many were delivered by the second one, once and in order.
pub(crate) fn counted(
    alloc: Global,
    first: &Agent,
    second: &Agent,
    before: u32,
    count: u32,
    broken: u32,
) -> Result<Counts, Memory>
    requires fits { before + count < 2 ^ 32 }
    ensures accepted { IfOk result (λ c. c.accepted ≡ length first.now.current.machine.items) }
    ensures transferred { IfOk result (λ c. AreSent first.now.current.machine.items before c.transferred) }
    ensures delivered { IfOk result (λ c. AreMessages second.now.current.machine.items before c.delivered
        × AreDeliveries second.now.current.machine.mailboxes c.delivered) }
    ensures broken { IfOk result (λ c. c.broken ≡ broken) }
    ensures whole { HoldsSent first.now.current.machine before count
        → HoldsDelivered second.now.current.machine before count → AreBreaksOf before count broken
        → IfOk result (λ c. IsWhole c before count) }
{
    let sent = sent_in(alloc, first.items(), before, count)?;
    let delivered = delivered_in(alloc, second.items(), second.mailboxes(), before, count)?;
    Ok(Counts {
        accepted: first.items().len() as u64,
        transferred: u64::from(sent),
        delivered: u64::from(delivered.messages),
        broken: u64::from(broken),
        octets: delivered.octets,
    })
}

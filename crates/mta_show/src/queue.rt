//! The text of the queue: each item, and what became of each recipient for whom this agent is
//! responsible; then the lanes that are open.
//!
//! In come the items of the state in memory, whose octets are read again, and its lanes; out goes the
//! text, as `queue_text` has it. Only want of memory fails, and nothing is changed.

ghost use Rattle.std.specs.Prelude.{◌≡◌, ◌++◌, IfOk, OnOk};
ghost use Rattle.std.specs.Option.{option_copied};
ghost use Rattle.mta_apdu.specs.Apdus.{apdu_value};
ghost use Rattle.mta_show.specs.Queue.{word_of, id_of, item_line, status_at_place, recipient_lines, status_lines};
ghost use Rattle.mta_show.specs.Queue.{item_text, items_text, queue_text};

use crate::lanes::put_lane_lines;
use crate::status::put_status_line_if;
use mta_apdu::Apdu;
use mta_apdu_text::{put_id, put_moment, put_number};
use mta_ber::{Memory, Octets, ReadFault};
use mta_envelope_recipient::Recipient;
use mta_fields::MtsId;
use mta_lanes::Lane;
use mta_machine::{Item, Status};
use std::alloc::Global;

fn word_of(apdu: &Apdu) -> &'static [u8]
    ensures { result.now ≡ word_of (apdu_value apdu.now) }
{
    match apdu {
        Apdu::Message(_) => b" message ",
        Apdu::Probe(_) => b" probe ",
        Apdu::Report(_) => b" report ",
    }
}

fn id_of<'a>(apdu: &'a Apdu<'_>) -> &'a MtsId
    ensures { result.now ≡ id_of (apdu_value apdu.now) }
{
    match apdu {
        Apdu::Message(message) => &message.envelope.fields().id,
        Apdu::Probe(probe) => &probe.envelope.fields().id,
        Apdu::Report(report) => &report.fields().id,
    }
}

#[tactic(auto, unfolding(crate::specs::Queue::item_line))]
fn put_item_line(
    alloc: Global,
    out: &mut Octets,
    number: u64,
    arrival: u64,
    apdu: &Apdu,
) -> Result<(), Memory>
    ensures { OnOk result (out.new ≡ out.old ++ item_line number arrival (apdu_value apdu.now)) }
{
    out.extend(b"item ")?;
    put_number(out, number)?;
    out.extend(word_of(apdu))?;
    put_id(out, id_of(apdu))?;
    out.extend(b" arrived ")?;
    put_moment(alloc, out, arrival)?;
    out.extend(b"\n")
}

/// The status at a place, from 0; none past the last one.
fn status_at_place(statuses: &[Option<Status>], place: usize) -> Option<&Status>
    ensures { option_copied result ≡ status_at_place statuses.now place }
{
    match statuses.get(place) {
        Some(Some(status)) => Some(status),
        _ => None,
    }
}

#[tactic(auto, unfolding(crate::specs::Queue::recipient_lines))]
fn put_recipient_lines(
    alloc: Global,
    out: &mut Octets,
    statuses: &[Option<Status>],
    recipients: &[Recipient],
) -> Result<(), Memory>
    ensures { OnOk result (out.new ≡ out.old ++ recipient_lines statuses.now recipients.now) }
{
    for (i, recipient) in recipients.iter().enumerate() {
        let name = &recipient.fields().name;
        put_status_line_if(alloc, out, i as u64 + 1, status_at_place(statuses, i), name)?;
    }
    Ok(())
}

/// A line per recipient that has a status; a report has one recipient, its destination.
fn put_status_lines(
    alloc: Global,
    out: &mut Octets,
    statuses: &[Option<Status>],
    apdu: &Apdu,
) -> Result<(), Memory>
    ensures { OnOk result (out.new ≡ out.old ++ status_lines statuses.now (apdu_value apdu.now)) }
{
    match apdu {
        Apdu::Message(message) => {
            let recipients = message.envelope.fields().recipients.as_slice();
            put_recipient_lines(alloc, out, statuses, recipients)
        }
        Apdu::Probe(probe) => {
            let recipients = probe.envelope.fields().recipients.as_slice();
            put_recipient_lines(alloc, out, statuses, recipients)
        }
        Apdu::Report(report) => {
            let destination = &report.fields().destination;
            put_status_line_if(alloc, out, 1, status_at_place(statuses, 0), destination)
        }
    }
}

fn put_lines(
    alloc: Global,
    out: &mut Octets,
    number: u64,
    item: &Item,
    apdu: &Apdu,
) -> Result<(), Memory>
    ensures { OnOk result (out.new ≡ out.old
        ++ (item_line number item.now.arrival (apdu_value apdu.now)
        ++ status_lines item.now.statuses (apdu_value apdu.now))) }
{
    put_item_line(alloc, out, number, item.arrival(), apdu)?;
    put_status_lines(alloc, out, item.statuses(), apdu)
}

#[tactic(auto, unfolding(crate::specs::Queue::item_text))]
fn put_item(alloc: Global, out: &mut Octets, number: u64, item: &Item) -> Result<(), Memory>
    ensures { OnOk result (out.new ≡ out.old ++ item_text number item.now) }
{
    match Apdu::read_stored(alloc, item.octets()) {
        Ok(apdu) => {
            let outcome = put_lines(alloc, out, number, item, &apdu);
            apdu.discard();
            outcome
        }
        Err(ReadFault::Bad(_)) => Ok(()),
        Err(ReadFault::Memory) => Err(Memory),
    }
}

fn put_items(alloc: Global, out: &mut Octets, items: &[Item]) -> Result<(), Memory>
    ensures { OnOk result (out.new ≡ out.old ++ items_text 1 items.now) }
{
    for (i, item) in items.iter().enumerate() {
        put_item(alloc, out, i as u64 + 1, item)?;
    }
    Ok(())
}

/// The items in the order in which they were accepted or made, numbered from 1, each with a line per recipient for
/// whom this agent is responsible: what became of it, and its name. Then a line per lane that is open, with the states
/// of its two halves.
pub fn show_queue(alloc: Global, items: &[Item], lanes: &[Lane]) -> Result<Octets, Memory>
    ensures { IfOk result (λ text. text ≡ queue_text items.now lanes.now) }
{
    let mut out = Octets::new(alloc);
    put_items(alloc, &mut out, items)?;
    put_lane_lines(&mut out, lanes)?;
    Ok(out)
}

//! The text of a mailbox: what was delivered to it, in the order in which it was.
//!
//! In come the items and the lines of the mailboxes; out goes, for each delivery to this mailbox, its
//! line and the text of the APDU, as `mailbox_text` has it. Only want of memory fails, and nothing is
//! changed.

ghost use Rattle.std.specs.Prelude.{◌≡◌, ◌++◌, IfOk, OnOk};
ghost use Rattle.std.specs.Option.{option_copied};
ghost use Rattle.mta_show.specs.Mailbox.{delivered_line, octets_text, item_if, delivered_text, mailbox_text};

use mta_apdu::Apdu;
use mta_apdu_text::{put_apdu, put_moment, put_number};
use mta_ber::{Memory, Octets, ReadFault};
use mta_machine::{Item, MailboxLine};
use std::alloc::Global;

#[tactic(auto, unfolding(crate::specs::Mailbox::delivered_line))]
fn put_delivered_line(alloc: Global, out: &mut Octets, line: &MailboxLine) -> Result<(), Memory>
    ensures { OnOk result (out.new ≡ out.old ++ delivered_line line.now) }
{
    out.extend(b"delivered ")?;
    put_moment(alloc, out, line.moment)?;
    out.extend(b" item ")?;
    put_number(out, u64::from(line.item))?;
    out.extend(b"\n")
}

// Puts the lines of the APDU that octets spell.
#[tactic(auto, unfolding(crate::specs::Mailbox::octets_text))]
fn put_octets(alloc: Global, out: &mut Octets, octets: &[u8]) -> Result<(), Memory>
    ensures { OnOk result (out.new ≡ out.old ++ octets_text octets.now) }
{
    match Apdu::read_stored(alloc, octets) {
        Ok(apdu) => {
            let outcome = put_apdu(alloc, out, &apdu);
            apdu.discard();
            outcome
        }
        Err(ReadFault::Bad(_)) => Ok(()),
        Err(ReadFault::Memory) => Err(Memory),
    }
}

/// Puts the lines of the APDU of an item; none where there is no item.
pub fn put_apdu_of(alloc: Global, out: &mut Octets, item: Option<&Item>) -> Result<(), Memory>
    ensures { OnOk result (out.new ≡ out.old ++ item_if (option_copied item.entry)) }
{
    match item {
        None => Ok(()),
        Some(item) => put_octets(alloc, out, item.octets()),
    }
}

fn put_delivered(
    alloc: Global,
    out: &mut Octets,
    items: &[Item],
    line: &MailboxLine,
) -> Result<(), Memory>
    ensures { OnOk result (out.new ≡ out.old ++ delivered_text items.now line.now) }
{
    put_delivered_line(alloc, out, line)?;
    put_apdu_of(alloc, out, items.get(line.item.saturating_sub(1) as usize))
}

/// What was delivered to the mailbox of this word, in the order of the deliveries: the moment, the number of the
/// item, and its lines.
pub fn show_mailbox(
    alloc: Global,
    word: &[u8],
    items: &[Item],
    lines: &[MailboxLine],
) -> Result<Octets, Memory>
    ensures { IfOk result (λ text. text ≡ mailbox_text word.now items.now lines.now) }
{
    let mut out = Octets::new(alloc);
    for line in lines {
        if line.mailbox.as_slice() == word {
            put_delivered(alloc, &mut out, items, line)?;
        }
    }
    Ok(out)
}

//! What a mailbox holds, as lines.

ghost use Rattle.std.specs.Prelude.{◌≡◌, ◌++◌, ◌<◌, ◌^◌, [], ◌∷◌, length, IfOk, OnOk};
ghost use Rattle.std.specs.Fmt.{decimal};
ghost use Rattle.mta_marks.specs.Standings.{look_in};
ghost use Rattle.mta_store_run.specs.Store.{deliveries, entry_line, list_text, stored_from, stored_if};

use mta_apdu_text::{put_moment, put_number};
use mta_ber::{Memory, Octets};
use mta_edge::Disk;
use mta_machine::MailboxLine;
use mta_marks::{Marks, Standing};
use std::alloc::Global;

// What became of the entry of a mailbox with this number.
fn standing_of<E: Disk + Drop>(
    marks: &Marks<E>,
    mailbox: &[u8],
    number: u64,
) -> Result<Standing, Memory>
    requires { length mailbox.now < 2 ^ 32 }
    ensures { IfOk result (λ s. s ≡ look_in marks.now.entries mailbox.now number) }
{
    match u32::try_from(number) {
        Ok(number) => marks.standing(mailbox, number),
        Err(_) => Ok(Standing::New),
    }
}

// Puts the number of an entry and what became of it.
fn put_front(text: &mut Octets, number: u64, word: &[u8]) -> Result<(), Memory>
    ensures { OnOk result (text.new ≡ text.old ++ (decimal number ++ (32 ∷ word.now ++ 32 ∷ []))) }
{
    put_number(text, number)?;
    text.extend(b" ")?;
    text.extend(word)?;
    text.extend(b" ")
}

// Puts the line of an entry.
#[tactic(auto, unfolding(crate::specs::Store::entry_line))]
fn put_line(
    alloc: Global,
    text: &mut Octets,
    number: u64,
    word: &[u8],
    line: &MailboxLine,
) -> Result<(), Memory>
    ensures { OnOk result (text.new ≡ text.old
        ++ entry_line (record { number = number; word = word.now; line = line.now })) }
{
    put_front(text, number, word)?;
    put_moment(alloc, text, line.moment)?;
    text.extend(b" item ")?;
    put_number(text, u64::from(line.item))?;
    text.extend(b"\n")
}

// Puts the line of an entry, unless it was deleted.
fn put_entry(
    alloc: Global,
    text: &mut Octets,
    standing: Standing,
    number: u64,
    line: &MailboxLine,
) -> Result<(), Memory>
    ensures { OnOk result (text.new ≡ text.old ++ list_text (stored_if standing number line.now)) }
{
    match standing {
        Standing::New => put_line(alloc, text, number, b"new", line),
        Standing::Fetched => put_line(alloc, text, number, b"fetched", line),
        Standing::Deleted => Ok(()),
    }
}

/// The lines of what a mailbox holds, among the deliveries to all.
pub(crate) fn list_of<E: Disk + Drop>(
    alloc: Global,
    marks: &Marks<E>,
    mailbox: &[u8],
    lines: &[MailboxLine],
) -> Result<Octets, Memory>
    requires { length mailbox.now < 2 ^ 32 }
    ensures { IfOk result (λ text. text ≡ list_text
        (stored_from (look_in marks.now.entries mailbox.now) 1 (deliveries mailbox.now lines.now))) }
{
    let mut text = Octets::new(alloc);
    let mut number: u64 = 1;
    for line in lines {
        if line.mailbox.as_slice() == mailbox {
            let standing = standing_of(marks, mailbox, number)?;
            put_entry(alloc, &mut text, standing, number, line)?;
            number += 1;
        }
    }
    Ok(text)
}

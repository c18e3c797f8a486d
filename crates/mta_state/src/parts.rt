//! The parts of the machine of recipients in memory, and how a step's change is made in them.
//!
//! `reserve` finds room, and is where memory is refused. The changes are made in that room and cannot fail.

ghost use Rattle.std.specs.Prelude.{◌≡◌, ◌+◌, ◌≤◌, ◌∷◌, ◌++◌, [], length, OnOk};
ghost use Rattle.std.specs.Prelude.{option_to_list, vec_len, vec_capacity};
ghost use Rattle.std.specs.Option.{option_copied};
ghost use Rattle.mta_machine.specs.Items.{Machine, at_start, numbered, is_pending_at};
ghost use Rattle.mta_machine.specs.Machine.{machine_after, set_tables, set_format, last_tables};
ghost use Rattle.mta_state.specs.Parts.{machine_of, HasRoom, made_items, settled_machine};

use crate::settle::{is_pending, settle};
use mta_ber::{Memory, Octets};
use mta_machine::{Item, MailboxLine, Status};
use std::alloc::Global;

/// The parts of the machine of recipients.
#[derive(Drop)]
pub struct Parts {
    /// The format: 1 at first, and 2 once it was set.
    pub format: u32,
    /// The texts of tables that were recorded, in their order.
    pub texts: Vec<Octets>,
    /// The items, of which the first has number 1.
    pub items: Vec<Item>,
    /// The deliveries, in their order.
    pub mailboxes: Vec<MailboxLine>,
    /// The moment of the last step of the machine, in seconds since 1950-01-01 00:00:00 UTC.
    pub moment: u64,
}

/// The items that the discharge of a recipient makes, at most two.
#[derive(Drop)]
pub struct Made {
    pub first: Option<Item>,
    pub second: Option<Item>,
}

impl Made {
    /// How many items they are.
    pub fn count(&self) -> usize
        ensures exact { result ≡ length (made_items self.now) }
        ensures most { result ≤ 2 }
    {
        usize::from(self.first.is_some()) + usize::from(self.second.is_some())
    }
}

// The item is the next one, where there is one.
fn push_item(items: &mut Vec<Item>, item: Option<Item>)
    requires { vec_len items.old + length (option_to_list item) ≤ vec_capacity items.old }
    ensures items { items.new.items ≡ items.old.items ++ option_to_list item }
    ensures len { vec_len items.new ≡ vec_len items.old + length (option_to_list item) }
    ensures capacity { vec_capacity items.new ≡ vec_capacity items.old }
{
    if let Some(item) = item {
        items.push_reserved(item);
    }
}

// The items that were made are the next ones.
fn push_made(items: &mut Vec<Item>, made: Made)
    requires { vec_len items.old + length (made_items made) ≤ vec_capacity items.old }
    ensures items { items.new.items ≡ items.old.items ++ made_items made }
    ensures len { vec_len items.new ≡ vec_len items.old + length (made_items made) }
    ensures capacity { vec_capacity items.new ≡ vec_capacity items.old }
{
    let Made { first, second } = made;
    push_item(items, first);
    push_item(items, second);
}

// The delivery is the next one, where there is one.
fn push_line(lines: &mut Vec<MailboxLine>, line: Option<MailboxLine>)
    requires { vec_len lines.old + length (option_to_list line) ≤ vec_capacity lines.old }
    ensures lines { lines.new.items ≡ lines.old.items ++ option_to_list line }
    ensures len { vec_len lines.new ≡ vec_len lines.old + length (option_to_list line) }
    ensures capacity { vec_capacity lines.new ≡ vec_capacity lines.old }
{
    if let Some(line) = line {
        lines.push_reserved(line);
    }
}

impl Parts {
    /// The parts of the machine before its first step.
    pub fn new(alloc: Global) -> Parts
        ensures { machine_of result ≡ at_start }
    {
        Parts {
            format: 1,
            texts: Vec::new(alloc),
            items: Vec::new(alloc),
            mailboxes: Vec::new(alloc),
            moment: 0,
        }
    }

    /// The text of the tables recorded last; none where none were recorded.
    pub fn last_text(&self) -> Option<&[u8]>
        ensures { let m = machine_of self.now in option_copied result ≡ numbered m.tables (last_tables m) }
    {
        match self.texts.last() {
            Some(text) => Some(text.as_slice()),
            None => None,
        }
    }

    /// The item with this number, from 1; none where no item has it.
    pub fn item(&self, number: u32) -> Option<&Item>
        ensures { option_copied result ≡ numbered self.now.items.items number }
    {
        if number == 0 {
            return None;
        }
        self.items.get(number as usize - 1)
    }

    /// Whether this agent is responsible for the recipient of this number of the item, who is not discharged.
    pub fn is_pending(&self, item: u32, recipient: u32) -> bool
        ensures { result ≡ is_pending_at (machine_of self.now) item recipient }
    {
        match self.item(item) {
            Some(item) => is_pending(item, recipient),
            None => false,
        }
    }

    /// Finds room for so many texts, items and deliveries more.
    pub fn reserve(&mut self, texts: usize, items: usize, lines: usize) -> Result<(), Memory>
        ensures same { machine_of self.new ≡ machine_of self.old }
        ensures room { OnOk result (HasRoom self.new texts items lines) }
    {
        self.texts.try_reserve(texts)?;
        self.items.try_reserve(items)?;
        self.mailboxes.try_reserve(lines)?;
        Ok(())
    }

    /// These tables are recorded last.
    pub fn record_tables(&mut self, text: Octets)
        requires { HasRoom self.old 1 0 0 }
        ensures { machine_of self.new ≡ machine_after (machine_of self.old) (set_tables text) }
    {
        self.texts.push_reserved(text);
    }

    /// The format is 2 from now on.
    pub fn set_format(&mut self)
        ensures { machine_of self.new ≡ machine_after (machine_of self.old) set_format }
    {
        self.format = 2;
    }

    /// The item is the next one, which is accepted at a moment.
    pub fn add_item(&mut self, item: Item, moment: u64)
        requires { HasRoom self.old 0 1 0 }
        ensures { machine_of self.new
            ≡ record (machine_of self.old) { items = self.old.items.items ++ item ∷ []; moment = moment } }
    {
        self.items.push_reserved(item);
        self.moment = moment;
    }

    /// A recipient of an item is discharged at a moment, with the items that this makes and perhaps a delivery.
    pub fn discharge(
        &mut self,
        item: u32,
        recipient: u32,
        status: Status,
        made: Made,
        line: Option<MailboxLine>,
        moment: u64,
    )
        requires { HasRoom self.old 0 (length (made_items made)) (length (option_to_list line)) }
        ensures state { machine_of self.new
            ≡ settled_machine (machine_of self.old) item (recipient ∷ []) status (made_items made)
            (option_to_list line) moment }
        ensures items { vec_len self.new.items ≡ vec_len self.old.items + length (made_items made) }
        ensures items_capacity { vec_capacity self.new.items ≡ vec_capacity self.old.items }
        ensures lines { vec_len self.new.mailboxes ≡ vec_len self.old.mailboxes + length (option_to_list line) }
        ensures lines_capacity { vec_capacity self.new.mailboxes ≡ vec_capacity self.old.mailboxes }
        ensures texts { self.new.texts ≡ self.old.texts }
    {
        settle(&mut self.items, item, recipient, status);
        push_made(&mut self.items, made);
        push_line(&mut self.mailboxes, line);
        self.moment = moment;
    }
}

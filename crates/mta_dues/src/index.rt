//! What is known of which items need not be looked at, and of when items may be relayed.

ghost use Rattle.std.specs.Prelude.{◌≡◌, ◌≤◌, ◌<◌, ℕ, [], List, IfOk, None, Some};
ghost use Rattle.mta_machine.specs.Items.{ItemValue, numbered};
ghost use Rattle.mta_state.specs.Readings.{IsDecodedOf, IsReadingOf};
ghost use Rattle.mta_state.specs.Spans.{IsSpanFor};
ghost use Rattle.mta_dues.specs.Index.{IsIndexed, IsOfHand};
ghost use Rattle.mta_dues.specs.Looked.{AreIdleUpTo};

use crate::agenda::Agenda;
use crate::hand::{Hand, reading_by};
use crate::looked::Looked;
use crate::spans::Spans;
use mta_ber::Memory;
use mta_machine::Item;
use mta_state::{Decoded, Reading, Span};
use std::alloc::Global;

/// Which items are to be looked at, and in which spans of time items may be relayed. What was looked at last is at hand
/// as it was read, so that a step on it reads it no more.
#[derive(Drop)]
pub struct Index {
    /// The items that are to be looked at. The others are idle.
    pub agenda: Agenda,
    /// The spans of the first items, which stay true of them, since octets and arrivals of items do not change.
    pub spans: Spans,
    /// The reading of an item, which stays true of it, since octets of items do not change.
    pub hand: Option<Hand>,
    /// Of which recipients of an item it is known that they wait, where that is known of some. New tables and a new
    /// format begin with an index of which nothing is known.
    pub looked: Option<Looked>,
}

impl Index {
    /// Nothing is known of any item. It takes no memory.
    pub fn new(alloc: Global) -> Index
        ensures known { result.agenda.known ≡ 0 }
        ensures spans { result.spans ≡ [] }
        ensures hand { result.hand ≡ None }
        ensures looked { result.looked ≡ None }
    {
        Index {
            agenda: Agenda::new(alloc),
            spans: Spans::new(alloc),
            hand: None,
            looked: None,
        }
    }

    /// The item of this number is to be looked at again.
    pub fn recall(&mut self, number: u32) -> Result<(), Memory>
        ensures { (format : ℕ) (text : List ℕ) (items : List ItemValue) → IsIndexed format text items self.old
            → IsIndexed format text items self.new }
    {
        self.agenda.recall(number)
    }

    /// The span of the item of a number is known, where those of all before it are and there is memory to note it.
    pub(crate) fn learn(&mut self, number: u32, span: Span)
        ensures agenda { self.new.agenda ≡ self.old.agenda }
        ensures hand { self.new.hand ≡ self.old.hand }
        ensures indexed { (format : ℕ) (text : List ℕ) (items : List ItemValue) (item : ItemValue)
            → numbered items number ≡ Some item → IsSpanFor format text item span
            → IsIndexed format text items self.old → IsIndexed format text items self.new }
    {
        self.spans.learn(number, span);
    }

    /// The reading of the item of a number: what is at hand where that is of this number, and else of its octets.
    /// Nothing is at hand then.
    pub fn take<'a>(
        &mut self,
        alloc: Global,
        number: u32,
        item: &'a Item,
    ) -> Result<Reading<'a>, Memory>
        requires { IsOfHand item.now number self.old.hand }
        ensures reading { IfOk result (IsReadingOf item.now.octets) }
        ensures agenda { self.new.agenda ≡ self.old.agenda }
        ensures indexed { (format : ℕ) (text : List ℕ) (items : List ItemValue) → IsIndexed format text items self.old
            → IsIndexed format text items self.new }
    {
        match self.hand.take() {
            None => Reading::read(alloc, item),
            Some(hand) => reading_by(alloc, hand, number, item),
        }
    }

    /// What the item of a number was read as is at hand.
    pub fn keep_decoded(&mut self, number: u32, decoded: Decoded)
        ensures agenda { self.new.agenda ≡ self.old.agenda }
        ensures indexed { (format : ℕ) (text : List ℕ) (items : List ItemValue) (item : ItemValue)
            → numbered items number ≡ Some item → IsDecodedOf item.octets decoded
            → IsIndexed format text items self.old → IsIndexed format text items self.new }
    {
        self.hand = Some(Hand { number, decoded });
    }

    /// The reading of the item of a number is at hand.
    pub fn keep(&mut self, number: u32, reading: Reading<'_>)
        ensures agenda { self.new.agenda ≡ self.old.agenda }
        ensures indexed { (format : ℕ) (text : List ℕ) (items : List ItemValue) (item : ItemValue)
            → numbered items number ≡ Some item → IsReadingOf item.octets reading.entry
            → IsIndexed format text items self.old → IsIndexed format text items self.new }
    {
        let decoded = reading.detach();
        self.keep_decoded(number, decoded);
    }

    /// How many of the first recipients of the item of a number are known to wait at a moment, who are pending.
    pub(crate) fn idle_up_to(&self, number: u32, moment: u64) -> u32
        ensures { (format : ℕ) (text : List ℕ) (items : List ItemValue) (item : ItemValue)
            → numbered items number ≡ Some item → IsIndexed format text items self.now
            → AreIdleUpTo format text item result moment }
    {
        match &self.looked {
            None => 0,
            Some(looked) => looked.up_to(number, moment),
        }
    }

    /// So many of the first recipients of the item of a number, if pending, wait from a moment on until another.
    pub(crate) fn keep_idle(&mut self, number: u32, most: u32, moment: u64, until: u64)
        ensures agenda { self.new.agenda ≡ self.old.agenda }
        ensures indexed { (format : ℕ) (text : List ℕ) (items : List ItemValue) (item : ItemValue)
            → numbered items number ≡ Some item
            → ((n : ℕ) → moment ≤ n → n < until → AreIdleUpTo format text item most n)
            → IsIndexed format text items self.old → IsIndexed format text items self.new }
    {
        self.looked = Some(Looked {
            number,
            most,
            from: moment,
            until,
        });
    }
}

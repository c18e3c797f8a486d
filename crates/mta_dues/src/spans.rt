//! In which spans of time the items may be relayed, by their numbers.

ghost use Rattle.std.specs.Prelude.{◌≡◌, ◌≤◌, ◌<◌, ◌+◌, ◌^◌, ◌++◌, ◌∷◌, [], ℕ, List, false, get_or, length, true};
ghost use Rattle.std.specs.Prelude.{OnErr, OnOk, slice_get};
ghost use Rattle.std.specs.Option.{option_copied};
ghost use Rattle.mta_lanes.specs.Order.{AreInOrder};
ghost use Rattle.mta_state.specs.declared.rest.Span.{Span};
ghost use Rattle.mta_dues.specs.Spans.{AreClosed, AreCovered, IsLearnt, IsNextOpen, held_as, is_open};
ghost use Rattle.mta_dues.specs.Spans.{widened};

use mta_ber::Memory;
use mta_state::Span;
use std::alloc::Global;
use std::marker::Model;

/// How many numbers there are in a block: the first is 0.
const BLOCK: u32 = 1024;

// A span in half the memory. As an end the last moment of 32 bits, in the year 2086, stands for the last one of 64.
#[derive(Drop)]
struct Short {
    from: u32,
    until: u32,
}

impl Model for Short {
    ghost use Rattle.mta_state.specs.declared.rest.Span.{Span};
    ghost use Rattle.mta_dues.specs.Spans.{end_of};

    ghost Value = { Span };

    ghost view = { λ s. record { from = s.from; until = end_of s.until } };
}

impl Short {
    // What has the moments of a span that have 32 bits.
    fn of(span: Span) -> Short
        ensures { result ≡ held_as span }
    {
        Short {
            from: span.from.min(u32::MAX as u64) as u32,
            until: span.until.min(u32::MAX as u64) as u32,
        }
    }

    // The span that it stands for.
    fn span(&self) -> Span
        ensures { result ≡ self.now }
    {
        let until = if self.until < u32::MAX {
            self.until as u64
        } else {
            u64::MAX
        };
        Span {
            from: self.from as u64,
            until,
        }
    }
}

/// The spans of the first items, up to some number from 1 on. A block of numbers that no span of has a moment is passed
/// over at once, so that a look costs by how many blocks there are, and by the numbers of those that may have one.
#[derive(Drop)]
pub struct Spans {
    each: Vec<Short>,
    // Of each block a span that has what those in it have.
    blocks: Vec<Span>,
}

impl Model for Spans {
    ghost use Rattle.std.specs.Prelude.{List};
    ghost use Rattle.mta_state.specs.declared.rest.Span.{Span};
    ghost use Rattle.mta_dues.specs.Spans.{AreCovered};

    ghost Value = { List Span };

    ghost view = { λ s. s.each.items };

    ghost invariant = { λ s. AreCovered s.each.items s.blocks.items };
}

impl Spans {
    /// No span is known. It takes no memory.
    #[tactic(auto, using(crate::proofs::Covered::none_covered))]
    pub fn new(alloc: Global) -> Spans
        ensures { result ≡ [] }
    {
        Spans {
            each: Vec::new(alloc),
            blocks: Vec::new(alloc),
        }
    }

    /// Of how many items they are.
    pub fn count(&self) -> usize
        ensures { result ≡ length self.now }
    {
        self.each.len()
    }

    /// The span of the next item. It is held in 32 bits: an end behind the last moment that they say is none.
    pub fn push(&mut self, span: Span) -> Result<(), Memory>
        ensures more { OnOk result (self.new ≡ self.old ++ held_as span ∷ []) }
        ensures same { OnErr result (self.new ≡ self.old) }
    {
        let short = Short::of(span);
        cover(&mut self.blocks, self.each.len(), short.span())?;
        self.each.push(short)?;
        Ok(())
    }

    /// The span of the item of this number, where it is the next one and there is memory to note it.
    #[tactic(auto, using(crate::proofs::Covered::learnt_laws))]
    pub fn learn(&mut self, number: u32, span: Span)
        ensures { IsLearnt self.old self.new number span }
    {
        if number == 0 || number as usize - 1 != self.count() {
            return;
        }
        match self.push(span) {
            Ok(()) => {}
            Err(_) => {}
        }
    }

    // Whether the item of this number may be relayed at a moment, as far as is known.
    fn is_open(&self, number: u32, moment: u64) -> bool
        ensures { result ≡ is_open self.now number moment }
    {
        if number == 0 {
            return false;
        }
        match self.each.get(number as usize - 1) {
            None => true,
            Some(short) => short.span().has(moment),
        }
    }

    // Whether a block is known to have none that may be relayed at a moment.
    #[tactic(auto, using(crate::proofs::Covered::block_closed))]
    fn is_closed(&self, block: u32, moment: u64) -> bool
        ensures { result ≡ true → AreClosed self.now block moment }
    {
        let last = block as usize * BLOCK as usize + (BLOCK as usize - 1);
        if self.each.len() < last {
            return false;
        }
        match block_at(&self.blocks, block as usize) {
            None => false,
            Some(span) => !span.has(moment),
        }
    }

    // A place behind this one, such that between them none may be relayed at a moment.
    fn behind(&self, numbers: &[u32], place: usize, moment: u64) -> usize
        requires in_order { AreInOrder numbers.now }
        requires within { place < length numbers.now }
        ensures further { place < result }
        ensures within { result ≤ length numbers.now }
        ensures closed { (k : ℕ) → place < k → k < result
            → is_open self.now (get_or numbers.now k 0) moment ≡ false }
    {
        let block = numbers[place] / BLOCK;
        if !self.is_closed(block, moment) {
            return place + 1;
        }
        let last = block * BLOCK + (BLOCK - 1);
        behind_last(numbers, last).max(place + 1)
    }

    /// The place, from this one on, of the first of ascending numbers whose span has the moment, or is not known.
    #[tactic(auto, using(crate::proofs::Covered::next_laws))]
    pub fn next_open(&self, numbers: &[u32], from: usize, moment: u64) -> Option<usize>
        requires { AreInOrder numbers.now }
        ensures { IsNextOpen self.now numbers.now from moment result }
    {
        let mut place = from;
        while place < numbers.len() {
            if self.is_open(numbers[place], moment) {
                return Some(place);
            }
            place = self.behind(numbers, place, moment);
        }
        None
    }
}

// The span of the block at a place, where there is such a block.
fn block_at(blocks: &Vec<Span>, place: usize) -> Option<&Span>
    ensures { option_copied result ≡ slice_get blocks.now.items place }
{
    blocks.get(place)
}

// The block at a place has what the span has, where there is such a block.
fn widen(blocks: &mut Vec<Span>, place: usize, span: Span)
    ensures { blocks.new.items ≡ widened blocks.old.items place span }
{
    if let Some(block) = blocks.get_mut(place) {
        block.from = block.from.min(span.from);
        block.until = block.until.max(span.until);
    }
}

// The blocks over as many spans cover one more.
#[tactic(auto, using(crate::proofs::Covered::cover_laws))]
fn cover(blocks: &mut Vec<Span>, count: usize, span: Span) -> Result<(), Memory>
    requires { count < 2 ^ 63 }
    ensures kept { (each : List Span) → AreCovered each blocks.old.items → AreCovered each blocks.new.items }
    ensures more { OnOk result ((each : List Span) → length each ≡ count → AreCovered each blocks.old.items
        → AreCovered (each ++ span ∷ []) blocks.new.items) }
{
    let place = (count + 1) / BLOCK as usize;
    if place < blocks.len() {
        widen(blocks, place, span);
    } else {
        blocks.push(span)?;
    }
    Ok(())
}

// How many of ascending numbers at the front are at most this one.
fn behind_last(numbers: &[u32], last: u32) -> usize
    requires { AreInOrder numbers.now }
    ensures within { result ≤ length numbers.now }
    ensures below { (k : ℕ) → k < result → get_or numbers.now k 0 ≤ last }
{
    match numbers.binary_search(&last) {
        Ok(place) => place + 1,
        Err(place) => place,
    }
}

//! When items may be relayed, as it is found out of them.

ghost use Rattle.std.specs.Prelude.{◌≡◌, ◌≤◌, ◌<◌, ◌+◌, ℕ, IfOk, List, length, OnOk};
ghost use Rattle.std.specs.List.{All};
ghost use Rattle.mta_ber.specs.Times.{last_moment};
ghost use Rattle.mta_machine.specs.Items.{ItemValue};
ghost use Rattle.mta_state.specs.Asked.{IsStored};
ghost use Rattle.mta_state.specs.Readings.{IsReadingOf};
ghost use Rattle.mta_state.specs.Spans.{IsSpanFor};
ghost use Rattle.mta_dues.specs.Index.{HasPending, IsIndexed};

use crate::index::Index;
use crate::rest::has_pending;
use mta_ber::Memory;
use mta_machine::Item;
use mta_state::{Kept, Reading, Rules, Span};
use std::alloc::Global;

/// The span of an item of which nobody is relayed.
#[tactic(auto, using(crate::proofs::Learnt::nobody_is))]
pub(crate) fn nobody() -> Span
    ensures never { (format : ℕ) (text : List ℕ) (item : ItemValue) → (HasPending item → ⊥)
        → IsSpanFor format text item result }
{
    Span {
        from: u32::MAX as u64,
        until: 0,
    }
}

/// When recipients of an item may be relayed that was read.
#[tactic(auto, using(crate::proofs::Learnt::told_laws))]
pub(crate) fn span_by<R: Rules>(rules: &R, item: &Item, reading: &Reading<'_>) -> Span
    requires arrived { item.now.arrival ≤ last_moment }
    requires reading { IsReadingOf item.now.octets reading.now }
    ensures { IsSpanFor (R.format rules.now) (R.text rules.now) item.now result }
{
    match rules.span(item, reading) {
        Some(span) => span,
        None => nobody(),
    }
}

// When recipients of an item may be relayed. It is not read where nobody is pending.
fn span_of<R: Rules>(alloc: Global, rules: &R, item: &Item) -> Result<Span, Memory>
    requires stored { IsStored item.now }
    ensures { IfOk result (IsSpanFor (R.format rules.now) (R.text rules.now) item.now) }
{
    let pending = has_pending(item);
    if !pending {
        return Ok(nobody());
    }
    let reading = Reading::read(alloc, item)?;
    Ok(span_by(rules, item, &reading))
}

// The span of the next item is known.
fn learn_next<R: Rules>(
    alloc: Global,
    rules: &R,
    kept: &Kept,
    index: &mut Index,
) -> Result<(), Memory>
    requires stored { All IsStored kept.now.parts.items.items }
    requires next { length index.old.spans < length kept.now.parts.items.items }
    requires indexed { IsIndexed (R.format rules.now) (R.text rules.now) kept.now.parts.items.items index.old }
    ensures indexed { IsIndexed (R.format rules.now) (R.text rules.now) kept.now.parts.items.items index.new }
    ensures more { OnOk result (length index.new.spans ≡ length index.old.spans + 1) }
{
    let item = &kept.parts.items.as_slice()[index.spans.count()];
    let span = span_of(alloc, rules, item)?;
    index.spans.push(span)?;
    Ok(())
}

/// The span of each item is known. Those are read of which it was not, where somebody is pending.
pub(crate) fn learn_all<R: Rules>(
    alloc: Global,
    rules: &R,
    kept: &Kept,
    index: &mut Index,
) -> Result<(), Memory>
    requires stored { All IsStored kept.now.parts.items.items }
    requires indexed { IsIndexed (R.format rules.now) (R.text rules.now) kept.now.parts.items.items index.old }
    ensures indexed { IsIndexed (R.format rules.now) (R.text rules.now) kept.now.parts.items.items index.new }
    ensures known { OnOk result (length kept.now.parts.items.items ≤ length index.new.spans) }
{
    while index.spans.count() < kept.parts.items.len() {
        learn_next(alloc, rules, kept, index)?;
    }
    Ok(())
}

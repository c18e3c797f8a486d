//! The next step that is due, found by looking in turn at each recipient of each item that may have something due.

ghost use Rattle.std.specs.Prelude.{◌≡◌, ◌≤◌, ◌<◌, ◌^◌, ◌↔◌, ℕ, IfOk, IsTrue, List, Some, length, true};
ghost use Rattle.std.specs.List.{All};
ghost use Rattle.mta_machine.specs.Items.{ItemValue, numbered};
ghost use Rattle.mta_histories.specs.Kept.{IsKept};
ghost use Rattle.mta_dues.specs.Agendas.{is_active, IsAllCalled};
ghost use Rattle.mta_state.specs.Kept.{state_of};
ghost use Rattle.mta_state.specs.Asked.{IsStored, IsTextOf};
ghost use Rattle.mta_state.specs.Readings.{IsReadingOf};
ghost use Rattle.mta_dues.specs.Answers.{IsFirstOf, IsNextOf, NoneDueUpTo};
ghost use Rattle.mta_dues.specs.Index.{IsIndexed};
ghost use Rattle.mta_dues.specs.Looked.{AreIdleUpTo};

use crate::due::due_of;
use crate::index::Index;
use crate::learning::span_by;
use crate::rest::{idle_from, put_to_rest, rests_for_good};
use mta_ber::Memory;
use mta_machine::Item;
use mta_records::Step;
use mta_state::{Kept, Reading, Rules};
use std::alloc::Global;

// What is due of the lowest recipient of an item. Of so many of the first nothing is.
#[tactic(auto, using(crate::proofs::Scans::recipient_laws))]
fn first_of<R: Rules>(
    alloc: Global,
    rules: &R,
    kept: &Kept,
    number: u32,
    item: &Item,
    reading: &Reading<'_>,
    known: u32,
    moment: u64,
) -> Result<Option<Step>, Memory>
    requires text { IsTextOf kept.now (R.text rules.now) }
    requires format { R.format rules.now ≡ kept.now.parts.format }
    requires kept { IsKept (state_of kept.now) }
    requires item { numbered kept.now.parts.items.items number ≡ Some item.now }
    requires stored { IsStored item.now }
    requires reading { IsReadingOf item.now.octets reading.now }
    requires known { NoneDueUpTo (state_of kept.now) number known moment }
    ensures { IfOk result (IsFirstOf (state_of kept.now) number moment) }
{
    let count = item.statuses().len() as u32;
    let mut recipient = known;
    while recipient < count {
        recipient += 1;
        match due_of(alloc, rules, kept, number, item, reading, recipient, moment)? {
            None => {}
            Some(due) => return Ok(Some(due)),
        }
    }
    Ok(None)
}

// How many of the first recipients of an item are known to wait at a moment, if pending: those of whom the last look
// found it, or those who were settled.
#[tactic(auto, using(crate::proofs::Waiting::known_laws))]
fn known_idle(index: &Index, number: u32, item: &Item, moment: u64) -> u32
    requires stored { IsStored item.now }
    ensures { (format : ℕ) (text : List ℕ) (items : List ItemValue) → numbered items number ≡ Some item.now
        → IsIndexed format text items index.now → AreIdleUpTo format text item.now result moment }
{
    let settled = item.settled() as u32;
    index.idle_up_to(number, moment).max(settled)
}

// Whether so many recipients are all that an item has.
fn are_all(item: &Item, most: u32) -> bool
    ensures { IsTrue result ↔ (length item.now.statuses ≤ most) }
{
    most as usize >= item.statuses().len()
}

// What is due of the lowest recipient of an active item that was read, which rests where it is idle. It is kept who
// waits before the first of whom something is called for at once.
#[tactic(auto, using(crate::proofs::Passed::look_laws))]
fn look_at<R: Rules>(
    alloc: Global,
    rules: &R,
    kept: &Kept,
    index: &mut Index,
    number: u32,
    item: &Item,
    reading: &Reading<'_>,
    moment: u64,
) -> Result<Option<Step>, Memory>
    requires text { IsTextOf kept.now (R.text rules.now) }
    requires format { R.format rules.now ≡ kept.now.parts.format }
    requires kept { IsKept (state_of kept.now) }
    requires item { numbered kept.now.parts.items.items number ≡ Some item.now }
    requires stored { IsStored item.now }
    requires reading { IsReadingOf item.now.octets reading.now }
    requires active { is_active index.old.agenda number ≡ true }
    requires indexed { IsIndexed (R.format rules.now) (R.text rules.now) kept.now.parts.items.items index.old }
    ensures first { IfOk result (IsFirstOf (state_of kept.now) number moment) }
    ensures indexed { IsIndexed (R.format rules.now) (R.text rules.now) kept.now.parts.items.items index.new }
    ensures called { (count : ℕ) → IsAllCalled index.old.agenda count moment
        → IsAllCalled index.new.agenda count moment }
{
    let known = known_idle(index, number, item, moment);
    let Some(until) = rules.next_change(item, reading, moment) else {
        return first_of(alloc, rules, kept, number, item, reading, known, moment);
    };
    let most = idle_from(alloc, rules, item, reading, known, moment)?;
    if are_all(item, most) {
        put_to_rest(index, number, moment, until);
        return Ok(None);
    }
    index.keep_idle(number, most, moment, until);
    first_of(alloc, rules, kept, number, item, reading, most, moment)
}

// What is due of the lowest recipient of an active item, which is read once for all of them, and whose reading is at
// hand then. It rests where it is idle, and it is known when it may be relayed.
#[tactic(auto, using(crate::proofs::Passed::look_laws, crate::proofs::Indexed::of_hand))]
fn look<R: Rules>(
    alloc: Global,
    rules: &R,
    kept: &Kept,
    index: &mut Index,
    number: u32,
    moment: u64,
) -> Result<Option<Step>, Memory>
    requires text { IsTextOf kept.now (R.text rules.now) }
    requires format { R.format rules.now ≡ kept.now.parts.format }
    requires kept { IsKept (state_of kept.now) }
    requires stored { All IsStored kept.now.parts.items.items }
    requires active { is_active index.old.agenda number ≡ true }
    requires indexed { IsIndexed (R.format rules.now) (R.text rules.now) kept.now.parts.items.items index.old }
    ensures first { IfOk result (IsFirstOf (state_of kept.now) number moment) }
    ensures indexed { IsIndexed (R.format rules.now) (R.text rules.now) kept.now.parts.items.items index.new }
    ensures called { (count : ℕ) → IsAllCalled index.old.agenda count moment
        → IsAllCalled index.new.agenda count moment }
{
    let Some(item) = kept.parts.item(number) else {
        return Ok(None);
    };
    if rests_for_good(index, number, item) {
        return Ok(None);
    }
    let reading = index.take(alloc, number, item)?;
    index.learn(number, span_by(rules, item, &reading));
    let found = look_at(alloc, rules, kept, index, number, item, &reading, moment);
    index.keep(number, reading);
    found
}

// The due step of the lowest active item and recipient at a moment: none where nothing is due.
#[tactic(auto, using(crate::proofs::Passed::item_laws))]
fn first_due<R: Rules>(
    alloc: Global,
    rules: &R,
    kept: &Kept,
    index: &mut Index,
    moment: u64,
) -> Result<Option<Step>, Memory>
    requires text { IsTextOf kept.now (R.text rules.now) }
    requires format { R.format rules.now ≡ kept.now.parts.format }
    requires kept { IsKept (state_of kept.now) }
    requires stored { All IsStored kept.now.parts.items.items }
    requires called { IsAllCalled index.old.agenda (length kept.now.parts.items.items) moment }
    requires indexed { IsIndexed (R.format rules.now) (R.text rules.now) kept.now.parts.items.items index.old }
    ensures next { IfOk result (IsNextOf (state_of kept.now) moment) }
    ensures indexed { IsIndexed (R.format rules.now) (R.text rules.now) kept.now.parts.items.items index.new }
{
    let mut after: u32 = 0;
    while let Some(number) = index.agenda.next(after) {
        match look(alloc, rules, kept, index, number, moment)? {
            None => after = number,
            Some(due) => return Ok(Some(due)),
        }
    }
    Ok(None)
}

/// The due step of the lowest item and recipient at a moment: none where nothing is due. Items are looked at only that
/// are active, and rest where they are idle.
pub fn due_step<R: Rules>(
    alloc: Global,
    rules: &R,
    kept: &Kept,
    index: &mut Index,
    moment: u64,
) -> Result<Option<Step>, Memory>
    requires text { IsTextOf kept.now (R.text rules.now) }
    requires format { R.format rules.now ≡ kept.now.parts.format }
    requires kept { IsKept (state_of kept.now) }
    requires stored { All IsStored kept.now.parts.items.items }
    requires numbers { length kept.now.parts.items.items < 2 ^ 32 }
    requires indexed { IsIndexed (R.format rules.now) (R.text rules.now) kept.now.parts.items.items index.old }
    ensures next { IfOk result (IsNextOf (state_of kept.now) moment) }
    ensures indexed { IsIndexed (R.format rules.now) (R.text rules.now) kept.now.parts.items.items index.new }
{
    let count = kept.parts.items.len() as u32;
    index.agenda.call(count, moment)?;
    first_due(alloc, rules, kept, index, moment)
}

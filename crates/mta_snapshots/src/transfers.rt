//! What the activities under way rest on.

ghost use Rattle.std.specs.Prelude.{◌≡◌, ◌≤◌, ◌↔◌, true, IfOk, IsTrue};
ghost use Rattle.std.specs.List.{AllByRecursion};
ghost use Rattle.std.specs.Option.{option_copied};
ghost use Rattle.mta_ber.specs.Times.{last_moment};
ghost use Rattle.mta_histories.specs.Lanes.{EachLane};
ghost use Rattle.mta_machine.specs.Items.{numbered};
ghost use Rattle.mta_machine.specs.Rules.{is_tables_text};
ghost use Rattle.mta_snapshots.specs.Fits.{GoesTo, GoesUnder, IsAtRest, IsPlaced, RestsOn};
ghost use Rattle.mta_state.specs.Kept.{state_of};
ghost use Rattle.mta_state.specs.Parts.{machine_of};

use crate::copies::{are_relayed, is_copy};
use mta_ber::Memory;
use mta_lanes::{Lane, Transfer};
use mta_machine::Item;
use mta_state::{Kept, Parts, Reading, Rules};
use std::alloc::Global;

// The text of the tables of a number, from 1; none where no tables have it.
fn text_at(parts: &Parts, number: u32) -> Option<&[u8]>
    ensures { option_copied result ≡ numbered parts.now.texts.items number }
{
    if number == 0 {
        return None;
    }
    match parts.texts.get(number as usize - 1) {
        Some(text) => Some(text.as_slice()),
        None => None,
    }
}

// Whether what is transferred of an item goes to the peer, by the rules under which that was decided.
fn goes_by<R: Rules>(
    alloc: Global,
    rules: &R,
    item: &Item,
    transfer: &Transfer,
    peer: &[u8],
) -> Result<bool, Memory>
    requires arrived { item.now.arrival ≤ last_moment }
    requires fits { transfer.now.moment ≤ last_moment }
    ensures { IfOk result (λ b. IsTrue b
        ↔ GoesUnder (R.format rules.now) (R.text rules.now) item.now peer.now transfer.now) }
{
    let recipients = transfer.recipients();
    let [first, ..] = recipients else {
        return Ok(false);
    };
    let moment = transfer.moment();
    let reading = Reading::read(alloc, item)?;
    if !are_relayed(alloc, rules, item, &reading, recipients, peer, moment)? {
        return Ok(false);
    }
    is_copy(
        alloc,
        rules,
        item,
        &reading,
        recipients,
        *first,
        moment,
        transfer.outgoing(),
    )
}

// Whether what is transferred of an item goes to the peer, under the text of the tables of its number.
fn goes_under<R: Rules + Drop>(
    alloc: Global,
    text: &[u8],
    item: &Item,
    transfer: &Transfer,
    peer: &[u8],
) -> Result<bool, Memory>
    requires text { is_tables_text text.now ≡ true }
    requires arrived { item.now.arrival ≤ last_moment }
    requires fits { transfer.now.moment ≤ last_moment }
    ensures { IfOk result (λ b. IsTrue b ↔ GoesUnder transfer.now.format text.now item.now peer.now transfer.now) }
{
    match R::under(alloc, transfer.format(), text)? {
        None => Ok(false),
        Some(rules) => goes_by(alloc, &rules, item, transfer, peer),
    }
}

// Whether what is transferred goes to the peer.
fn goes_to<R: Rules + Drop>(
    alloc: Global,
    parts: &Parts,
    transfer: &Transfer,
    peer: &[u8],
) -> Result<bool, Memory>
    requires texts { AllByRecursion (λ text. is_tables_text text ≡ true) parts.now.texts.items }
    requires arrived { AllByRecursion (λ item. item.arrival ≤ last_moment) parts.now.items.items }
    requires fits { transfer.now.moment ≤ last_moment }
    ensures { IfOk result (λ b. IsTrue b ↔ GoesTo (machine_of parts.now) peer.now transfer.now) }
{
    let Some(item) = parts.item(transfer.item()) else {
        return Ok(false);
    };
    let Some(text) = text_at(parts, transfer.tables()) else {
        return Ok(false);
    };
    goes_under::<R>(alloc, text, item, transfer, peer)
}

// Whether there are the item and the tables of what is transferred, in the format and at a moment that have come.
fn is_placed(kept: &Kept, transfer: &Transfer) -> bool
    ensures { IsTrue result ↔ IsPlaced (state_of kept.now) transfer.now }
{
    1 <= transfer.item()
        && transfer.item() as usize <= kept.parts.items.len()
        && 1 <= transfer.tables()
        && transfer.tables() as usize <= kept.parts.texts.len()
        && 1 <= transfer.format()
        && transfer.format() <= kept.parts.format
        && transfer.moment() <= kept.moment
}

// Whether what is transferred on a lane rests on what is recorded.
fn rests_on<R: Rules + Drop>(
    alloc: Global,
    kept: &Kept,
    lane: &Lane,
    transfer: &Transfer,
) -> Result<bool, Memory>
    requires texts { AllByRecursion (λ text. is_tables_text text ≡ true) kept.now.parts.texts.items }
    requires arrived { AllByRecursion (λ item. item.arrival ≤ last_moment) kept.now.parts.items.items }
    requires fits { kept.now.moment ≤ last_moment }
    ensures { IfOk result (λ b. IsTrue b ↔ RestsOn (state_of kept.now) lane.now transfer.now) }
{
    if !is_placed(kept, transfer) {
        return Ok(false);
    }
    if !lane.is_transferring() {
        return Ok(true);
    }
    goes_to::<R>(alloc, &kept.parts, transfer, lane.peer().as_slice())
}

// Whether what the lane transfers, where it does, rests on what is recorded.
fn is_at_rest<R: Rules + Drop>(alloc: Global, kept: &Kept, lane: &Lane) -> Result<bool, Memory>
    requires texts { AllByRecursion (λ text. is_tables_text text ≡ true) kept.now.parts.texts.items }
    requires arrived { AllByRecursion (λ item. item.arrival ≤ last_moment) kept.now.parts.items.items }
    requires fits { kept.now.moment ≤ last_moment }
    ensures { IfOk result (λ b. IsTrue b ↔ IsAtRest (state_of kept.now) lane.now) }
{
    match lane.transfer() {
        None => Ok(true),
        Some(transfer) => rests_on::<R>(alloc, kept, lane, transfer),
    }
}

/// Whether what each lane transfers rests on what is recorded.
pub(crate) fn are_at_rest<R: Rules + Drop>(alloc: Global, kept: &Kept) -> Result<bool, Memory>
    requires texts { AllByRecursion (λ text. is_tables_text text ≡ true) kept.now.parts.texts.items }
    requires arrived { AllByRecursion (λ item. item.arrival ≤ last_moment) kept.now.parts.items.items }
    requires fits { kept.now.moment ≤ last_moment }
    ensures { IfOk result (λ b. IsTrue b ↔ EachLane (IsAtRest (state_of kept.now)) kept.now.lanes.open_lanes.items) }
{
    for lane in kept.lanes.open_lanes.as_slice() {
        if !is_at_rest::<R>(alloc, kept, lane)? {
            return Ok(false);
        }
    }
    Ok(true)
}

//! Recipients of activities that may be completed: each is pending, and in one of them at most, once.

ghost use Rattle.std.specs.Prelude.{◌≡◌, ◌↔◌, true, IfOk, IsTrue};
ghost use Rattle.mta_snapshots.specs.Fits.{AreOnce};
ghost use Rattle.mta_snapshots.specs.Marks.{AreFree, AreGone, AreGoneFor, AreOnceAmong, IsFreeFor};
ghost use Rattle.mta_state.specs.Kept.{state_of};

use crate::marks::Marks;
use mta_ber::Memory;
use mta_lanes::Lane;
use mta_state::Kept;
use std::alloc::Global;

// Whether the recipients of an item are marked, each once. Their marks are gone then.
fn take_all(marks: &mut Marks, item: u32, recipients: &[u32]) -> bool
    ensures exact { IsTrue result ↔ AreFree marks.old item recipients.now }
    ensures gone { IsTrue result → AreGone marks.old marks.new item recipients.now }
{
    for recipient in recipients {
        if !marks.take(item, *recipient) {
            return false;
        }
    }
    true
}

// Whether those are marked, each once, for whom the lane transfers what may be completed. Their marks are gone then.
fn take_for(marks: &mut Marks, lane: &Lane) -> bool
    ensures exact { IsTrue result ↔ IsFreeFor marks.old lane.now }
    ensures gone { IsTrue result → AreGoneFor marks.old marks.new lane.now }
{
    if !lane.is_transferring() {
        return true;
    }
    match lane.transfer() {
        None => true,
        Some(transfer) => take_all(marks, transfer.item(), transfer.recipients()),
    }
}

// Whether each marked recipient is in one activity at most that may be completed, once, and no other is in any.
fn take_each(marks: &mut Marks, lanes: &[Lane]) -> bool
    ensures { IsTrue result ↔ AreOnceAmong marks.old lanes.now }
{
    for lane in lanes {
        if !take_for(marks, lane) {
            return false;
        }
    }
    true
}

/// Whether each recipient of an activity that may be completed is pending, and in one at most, once.
pub(crate) fn are_once(alloc: Global, kept: &Kept) -> Result<bool, Memory>
    ensures { IfOk result (λ b. IsTrue b ↔ AreOnce (state_of kept.now)) }
{
    let mut marks = Marks::of(alloc, kept.parts.items.as_slice())?;
    Ok(take_each(&mut marks, kept.lanes.open_lanes.as_slice()))
}

//! The numbers of lanes, and what was recorded before them.

ghost use Rattle.std.specs.Prelude.{◌≡◌, ◌↔◌, [], IsTrue};
ghost use Rattle.mta_histories.specs.Kept.{AreNumbered};
ghost use Rattle.mta_snapshots.specs.Fits.{IsRecorded};
ghost use Rattle.mta_state.specs.Kept.{state_of};

use mta_lanes::Lane;
use mta_state::Kept;

/// Whether the numbers of the lanes ascend, from 1 on, and are at most this one.
pub(crate) fn are_numbered(lanes: &[Lane], most: u32) -> bool
    ensures { IsTrue result ↔ AreNumbered 0 lanes.now most }
{
    let mut above: u32 = 0;
    for lane in lanes {
        let number = lane.number();
        if number <= above {
            return false;
        }
        above = number;
    }
    above <= most
}

fn is_nothing<T>(values: &[T]) -> bool
    ensures { IsTrue result ↔ (values.now ≡ []) }
{
    match values {
        [] => true,
        [_, ..] => false,
    }
}

/// Whether tables were recorded, or there are no items and no lanes.
pub(crate) fn is_recorded(kept: &Kept) -> bool
    ensures { IsTrue result ↔ IsRecorded (state_of kept.now) }
{
    if !is_nothing(kept.parts.texts.as_slice()) {
        return true;
    }
    if !is_nothing(kept.parts.items.as_slice()) {
        return false;
    }
    is_nothing(kept.lanes.open_lanes.as_slice())
}

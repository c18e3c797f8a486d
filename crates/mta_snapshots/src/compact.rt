//! The snapshot of a state.

ghost use Rattle.std.specs.Prelude.{◌≡◌, IfOk};
ghost use Rattle.mta_histories.specs.Compact.{snapshot_of};
ghost use Rattle.mta_state.specs.Kept.{state_of};

use crate::recorded::{items_of, lanes_of, lines_of, texts_of};
use mta_ber::Memory;
use mta_records::Snapshot;
use mta_state::Kept;
use std::alloc::Global;

/// The snapshot of the state in memory: without closed lanes, and with each message that is spent in its canonical
/// octets with an empty content. Octets of items and of activities are shared, not copied.
pub fn snapshot_of(alloc: Global, kept: &Kept) -> Result<Snapshot, Memory>
    ensures { IfOk result (λ t. t ≡ snapshot_of (state_of kept.now)) }
{
    let lines = kept.parts.mailboxes.as_slice();
    let tables = texts_of(alloc, kept.parts.texts.as_slice())?;
    let items = items_of(alloc, kept.parts.items.as_slice(), lines)?;
    let mailboxes = lines_of(alloc, lines)?;
    let lanes = lanes_of(alloc, kept.lanes.open_lanes.as_slice())?;
    Ok(Snapshot {
        format: kept.parts.format,
        moment: kept.moment,
        tables,
        items,
        mailboxes,
        lane_count: kept.lanes.count,
        lanes,
    })
}

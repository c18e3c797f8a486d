//! Lanes as they are in memory.

ghost use Rattle.std.specs.Prelude.{IfOk};
ghost use Rattle.std.specs.List.{AllByRecursion};
ghost use Rattle.mta_snapshots.specs.Lanes.{IsSpelled, LanesBegin};

use crate::halves::is_alone;
use mta_ber::Memory;
use mta_lanes::Lane;
use mta_records::LaneRecord;
use std::alloc::Global;

/// The lanes of records; none where the halves of one do not fit what is kept of them.
pub(crate) fn lanes_begun(
    alloc: Global,
    records: Vec<LaneRecord>,
) -> Result<Option<Vec<Lane>>, Memory>
    requires { AllByRecursion IsSpelled records.items }
    ensures { IfOk result (LanesBegin records.items) }
{
    let mut lanes = Vec::with_capacity(alloc, records.len())?;
    let mut rest = records.into_iter();
    while let Some(recorded) = rest.next() {
        if !is_alone(&recorded) {
            return Ok(None);
        }
        let lane = Lane::restore(alloc, recorded)?;
        lanes.push(lane)?;
    }
    Ok(Some(lanes))
}

//! The state in memory with which a history begins.

ghost use Rattle.std.specs.Prelude.{IfOk};
ghost use Rattle.std.specs.List.{AllByRecursion};
ghost use Rattle.mta_records.specs.Body.{HasFields};
ghost use Rattle.mta_records.specs.declared.step.Step.TheVariants as Steps;
ghost use Rattle.mta_snapshots.specs.Begins.{Begins, HasForm, Stands};
ghost use Rattle.mta_snapshots.specs.Items.{HasStringOf};
ghost use Rattle.mta_snapshots.specs.Lanes.{IsSpelled};

use crate::fits::fit_together;
use crate::items::items_begun;
use crate::lanes::lanes_begun;
use mta_ber::{Memory, Octets};
use mta_lanes::Lanes;
use mta_machine::MailboxLine;
use mta_records::{ItemRecord, LaneRecord, Snapshot};
use mta_state::{Kept, Parts, Rules};
use std::alloc::Global;
use std::mem;

// The state in memory of these parts of a snapshot; none where an item or a lane, looked at by itself, cannot be in
// one.
fn assembled(
    alloc: Global,
    format: u32,
    moment: u64,
    texts: Vec<Octets>,
    items: Vec<ItemRecord>,
    mailboxes: Vec<MailboxLine>,
    count: u32,
    lanes: Vec<LaneRecord>,
) -> Result<Option<Kept>, Memory>
    requires strings { AllByRecursion HasStringOf items.items }
    requires spelled { AllByRecursion IsSpelled lanes.items }
    ensures { IfOk result (Stands (record {
      format = format;
      moment = moment;
      tables = texts.items;
      items = items.items;
      mailboxes = mailboxes.items;
      lane_count = count;
      lanes = lanes.items;
    })) }
{
    let Some(open_lanes) = lanes_begun(alloc, lanes)? else {
        return Ok(None);
    };
    let Some(items) = items_begun(alloc, items, moment)? else {
        return Ok(None);
    };
    let parts = Parts {
        format,
        texts,
        items,
        mailboxes,
        moment,
    };
    let lanes = Lanes { count, open_lanes };
    Ok(Some(Kept {
        parts,
        lanes,
        moment,
        begun: true,
    }))
}

// The state in memory that a snapshot has; none where an item or a lane, looked at by itself, cannot be in one.
fn stood(alloc: Global, state: Snapshot) -> Result<Option<Kept>, Memory>
    requires form { HasForm state }
    ensures { IfOk result (Stands state) }
{
    let mut state = state;
    let texts = mem::replace(&mut state.tables, Vec::new(alloc));
    let items = mem::replace(&mut state.items, Vec::new(alloc));
    let mailboxes = mem::replace(&mut state.mailboxes, Vec::new(alloc));
    let lanes = mem::replace(&mut state.lanes, Vec::new(alloc));
    assembled(
        alloc,
        state.format,
        state.moment,
        texts,
        items,
        mailboxes,
        state.lane_count,
        lanes,
    )
}

/// The state in memory that a snapshot has, with which a history may begin; none where it may not. Each item is read
/// once, and once more for each activity with it that may be completed. The rules of tables are made once for each
/// text, and once for each such activity.
pub fn begun<R: Rules + Drop>(alloc: Global, state: Snapshot) -> Result<Option<Kept>, Memory>
    requires fields { HasFields (Steps.Snapshot state) }
    ensures { IfOk result (Begins state) }
{
    let Some(kept) = stood(alloc, state)? else {
        return Ok(None);
    };
    if fit_together::<R>(alloc, &kept)? {
        Ok(Some(kept))
    } else {
        Ok(None)
    }
}

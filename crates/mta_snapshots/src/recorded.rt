//! The parts of a state, as they are recorded.

ghost use Rattle.std.specs.Prelude.{◌≡◌, IfOk};
ghost use Rattle.mta_histories.specs.Compact.{recorded_from, recorded_item};

use crate::codes::codes_of;
use crate::marks::Flags;
use crate::spent::kept_octets;
use mta_ber::{Memory, Octets};
use mta_lanes::Lane;
use mta_machine::{Item, MailboxLine};
use mta_records::{ItemRecord, LaneRecord};
use std::alloc::Global;

/// Copies of the texts.
pub(crate) fn texts_of(alloc: Global, texts: &[Octets]) -> Result<Vec<Octets>, Memory>
    ensures { IfOk result (λ v. v.items ≡ texts.now) }
{
    let mut copies = Vec::with_capacity(alloc, texts.len())?;
    for text in texts {
        let copy = text.copy(alloc)?;
        copies.push(copy)?;
    }
    Ok(copies)
}

fn line_of(line: &MailboxLine) -> Result<MailboxLine, Memory>
    ensures { IfOk result (λ l. l ≡ line.now) }
{
    let mailbox = line.mailbox.share()?;
    Ok(MailboxLine {
        mailbox,
        item: line.item,
        moment: line.moment,
    })
}

/// Copies of the deliveries.
pub(crate) fn lines_of(alloc: Global, lines: &[MailboxLine]) -> Result<Vec<MailboxLine>, Memory>
    ensures { IfOk result (λ v. v.items ≡ lines.now) }
{
    let mut copies = Vec::with_capacity(alloc, lines.len())?;
    for line in lines {
        let copy = line_of(line)?;
        copies.push(copy)?;
    }
    Ok(copies)
}

/// The lanes as they are recorded.
pub(crate) fn lanes_of(alloc: Global, lanes: &[Lane]) -> Result<Vec<LaneRecord>, Memory>
    ensures { IfOk result (λ v. v.items ≡ lanes.now) }
{
    let mut records = Vec::with_capacity(alloc, lanes.len())?;
    for lane in lanes {
        let recorded = lane.record(alloc)?;
        records.push(recorded)?;
    }
    Ok(records)
}

// An item as it is recorded, and whether a delivery names it.
fn item_of(alloc: Global, named: bool, item: &Item) -> Result<ItemRecord, Memory>
    ensures { IfOk result (λ i. i ≡ recorded_item named item.now) }
{
    let octets = kept_octets(alloc, named, item)?;
    let codes = codes_of(alloc, item.statuses())?;
    Ok(ItemRecord {
        origin: item.origin(),
        arrival: item.arrival(),
        octets,
        codes,
    })
}

/// The items as they are recorded, beside these deliveries.
pub(crate) fn items_of(
    alloc: Global,
    items: &[Item],
    lines: &[MailboxLine],
) -> Result<Vec<ItemRecord>, Memory>
    ensures { IfOk result (λ v. v.items ≡ recorded_from lines.now 1 items.now) }
{
    let named = Flags::named(alloc, items.len(), lines)?;
    let mut records = Vec::with_capacity(alloc, items.len())?;
    for (place, item) in items.iter().enumerate() {
        let recorded = item_of(alloc, named.at(place), item)?;
        records.push(recorded)?;
    }
    Ok(records)
}

//! Items as they are in memory.

ghost use Rattle.std.specs.Prelude.{◌<◌, ◌^◌, IfOk, length};
ghost use Rattle.std.specs.List.{AllByRecursion};
ghost use Rattle.mta_snapshots.specs.Items.{HasStringOf, ItemBegins, ItemsBegin, StatusesBegin};

use crate::read::recipients_of;
use crate::statuses::{are_in_time, spread};
use mta_ber::{Memory, Octets};
use mta_machine::{Item, Statuses};
use mta_records::{ItemRecord, Origin, Status};
use std::alloc::Global;
use std::mem;
use std::sync::Arc;

// The statuses of the recipients of octets, of which those are these codes for whom this agent is responsible; none
// where the octets spell no APDU, where the codes are not as many, or where one is of a later moment.
fn statuses_begun(
    alloc: Global,
    octets: &[u8],
    codes: Vec<Status>,
    moment: u64,
) -> Result<Option<Vec<Option<Status>>>, Memory>
    ensures { IfOk result (StatusesBegin moment octets.now codes.items) }
{
    let Some(recipients) = recipients_of(alloc, octets)? else {
        return Ok(None);
    };
    let Some(statuses) = spread(alloc, recipients.as_slice(), codes)? else {
        return Ok(None);
    };
    if !are_in_time(statuses.as_slice(), moment) {
        return Ok(None);
    }
    Ok(Some(statuses))
}

// The item of these parts; none where it is not sound, or where its codes are not as many as the recipients for whom
// this agent is responsible.
fn item_of(
    alloc: Global,
    origin: Origin,
    arrival: u64,
    octets: Arc<Octets, Global>,
    codes: Vec<Status>,
    moment: u64,
) -> Result<Option<Item>, Memory>
    requires { length octets.value < 2 ^ 32 }
    ensures { IfOk result (ItemBegins moment
        (record { origin = origin; arrival = arrival; octets = octets.value; codes = codes.items })) }
{
    if moment < arrival {
        return Ok(None);
    }
    match statuses_begun(alloc, octets.as_slice(), codes, moment)? {
        None => Ok(None),
        Some(statuses) => {
            let statuses = Statuses::from_vec(statuses);
            Ok(Some(Item::new(octets, arrival, origin, statuses)))
        }
    }
}

// The item of a record; none where it is not sound, or where its codes are not as many as the recipients for whom this
// agent is responsible.
fn item_begun(alloc: Global, recorded: ItemRecord, moment: u64) -> Result<Option<Item>, Memory>
    requires { HasStringOf recorded }
    ensures { IfOk result (ItemBegins moment recorded) }
{
    let mut recorded = recorded;
    let codes = mem::replace(&mut recorded.codes, Vec::new(alloc));
    let octets = Arc::try_clone(&recorded.octets)?;
    item_of(
        alloc,
        recorded.origin,
        recorded.arrival,
        octets,
        codes,
        moment,
    )
}

/// The items of records; none where one of them is not sound, or has not as many codes as recipients for whom this
/// agent is responsible.
pub(crate) fn items_begun(
    alloc: Global,
    records: Vec<ItemRecord>,
    moment: u64,
) -> Result<Option<Vec<Item>>, Memory>
    requires { AllByRecursion HasStringOf records.items }
    ensures { IfOk result (ItemsBegin moment records.items) }
{
    let mut items = Vec::with_capacity(alloc, records.len())?;
    let mut rest = records.into_iter();
    while let Some(recorded) = rest.next() {
        match item_begun(alloc, recorded, moment)? {
            None => return Ok(None),
            Some(item) => items.push(item)?,
        }
    }
    Ok(Some(items))
}

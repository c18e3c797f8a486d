//! What is read of the octets of items.

ghost use Rattle.std.specs.Prelude.{IfErr, IfOk};
ghost use Rattle.mta_state.specs.Reading.{AreAccepted, IsFaultOf, IsItemOf};

use mta_apdu::Apdu;
use mta_ber::{Memory, Octets, ReadFault};
use mta_machine::{Item, Origin, Statuses};
use std::alloc::Global;
use std::sync::Arc;

// The statuses of the recipients of an APDU that may be submitted or received, or the first fault of its octets.
fn statuses_of(alloc: Global, octets: &[u8]) -> Result<Statuses, ReadFault>
    ensures accepted { IfOk result (AreAccepted octets.now) }
    ensures bad { IfErr result (IsFaultOf octets.now) }
{
    match Apdu::read(alloc, octets) {
        Err(fault) => Err(fault),
        Ok(read) => {
            let statuses = Statuses::of_apdu(alloc, &read);
            read.discard();
            match statuses {
                Ok(statuses) => Ok(statuses),
                Err(_) => Err(ReadFault::Memory),
            }
        }
    }
}

/// The item of octets that were submitted or received at a moment.
///
/// # Errors
/// `Bad` with the first fault exactly where they spell no APDU; `Memory`.
pub fn accepted_item(
    alloc: Global,
    octets: Octets,
    origin: Origin,
    moment: u64,
) -> Result<Item, ReadFault>
    ensures item { IfOk result (IsItemOf octets origin moment) }
    ensures bad { IfErr result (IsFaultOf octets) }
{
    let statuses = statuses_of(alloc, octets.as_slice())?;
    match Arc::new(alloc, octets) {
        Ok(shared) => Ok(Item::new(shared, moment, origin, statuses)),
        Err(_) => Err(ReadFault::Memory),
    }
}

/// The item of octets that were submitted or received at a moment, and that others may hold too.
///
/// # Errors
/// `Bad` with the first fault exactly where they spell no APDU; `Memory`.
pub fn shared_item(
    alloc: Global,
    octets: Arc<Octets, Global>,
    origin: Origin,
    moment: u64,
) -> Result<Item, ReadFault>
    ensures item { IfOk result (IsItemOf octets.value origin moment) }
    ensures bad { IfErr result (IsFaultOf octets.value) }
{
    let statuses = statuses_of(alloc, octets.as_slice())?;
    Ok(Item::new(octets, moment, origin, statuses))
}

//! An item that is submitted and what is found of it, from one reading.

ghost use Rattle.std.specs.Prelude.{◌≡◌, ◌≤◌, IfOk, IfSome};
ghost use Rattle.std.specs.Option.{option_map};
ghost use Rattle.mta_ber.specs.Times.{last_moment};
ghost use Rattle.mta_apdu.specs.Apdus.{apdu_value, SpellsApdu};
ghost use Rattle.mta_records.specs.declared.state.Origin.TheVariants as Origins;
ghost use Rattle.mta_machine.specs.Machine.{accepted_item};
ghost use Rattle.mta_state.specs.Reading.{IsAccepted};
ghost use Rattle.mta_state.specs.declared.rest.Submitted.{Submitted};
ghost use Rattle.mta_state.specs.Asked.{IsRestOf};
ghost use Rattle.mta_state.specs.Readings.{IsDecodedOf};

use crate::reading::text_reads;
use crate::rest::rest_under;
use mta_apdu::Apdu;
use mta_ber::{Memory, Octets, ReadFault};
use mta_machine::{Item, Origin, Statuses};
use mta_state::{Decoded, Rest, Submitted, back_of};
use mta_tables::Tables;
use std::alloc::Global;
use std::sync::Arc;

// The item of octets whose APDU was read, and what is found of it.
fn submitted_as(
    alloc: Global,
    format: u32,
    tables: &Tables,
    apdu: &Apdu<'_>,
    octets: Arc<Octets, Global>,
    moment: u64,
) -> Result<(Item, Option<Rest>), Memory>
    requires fits { moment ≤ last_moment }
    requires spelled { SpellsApdu octets.value (apdu_value apdu.now) }
    ensures item { IfOk result (λ s. s.0 ≡ accepted_item octets.value Origins.Submitted moment) }
    ensures rest { IfOk result (λ s. IsRestOf format tables.now.text s.0 moment s.1) }
{
    text_reads(tables);
    let statuses = Statuses::of_apdu(alloc, apdu)?;
    let item = Item::new(octets, moment, Origin::Submitted, statuses);
    let back = back_of(apdu);
    let rest = rest_under(alloc, format, tables, apdu, back, &item, moment)?;
    Ok((item, rest))
}

/// The item of an APDU that is submitted at a moment, and what is found of it then; none where the octets spell none.
pub fn submitted(
    alloc: Global,
    format: u32,
    tables: &Tables,
    octets: Octets,
    moment: u64,
) -> Result<Option<Submitted>, Memory>
    requires { moment ≤ last_moment }
    ensures item { IfOk result (λ found.
        IsAccepted octets Origins.Submitted moment (option_map (λ (s : Submitted). s.item) found)) }
    ensures decoded { IfOk result (λ found. IfSome found (λ s. IsDecodedOf s.item.octets s.decoded)) }
    ensures rest { IfOk result (λ found. IfSome found (λ s. IsRestOf format tables.now.text s.item moment s.rest)) }
{
    let shared = Arc::new(alloc, octets)?;
    let same = Arc::try_clone(&shared)?;
    match Apdu::read(alloc, shared.as_slice()) {
        Err(ReadFault::Bad(_)) => Ok(None),
        Err(ReadFault::Memory) => Err(Memory),
        Ok(apdu) => {
            let found = submitted_as(alloc, format, tables, &apdu, same, moment);
            let decoded = Decoded::of_apdu(apdu);
            match found {
                Ok((item, rest)) => Ok(Some(Submitted {
                    item,
                    decoded,
                    rest,
                })),
                Err(_) => Err(Memory),
            }
        }
    }
}

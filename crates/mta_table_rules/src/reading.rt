//! What is read of the octets of items, and the items that are made.

ghost use Rattle.std.specs.Prelude.{◌≡◌, IfOk, IfSome, Some};
ghost use Rattle.std.specs.Option.{option_copied, option_map};
ghost use Rattle.mta_apdu.specs.Apdus.{apdu_value, IsPlacedIn};
ghost use Rattle.mta_machine.specs.Apdu.{value_of};
ghost use Rattle.mta_machine.specs.Items.{numbered};
ghost use Rattle.mta_machine.specs.Machine.{own_item};
ghost use Rattle.mta_machine.specs.Rules.{tables_value};

use mta_apdu::Apdu;
use mta_ber::{Memory, ReadFault};
use mta_envelope_recipient::Recipient;
use mta_machine::{Item, Origin, Statuses};
use mta_tables::Tables;
use std::alloc::Global;
use std::sync::Arc;

/// The text of tables reads as them.
#[tactic(auto, unfolding(mta_machine::specs::Rules::tables_value))]
pub fn text_reads(tables: &Tables)
    ensures { tables_value tables.now.text ≡ Some tables.now }
{
    let _text = tables.text();
}

/// The APDU of octets that are kept; none where they spell none.
#[tactic(auto, unfolding(mta_machine::specs::Apdu::value_of))]
pub fn read_kept<'a>(alloc: Global, octets: &'a [u8]) -> Result<Option<Apdu<'a>>, Memory>
    ensures value { IfOk result (λ a. value_of octets.now ≡ option_map apdu_value a) }
    ensures placed { IfOk result (λ a. IfSome a (IsPlacedIn octets.entry)) }
{
    match Apdu::read_stored(alloc, octets) {
        Ok(apdu) => Ok(Some(apdu)),
        Err(ReadFault::Bad(_)) => Ok(None),
        Err(ReadFault::Memory) => Err(Memory),
    }
}

/// The recipient of this number, from 1.
pub fn recipient_of(recipients: &[Recipient], number: u32) -> Option<&Recipient>
    ensures { option_copied result ≡ numbered recipients.now number }
{
    if number == 0 {
        return None;
    }
    recipients.get(number as usize - 1)
}

/// The item that is an APDU which this agent made at a moment.
pub fn own_item(alloc: Global, apdu: &Apdu<'_>, moment: u64) -> Result<Item, Memory>
    ensures { IfOk result (λ i. i ≡ own_item moment (apdu_value apdu.now)) }
{
    let statuses = Statuses::of_apdu(alloc, apdu)?;
    let octets = apdu.write(alloc)?;
    let shared = Arc::new(alloc, octets)?;
    Ok(Item::new(shared, moment, Origin::Own, statuses))
}

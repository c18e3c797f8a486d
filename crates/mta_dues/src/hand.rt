//! The reading that is at hand: that of the item that was looked at last.

ghost use Rattle.std.specs.Prelude.{◌≡◌, IfOk};
ghost use Rattle.mta_state.specs.Readings.{IsDecodedOf, IsReadingOf};

use mta_ber::Memory;
use mta_machine::Item;
use mta_state::{Decoded, Reading};
use std::alloc::Global;

/// What the item of a number was read as, without its octets.
#[derive(Drop)]
pub struct Hand {
    pub number: u32,
    pub decoded: Decoded,
}

/// The reading of an item: from the one at hand where that is of the same number, and else of its octets.
pub(crate) fn reading_by<'a>(
    alloc: Global,
    hand: Hand,
    number: u32,
    item: &'a Item,
) -> Result<Reading<'a>, Memory>
    requires { hand.number ≡ number → IsDecodedOf item.now.octets hand.decoded }
    ensures { IfOk result (IsReadingOf item.now.octets) }
{
    let Hand {
        number: held,
        decoded,
    } = hand;
    if held == number {
        return Ok(decoded.over(item));
    }
    decoded.discard();
    Reading::read(alloc, item)
}

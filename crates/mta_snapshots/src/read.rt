//! For whom this agent is responsible by the octets of an item.

ghost use Rattle.std.specs.Prelude.{IfOk};
ghost use Rattle.mta_snapshots.specs.Items.{AreRecipients};

use mta_apdu::Apdu;
use mta_ber::{Memory, ReadFault};
use mta_machine::Statuses;
use std::alloc::Global;

/// The statuses of the recipients of an APDU at first; none where the octets spell no APDU.
#[tactic(auto, unfolding(mta_machine::specs::Apdu::value_of), using(crate::proofs::Reading::read_as))]
pub(crate) fn recipients_of(alloc: Global, octets: &[u8]) -> Result<Option<Statuses>, Memory>
    ensures { IfOk result (AreRecipients octets.now) }
{
    match Apdu::read_stored(alloc, octets) {
        Ok(apdu) => {
            let statuses = Statuses::of_apdu(alloc, &apdu);
            apdu.discard();
            Ok(Some(statuses?))
        }
        Err(ReadFault::Bad(_)) => Ok(None),
        Err(ReadFault::Memory) => Err(Memory),
    }
}

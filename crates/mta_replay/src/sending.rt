//! How the recipients of an activity that was sent are discharged.

ghost use Rattle.std.specs.Prelude.{◌≡◌, IfOk, map, reverse};
ghost use Rattle.mta_replay.specs.Changes.{sent_one};

use mta_ber::{Memory, Word};
use mta_machine::Status;
use mta_state::Settlement;
use std::alloc::Global;

/// The recipients to whom an item was sent, in their order.
pub(crate) fn sent_all(
    alloc: Global,
    recipients: &[u32],
    peer: &Word,
    moment: u64,
) -> Result<Vec<Settlement>, Memory>
    ensures { IfOk result (λ s. s.items ≡ map (sent_one peer.now moment) recipients.now) }
{
    let mut settlements = Vec::new(alloc);
    for recipient in recipients {
        let peer = peer.share()?;
        settlements.push(Settlement {
            recipient: *recipient,
            status: Status::Sent { moment, peer },
            made: None,
        })?;
    }
    Ok(settlements)
}

/// The last of these first, which is the order in which a change holds them.
pub(crate) fn last_first(settlements: Vec<Settlement>) -> Vec<Settlement>
    ensures { result.items ≡ reverse settlements.items }
{
    let mut settlements = settlements;
    settlements.reverse();
    settlements
}

//! The statuses of the recipients of an item, as they are recorded.

ghost use Rattle.std.specs.Prelude.{◌≡◌, ◌++◌, IfOk, OnOk, option_to_list};
ghost use Rattle.mta_histories.specs.Compact.{codes_of};

use mta_ber::Memory;
use mta_machine::Status;
use std::alloc::Global;

// An equal status.
fn copy_of(status: &Status) -> Result<Status, Memory>
    ensures { IfOk result (λ s. s ≡ status.now) }
{
    match status {
        Status::Pending => Ok(Status::Pending),
        Status::Delivered(moment) => Ok(Status::Delivered(*moment)),
        Status::Expanded(moment) => Ok(Status::Expanded(*moment)),
        Status::Sent { moment, peer } => Ok(Status::Sent {
            moment: *moment,
            peer: peer.share()?,
        }),
        Status::Reported {
            moment,
            reason,
            diagnostic,
        } => Ok(Status::Reported {
            moment: *moment,
            reason: *reason,
            diagnostic: *diagnostic,
        }),
        Status::Affirmed(moment) => Ok(Status::Affirmed(*moment)),
        Status::Discarded(moment) => Ok(Status::Discarded(*moment)),
        Status::Passed(moment) => Ok(Status::Passed(*moment)),
    }
}

// The status is the next code, where there is one.
fn push_code(codes: &mut Vec<Status>, status: &Option<Status>) -> Result<(), Memory>
    ensures { OnOk result (codes.new.items ≡ codes.old.items ++ option_to_list status.now) }
{
    if let Some(status) = status {
        let copy = copy_of(status)?;
        codes.push(copy)?;
    }
    Ok(())
}

/// The statuses of the recipients for whom this agent is responsible, in their order.
pub(crate) fn codes_of(alloc: Global, statuses: &[Option<Status>]) -> Result<Vec<Status>, Memory>
    ensures { IfOk result (λ codes. codes.items ≡ codes_of statuses.now) }
{
    let mut codes = Vec::with_capacity(alloc, statuses.len())?;
    for status in statuses {
        push_code(&mut codes, status)?;
    }
    Ok(codes)
}

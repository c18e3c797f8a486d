//! The statuses of recipients, of whom those have a code for whom this agent is responsible.

ghost use Rattle.std.specs.Prelude.{◌≡◌, ◌↔◌, IfOk, IsTrue, is_some, map};
ghost use Rattle.std.specs.List.{AllByRecursion};
ghost use Rattle.mta_histories.specs.Sound.{IsInTime};
ghost use Rattle.mta_records.specs.Snapshots.{since};
ghost use Rattle.mta_snapshots.specs.Items.{Spreads};

use mta_ber::Memory;
use mta_machine::Status;
use std::alloc::Global;

fn is_given(status: &Option<Status>) -> bool
    ensures { result ≡ is_some status.now }
{
    match status {
        None => false,
        Some(_) => true,
    }
}

/// The codes as statuses: in their order those of recipients who have one at first. None where they are not as many.
pub(crate) fn spread(
    alloc: Global,
    recipients: &[Option<Status>],
    codes: Vec<Status>,
) -> Result<Option<Vec<Option<Status>>>, Memory>
    ensures { IfOk result (Spreads (map is_some recipients.now) codes.items) }
{
    let mut statuses = Vec::with_capacity(alloc, recipients.len())?;
    let mut rest = codes.into_iter();
    for recipient in recipients {
        if !is_given(recipient) {
            statuses.push(None)?;
            continue;
        }
        match rest.next() {
            None => return Ok(None),
            Some(code) => statuses.push(Some(code))?,
        }
    }
    match rest.next() {
        None => Ok(Some(statuses)),
        Some(_) => Ok(None),
    }
}

fn since(status: &Status) -> u64
    ensures { result ≡ since status.now }
{
    match status {
        Status::Pending => 0,
        Status::Delivered(moment) => *moment,
        Status::Expanded(moment) => *moment,
        Status::Sent { moment, .. } => *moment,
        Status::Reported { moment, .. } => *moment,
        Status::Affirmed(moment) => *moment,
        Status::Discarded(moment) => *moment,
        Status::Passed(moment) => *moment,
    }
}

fn is_in_time(status: &Option<Status>, moment: u64) -> bool
    ensures { IsTrue result ↔ IsInTime moment status.now }
{
    match status {
        None => true,
        Some(status) => since(status) <= moment,
    }
}

/// Whether the moment of each status has come.
pub(crate) fn are_in_time(statuses: &[Option<Status>], moment: u64) -> bool
    ensures { IsTrue result ↔ AllByRecursion (IsInTime moment) statuses.now }
{
    for status in statuses {
        if !is_in_time(status, moment) {
            return false;
        }
    }
    true
}

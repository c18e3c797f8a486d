//! Recipients of activities that are dropped.

ghost use Rattle.std.specs.Prelude.{◌≡◌, ◌↔◌, true, ℕ, IsTrue};
ghost use Rattle.mta_histories.specs.Kept.{IsDroppedReported};
ghost use Rattle.mta_histories.specs.Lanes.{EachLane, is_dropping};
ghost use Rattle.mta_machine.specs.Items.{has_status, is_reported, is_reported_at, names, numbered};
ghost use Rattle.mta_state.specs.Parts.{machine_of};

use mta_lane_send::SendState;
use mta_lanes::Lane;
use mta_machine::{Item, Status};
use mta_state::Parts;

fn is_reported_status(status: &Status) -> bool
    ensures { result ≡ is_reported status.now }
{
    match status {
        Status::Pending => false,
        Status::Delivered(_) => false,
        Status::Expanded(_) => false,
        Status::Sent { .. } => false,
        Status::Reported { .. } => true,
        Status::Affirmed(_) => false,
        Status::Discarded(_) => true,
        Status::Passed(_) => false,
    }
}

// Whether a recipient of an item was reported, or was a report's that went no further.
fn is_reported_in(item: &Item, recipient: u32) -> bool
    ensures { result ≡ has_status is_reported (numbered item.now.statuses recipient) }
{
    if recipient == 0 {
        return false;
    }
    match item.statuses().get(recipient as usize - 1) {
        None => false,
        Some(None) => false,
        Some(Some(status)) => is_reported_status(status),
    }
}

fn is_reported(parts: &Parts, item: u32, recipient: u32) -> bool
    ensures { result ≡ is_reported_at (machine_of parts.now) item recipient }
{
    match parts.item(item) {
        None => false,
        Some(item) => is_reported_in(item, recipient),
    }
}

// Whether each of the recipients of an item was reported.
fn all_reported(parts: &Parts, item: u32, recipients: &[u32]) -> bool
    ensures { IsTrue result ↔ ((r : ℕ) → names recipients.now r ≡ true
        → is_reported_at (machine_of parts.now) item r ≡ true) }
{
    for recipient in recipients {
        if !is_reported(parts, item, *recipient) {
            return false;
        }
    }
    true
}

fn is_dropping(sending: SendState) -> bool
    ensures { result ≡ is_dropping sending }
{
    match sending {
        SendState::Idle { .. } => false,
        SendState::Sending { .. } => false,
        SendState::Ending { .. } => false,
        SendState::Dropping { .. } => true,
    }
}

// Whether each recipient of the activity of the lane was reported, where it is dropped.
fn is_settled(parts: &Parts, lane: &Lane) -> bool
    ensures { IsTrue result ↔ IsDroppedReported (machine_of parts.now) lane.now }
{
    if !is_dropping(lane.sending()) {
        return true;
    }
    match lane.transfer() {
        None => true,
        Some(transfer) => all_reported(parts, transfer.item(), transfer.recipients()),
    }
}

/// Whether each recipient of an activity that is dropped was reported.
pub(crate) fn are_settled(parts: &Parts, lanes: &[Lane]) -> bool
    ensures { IsTrue result ↔ EachLane (IsDroppedReported (machine_of parts.now)) lanes.now }
{
    for lane in lanes {
        if !is_settled(parts, lane) {
            return false;
        }
    }
    true
}

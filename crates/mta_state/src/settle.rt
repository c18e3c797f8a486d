//! The statuses of an item's recipients.

ghost use Rattle.std.specs.Prelude.{◌≡◌, ◌+◌, ◌∷◌, [], length, slice_get, vec_len, vec_capacity};
ghost use Rattle.std.specs.Option.{option_copied};
ghost use Rattle.mta_machine.specs.Items.{numbered, has_status, is_pending};
ghost use Rattle.mta_state.specs.Settled.{put_settled, with_settled};

use mta_machine::{Item, Status, is_pending_status};

fn status_of(statuses: &[Option<Status>], recipient: u32) -> Option<&Option<Status>>
    ensures { option_copied result ≡ numbered statuses.now recipient }
{
    if recipient == 0 {
        return None;
    }
    statuses.get(recipient as usize - 1)
}

/// Whether this agent is responsible for the recipient of this number, from 1, who is not discharged.
pub fn is_pending(item: &Item, recipient: u32) -> bool
    ensures { result ≡ has_status is_pending (numbered item.now.statuses recipient) }
{
    match status_of(item.statuses(), recipient) {
        Some(Some(status)) => is_pending_status(status),
        _ => false,
    }
}

// The recipient of the item at this place, from 0, has this status from now on.
fn settle_at(items: &mut Vec<Item>, place: usize, recipient: u32, status: Status)
    ensures items { items.new.items
        ≡ put_settled items.old.items (place + 1) (slice_get items.old.items place) (recipient ∷ []) status }
    ensures len { vec_len items.new ≡ vec_len items.old }
    ensures capacity { vec_capacity items.new ≡ vec_capacity items.old }
{
    if let Some(item) = items.get_mut(place) {
        item.set_status(recipient, status);
    }
}

/// The recipient of the item with this number, from 1, has this status from now on.
pub fn settle(items: &mut Vec<Item>, number: u32, recipient: u32, status: Status)
    ensures items { items.new.items ≡ with_settled items.old.items number (recipient ∷ []) status }
    ensures len { vec_len items.new ≡ vec_len items.old }
    ensures capacity { vec_capacity items.new ≡ vec_capacity items.old }
{
    if number == 0 {
        return;
    }
    settle_at(items, number as usize - 1, recipient, status);
}

//! The change that settles one recipient.

ghost use Rattle.std.specs.Prelude.{◌≡◌, ◌+◌, ◌<◌, ◌^◌, ◌↔◌, IsTrue, length};
ghost use Rattle.mta_state.specs.Parts.{made_items};
ghost use Rattle.mta_replay.specs.Settling.{settling_change};

use mta_machine::{MailboxLine, Status};
use mta_state::{Change, Kept, Made};

/// The number that the next item has.
pub fn next_number(kept: &Kept) -> u64
    ensures { result ≡ length kept.now.parts.items.items + 1 }
{
    kept.parts.items.len() as u64 + 1
}

// Whether each item that is made has a number.
fn has_numbers(kept: &Kept, made: &Made) -> bool
    ensures { IsTrue result ↔ (length kept.now.parts.items.items + length (made_items made.now) < 2 ^ 32) }
{
    kept.parts.items.len() + made.count() <= u32::MAX as usize
}

/// The change that settles a recipient; none where an item that is made has no number.
pub fn settling_change(
    kept: &Kept,
    item: u32,
    recipient: u32,
    status: Status,
    made: Made,
    line: Option<MailboxLine>,
    moment: u64,
) -> Option<Change>
    ensures { result ≡ settling_change kept.now.parts.items.items item recipient status made line moment }
{
    if !has_numbers(kept, &made) {
        return None;
    }
    Some(Change::Settle {
        item,
        recipient,
        status,
        made,
        line,
        moment,
    })
}

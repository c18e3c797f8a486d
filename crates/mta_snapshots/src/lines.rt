//! Deliveries to mailboxes.

ghost use Rattle.std.specs.Prelude.{◌↔◌, IsTrue};
ghost use Rattle.std.specs.List.{AllByRecursion};
ghost use Rattle.mta_histories.specs.Sound.{IsSoundLine};
ghost use Rattle.mta_state.specs.Kept.{state_of};

use mta_machine::MailboxLine;
use mta_state::Kept;

// Whether it is a delivery of an item that there is, at a moment that has come.
fn is_line(kept: &Kept, line: &MailboxLine) -> bool
    ensures { IsTrue result ↔ IsSoundLine (state_of kept.now) line.now }
{
    1 <= line.item && line.item as usize <= kept.parts.items.len() && line.moment <= kept.moment
}

/// Whether each delivery is one of an item that there is, at a moment that has come.
pub(crate) fn are_lines(kept: &Kept) -> bool
    ensures { IsTrue result ↔ AllByRecursion (IsSoundLine (state_of kept.now)) kept.now.parts.mailboxes.items }
{
    for line in kept.parts.mailboxes.as_slice() {
        if !is_line(kept, line) {
            return false;
        }
    }
    true
}

//! A delivery, and what it makes.

use mta_machine::Item;

/// Where a recipient is delivered to: the place of the mailbox in the tables, from 0, and the item that is the
/// delivery report, where there is one.
#[derive(Drop)]
pub struct Delivery {
    pub place: u32,
    pub report: Option<Item>,
}

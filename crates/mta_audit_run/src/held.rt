//! How the octets of an activity are held.

use mta_ber::Octets;
use mta_records::Outgoing;
use std::alloc::Global;
use std::sync::Arc;

/// How the octets of an activity are held. Each piece is held once, however many activities have it.
#[derive(Drop)]
pub enum Held {
    /// In one piece, as an item has them.
    Whole(Arc<Octets, Global>),
    /// As they are transferred: a head of their own, and a part of the item's octets behind it.
    Carried(Arc<Outgoing, Global>),
}

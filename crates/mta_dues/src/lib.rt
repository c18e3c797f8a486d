//! What is due in the state of a spool, and what goes to a peer next. For what is due only those items are looked at
//! that may have something due (`Agenda`), so a look costs by how many there are of these, and by a logarithm by how
//! many items there are. It begins behind those recipients of the item that the last one found to wait (`Looked`). For
//! a peer only those of its queue are looked at that may be relayed at the moment: what is held, and what has expired,
//! is passed over unread (`Spans`). An item is read once for all its recipients, and its reading is kept for the step
//! that follows (`Hand`).
#![tactic(auto)]

mod agenda;
mod due;
mod hand;
mod index;
mod learning;
mod looked;
mod next;
mod relay;
mod rest;
mod scan;
mod spans;

pub use agenda::Agenda;
pub use due::due_of;
pub use hand::Hand;
pub use index::Index;
pub use looked::Looked;
pub use relay::{batch_for, is_to_relay};
pub use rest::note;
pub use scan::due_step;
pub use spans::Spans;

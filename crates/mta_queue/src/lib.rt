//! The queues of peers: for each the items of which recipients wait for it, ascending, kept from change to change.
#![tactic(auto)]

mod mark;
mod peers;
mod queue;
mod queues;
mod row;

pub use mark::{Mark, Marks};
pub use queue::Queue;
pub use queues::Queues;

//! The texts that show what an agent holds: the queue with its lanes, and a mailbox. Each line ends with a line feed.
#![tactic(auto)]

mod lanes;
mod law;
mod mailbox;
mod queue;
mod status;

pub use law::snapshots_print_the_same;
pub use mailbox::{put_apdu_of, show_mailbox};
pub use mta_apdu_text::show_apdu;
pub use queue::show_queue;

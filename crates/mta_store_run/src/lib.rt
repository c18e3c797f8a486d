//! What a mailbox holds: listed, fetched and deleted, over a spool and a journal of marks.
#![tactic(auto)]

mod asked;
mod deciding;
mod law;
mod lines;
mod listing;
mod number;
mod run;
mod stop;

pub use law::entries_stay;
pub use lines::tell;
pub use run::{Stored, store_run};
pub use stop::Stop;

//! The state in memory that a snapshot has, with which a history may begin, and the snapshot of a state.
//!
//! `begun` reads the octets of each item once, and those of an activity's item once more for each activity that may be
//! completed. It puts each lane together from its record, and then looks at the state in memory that these are. It
//! answers the state, or none where a history may not begin with the snapshot.
//! `snapshot_of` shares the octets of items and of activities, and reads each message that nobody wants once.
#![tactic(auto)]

mod codes;
mod compact;
mod copies;
mod first;
mod fits;
mod halves;
mod items;
mod lanes;
mod lines;
mod marks;
mod names;
mod numbering;
mod once;
mod read;
mod recorded;
mod reported;
mod spent;
mod statuses;
mod texts;
mod transfers;

pub use compact::snapshot_of;
pub use first::begun;

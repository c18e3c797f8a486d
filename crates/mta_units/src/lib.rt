//! The units of an association, and their framing: units are read from a stream that comes in pieces of any size.
#![tactic(auto)]

mod body;
mod fixed;
mod frames;
mod front;
mod kind;
mod laws;
mod look;
mod next;
mod unit;
mod writing;

pub use frames::Frames;
pub use front::BadUnit;
pub use laws::{streams_have_one_reading, units_are_read_again};
pub use mta_records::Reference;
pub use mta_rtse::{Answer, Request};
pub use next::Next;
pub use unit::{OpenUnit, Unit};
pub use writing::write_unit;

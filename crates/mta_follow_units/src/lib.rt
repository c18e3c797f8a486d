//! The units with which a spool's records go to a standby, read from a stream that comes in pieces of any size.
#![tactic(auto)]

mod due;
mod laws;
mod look;
mod reader;
mod writing;

pub use due::Due;
pub use laws::{looks_are_exact, looks_do_not_change, units_are_read_again};
pub use look::{Look, look_at};
pub use reader::Reader;
pub use writing::{DONE, KEPT, number_unit, record_head};

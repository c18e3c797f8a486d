//! The outside as the agent sees it: sources, sinks, clocks and disks, each with a count of faults; sources that are
//! read to their end, and pieces that are put whole to a sink.
#![tactic(auto)]

mod calls;
mod images;
mod log;
mod memory_disk;
mod memory_streams;
mod outside;
mod put;
mod read;
mod safe_disk;
mod tear;

pub use calls::Calls;
pub use log::{Called, Done};
pub use memory_disk::MemDisk;
pub use memory_streams::{MemClock, MemSink, MemSource, SafeSink, SafeSource, give};
pub use mta_ber::{Memory, Octets};
pub use outside::{Clock, Disk, Failed, Sink, Source};
pub use put::put_all;
pub use read::{SourceFault, read_all};
pub use safe_disk::SafeDisk;
pub use tear::Tear;

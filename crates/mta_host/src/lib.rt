//! The adapters: the real file, streams, clock and connections. They tell nothing of what they hold.
#![tactic(auto)]

mod calling;
mod clock;
mod file_disk;
mod host;
mod interrupts;
mod limits;
mod listening;
mod notes;
mod patience;
mod process;
mod standard;
mod streams;
mod tcp_link;
mod tcp_station;
mod unit;

pub use clock::SystemClock;
pub use file_disk::{FileDisk, Pair, Path};
pub use host::Host;
pub use interrupts::again;
pub use notes::Place;
pub use patience::{
    ADMISSION_SECONDS, ALL_PLACES, ANSWER_SECONDS, BINDS, CALLS, LEAST_OCTETS,
    LONGEST_PAUSE_SECONDS, OPENING_OCTETS, OPENING_SECONDS, PAUSE_SECONDS, PLACES, Patience,
    SILENCE_SECONDS, SPARE_FILES,
};
pub use process::Process;
pub use standard::{NO_STREAMS, Streams};
pub use streams::{Octets, Reading, Writing};
pub use tcp_link::{TcpLink, Went};
pub use tcp_station::TcpStation;

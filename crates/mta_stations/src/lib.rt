//! What serving at several stations needs beside the workers: which stations may be handed in for the words of a
//! command line, and what is told of the workers' ends.
#![tactic(auto)]

mod decision;
mod end;
mod lines;
mod peers;
mod roles;

pub use decision::deciding;
pub use end::{Halt, WorkerEnd, halt_of};
pub use lines::station_lines;
pub use peers::unnamed_peer;
pub use roles::have_roles;

//! What the agents of a drill answer their sessions: their disks are in memory, and their clocks stand still.
#![tactic(auto)]

mod laws;

pub use laws::{looks_are_asked, questions_are_asked};

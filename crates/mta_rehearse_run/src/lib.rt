//! Where the messages for an O/R name would go, through the tables of several agents.
#![tactic(auto)]

mod asked;
mod checking;
mod hops;
mod laws;
mod lines;
mod named;
mod network;
mod rehearsal;
mod run;
mod stop;
mod text;
mod turn;
mod twice;
mod walk;
mod walked;

pub use checking::check_walk;
pub use laws::{loops_are_met_in_the_trace, walks_are_one};
pub use lines::tell;
pub use run::rehearse_run;
pub use stop::Stop;
pub use walk::walk_from;
pub use walked::{Walk, WalkEnd};

//! The printed texts of messages, probes and reports. Each line ends with a line feed.
#![tactic(auto)]

mod apdu;
mod envelope;
mod lines;
mod pieces;
mod report;
mod reported;

pub use apdu::{put_apdu, show_apdu};
pub use pieces::{put_id, put_moment, put_name, put_number};

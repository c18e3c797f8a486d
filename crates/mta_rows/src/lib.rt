//! What the programs of rows share. Such a program reads a row a line from its input, each with fields behind tabs,
//! and tells of each whether it was answered as it says.
#![tactic(auto)]

mod fields;
mod names;
mod octets;
mod told;

pub use fields::{Fields, is_wanted, number};
pub use names::Names;
pub use octets::{RowFault, lines_of, octets_of, words_of};
pub use told::{pairs, said, shown, tell};

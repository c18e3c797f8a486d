//! The words of the command line, as a command.
//!
//! `Words::read` reads the words behind the program's name, and `Words` is what they say. Which words say
//! what is the relation `Says` (`specs/Words.antt`); `read` answers a value exactly where one has these words.
#![tactic(auto)]

mod cut;
mod number;
mod split;
mod station;
mod stations;
mod verb;
mod words;

pub use station::StationWord;
pub use stations::Stations;
pub use words::Words;

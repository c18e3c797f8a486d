//! A journal on one disk: bodies one behind the other, each in a record behind a gate, in one area or in the current
//! one of two. A crash at any moment leaves those that were appended, in order, with all that were acknowledged, or the
//! one that was put in the place of them all; no checksum is trusted.
#![tactic(auto)]

mod ahead;
mod areas;
mod journal;
mod law;
mod open;
mod parts;
mod read;
mod rest;
mod why;

pub use journal::{AppendFault, JOURNAL_LIMIT, Journal};
pub use law::{not_both, one_area, one_list, one_place};
pub use open::{OpenFault, Opened};
pub use read::{LONGEST_BODY, LONGEST_FIRST};
pub use rest::Rest;
pub use why::OpenWhy;

//! The state of a spool in memory, without disk and clock: what a history leads to (`Kept`), what a step changes of it
//! (`Change`), and what is asked of the rules of X.411 under the tables of one text (`Rules`). Each step of the machine
//! of recipients (X.411, clause 14) is one change of `Parts`, which takes no memory where room was found before.
#![tactic(auto)]

mod change;
mod decoded;
mod delivery;
mod kept;
mod on_lane;
mod parts;
mod reading;
mod readings;
mod rest;
mod rules;
mod secure;
mod settle;
mod verdict;

pub use change::{Change, Settlement};
pub use decoded::Decoded;
pub use delivery::Delivery;
pub use kept::Kept;
pub use parts::{Made, Parts};
pub use reading::{accepted_item, shared_item};
pub use readings::{Reading, back_of};
pub use rest::{Rest, Span, Submitted};
pub use rules::Rules;
pub use settle::is_pending;
pub use verdict::{calls_at_once, verdict_on};

//! The state that a history leads to, as a value (`Replay`): steps are taken up where they are possible, and it tells
//! what is due and what waits. What a step changes is found before its record is written, by a call for each kind of
//! step, and there is nothing exactly where the step is not possible.
#![tactic(auto)]

mod accept;
mod anew;
mod complete;
mod deliver;
mod different;
mod failing;
mod failure;
mod finds;
mod law;
mod looking;
mod open;
mod outcome;
mod prepare;
mod queued;
mod ready;
mod replay;
mod report;
mod sending;
mod settling;
mod start;
mod touched;

pub use accept::{Arrival, prepare_accept, prepare_arrival, prepare_tables};
pub use complete::complete_change;
pub use deliver::{prepare_affirm, prepare_deliver, prepare_expand};
pub use law::tables_come_first;
pub use mta_snapshots::snapshot_of;
pub use open::prepare_open;
pub use outcome::{prepare_abandon, prepare_denied, prepare_refused, prepare_sent};
pub use replay::{InForce, NotMade, Ready, Replay};
pub use report::{prepare_back, prepare_discard, prepare_report};
pub use start::{prepare_start, start_change, transfer_next};

//! Two spools, lane by lane: whether one end completed once what the other holds as sent.
#![tactic(auto)]

mod account;
mod accounts;
mod activity;
mod audit;
mod half;
mod held;
mod laws;
mod lines;
mod opening;
mod partners;
mod run;
mod side;
mod stop;
mod text;
mod told;
mod verdict;

pub use laws::verdicts_are_exact;
pub use lines::tell;
pub use run::{Audited, audit_run};
pub use stop::{Spool, Stop};

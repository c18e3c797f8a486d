//! The commands over a spool: what they read, add and print, and how a run ends. And what `serve` does of its own
//! over an open spool, before its workers and behind them.
#![tactic(auto)]

pub mod decode;
mod ended;
mod inputs;
mod lines;
pub mod mailbox;
pub mod print;
pub mod queue;
mod serving;
mod stop;
pub mod submit;

pub use ended::{Ended, refused};
pub use inputs::tables_of;
pub use lines::{close, tell, tell_line};
pub use serving::{begin, finish};
pub use stop::{Stop, stop_of_open, stop_of_step};

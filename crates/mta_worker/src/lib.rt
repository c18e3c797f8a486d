//! A worker serves one session after another on the links of a station, over a spool that it shares with other workers
//! under a lock. Workers run side by side, each with a station of its own. What a session proposes to its peer comes
//! from the tables.
#![tactic(auto)]

mod answering;
mod jobs;
mod line;
mod name;
mod peer_line;
mod plan;
mod plan_laws;
mod proposal;
mod ready;
mod serving;
mod session;
mod side;
mod telling;
mod turn;
mod worker;

pub use answering::answer;
pub use jobs::Job;
pub use line::line_of;
pub use mta_stations::{Halt, WorkerEnd, halt_of};
pub use name::own_name;
pub use peer_line::line_in;
pub use plan::{on_lane, plan_to_open, plan_to_recover};
pub use plan_laws::{lines_may_be_told, tables_of_a_text_have_lines};
pub use proposal::{Next, next_with};
pub use ready::{Ready, get_ready};
pub use serving::serve_link;
pub use session::Served;
pub use side::{Worked, work_side_by_side};
pub use telling::{Lost, fault_of, halt_after, told};
pub use turn::{answer_all, answer_looks};
pub use worker::work;

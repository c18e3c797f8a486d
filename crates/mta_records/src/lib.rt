//! The steps of the spool, their records as octets, and what a session and the spool tell each other of a lane.
#![tactic(auto)]

mod fault;
mod fields;
mod items;
mod kind;
mod lane;
mod lane_records;
mod laws;
mod lists;
mod outgoing;
mod reading;
mod reference;
mod sizes;
mod snapshot;
mod snapshots;
mod state;
mod step;
mod writing;

pub use fault::{CompleteFault, RecordFault, StepFault};
pub use kind::RecordKind;
pub use lane::{Batch, LaneRole, LaneValues, Recipients};
pub use laws::{a_body_is_of_one_step, a_record_is_read_again};
pub use outgoing::Outgoing;
pub use reading::read_record;
pub use reference::Reference;
pub use snapshot::{ItemRecord, LaneRecord, Snapshot, TransferRecord};
pub use state::{MailboxLine, Origin, Status};
pub use step::Step;
pub use writing::write_record;

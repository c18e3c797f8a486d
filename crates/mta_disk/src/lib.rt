//! Octets on a disk that a crash may stop at any moment: what stands there is read, and a record is written behind a
//! closed gate, which is lifted when the record is safe.
#![tactic(auto)]

mod areas;
mod cut;
mod gate;
mod long;
mod read;

pub use areas::{choose, point_high, shut};
pub use cut::cut_to;
pub use gate::{PutFault, frame_of, lift_gate, put_closed, put_frame, write_synced};
pub use read::{ReadAtFault, read_at};

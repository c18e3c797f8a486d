//! Laws of soundness: the state after a history whose steps are records may be recorded in a snapshot, which is a
//! record itself.
#![tactic(auto)]

mod law;

pub use law::{recorded_steps_stay_sound, snapshots_fit};

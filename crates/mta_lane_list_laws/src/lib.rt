//! Session lists of one lane, one behind the other: they have the steps of the history in its order, and the two ends
//! of the lane agree.
#![tactic(auto)]

mod laws;

pub use laws::{
    called_lanes_agree, lanes_agree, lists_in_turn_agree, lists_in_turn_rise, lists_stand_between,
};

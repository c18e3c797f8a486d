//! The components of a SET stand in any order: laws of names, messages, probes and reports, and of the protocol data
//! units and binds of X.228, in a crate of their own so that the readers are not proved again with them.
#![tactic(auto)]

mod laws;
mod unit_laws;

pub use laws::components_stand_in_any_order;
pub use unit_laws::components_of_units_stand_in_any_order;

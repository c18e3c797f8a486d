//! Links that carry octets both ways, and stations that give links.
#![tactic(auto)]

mod close_why;
mod laws;
mod link;
mod memory_link;
mod memory_station;
mod role;
mod safe_link;
mod station;

pub use close_why::CloseWhy;
pub use laws::{in_order, one_input};
pub use link::Link;
pub use memory_link::MemLink;
pub use memory_station::MemStation;
pub use role::Role;
pub use safe_link::SafeLink;
pub use station::Station;

//! Tests that start threads or wait: turns of a lock, and workers side by side over one spool. They stand apart, so
//! that no library is proved again with them, and no other test may wait.
#![tactic(auto)]

#[cfg(test)]
mod shared;
#[cfg(test)]
mod workers;

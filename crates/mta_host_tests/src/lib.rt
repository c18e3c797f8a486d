//! Tests of the adapters over real files and streams, of the real clock, and of connections over the loopback.
#![tactic(auto)]

#[cfg(test)]
mod files;
#[cfg(test)]
mod links;
#[cfg(test)]
mod pairs;
#[cfg(test)]
mod peers;
#[cfg(test)]
mod stations;

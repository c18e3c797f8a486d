//! The station and the limits of a worker.

use crate::given::role_of;
use crate::workers::held::{Given, Held};
use anyhow::Result;
use mta_edge::Octets;
use mta_links::{MemLink, MemStation};
use mta_session::Limits;
use std::alloc::Global;

pub fn link(alloc: Global, given: &Given) -> Result<MemLink> {
    let input = Octets::from_slice(alloc, given.octets.as_slice())?;
    Ok(MemLink::new(alloc, input, [given.fails].to_vec(alloc)?))
}

fn links(alloc: Global, held: &Held) -> Result<Vec<MemLink>> {
    let mut links = Vec::new(alloc);
    for given in held.given.iter() {
        links.push(link(alloc, given)?)?;
    }
    Ok(links)
}

/// A station of this role, with the links that were given.
pub fn station(alloc: Global, held: &Held, role: &str) -> Result<MemStation> {
    let role = role_of(alloc, role)?;
    let fails = [held.station_fails].to_vec(alloc)?;
    let links = links(alloc, held)?;
    Ok(MemStation::new(alloc, role, links, fails)?)
}

pub fn limits(held: &Held) -> Limits {
    Limits {
        sessions: held.sessions,
        units: held.units.max(1),
    }
}

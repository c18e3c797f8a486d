//! Stations in memory: each gives one link, whose peer gives the octets of a row. A link that is held gives nothing
//! before another station's link has come back.

ghost use Rattle.mta_links.specs.Links.{untold_link, untold_station};

use crate::given::role_of;
use crate::runs::held::{Given, Held};
use anyhow::Result;
use mta_edge::{Failed, Octets};
use mta_links::{Link, MemLink, Role, Station};
use std::alloc::{AllocError, Global};
use std::sync::Wait;
use std::sync::atomic::{AtomicU64, Ordering};
use std::time::Duration;

// How often a link that is held looks whether another one has come back, and for how many milliseconds it sleeps in
// between.
const LOOKS: u32 = 10_000;

const PAUSE: u64 = 2;

/// A link in memory. The flag goes up where a link comes back; one that is held waits for it.
#[derive(Drop)]
pub struct Line<'a, R> {
    link: MemLink,
    runtime: &'a R,
    flag: &'a AtomicU64,
    is_held: bool,
}

impl<R: Wait> Line<'_, R> {
    // Whether the flag is up, at last.
    fn is_flagged(&self) -> bool {
        for _ in 0..LOOKS {
            if self.flag.load(Ordering::SeqCst) > 0 {
                return true;
            }
            self.flag
                .park_timeout(self.runtime, 0, Duration::from_millis(PAUSE));
        }
        false
    }
}

impl<R: Wait> Link for Line<'_, R> {
    ghost model = { untold_link (λ l. l.link.faults) };

    fn get(&mut self, into: &mut [u8]) -> Result<usize, Failed> {
        if self.is_held && !self.is_flagged() {
            return Ok(0);
        }
        self.link.get(into)
    }

    fn put(&mut self, bytes: &[u8]) -> Result<usize, Failed> {
        self.link.put(bytes)
    }
}

/// A station with one link.
#[derive(Drop)]
pub struct Stop<'a, R> {
    role: Role,
    line: Option<Line<'a, R>>,
    ended: Option<Line<'a, R>>,
    flag: &'a AtomicU64,
    out: u64,
}

impl<'a, R: Wait> Station for Stop<'a, R> {
    type Link = Line<'a, R>;

    ghost model = { untold_station (λ s. s.role) (λ s. s.out) (λ _. 0) };

    fn role(&self) -> &Role {
        &self.role
    }

    fn next(&mut self) -> Result<Option<Line<'a, R>>, Failed> {
        if self.out > 0 {
            return Ok(None);
        }
        match self.line.take() {
            Some(line) => {
                self.out = 1;
                Ok(Some(line))
            }
            None => Ok(None),
        }
    }

    fn back(&mut self, link: Line<'a, R>) {
        self.out -= 1;
        self.ended = Some(link);
        self.flag.store(1, Ordering::SeqCst);
        self.flag.wake_all();
    }
}

fn stop_of<'a, R>(
    alloc: Global,
    runtime: &'a R,
    flag: &'a AtomicU64,
    given: &Given,
) -> Result<Stop<'a, R>> {
    let role = role_of(alloc, given.role.as_str())?;
    let input = Octets::from_slice(alloc, given.octets.as_slice())?;
    let line = Line {
        link: MemLink::new(alloc, input, Vec::new(alloc)),
        runtime,
        flag,
        is_held: given.is_held,
    };
    Ok(Stop {
        role,
        line: Some(line),
        ended: None,
        flag,
        out: 0,
    })
}

/// The stations that were handed in, in order.
pub fn stations_of<'a, R>(
    alloc: Global,
    runtime: &'a R,
    flag: &'a AtomicU64,
    held: &Held,
) -> Result<Vec<Stop<'a, R>>> {
    let mut stations = Vec::new(alloc);
    for given in held.stations.iter() {
        stations.push(stop_of(alloc, runtime, flag, given)?)?;
    }
    Ok(stations)
}

// What the link of a station was put; nothing where it never came back.
fn was_put<'a, R>(stop: &'a Stop<'_, R>) -> &'a [u8] {
    match &stop.ended {
        Some(line) => line.link.octets(),
        None => &[],
    }
}

/// What the link of each station was put.
pub fn puts_of<R>(alloc: Global, stations: &[Stop<'_, R>]) -> Result<Vec<Vec<u8>>, AllocError> {
    let mut puts = Vec::new(alloc);
    for stop in stations {
        puts.push(was_put(stop).to_vec(alloc)?)?;
    }
    Ok(puts)
}

//! What a crash leaves of the disk of a run.

use crate::follow::held::Held;
use crate::follow::made::run_of;
use anyhow::Result;
use mta_edge::{MemDisk, Octets};
use mta_journal::{Journal, Opened};
use std::alloc::Global;

// So many choices of what a crash leaves are tried at each call.
const CHOICES: u64 = 16;

// The bodies of the records of an image; none where it is no journal.
fn bodies_of(alloc: Global, image: Octets) -> Result<Option<Vec<Octets>>> {
    match Journal::open(alloc, MemDisk::new(alloc, image, Vec::new(alloc))) {
        Ok(Opened { bodies, .. }) => Ok(Some(bodies)),
        Err(_) => Ok(None),
    }
}

// Whether the bodies are the first ones of the others.
fn begin(bodies: &[Octets], others: &[Octets]) -> bool {
    bodies.len() <= others.len()
        && bodies
            .iter()
            .zip(others.iter())
            .all(|(body, other)| body.as_slice() == other.as_slice())
}

// Whether each image at this call has at least so many records, and those that the disk had in the end; and the most
// that one has.
fn most_at(
    alloc: Global,
    disk: &MemDisk,
    call: u64,
    least: usize,
    last: &[Octets],
) -> Result<Option<usize>> {
    let mut most = 0;
    for choice in 0..CHOICES {
        let image = disk.image(call, choice)?;
        match bodies_of(alloc, image)? {
            Some(bodies) => {
                if bodies.len() < least || !begin(bodies.as_slice(), last) {
                    return Ok(None);
                }
                most = most.max(bodies.len());
            }
            None => return Ok(None),
        }
    }
    Ok(Some(most))
}

// The bodies of the records of these octets; none where they are no journal.
fn standing(alloc: Global, bytes: &[u8]) -> Result<Vec<Octets>> {
    match bodies_of(alloc, Octets::from_slice(alloc, bytes)?)? {
        Some(bodies) => Ok(bodies),
        None => Ok(Vec::new(alloc)),
    }
}

// The call at which an image has others than the records of the end, or the most that one has.
fn told(alloc: Global, disk: &MemDisk, before: usize, last: &[Octets]) -> Result<String> {
    let mut most = before;
    for call in 0..disk.calls().saturating_add(1) {
        match most_at(alloc, disk, call, before, last)? {
            Some(count) => most = most.max(count),
            None => return Ok(format!(in alloc; "others at {call}")?),
        }
    }
    Ok(format!(in alloc; "from {before} to {most}")?)
}

/// Runs words, stops the run at each of its disk calls by several choices of what a crash leaves, and opens each image:
/// `from A to B` where each has the first of the records that the disk has in the end, no fewer than the A that it had
/// before, and one has the B of the end; else the call at which one has others.
pub fn crashes(alloc: Global, held: &Held, line: &str) -> Result<String> {
    let before = standing(alloc, held.disk.as_slice())?.len();
    let run = run_of(alloc, held, line, held.disk_fails)?;
    let last = standing(alloc, run.disk().octets())?;
    told(alloc, run.disk(), before, last.as_slice())
}

/// How many octets the disk holds, and how many records.
pub fn records(alloc: Global, held: &Held) -> Result<String> {
    let count = standing(alloc, held.disk.as_slice())?.len();
    let size = held.disk.len();
    Ok(format!(in alloc; "{size} octets, {count} records")?)
}

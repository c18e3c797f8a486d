//! Runs over what is handed in. All that may want memory is made before the objects: where they would be let go on each
//! way of a `?`, the proof goes through all their parts.

use crate::follow::held::Held;
use crate::follow::link::Booth;
use anyhow::Result;
use mta_edge::{MemClock, MemDisk, MemSink, Octets};
use mta_follow_run::{Followed, follow_run};
use mta_rows::{said, words_of};
use std::alloc::{AllocError, Global};

fn booth_of(alloc: Global, held: &Held) -> Result<Booth> {
    let input = Octets::from_slice(alloc, held.input.as_slice())?;
    let fail = [held.link_fails].to_vec(alloc)?;
    let mut booth = Booth::new(held.station_fails != 0);
    if held.has_link {
        booth.give(alloc, input, held.most, fail);
    }
    Ok(booth)
}

// The call alone, since nothing behind it asks for its clauses.
fn called(
    alloc: Global,
    words: &[String],
    out: &mut MemSink,
    disk: MemDisk,
    booth: Booth,
    clock: MemClock,
) -> Followed<MemDisk, Booth> {
    follow_run(alloc, words, out, disk, booth, clock)
}

/// A run of words, with what it printed.
pub struct Run {
    out: MemSink,
    followed: Followed<MemDisk, Booth>,
}

// Written out, since a derived one is opened anew, field by field, at each place where a value is let go.
impl Drop for Run {
    fn drop(self) {
        let Run {
            out: _,
            followed: _,
        } = self;
    }
}

impl Run {
    pub fn status(&self) -> u8 {
        self.followed.status
    }

    pub fn disk(&self) -> &MemDisk {
        &self.followed.disk
    }

    /// What the link was put.
    pub fn was_put(&self) -> &[u8] {
        self.followed.station.was_put()
    }

    /// The status and what was printed.
    pub fn said(&self, alloc: Global) -> Result<String, AllocError> {
        said(alloc, self.followed.status, self.out.octets())
    }
}

// What words make of what is handed in, and what they print.
fn followed(
    alloc: Global,
    held: &Held,
    line: &str,
    disk_fails: u64,
    out: &mut MemSink,
) -> Result<Followed<MemDisk, Booth>> {
    let words = words_of(alloc, line, ',')?;
    let disk = Octets::from_slice(alloc, held.disk.as_slice())?;
    let fails = [disk_fails].to_vec(alloc)?;
    let moments = [0u64].to_vec(alloc)?;
    let booth = booth_of(alloc, held)?;
    Ok(called(
        alloc,
        words.as_slice(),
        out,
        MemDisk::new(alloc, disk, fails),
        booth,
        MemClock::new(moments),
    ))
}

/// A run of the words over what is handed in, with a disk whose calls of this number fail.
pub fn run_of(alloc: Global, held: &Held, line: &str, disk_fails: u64) -> Result<Run> {
    let mut out = MemSink::new(alloc, [held.output_fails].to_vec(alloc)?);
    let followed = followed(alloc, held, line, disk_fails, &mut out)?;
    Ok(Run { out, followed })
}

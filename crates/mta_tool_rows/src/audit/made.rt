//! Runs, and what they print. What a run leaves is let go in a call of its own, and all that may want memory is made
//! before the objects: where they would be let go on each way of a `?`, the proof goes through all their parts.

use crate::audit::held::Held;
use crate::given::held_by;
use anyhow::Result;
use mta_audit_run::{Audited, audit_run};
use mta_edge::{MemDisk, MemSink, Octets};
use mta_rows::{said, words_of};
use std::alloc::{AllocError, Global};
use std::mem;

// The call alone, since nothing behind it asks for its clauses.
fn called(
    alloc: Global,
    words: &[String],
    out: &mut MemSink,
    first: MemDisk,
    second: MemDisk,
) -> Audited<MemDisk, MemDisk> {
    audit_run(alloc, words, out, first, second)
}

// What words make of the disks, and what they print.
fn audited(
    alloc: Global,
    held: &Held,
    line: &str,
    out: &mut MemSink,
) -> Result<Audited<MemDisk, MemDisk>> {
    let words = words_of(alloc, line, ',')?;
    let first = Octets::from_slice(alloc, held.first.as_slice())?;
    let first_fails = [held.first_fails].to_vec(alloc)?;
    let second = Octets::from_slice(alloc, held.second.as_slice())?;
    let second_fails = [held.second_fails].to_vec(alloc)?;
    Ok(called(
        alloc,
        words.as_slice(),
        out,
        MemDisk::new(alloc, first, first_fails),
        MemDisk::new(alloc, second, second_fails),
    ))
}

// What the disks of a run hold, which are let go.
fn left(
    alloc: Global,
    audited: Audited<MemDisk, MemDisk>,
) -> Result<(Vec<u8>, Vec<u8>), AllocError> {
    held_by(alloc, &audited.first, &audited.second)
}

fn ran_into(alloc: Global, held: &mut Held, line: &str, out: &mut MemSink) -> Result<String> {
    let audited = audited(alloc, held, line, out)?;
    let status = audited.status;
    let (first, second) = left(alloc, audited)?;
    held.first_before = mem::replace(&mut held.first, first);
    held.second_before = mem::replace(&mut held.second, second);
    Ok(said(alloc, status, out.octets())?)
}

/// The status and what was printed. The disks are kept as the run leaves them, and what they held before it.
pub fn ran(alloc: Global, held: &mut Held, line: &str) -> Result<String> {
    let mut out = MemSink::new(alloc, [held.output_fails].to_vec(alloc)?);
    ran_into(alloc, held, line, &mut out)
}

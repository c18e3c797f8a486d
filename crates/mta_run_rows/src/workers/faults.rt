//! A worker whose disk fails at each call in turn, or that is stopped at each.

use crate::given::disk_of;
use crate::spools::opened;
use crate::workers::held::Held;
use crate::workers::spooled::queue;
use crate::workers::works::{Worked, calls_of_opening, said, work_at};
use anyhow::Result;
use mta_edge::MemDisk;
use mta_rows::{Fields, is_wanted};
use mta_worker::WorkerEnd;
use std::alloc::Global;
use std::sync::Wait;

// How many choices of what a crash leaves are tried at each call.
const CHOICES: u64 = 8;

// The disk behind a worker over which no call fails, with the log of its calls.
fn whole<R: Wait>(rt: &R, alloc: Global, held: &Held, role: &str) -> Result<MemDisk> {
    let disk = disk_of(alloc, held.case.disk.as_slice(), 0)?;
    let spool = opened(alloc, disk, held.case.moment)?;
    let Worked {
        disk,
        puts: _,
        end: _,
    } = work_at(rt, alloc, held, spool, role)?;
    Ok(disk)
}

// What a worker came to, and the queue then. What it left is let go.
fn told_of(alloc: Global, held: &Held, worked: Worked<MemDisk>) -> Result<String> {
    end_and_queue(alloc, held, &worked.end, worked.disk.octets())
}

fn end_and_queue(alloc: Global, held: &Held, end: &WorkerEnd, disk: &[u8]) -> Result<String> {
    let end = said(alloc, end)?;
    let queue = queue(alloc, &held.case, disk)?;
    let (end, queue) = (end.as_str(), queue.as_str());
    Ok(format!(in alloc; "{end} {queue}")?)
}

// What the worker comes to where this call fails, and the queue then.
fn failing_at<R: Wait>(
    rt: &R,
    alloc: Global,
    held: &Held,
    role: &str,
    call: u64,
) -> Result<String> {
    let disk = disk_of(alloc, held.case.disk.as_slice(), call)?;
    let spool = opened(alloc, disk, held.case.moment)?;
    told_of(alloc, held, work_at(rt, alloc, held, spool, role)?)
}

/// Whether the calls of the disk that fail, once it is opened, leave what the fields say, one after the other: each
/// stands for one call or for several in a row.
pub fn failing<R: Wait>(
    rt: &R,
    alloc: Global,
    held: &Held,
    mut fields: Fields<'_>,
) -> Result<String> {
    let role = fields.take();
    let first = calls_of_opening(alloc, held)?;
    let last = whole(rt, alloc, held, role)?.calls();
    let mut left = fields.rest.split('\t');
    let mut wanted = left.next();
    for call in first..last {
        let call = call.saturating_add(1);
        let said = failing_at(rt, alloc, held, role, call)?;
        let said = said.as_str();
        if wanted != Some(said) {
            wanted = left.next();
        }
        if wanted != Some(said) {
            return Ok(format!(in alloc; "call {call}: {said}")?);
        }
    }
    match left.next() {
        None => Ok(format!(in alloc; "ok")?),
        Some(other) => Ok(format!(in alloc; "never {other}")?),
    }
}

// What is said otherwise of the images that this choice leaves.
fn otherwise(
    alloc: Global,
    held: &Held,
    disk: &MemDisk,
    choice: u64,
    fields: Fields<'_>,
) -> Result<Option<String>> {
    let calls = disk.calls();
    for call in 0..=calls {
        let image = disk.image(call, choice)?;
        let said = queue(alloc, &held.case, image.as_slice())?;
        let said = said.as_str();
        if !is_wanted(said, call == calls, fields) {
            return Ok(Some(format!(in alloc; "call {call}, choice {choice}: {said}")?));
        }
    }
    Ok(None)
}

// Whether each image of a disk has the queue that one of the fields says.
fn told(alloc: Global, held: &Held, disk: &MemDisk, fields: Fields<'_>) -> Result<String> {
    for choice in 0..CHOICES {
        if let Some(said) = otherwise(alloc, held, disk, choice, fields)? {
            return Ok(said);
        }
    }
    Ok(format!(in alloc; "ok")?)
}

/// Whether each image of the disk has the queue that one of the fields says.
pub fn stops<R: Wait>(
    rt: &R,
    alloc: Global,
    held: &Held,
    mut fields: Fields<'_>,
) -> Result<String> {
    let disk = whole(rt, alloc, held, fields.take())?;
    told(alloc, held, &disk, fields)
}

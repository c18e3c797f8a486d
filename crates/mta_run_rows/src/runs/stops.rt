//! A run that is stopped at each of its calls.

use crate::runs::held::Held;
use crate::runs::made::{finished, queue};
use anyhow::Result;
use mta_edge::{MemDisk, MemSink};
use mta_rows::{Fields, is_wanted};
use mta_run::Finished;
use std::alloc::Global;
use std::sync::Wait;
use std::thread::Threads;

// How many choices of what a crash leaves are tried at each call.
const CHOICES: u64 = 8;

// The disk behind a run of these words, with the log of its calls.
fn left<R: Threads + Wait + Sync>(
    rt: &R,
    alloc: Global,
    held: &Held,
    line: &str,
    out: &mut MemSink,
) -> Result<MemDisk> {
    let Finished { disk, .. } = finished(rt, alloc, held, line, held.case.disk.as_slice(), 0, out)?;
    Ok(disk)
}

// What is answered otherwise where the run is stopped by this choice.
fn otherwise<R: Threads + Wait + Sync>(
    rt: &R,
    alloc: Global,
    held: &Held,
    disk: &MemDisk,
    choice: u64,
    fields: Fields<'_>,
) -> Result<Option<String>> {
    let calls = disk.calls();
    for call in 0..=calls {
        let image = disk.image(call, choice)?;
        let said = queue(rt, alloc, held, image.as_slice())?;
        if !is_wanted(said.as_str(), call == calls, fields) {
            let said = said.as_str();
            return Ok(Some(format!(in alloc; "call {call}, choice {choice}: {said}")?));
        }
    }
    Ok(None)
}

// Whether each image of the disk is answered as the fields say.
fn told<R: Threads + Wait + Sync>(
    rt: &R,
    alloc: Global,
    held: &Held,
    disk: &MemDisk,
    fields: Fields<'_>,
) -> Result<String> {
    for choice in 0..CHOICES {
        if let Some(said) = otherwise(rt, alloc, held, disk, choice, fields)? {
            return Ok(said);
        }
    }
    Ok(format!(in alloc; "ok")?)
}

/// Whether each image of a run of these words is answered as the fields say.
pub fn stops<R: Threads + Wait + Sync>(
    rt: &R,
    alloc: Global,
    held: &Held,
    line: &str,
    fields: Fields<'_>,
) -> Result<String> {
    let mut out = MemSink::new(alloc, Vec::new(alloc));
    let disk = left(rt, alloc, held, line, &mut out)?;
    told(rt, alloc, held, &disk, fields)
}

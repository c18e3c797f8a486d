//! Runs, and what they print. What a run leaves is let go in a call of its own, and all that may want memory is made
//! before the objects: where they would be let go on each way of a `?`, the proof goes through all their parts.

use crate::given::clock;
use crate::program::called;
use crate::runs::held::Held;
use crate::runs::stations::{Stop, puts_of, stations_of};
use anyhow::Result;
use mta_edge::{MemDisk, MemSink, MemSource, Octets, SafeDisk, SafeSource};
use mta_links::MemStation;
use mta_rows::{said, words_of};
use mta_run::Finished;
use std::alloc::{AllocError, Global};
use std::mem;
use std::sync::Wait;
use std::sync::atomic::AtomicU64;
use std::thread::Threads;

// The words of a line. An empty line has none.
fn words_in(alloc: Global, line: &str) -> Result<Vec<String>, AllocError> {
    if line.is_empty() {
        return Ok(Vec::new(alloc));
    }
    words_of(alloc, line, ' ')
}

/// What words make of a disk of these octets, whose call of this number fails, without stations; and what they print.
pub fn finished<R: Threads + Wait + Sync>(
    rt: &R,
    alloc: Global,
    held: &Held,
    line: &str,
    disk: &[u8],
    fails: u64,
    out: &mut MemSink,
) -> Result<Finished<MemDisk, MemStation>> {
    let words = words_in(alloc, line)?;
    let conf = Octets::from_slice(alloc, held.case.tables.as_slice())?;
    let input = Octets::from_slice(alloc, held.case.input.as_slice())?;
    let input_fails = [held.input_fails].to_vec(alloc)?;
    let disk = Octets::from_slice(alloc, disk)?;
    let disk_fails = [fails].to_vec(alloc)?;
    let clock = clock(alloc, held.case.moment)?;
    Ok(called(
        rt,
        alloc,
        words.as_slice(),
        MemSource::new(conf, Vec::new(alloc)),
        MemSource::new(input, input_fails),
        out,
        MemDisk::new(alloc, disk, disk_fails),
        Vec::new(alloc),
        clock,
    ))
}

fn queue_into<R: Threads + Wait + Sync>(
    rt: &R,
    alloc: Global,
    held: &Held,
    disk: &[u8],
    out: &mut MemSink,
) -> Result<String> {
    let Finished { status, .. } = finished(rt, alloc, held, "spool", disk, 0, out)?;
    Ok(said(alloc, status, out.octets())?)
}

/// What `spool` prints of these octets.
pub fn queue<R: Threads + Wait + Sync>(
    rt: &R,
    alloc: Global,
    held: &Held,
    disk: &[u8],
) -> Result<String> {
    let mut out = MemSink::new(alloc, Vec::new(alloc));
    queue_into(rt, alloc, held, disk, &mut out)
}

// What the disk of a run holds, which is let go.
fn held_by(alloc: Global, finished: Finished<MemDisk, MemStation>) -> Result<Vec<u8>, AllocError> {
    finished.disk.octets().to_vec(alloc)
}

fn run_into<R: Threads + Wait + Sync>(
    rt: &R,
    alloc: Global,
    held: &mut Held,
    line: &str,
    out: &mut MemSink,
) -> Result<String> {
    let disk = held.case.disk.as_slice();
    let finished = finished(rt, alloc, held, line, disk, held.disk_fails, out)?;
    let status = finished.status;
    held.case.disk = held_by(alloc, finished)?;
    Ok(said(alloc, status, out.octets())?)
}

/// Runs words over the disk, and keeps what it holds then.
pub fn run_words<R: Threads + Wait + Sync>(
    rt: &R,
    alloc: Global,
    held: &mut Held,
    line: &str,
) -> Result<String> {
    let mut out = MemSink::new(alloc, [held.output_fails].to_vec(alloc)?);
    run_into(rt, alloc, held, line, &mut out)
}

// What words make of a disk of these octets that is changed in place, with these stations, and what they print.
fn finished_in_place<'a, R: Threads + Wait + Sync>(
    rt: &'a R,
    alloc: Global,
    held: &Held,
    line: &str,
    disk: Vec<u8>,
    out: &mut MemSink,
    flag: &'a AtomicU64,
) -> Result<Finished<SafeDisk, Stop<'a, R>>> {
    let words = words_in(alloc, line)?;
    let conf = Octets::from_slice(alloc, held.case.tables.as_slice())?;
    let input = Octets::from_slice(alloc, held.case.input.as_slice())?;
    let clock = clock(alloc, held.case.moment)?;
    let stations = stations_of(alloc, rt, flag, held)?;
    Ok(called(
        rt,
        alloc,
        words.as_slice(),
        SafeSource::new(conf),
        SafeSource::new(input),
        out,
        SafeDisk::new(alloc, Octets::from_vec(disk)),
        stations,
        clock,
    ))
}

// What the disk of a run holds and what the links of its stations were put, which are let go.
fn held_in_place<R>(
    alloc: Global,
    finished: Finished<SafeDisk, Stop<'_, R>>,
) -> Result<(Vec<u8>, Vec<Vec<u8>>), AllocError> {
    held_and_put(alloc, &finished.disk, finished.stations.as_slice())
}

fn held_and_put<R>(
    alloc: Global,
    disk: &SafeDisk,
    stations: &[Stop<'_, R>],
) -> Result<(Vec<u8>, Vec<Vec<u8>>), AllocError> {
    let puts = puts_of(alloc, stations)?;
    Ok((disk.octets().to_vec(alloc)?, puts))
}

fn run_in_place_into<R: Threads + Wait + Sync>(
    rt: &R,
    alloc: Global,
    held: &mut Held,
    line: &str,
    out: &mut MemSink,
) -> Result<String> {
    let flag = AtomicU64::new(0);
    let disk = mem::replace(&mut held.case.disk, Vec::new(alloc));
    let finished = finished_in_place(rt, alloc, held, line, disk, out, &flag)?;
    let status = finished.status;
    let (disk, puts) = held_in_place(alloc, finished)?;
    held.case.disk = disk;
    held.puts = puts;
    held.stations = Vec::new(alloc);
    Ok(said(alloc, status, out.octets())?)
}

/// Runs words over a disk that is changed in place, with the stations, and keeps what it holds then and what their
/// links were put.
pub fn run_in_place<R: Threads + Wait + Sync>(
    rt: &R,
    alloc: Global,
    held: &mut Held,
    line: &str,
) -> Result<String> {
    let mut out = MemSink::new(alloc, Vec::new(alloc));
    run_in_place_into(rt, alloc, held, line, &mut out)
}

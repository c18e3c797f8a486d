//! Runs, and what they print. What a run leaves is let go in a call of its own, and all that may want memory is made
//! before the objects: where they would be let go on each way of a `?`, the proof goes through all their parts.

use crate::given::held_by;
use crate::store::held::Held;
use anyhow::Result;
use mta_edge::{MemClock, MemDisk, MemSink, Octets};
use mta_rows::{Fields, is_wanted, said, words_of};
use mta_store_run::{Stored, store_run};
use std::alloc::{AllocError, Global};

// How many choices of what a crash leaves are tried at each call.
const CHOICES: u64 = 8;

// The call alone, since nothing behind it asks for its clauses.
fn called(
    alloc: Global,
    words: &[String],
    out: &mut MemSink,
    spool: MemDisk,
    marks: MemDisk,
    clock: MemClock,
) -> Stored<MemDisk, MemDisk> {
    store_run(alloc, words, out, spool, marks, clock)
}

// The words of a line, which may be none.
fn line_of(alloc: Global, line: &str) -> Result<Vec<String>, AllocError> {
    if line.is_empty() {
        return Ok(Vec::new(alloc));
    }
    words_of(alloc, line, ' ')
}

// What words make of the disk of the spool and of marks, and what they print.
fn stored(
    alloc: Global,
    held: &Held,
    marks: &[u8],
    line: &str,
    out: &mut MemSink,
) -> Result<Stored<MemDisk, MemDisk>> {
    let words = line_of(alloc, line)?;
    let spool = Octets::from_slice(alloc, held.spool.as_slice())?;
    let spool_fails = [held.spool_fails].to_vec(alloc)?;
    let marks = Octets::from_slice(alloc, marks)?;
    let marks_fails = [held.marks_fails].to_vec(alloc)?;
    let moments = [0].to_vec(alloc)?;
    Ok(called(
        alloc,
        words.as_slice(),
        out,
        MemDisk::new(alloc, spool, spool_fails),
        MemDisk::new(alloc, marks, marks_fails),
        MemClock::new(moments),
    ))
}

fn sink(alloc: Global, held: &Held) -> Result<MemSink, AllocError> {
    Ok(MemSink::new(alloc, [held.output_fails].to_vec(alloc)?))
}

// What the disks of a run hold, which are let go.
fn left(alloc: Global, stored: Stored<MemDisk, MemDisk>) -> Result<(Vec<u8>, Vec<u8>), AllocError> {
    held_by(alloc, &stored.spool, &stored.marks)
}

fn ran_into(alloc: Global, held: &mut Held, line: &str, out: &mut MemSink) -> Result<String> {
    let stored = stored(alloc, held, held.marks.as_slice(), line, out)?;
    let status = stored.status;
    let (spool, marks) = left(alloc, stored)?;
    held.spool = spool;
    held.marks = marks;
    Ok(said(alloc, status, out.octets())?)
}

/// The status and what was printed. The disks are kept as the run leaves them.
pub fn ran(alloc: Global, held: &mut Held, line: &str) -> Result<String> {
    let mut out = sink(alloc, held)?;
    ran_into(alloc, held, line, &mut out)
}

fn looked_into(
    alloc: Global,
    held: &Held,
    marks: &[u8],
    line: &str,
    out: &mut MemSink,
) -> Result<String> {
    let Stored { status, .. } = stored(alloc, held, marks, line, out)?;
    Ok(said(alloc, status, out.octets())?)
}

// What words are answered over these marks.
fn looked(alloc: Global, held: &Held, marks: &[u8], line: &str) -> Result<String> {
    let mut out = sink(alloc, held)?;
    looked_into(alloc, held, marks, line, &mut out)
}

// What `look` is answered otherwise where the run is stopped by this choice.
fn otherwise(
    alloc: Global,
    held: &Held,
    look: &str,
    disk: &MemDisk,
    choice: u64,
    fields: Fields<'_>,
) -> Result<Option<String>> {
    let calls = disk.calls();
    for call in 0..=calls {
        let image = disk.image(call, choice)?;
        let said = looked(alloc, held, image.as_slice(), look)?;
        if !is_wanted(said.as_str(), call == calls, fields) {
            let said = said.as_str();
            return Ok(Some(format!(in alloc; "call {call}, choice {choice}: {said}")?));
        }
    }
    Ok(None)
}

// Whether each image of a disk of marks is answered as the fields say.
fn told(
    alloc: Global,
    held: &Held,
    look: &str,
    disk: &MemDisk,
    fields: Fields<'_>,
) -> Result<String> {
    for choice in 0..CHOICES {
        if let Some(said) = otherwise(alloc, held, look, disk, choice, fields)? {
            return Ok(said);
        }
    }
    Ok(String::from_str(alloc, "ok")?)
}

// The disk of the marks behind a run, with the log of its calls.
fn marks_behind(alloc: Global, held: &Held, line: &str) -> Result<MemDisk> {
    let mut out = sink(alloc, held)?;
    let Stored { marks, .. } = stored(alloc, held, held.marks.as_slice(), line, &mut out)?;
    Ok(marks)
}

/// Whether each image of the marks, where the first words are stopped at a call of their disk, is answered as the
/// fields say by the second words.
pub fn stops(alloc: Global, held: &Held, mut fields: Fields<'_>) -> Result<String> {
    let line = fields.take();
    let look = fields.take();
    let marks = marks_behind(alloc, held, line)?;
    told(alloc, held, look, &marks, fields)
}

//! A run that is stopped at each call of the disk, by each choice of what a crash leaves.

use crate::case::Case;
use crate::faults::scripts::{Failing, Place, Ran, Script, queue, run_of};
use anyhow::Result;
use mta_edge::MemDisk;
use mta_rows::Fields;
use std::alloc::Global;
use std::sync::Wait;
use std::thread::Threads;

// How many choices of what a crash leaves are tried at each call.
const CHOICES: u64 = 8;

/// What acknowledges: a text that is printed, or octets that the peer is put.
#[derive(Clone, Copy)]
pub struct Promise<'a> {
    pub printed: &'a str,
    pub put: &'a [u8],
}

// Whether the octets stand somewhere in all of them.
fn stands_in(octets: &[u8], all: &[u8]) -> bool {
    !octets.is_empty() && all.windows(octets.len()).any(|piece| piece == octets)
}

impl Promise<'_> {
    /// Whether a run has given its promise.
    pub fn is_in(self, ran: &Ran) -> bool {
        let is_printed = !self.printed.is_empty() && ran.said.as_str().contains(self.printed);
        is_printed || stands_in(self.put, ran.put.as_slice())
    }
}

/// Whether the text is one of the fields: where a promise was given, of those behind `kept` alone.
pub fn may_be_left(said: &str, was_promised: bool, fields: Fields<'_>) -> bool {
    let mut fields = fields;
    let mut is_kept = false;
    for field in fields.rest.split('\t') {
        if field == "kept" {
            is_kept = true;
        } else if said == field && (is_kept || !was_promised) {
            return true;
        }
    }
    false
}

// What an image of this call says otherwise.
fn otherwise<R: Threads + Wait + Sync>(
    rt: &R,
    alloc: Global,
    case: &Case,
    disk: &MemDisk,
    call: u64,
    was_promised: bool,
    fields: Fields<'_>,
) -> Result<Option<String>> {
    for choice in 0..CHOICES {
        let image = disk.image(call, choice)?;
        let said = queue(rt, alloc, case, image.as_slice())?;
        if !may_be_left(said.as_str(), was_promised, fields) {
            let said = said.as_str();
            return Ok(Some(format!(in alloc; "call {call}, choice {choice}: {said}")?));
        }
    }
    Ok(None)
}

// Whether what a run did before the call behind this one gave the promise: it is what a run does whose next call fails.
fn was_promised<R: Threads + Wait + Sync>(
    rt: &R,
    alloc: Global,
    case: &Case,
    script: Script<'_>,
    promise: Promise<'_>,
    call: u64,
) -> Result<bool> {
    let failing = Failing {
        place: Place::Disk,
        call: call.saturating_add(1),
    };
    let before = case.disk.as_slice();
    Ok(promise.is_in(&run_of(rt, alloc, case, script, failing, before)?))
}

// Whether each image says one of the fields.
fn told<R: Threads + Wait + Sync>(
    rt: &R,
    alloc: Global,
    case: &Case,
    script: Script<'_>,
    promise: Promise<'_>,
    fields: Fields<'_>,
) -> Result<String> {
    let before = case.disk.as_slice();
    let whole = run_of(rt, alloc, case, script, Failing::nothing(), before)?;
    if !promise.is_in(&whole) {
        return Ok(format!(in alloc; "nothing is promised")?);
    }
    for call in 0..=whole.disk.calls() {
        let was_promised = was_promised(rt, alloc, case, script, promise, call)?;
        if let Some(said) = otherwise(rt, alloc, case, &whole.disk, call, was_promised, fields)? {
            return Ok(said);
        }
    }
    Ok(format!(in alloc; "ok")?)
}

/// Whether each image of a run says one of the fields, and keeps what was promised.
pub fn stops<R: Threads + Wait + Sync>(
    rt: &R,
    alloc: Global,
    case: &Case,
    mut fields: Fields<'_>,
) -> Result<String> {
    let (words, role) = (fields.take(), fields.take());
    let gives = case.octets(alloc, fields.take())?;
    let gives = gives.as_slice();
    let script = Script { words, role, gives };
    let printed = fields.take();
    let put = case.octets(alloc, fields.take())?;
    let put = put.as_slice();
    told(rt, alloc, case, script, Promise { printed, put }, fields)
}

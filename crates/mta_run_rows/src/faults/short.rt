//! A run in which memory may be refused, as `checks/memory.sh` has it be.

use crate::case::Case;
use crate::faults::scripts::{Failing, Ran, Script, queue, run_of};
use crate::faults::stops::{Promise, may_be_left};
use anyhow::Result;
use mta_rows::Fields;
use std::alloc::Global;
use std::sync::Wait;
use std::thread::Threads;

// Whether a run ended well, for want of memory, or since a disk or an output in memory could not grow.
fn may_be_said(said: &str) -> bool {
    matches!(said.split(' ').next(), Some("0" | "4" | "7" | "9"))
}

/// What `spool` says of these octets. One allocation is refused at most, so it is asked once more.
pub fn queue_at_last<R: Threads + Wait + Sync>(
    rt: &R,
    alloc: Global,
    case: &Case,
    disk: &[u8],
) -> Result<String> {
    let said = queue(rt, alloc, case, disk)?;
    if said.as_str().starts_with("0 ") {
        Ok(said)
    } else {
        queue(rt, alloc, case, disk)
    }
}

// What is answered where a run has left this.
fn judged(
    alloc: Global,
    ran: &Ran,
    promise: Promise<'_>,
    queue: &str,
    fields: Fields<'_>,
) -> Result<String> {
    if !may_be_said(ran.said.as_str()) {
        let said = ran.said.as_str();
        return Ok(format!(in alloc; "it says {said}")?);
    }
    if !may_be_left(queue, promise.is_in(ran), fields) {
        return Ok(format!(in alloc; "it leaves {queue}")?);
    }
    Ok(format!(in alloc; "ok")?)
}

/// Whether a run ends with a status that want of memory may have, and leaves what one of the fields says; what was
/// promised is kept.
pub fn short<R: Threads + Wait + Sync>(
    rt: &R,
    alloc: Global,
    case: &Case,
    mut fields: Fields<'_>,
) -> Result<String> {
    let (words, role) = (fields.take(), fields.take());
    let gives = case.octets(alloc, fields.take())?;
    let gives = gives.as_slice();
    let script = Script { words, role, gives };
    let printed = fields.take();
    let put = case.octets(alloc, fields.take())?;
    let put = put.as_slice();
    let before = case.disk.as_slice();
    let ran = run_of(rt, alloc, case, script, Failing::nothing(), before)?;
    let queue = queue_at_last(rt, alloc, case, ran.disk.octets())?;
    judged(
        alloc,
        &ran,
        Promise { printed, put },
        queue.as_str(),
        fields,
    )
}

//! One failing call: the first, the second and so on of one object, until a run has no failure.

use crate::case::Case;
use crate::faults::scripts::{Failing, Place, Script, queue, run_of};
use anyhow::{Result, bail};
use mta_rows::Fields;
use std::alloc::Global;
use std::sync::Wait;
use std::thread::Threads;

// More calls than any script makes of one object.
const MOST_CALLS: u64 = 10_000;

// So many runs behind the first without a failure have none either.
const MORE: u64 = 3;

// What a run says whose call fails so, and then the queue of what the disk holds.
fn left<R: Threads + Wait + Sync>(
    rt: &R,
    alloc: Global,
    case: &Case,
    script: Script<'_>,
    failing: Failing,
) -> Result<String> {
    let before = case.disk.as_slice();
    let ran = run_of(rt, alloc, case, script, failing, before)?;
    let queue = queue(rt, alloc, case, ran.disk.octets())?;
    let (said, queue) = (ran.said.as_str(), queue.as_str());
    Ok(format!(in alloc; "{said} then {queue}")?)
}

// Where the runs behind the first without a failure say something else.
fn later<R: Threads + Wait + Sync>(
    rt: &R,
    alloc: Global,
    case: &Case,
    script: Script<'_>,
    failing: Failing,
    last: &str,
) -> Result<Option<String>> {
    for more in 1..=MORE {
        let call = failing.call.saturating_add(more);
        let place = failing.place;
        let said = left(rt, alloc, case, script, Failing { place, call })?;
        if said.as_str() != last {
            let said = said.as_str();
            return Ok(Some(format!(in alloc; "call {call}, which is never made: {said}")?));
        }
    }
    Ok(None)
}

// The runs of a script, one after the other: each says the next of the fields, or the one before it again, and the last
// field is what is said where nothing fails.
fn told<R: Threads + Wait + Sync>(
    rt: &R,
    alloc: Global,
    case: &Case,
    script: Script<'_>,
    place: Place,
    mut fields: Fields<'_>,
) -> Result<String> {
    let mut wanted = fields.take();
    for call in 1..MOST_CALLS {
        let failing = Failing { place, call };
        let said = left(rt, alloc, case, script, failing)?;
        let said = said.as_str();
        if said != wanted {
            wanted = fields.take();
        }
        if said != wanted {
            return Ok(format!(in alloc; "call {call}: {said}")?);
        }
        if fields.rest.is_empty() {
            return match later(rt, alloc, case, script, failing, wanted)? {
                None => Ok(format!(in alloc; "ok")?),
                Some(other) => Ok(other),
            };
        }
    }
    bail!("the calls do not end")
}

/// Whether each failing call of an object leaves what the fields say.
pub fn failing<R: Threads + Wait + Sync>(
    rt: &R,
    alloc: Global,
    case: &Case,
    mut fields: Fields<'_>,
) -> Result<String> {
    let place = Place::of(fields.take())?;
    let (words, role) = (fields.take(), fields.take());
    let gives = case.octets(alloc, fields.take())?;
    let gives = gives.as_slice();
    let script = Script { words, role, gives };
    told(rt, alloc, case, script, place, fields)
}

//! Octets that no true peer gives, and octets that are no APDU.

use crate::case::Case;
use crate::faults::scripts::{Failing, Ran, Script, run_of};
use anyhow::Result;
use mta_rows::Fields;
use std::alloc::Global;
use std::mem;
use std::sync::Wait;
use std::thread::Threads;

// What the peer is put who gives these octets, and what the disk holds then.
fn served<R: Threads + Wait + Sync>(
    rt: &R,
    alloc: Global,
    case: &Case,
    script: Script<'_>,
) -> Result<Ran> {
    let before = case.disk.as_slice();
    run_of(rt, alloc, case, script, Failing::nothing(), before)
}

/// What a peer is put who gives octets and then others that are not allowed there. The same peer without the others has
/// to leave the same disk and the same text.
pub fn hostile<R: Threads + Wait + Sync>(
    rt: &R,
    alloc: Global,
    case: &Case,
    wanted: &str,
    mut fields: Fields<'_>,
) -> Result<String> {
    let (words, role) = (fields.take(), fields.take());
    let front = case.octets(alloc, fields.take())?;
    let mut whole = front.as_slice().to_vec(alloc)?;
    let wrong = case.octets(alloc, fields.take())?;
    whole.extend_from_slice(wrong.as_slice())?;
    let gives = front.as_slice();
    let without = served(rt, alloc, case, Script { words, role, gives })?;
    let gives = whole.as_slice();
    let with = served(rt, alloc, case, Script { words, role, gives })?;
    if with.disk.octets() != without.disk.octets() {
        return Ok(format!(in alloc; "something durable changed")?);
    }
    if with.said.as_str() != without.said.as_str() {
        let said = with.said.as_str();
        return Ok(format!(in alloc; "it says {said}")?);
    }
    case.spelled(alloc, wanted, with.put.as_slice())
}

// What these octets are answered as the input of `decode` and of `submit`, which have to say the same of them and to
// leave the disk alone.
fn refusal<R: Threads + Wait + Sync>(
    rt: &R,
    alloc: Global,
    case: &mut Case,
    octets: &[u8],
) -> Result<String> {
    let before = mem::replace(&mut case.input, octets.to_vec(alloc)?);
    let decode = Script {
        words: "decode",
        role: "",
        gives: &[],
    };
    let submit = Script {
        words: "submit",
        role: "",
        gives: &[],
    };
    let decoded = served(rt, alloc, case, decode)?;
    let submitted = served(rt, alloc, case, submit)?;
    case.input = before;
    if decoded.disk.calls() > 0 || submitted.disk.calls() > 0 {
        return Ok(format!(in alloc; "the disk is called")?);
    }
    if decoded.said.as_str() != submitted.said.as_str() {
        let (decoded, submitted) = (decoded.said.as_str(), submitted.said.as_str());
        return Ok(format!(in alloc; "{decoded} and {submitted}")?);
    }
    Ok(decoded.into_said())
}

/// What octets are answered that are no APDU.
pub fn refused<R: Threads + Wait + Sync>(
    rt: &R,
    alloc: Global,
    case: &mut Case,
    text: &str,
) -> Result<String> {
    let octets = case.octets(alloc, text)?;
    refusal(rt, alloc, case, octets.as_slice())
}

/// What each front of octets is answered, which has to be as wanted.
pub fn fronts<R: Threads + Wait + Sync>(
    rt: &R,
    alloc: Global,
    case: &mut Case,
    wanted: &str,
    text: &str,
) -> Result<String> {
    let octets = case.octets(alloc, text)?;
    for count in 0..octets.len() {
        let front = &octets.as_slice()[..count];
        let said = refusal(rt, alloc, case, front)?;
        if said.as_str() != wanted {
            let said = said.as_str();
            return Ok(format!(in alloc; "of {count} octets {said}")?);
        }
    }
    Ok(String::from_str(alloc, wanted)?)
}

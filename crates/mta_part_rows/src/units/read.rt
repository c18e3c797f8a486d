//! What streams are read as.

use crate::units::told::told;
use mta_ber::Memory;
use mta_units::{BadUnit, Frames, Next, Unit};
use std::alloc::{AllocError, Global};

/// Puts the text of a unit, which is let go, and a semicolon.
fn put(alloc: Global, out: &mut String, unit: Unit) -> Result<(), Memory> {
    put_text(out, told(alloc, &unit))
}

fn put_text(out: &mut String, text: Result<String, AllocError>) -> Result<(), Memory> {
    out.push_str(text?.as_str())?;
    out.push_str("; ")?;
    Ok(())
}

/// Takes the units that can be taken, each followed by a semicolon; the fault where one is found.
fn take_all(
    alloc: Global,
    frames: &mut Frames,
    out: &mut String,
) -> Result<Option<(u64, BadUnit)>, Memory> {
    for _ in 0..20u8 {
        match frames.next()? {
            Next::Unit(unit) => put(alloc, out, unit)?,
            Next::More => return Ok(None),
            Next::Bad { at, kind } => return Ok(Some((at, kind))),
        }
    }
    Ok(None)
}

/// What a stream is read as that is fed in three parts: its units, and the fault that is told after the last part.
fn read(alloc: Global, octets: &[u8], first: usize, second: usize) -> Result<String, Memory> {
    let mut frames = Frames::new(alloc);
    let mut out = String::new(alloc);
    let second = second.min(octets.len());
    let first = first.min(second);
    let parts = [&octets[..first], &octets[first..second], &octets[second..]];
    let mut fault = None;
    for part in parts {
        if (part.len() as u64) < frames.room() {
            frames.feed(part)?;
        }
        fault = take_all(alloc, &mut frames, &mut out)?;
    }
    if let Some((at, kind)) = fault {
        let text = format!(in alloc; "{at} {kind:?}")?;
        out.push_str(text.as_str())?;
    }
    Ok(out)
}

/// What a stream is read as, whole.
pub fn whole(alloc: Global, octets: &[u8]) -> Result<String, Memory> {
    read(alloc, octets, octets.len(), octets.len())
}

/// What is read otherwise of a stream that is cut at this place and at one before it, with both places.
fn otherwise(
    alloc: Global,
    octets: &[u8],
    second: usize,
    wanted: &str,
) -> Result<Option<String>, Memory> {
    for first in 0..=second {
        let told = read(alloc, octets, first, second)?;
        if told.as_str() != wanted {
            let told = told.as_str();
            return Ok(Some(format!(in alloc; "{first} {second}: {told}")?));
        }
    }
    Ok(None)
}

/// What a stream is read as whole, where it is read so whatever cuts it comes in.
pub fn cuts(alloc: Global, octets: &[u8]) -> Result<String, Memory> {
    let wanted = whole(alloc, octets)?;
    for second in 0..=octets.len() {
        if let Some(other) = otherwise(alloc, octets, second, wanted.as_str())? {
            return Ok(other);
        }
    }
    Ok(wanted)
}

//! First faults of APDUs. A row has a name, what reading octets answers ("ok", or the place and the kind of the first
//! fault), and the octets, each behind a tab. Behind another tab may stand the octets that are written again of what
//! was read. Where `fronts` and a kind are to be answered, each front of the octets has a first fault of this kind. A
//! row that is answered otherwise is printed.
//!
//! Octets are in hexadecimal, `07*1000` being a thousand of one. The rows were worked out from the formats by hand and
//! by an independent reader.

use anyhow::Result;
use mta_apdu::Apdu;
use mta_ber::{Fault, Kind, Memory, Octets, ReadFault};
use mta_rows::{Fields, octets_of};
use std::alloc::{AllocError, Global};

fn kind_name(kind: Kind) -> &'static str {
    match kind {
        Kind::Truncated => "Truncated",
        Kind::BadLength => "BadLength",
        Kind::BadTag => "BadTag",
        Kind::TooDeep => "TooDeep",
        Kind::BadInt => "BadInt",
        Kind::BadTime => "BadTime",
        Kind::BadText => "BadText",
        Kind::BadSize => "BadSize",
        Kind::Twice => "Twice",
        Kind::Missing => "Missing",
        Kind::TooLong => "TooLong",
        Kind::Trailing => "Trailing",
    }
}

/// The place of a fault and its kind.
pub fn fault_text(alloc: Global, fault: Fault) -> Result<String, AllocError> {
    let kind = kind_name(fault.kind);
    format!(in alloc; "{} {kind}", fault.at)
}

/// The octets that are written again, where some are wanted. The APDU is let go.
fn written(alloc: Global, apdu: Apdu, again: &str) -> Result<Option<Octets>, Memory> {
    if again.is_empty() {
        apdu.discard();
        return Ok(None);
    }
    let octets = apdu.write(alloc);
    apdu.discard();
    Ok(Some(octets?))
}

/// What an APDU that was read answers: `ok`, where these octets are written again.
fn again_text(alloc: Global, apdu: Apdu, again: &str) -> Result<String> {
    let Some(octets) = written(alloc, apdu, again)? else {
        return Ok(format!(in alloc; "ok")?);
    };
    let wanted = octets_of(alloc, again)?;
    if octets.as_slice() == wanted.as_slice() {
        return Ok(format!(in alloc; "ok")?);
    }
    Ok(format!(in alloc; "written otherwise")?)
}

/// What reading the octets answers.
fn answer(alloc: Global, octets: &[u8], again: &str) -> Result<String> {
    match Apdu::read(alloc, octets) {
        Ok(apdu) => again_text(alloc, apdu, again),
        Err(ReadFault::Bad(fault)) => Ok(fault_text(alloc, fault)?),
        Err(ReadFault::Memory) => Ok(format!(in alloc; "memory")?),
    }
}

/// The name of the kind of the first fault; "ok" where there is none.
fn kind_of(alloc: Global, octets: &[u8]) -> &'static str {
    match Apdu::read(alloc, octets) {
        Ok(apdu) => {
            apdu.discard();
            "ok"
        }
        Err(ReadFault::Bad(fault)) => kind_name(fault.kind),
        Err(ReadFault::Memory) => "memory",
    }
}

/// What the fronts of the octets answer: this kind, or another.
fn fronts(alloc: Global, octets: &[u8], kind: &str) -> Result<String, AllocError> {
    for size in 0..octets.len() {
        let found = kind_of(alloc, &octets[..size]);
        if found != kind {
            return format!(in alloc; "{found} of {size} octets");
        }
    }
    format!(in alloc; "fronts {kind}")
}

/// Prints what a row answers in place of what it says.
fn print_row(rt: &impl Print, name: &str, answered: &str, expected: &str) -> Result<()> {
    println!(rt; "{name}: {answered} in place of {expected}")?;
    Ok(())
}

/// Prints a row that is answered otherwise than it says. Each asks something.
pub fn try_row(rt: &impl Print, alloc: Global, row: &str) -> Result<bool> {
    let mut fields = Fields { rest: row };
    let (name, expected) = (fields.take(), fields.take());
    let octets = octets_of(alloc, fields.take())?;
    let answered = match expected.strip_prefix("fronts ") {
        Some(kind) => fronts(alloc, octets.as_slice(), kind)?,
        None => answer(alloc, octets.as_slice(), fields.rest)?,
    };
    if answered.as_str() == expected {
        return Ok(true);
    }
    print_row(rt, name, answered.as_str(), expected)?;
    Ok(true)
}

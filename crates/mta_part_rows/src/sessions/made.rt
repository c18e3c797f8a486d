//! What a session is told of: names, octets, activities.

ghost use Rattle.std.specs.Prelude.{◌≤◌};

use mta_ber::{Memory, Octets, Word};
use mta_records::{Batch, Outgoing, Recipients, Reference};
use std::alloc::Global;
use std::sync::Arc;

pub fn word(alloc: Global, text: &[u8]) -> Result<Word, Memory> {
    match Word::from_octets(alloc, Octets::from_slice(alloc, text)?)? {
        Some(word) => Ok(word),
        None => Err(Memory),
    }
}

pub fn reference(alloc: Global) -> Result<Reference, Memory> {
    Ok(Reference::new(Octets::from_slice(alloc, b"EAST")?, 0, None))
}

pub fn octets(alloc: Global, count: u32) -> Result<Octets, Memory> {
    let mut octets = Octets::new(alloc);
    for _ in 0..count {
        octets.extend(&[7])?;
    }
    Ok(octets)
}

/// An activity whose first octet stands in its head.
pub fn outgoing(alloc: Global, activity: u32, count: u32) -> Result<Outgoing, Memory> {
    let head = octets(alloc, 1)?;
    let rest = octets(alloc, count)?;
    if head.len() != 1 || rest.len() < 1 || rest.len() > 10_000_000 {
        return Err(Memory);
    }
    let to = rest.len() as u32;
    match Arc::new(alloc, rest) {
        Ok(rest) => Ok(Outgoing::new(activity, head, rest, 1, to)),
        Err(_) => Err(Memory),
    }
}

/// One recipient of the first item.
pub fn batch(alloc: Global) -> Result<Batch, Memory> {
    let mut recipients = Vec::new(alloc);
    recipients.push(1)?;
    Ok(Batch {
        item: 1,
        recipients: Recipients::from_vec(recipients),
    })
}

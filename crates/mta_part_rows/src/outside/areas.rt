//! Journals of two areas. `compacts` makes a journal of bodies of these lengths, opens it anew, and puts one body of
//! another length in the place of them all: it answers the size before and behind. Every image that a crash leaves at
//! any call has the bodies as they were or the one, and behind the last call the one: it is opened, settled, and opened
//! again, with the same bodies then, in the first area. Where the second area was current, every image of that settling
//! is looked at in the same way. No row passes in which one of these three was never seen.
//!
//! `settles` opens octets, settles them, and answers the first gate before, how many bodies there are, the first gate
//! behind, the size, and what the disk holds then.

use crate::outside::journals::{append, opened};
use crate::outside::numbers::{numbers, octets};
use crate::records::LONGEST_BODY;
use anyhow::{Result, bail};
use mta_edge::{MemDisk, Octets};
use mta_journal::Journal;
use mta_rows::{Fields, number, shown};
use std::alloc::Global;

/// The lengths of the bodies as they were, and that of the one.
#[derive(Drop)]
struct Lengths {
    old: Vec<u64>,
    one: u64,
}

/// How many images had the bodies as they were, how many the one, and in how many the second area was current.
#[derive(Clone, Copy)]
struct Seen {
    old: u64,
    one: u64,
    second: u64,
}

/// An image that was opened and settled.
struct Looked {
    is_old: bool,
    first: u64,
    disk: MemDisk,
}

// Written out, since a derived one is opened anew, field by field, at each place where a value is let go.
impl Drop for Looked {
    fn drop(self) {
        let Looked {
            is_old: _,
            first: _,
            disk: _,
        } = self;
    }
}

/// A body of so many octets FF.
fn filled(alloc: Global, length: u64) -> Result<Octets> {
    let length = usize::try_from(length).unwrap_or(0).min(LONGEST_BODY);
    Ok(Octets::from_vec(vec![in alloc; 0xFF_u8; length]?))
}

fn held(alloc: Global, disk: &MemDisk) -> Result<Octets> {
    Ok(Octets::from_slice(alloc, disk.octets())?)
}

fn append_all(alloc: Global, journal: &mut Journal<MemDisk>, lengths: &[u64]) -> Result<()> {
    for length in lengths {
        if append(journal, filled(alloc, *length)?.as_slice())?.is_err() {
            bail!("not appended");
        }
    }
    Ok(())
}

/// The octets of a journal of bodies of these lengths.
fn made(alloc: Global, lengths: &[u64]) -> Result<Octets> {
    let mut open = opened(alloc, &[])?;
    append_all(alloc, &mut open.journal, lengths)?;
    held(alloc, &open.end())
}

/// Puts a body in the place of all, where that may be done.
fn compact(journal: &mut Journal<MemDisk>, body: &[u8]) -> Result<()> {
    if body.len() > LONGEST_BODY || journal.first() != 23 || journal.size() >= 1_000_000 {
        bail!("no such journal");
    }
    if 2 * (29 + body.len() as u64) > journal.size() {
        bail!("too long");
    }
    if journal.compact(body).is_err() {
        bail!("not compacted");
    }
    Ok(())
}

/// Whether these are bodies of these lengths.
fn have(bodies: &[Octets], lengths: &[u64]) -> bool {
    if bodies.len() != lengths.len() {
        return false;
    }
    for (body, length) in bodies.iter().zip(lengths) {
        if body.len() as u64 != *length {
            return false;
        }
    }
    true
}

/// Whether the bodies are as they were, and not the one.
fn are_old(bodies: &[Octets], lengths: &Lengths) -> Result<bool> {
    let is_old = have(bodies, lengths.old.as_slice());
    if !is_old && !have(bodies, &[lengths.one]) {
        bail!("other bodies");
    }
    Ok(is_old)
}

fn look(alloc: Global, image: &[u8], lengths: &Lengths) -> Result<Looked> {
    let mut open = opened(alloc, image)?;
    let is_old = are_old(open.bodies.as_slice(), lengths)?;
    if open.journal.settle().is_err() {
        bail!("not settled");
    }
    Ok(Looked {
        is_old,
        first: open.first,
        disk: open.end(),
    })
}

/// An image that was opened, settled, and opened again.
fn look_twice(alloc: Global, image: &[u8], lengths: &Lengths) -> Result<Looked> {
    let looked = look(alloc, image, lengths)?;
    let again = look(alloc, looked.disk.octets(), lengths)?;
    if again.is_old != looked.is_old || again.first != 23 {
        bail!("not as it was");
    }
    Ok(looked)
}

fn image(disk: &MemDisk, call: u64, choice: u64) -> Result<Octets> {
    Ok(disk.image(call, choice)?)
}

/// Looks at every image of a settling: each has the one body.
fn look_at_settling(alloc: Global, disk: &MemDisk, lengths: &Lengths) -> Result<()> {
    for call in 0..disk.calls().saturating_add(1) {
        for choice in 0..8 {
            let image = image(disk, call, choice)?;
            if look_twice(alloc, image.as_slice(), lengths)?.is_old {
                bail!("settled to the bodies as they were");
            }
        }
    }
    Ok(())
}

/// Looks at the images behind a call.
fn look_behind(
    alloc: Global,
    disk: &MemDisk,
    call: u64,
    lengths: &Lengths,
    seen: Seen,
) -> Result<Seen> {
    let mut seen = seen;
    for choice in 0..8 {
        let image = image(disk, call, choice)?;
        let looked = look_twice(alloc, image.as_slice(), lengths)?;
        if looked.is_old {
            seen.old = seen.old.saturating_add(1);
        } else {
            seen.one = seen.one.saturating_add(1);
        }
        if looked.first != 23 {
            seen.second = seen.second.saturating_add(1);
            look_at_settling(alloc, &looked.disk, lengths)?;
        }
    }
    Ok(seen)
}

/// Looks at every image of a disk on which a compaction has ended.
fn look_at_all(alloc: Global, disk: &MemDisk, lengths: &Lengths) -> Result<()> {
    let mut seen = Seen {
        old: 0,
        one: 0,
        second: 0,
    };
    for call in 0..disk.calls() {
        seen = look_behind(alloc, disk, call, lengths, seen)?;
    }
    if seen.old == 0 || seen.one == 0 || seen.second == 0 {
        bail!("not each was seen");
    }
    let last = look_behind(alloc, disk, disk.calls(), lengths, seen)?;
    if last.old != seen.old || last.second != seen.second {
        bail!("not durable");
    }
    Ok(())
}

// The disk behind a compaction, and the size of its journal before and behind.
fn compacted(alloc: Global, octets: &[u8], one: u64) -> Result<(MemDisk, u64, u64)> {
    let body = filled(alloc, one)?;
    let mut open = opened(alloc, octets)?;
    let before = open.journal.size();
    compact(&mut open.journal, body.as_slice())?;
    let behind = open.journal.size();
    Ok((open.end(), before, behind))
}

fn compacts(alloc: Global, mut fields: Fields<'_>) -> Result<String> {
    let lengths = Lengths {
        old: numbers(alloc, fields.take())?,
        one: number(fields.take()),
    };
    let octets = made(alloc, lengths.old.as_slice())?;
    let (disk, before, behind) = compacted(alloc, octets.as_slice(), lengths.one)?;
    match look_at_all(alloc, &disk, &lengths) {
        Ok(()) => Ok(format!(in alloc; "{before} {behind}")?),
        Err(error) => Err(error),
    }
}

fn settles(alloc: Global, mut fields: Fields<'_>) -> Result<String> {
    let octets = octets(alloc, &mut fields)?;
    let mut open = opened(alloc, octets.as_slice())?;
    let (first, count) = (open.first, open.bodies.len());
    let answer = open.journal.settle();
    let (behind, size) = (open.journal.first(), open.journal.size());
    let held = held(alloc, &open.end())?;
    let held = shown(alloc, held.as_slice())?;
    let held = held.as_str();
    Ok(format!(in alloc; "{first} {count} {answer:?} {behind} {size} {held}")?)
}

/// What the row is answered, where it asks of a journal of two areas.
pub fn areas_answer(alloc: Global, asked: &str, fields: Fields<'_>) -> Result<Option<String>> {
    Ok(match asked {
        "compacts" => Some(compacts(alloc, fields)?),
        "settles" => Some(settles(alloc, fields)?),
        _ => None,
    })
}

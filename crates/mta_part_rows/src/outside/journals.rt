//! Journals. `journal` opens one over octets on a disk whose calls of these numbers fail, appends bodies, and ends it:
//! it answers why it was not opened, or the offset of the first record's end, how many bodies there are and the size,
//! what each append answers, and what the disk holds then.
//!
//! `stops` opens octets which have the body `07 08`, and appends `09`. Every image that a crash leaves at any call has
//! the first body, and once the append has answered both. Each image that lacks the second is opened and appended to
//! again, and its images are looked at in the same way. The answer is what the disk holds. What is asked of journals of
//! two areas is in `areas.rt`.

use crate::outside::areas::areas_answer;
use crate::outside::large::large;
use crate::outside::numbers::{numbers, octets};
use crate::records::LONGEST_BODY;
use anyhow::{Result, anyhow, bail};
use mta_edge::{MemDisk, Octets};
use mta_journal::{AppendFault, Journal, Opened};
use mta_rows::{Fields, number, octets_of, shown};
use std::alloc::{AllocError, Global};

/// A journal that is open, where its first record ends, and the bodies that stood in it.
pub struct Open {
    pub journal: Journal<MemDisk>,
    pub first: u64,
    pub bodies: Vec<Octets>,
}

// Written out, since a derived one is opened anew, field by field, at each place where a value is let go.
impl Drop for Open {
    fn drop(self) {
        let Open {
            journal: _,
            first: _,
            bodies: _,
        } = self;
    }
}

impl Open {
    fn of(opened: Opened<MemDisk>) -> Open {
        let Opened {
            journal,
            first,
            bodies,
            synced: _,
        } = opened;
        Open {
            journal,
            first,
            bodies,
        }
    }

    /// Ends the journal, and gives its disk back.
    pub fn end(self) -> MemDisk {
        let Open {
            journal,
            first: _,
            bodies: _,
        } = self;
        journal.end()
    }
}

/// What an append answers. The only area or the first of two is current.
pub fn append(journal: &mut Journal<MemDisk>, body: &[u8]) -> Result<Result<(), AppendFault>> {
    if body.len() > LONGEST_BODY {
        bail!("a long body");
    }
    if journal.first() == 8 {
        return Ok(journal.append(body));
    }
    if journal.first() == 23 {
        return Ok(journal.append(body));
    }
    bail!("the second area is current")
}

/// What appending the body of each further field answers, each with a space behind it.
fn appended(
    alloc: Global,
    journal: &mut Journal<MemDisk>,
    fields: &mut Fields<'_>,
) -> Result<String> {
    let mut said = String::new(alloc);
    for _ in 0..fields.rest.len() {
        if fields.rest.is_empty() {
            break;
        }
        let body = octets_of(alloc, fields.take())?;
        let answer = append(journal, body.as_slice())?;
        said.push_str(format!(in alloc; "{answer:?} ")?.as_str())?;
    }
    Ok(said)
}

/// What a journal was appended and holds, and what stood in it.
fn told(
    alloc: Global,
    first: u64,
    count: usize,
    size: u64,
    said: Result<String>,
    disk: &MemDisk,
) -> Result<String> {
    let said = said?;
    let held = shown(alloc, disk.octets())?;
    let (said, held) = (said.as_str(), held.as_str());
    Ok(format!(in alloc; "{first} {count} {size} {said}{held}")?)
}

fn carried_on(alloc: Global, mut open: Open, fields: &mut Fields<'_>) -> Result<String> {
    let (first, count, size) = (open.first, open.bodies.len(), open.journal.size());
    let said = appended(alloc, &mut open.journal, fields);
    told(alloc, first, count, size, said, &open.end())
}

fn journal(alloc: Global, mut fields: Fields<'_>) -> Result<String> {
    let octets = octets(alloc, &mut fields)?;
    let fails = numbers(alloc, fields.take())?;
    match Journal::open(alloc, MemDisk::new(alloc, octets, fails)) {
        Ok(opened) => carried_on(alloc, Open::of(opened), &mut fields),
        Err(fault) => {
            let why = fault.why;
            Ok(format!(in alloc; "{why:?}")?)
        }
    }
}

/// A journal that is opened over octets on a disk of which no call fails.
pub fn opened(alloc: Global, octets: &[u8]) -> Result<Open> {
    let octets = Octets::from_slice(alloc, octets)?;
    match Journal::open(alloc, MemDisk::new(alloc, octets, Vec::new(alloc))) {
        Ok(opened) => Ok(Open::of(opened)),
        Err(_) => Err(anyhow!("not opened")),
    }
}

/// Whether octets have the bodies `07 08` and `09`, and not `07 08` alone. They have no others.
fn has_both(alloc: Global, octets: &[u8]) -> Result<bool> {
    let opened = opened(alloc, octets)?;
    match opened.bodies.as_slice() {
        [one] if one.as_slice() == [7, 8].as_slice() => Ok(false),
        [one, two] if one.as_slice() == [7, 8].as_slice() && two.as_slice() == [9].as_slice() => {
            Ok(true)
        }
        _ => Err(anyhow!("other bodies")),
    }
}

fn image(disk: &MemDisk, call: u64, choice: u64) -> Result<Octets> {
    Ok(disk.image(call, choice)?)
}

/// Whether the images by this choice are as they are to be.
fn are_good(alloc: Global, disk: &MemDisk, choice: u64) -> Result<bool> {
    let calls = disk.calls();
    for call in 0..calls {
        let _ = has_both(alloc, image(disk, call, choice)?.as_slice())?;
    }
    let before = image(disk, calls.saturating_sub(2), choice)?;
    let behind = image(disk, calls, choice)?;
    Ok(!has_both(alloc, before.as_slice())? && has_both(alloc, behind.as_slice())?)
}

/// The disk behind the append.
fn behind_append(alloc: Global, octets: &[u8]) -> Result<MemDisk> {
    let mut open = opened(alloc, octets)?;
    if append(&mut open.journal, &[9])?.is_err() {
        bail!("not appended");
    }
    Ok(open.end())
}

fn look(alloc: Global, disk: &MemDisk) -> Result<()> {
    for choice in 0..8 {
        if !are_good(alloc, disk, choice)? {
            bail!("another image");
        }
    }
    Ok(())
}

/// The disk behind the append, where its images are as they are to be.
fn stopped(alloc: Global, octets: &[u8]) -> Result<MemDisk> {
    let disk = behind_append(alloc, octets)?;
    match look(alloc, &disk) {
        Ok(()) => Ok(disk),
        Err(error) => Err(error),
    }
}

fn stop(alloc: Global, octets: &[u8]) -> Result<()> {
    match stopped(alloc, octets) {
        Ok(_) => Ok(()),
        Err(error) => Err(error),
    }
}

/// Stops at each image by this choice that lacks the second body.
fn stop_again(alloc: Global, disk: &MemDisk, choice: u64) -> Result<()> {
    for call in 0..disk.calls() {
        let image = image(disk, call, choice)?;
        if !has_both(alloc, image.as_slice())? {
            stop(alloc, image.as_slice())?;
        }
    }
    Ok(())
}

fn stop_at_all(alloc: Global, disk: &MemDisk) -> Result<String> {
    for choice in 0..8 {
        stop_again(alloc, disk, choice)?;
    }
    Ok(shown(alloc, disk.octets())?)
}

fn stops(alloc: Global, text: &str) -> Result<String> {
    let octets = octets_of(alloc, text)?;
    let disk = stopped(alloc, octets.as_slice())?;
    stop_at_all(alloc, &disk)
}

fn large_of(alloc: Global, mut fields: Fields<'_>) -> Result<String, AllocError> {
    let size = usize::try_from(number(fields.take())).unwrap_or(0);
    let (reads, rounds) = (number(fields.take()), number(fields.take()));
    large(alloc, size, reads, rounds)
}

/// What the row is answered, where it asks of a journal or a large disk.
pub fn journal_answer(alloc: Global, asked: &str, fields: Fields<'_>) -> Result<String> {
    if let Some(said) = areas_answer(alloc, asked, fields)? {
        return Ok(said);
    }
    match asked {
        "journal" => journal(alloc, fields),
        "stops" => stops(alloc, fields.rest),
        "large" => Ok(large_of(alloc, fields)?),
        _ => Ok(format!(in alloc; "not asked")?),
    }
}

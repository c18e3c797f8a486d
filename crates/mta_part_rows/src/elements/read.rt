//! What octets are read as.

use crate::elements::written::{LONGEST, written_int};
use crate::faults::fault_text;
use mta_ber::{Fault, Kind, Memory, Octets, ReadFault, TextClass, View};
use mta_ber_tests::Note;
use mta_rows::{Fields, pairs, shown};
use std::alloc::{AllocError, Global};

/// The first element of octets.
pub fn first_of(octets: &[u8]) -> Result<View<'_>, Fault> {
    if octets.len() > LONGEST {
        return Err(Fault {
            at: 0,
            kind: Kind::TooLong,
        });
    }
    View::first(octets, 0)
}

fn ok_text(alloc: Global, fault: Option<Fault>) -> Result<String, AllocError> {
    match fault {
        None => format!(in alloc; "ok"),
        Some(fault) => fault_text(alloc, fault),
    }
}

fn view_text(alloc: Global, view: &View<'_>) -> Result<String, AllocError> {
    let (class, constructed, number) = (view.tag.class, view.tag.constructed, view.tag.number);
    let (start, content) = (view.start, view.content.len());
    let (rest, octets) = (view.rest.len(), view.octets.len());
    format!(in alloc; "{class} {constructed} {number} {start} {content} {rest} {octets}")
}

fn element(alloc: Global, octets: &[u8]) -> Result<String, AllocError> {
    match first_of(octets) {
        Ok(view) => view_text(alloc, &view),
        Err(fault) => fault_text(alloc, fault),
    }
}

fn oid_of(octets: &[u8]) -> Result<&[u8], Fault> {
    first_of(octets)?.oid()
}

fn inner_of(octets: &[u8]) -> Result<View<'_>, Fault> {
    first_of(octets)?.inner()
}

// What encloses one element alone is `ok`.
fn inner(alloc: Global, octets: &[u8]) -> Result<String, AllocError> {
    match inner_of(octets) {
        Err(fault) => fault_text(alloc, fault),
        Ok(inner) => match inner.alone() {
            Ok(()) => format!(in alloc; "ok"),
            Err(fault) => behind_text(alloc, fault),
        },
    }
}

fn behind_text(alloc: Global, fault: Fault) -> Result<String, AllocError> {
    let fault = fault_text(alloc, fault)?;
    let fault = fault.as_str();
    format!(in alloc; "behind {fault}")
}

fn int_of(octets: &[u8], low: i64, high: i64) -> Result<i64, Fault> {
    first_of(octets)?.int(low, high)
}

fn int_text(alloc: Global, read: Result<i64, Fault>) -> Result<String, AllocError> {
    match read {
        Ok(n) => format!(in alloc; "{n}"),
        Err(fault) => fault_text(alloc, fault),
    }
}

// An integer, which has to be written again as it was.
fn int(alloc: Global, octets: &[u8]) -> Result<String, Memory> {
    let read = int_of(octets, i64::MIN, i64::MAX);
    if let (Ok(n), Ok(view)) = (read, first_of(octets)) {
        let written = written_int(alloc, view.tag, n)?;
        if written.as_slice() != octets {
            return Ok(format!(in alloc; "written otherwise")?);
        }
    }
    Ok(int_text(alloc, read)?)
}

fn number(text: &str) -> i64 {
    text.parse::<i64>().unwrap_or(0)
}

fn joined_of(alloc: Global, octets: &[u8]) -> Result<Octets, ReadFault> {
    first_of(octets)?.joined(alloc)
}

// The characters of a text, which has to be copied as it is.
fn text_of(alloc: Global, octets: &[u8]) -> Result<Octets, ReadFault> {
    let text = first_of(octets)?.text(alloc, TextClass::Printable, 1, 4)?;
    let copy = text.copy(alloc)?;
    if copy.as_slice() != text.as_slice() {
        return Ok(Octets::new(alloc));
    }
    Ok(copy.into_octets())
}

fn string_text(alloc: Global, read: Result<Octets, ReadFault>) -> Result<String, Memory> {
    match read {
        Ok(octets) => Ok(pairs(alloc, octets.as_slice())?),
        Err(ReadFault::Bad(fault)) => Ok(fault_text(alloc, fault)?),
        Err(ReadFault::Memory) => Err(Memory),
    }
}

fn note_of(alloc: Global, octets: &[u8]) -> Result<Note, ReadFault> {
    Note::read(alloc, &first_of(octets)?)
}

fn note_text(alloc: Global, note: &Note) -> Result<String, AllocError> {
    let title = shown(alloc, note.title.as_slice())?;
    let (title, count) = (title.as_str(), note.count);
    match note.flags {
        None => format!(in alloc; "{title} {count}"),
        Some(flags) => {
            let flags = flags.count();
            format!(in alloc; "{title} {count} {flags}")
        }
    }
}

fn note(alloc: Global, octets: &[u8]) -> Result<String, Memory> {
    match note_of(alloc, octets) {
        Ok(note) => Ok(note_text(alloc, &note)?),
        Err(ReadFault::Bad(fault)) => Ok(fault_text(alloc, fault)?),
        Err(ReadFault::Memory) => Err(Memory),
    }
}

fn moment_text(alloc: Global, read: Result<u64, Fault>) -> Result<String, AllocError> {
    match read {
        Ok(moment) => format!(in alloc; "{moment}"),
        Err(fault) => fault_text(alloc, fault),
    }
}

fn utc_of(octets: &[u8]) -> Result<u64, Fault> {
    first_of(octets)?.utc()
}

// The octets of a UTCTime of these characters.
fn octets_of_time(alloc: Global, text: &str) -> Result<Vec<u8>, AllocError> {
    let mut octets = Vec::new(alloc);
    if text.len() < 128 {
        octets.push(0x17)?;
        octets.push(text.len() as u8)?;
        octets.extend_from_slice(text.as_bytes())?;
    }
    Ok(octets)
}

/// What a time of these characters is read as.
pub fn time(alloc: Global, text: &str) -> Result<String, Memory> {
    let octets = octets_of_time(alloc, text)?;
    Ok(moment_text(alloc, utc_of(octets.as_slice()))?)
}

fn string(alloc: Global, asked: &str, octets: &[u8]) -> Result<Option<String>, Memory> {
    let read = match asked {
        "joined" => joined_of(alloc, octets),
        "text" => text_of(alloc, octets),
        "note" => return Ok(Some(note(alloc, octets)?)),
        _ => return Ok(None),
    };
    Ok(Some(string_text(alloc, read)?))
}

/// What the row is answered, where it asks what octets are read as.
pub fn read_answer(
    alloc: Global,
    asked: &str,
    octets: &[u8],
    mut fields: Fields<'_>,
) -> Result<Option<String>, Memory> {
    Ok(Some(match asked {
        "element" => element(alloc, octets)?,
        "header" => ok_text(alloc, first_of(octets).err())?,
        "oid" => ok_text(alloc, oid_of(octets).err())?,
        "inner" => inner(alloc, octets)?,
        "int" => int(alloc, octets)?,
        "int-in" => {
            let (low, high) = (number(fields.take()), number(fields.take()));
            int_text(alloc, int_of(octets, low, high))?
        }
        "utc" => moment_text(alloc, utc_of(octets))?,
        _ => return string(alloc, asked, octets),
    }))
}

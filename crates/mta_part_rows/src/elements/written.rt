//! What octets are written.

use crate::elements::read;
use mta_ber::{Bits, LAST_MOMENT, Memory, Octets, Tag, Word, Writer, put_bits, put_int, put_utc};
use mta_rows::{number, pairs, shown};
use std::alloc::{AllocError, Global};

/// No element of a row has more octets.
pub const LONGEST: usize = 4_000;

/// The octets of an integer under this tag; none where its number is above 30.
pub fn written_int(alloc: Global, tag: Tag, n: i64) -> Result<Octets, Memory> {
    let mut w = Writer::new(alloc);
    if tag.class < 4 && tag.number < 31 {
        put_int(&mut w, tag, n)?;
    }
    Ok(w.finish())
}

/// The octets of a BIT STRING.
pub fn written_bits(alloc: Global, bits: Bits) -> Result<Octets, Memory> {
    let tag = Tag {
        class: 0,
        constructed: false,
        number: 3,
    };
    let mut w = Writer::new(alloc);
    put_bits(&mut w, tag, bits)?;
    Ok(w.finish())
}

// The octets of a time under a tag of the context's class; none where it is past the last moment.
fn written_time(alloc: Global, moment: u64) -> Result<Octets, Memory> {
    let tag = Tag {
        class: 2,
        constructed: true,
        number: 0,
    };
    let mut w = Writer::new(alloc);
    if moment <= LAST_MOMENT {
        put_utc(&mut w, tag, moment)?;
    }
    Ok(w.finish())
}

fn time(alloc: Global, moment: u64) -> Result<String, Memory> {
    let octets = written_time(alloc, moment)?;
    Ok(shown(alloc, octets.as_slice())?)
}

// An element under a tag of the application's class, whose number takes two octets.
fn written_element(alloc: Global, content: &[u8]) -> Result<Octets, Memory> {
    let tag = Tag {
        class: 1,
        constructed: false,
        number: 129,
    };
    let mut w = Writer::new(alloc);
    w.put(tag, content)?;
    Ok(w.finish())
}

fn zeros(alloc: Global, count: u64) -> Result<Vec<u8>, AllocError> {
    let count = usize::try_from(count).unwrap_or(LONGEST).min(LONGEST);
    vec![in alloc; 0u8; count]
}

// What stands before so many octets.
fn length(alloc: Global, count: u64) -> Result<String, Memory> {
    let content = zeros(alloc, count)?;
    let element = written_element(alloc, content.as_slice())?;
    let front = element.len().saturating_sub(content.len());
    Ok(pairs(alloc, &element.as_slice()[..front])?)
}

// The octets of a country in an element in an element, with a NULL behind it.
fn enclosing(alloc: Global) -> Result<Octets, Memory> {
    let outer = Tag {
        class: 1,
        constructed: true,
        number: 3,
    };
    let country = Tag {
        class: 1,
        constructed: true,
        number: 1,
    };
    let printable = Tag {
        class: 0,
        constructed: false,
        number: 19,
    };
    let mut w = Writer::new(alloc);
    w.begin(outer)?;
    w.begin(country)?;
    w.put(printable, b"GB")?;
    w.end()?;
    w.put_raw(&[5, 0])?;
    w.end()?;
    Ok(w.finish())
}

fn encloses(alloc: Global) -> Result<String, Memory> {
    let octets = enclosing(alloc)?;
    Ok(pairs(alloc, octets.as_slice())?)
}

// A word of octets, shared; none where they are no word.
fn shared_of(alloc: Global, octets: &[u8]) -> Result<Option<Word>, Memory> {
    match Word::from_octets(alloc, Octets::from_slice(alloc, octets)?)? {
        Some(word) => Ok(Some(word.share()?)),
        None => Ok(None),
    }
}

fn word_text(word: &Option<Word>, octets: &[u8]) -> &'static str {
    match word {
        None => "no",
        Some(word) => {
            if word.as_slice() == octets {
                "yes"
            } else {
                "shared otherwise"
            }
        }
    }
}

// Whether so many octets are a word, which is shared as it is.
fn word(alloc: Global, count: u64) -> Result<String, Memory> {
    let octets = zeros(alloc, count)?;
    let word = shared_of(alloc, octets.as_slice())?;
    Ok(String::from_str(alloc, word_text(&word, octets.as_slice()))?)
}

/// What the row is answered, where it asks what is written of a number, or what a time of characters is read as.
pub fn written_answer(alloc: Global, asked: &str, text: &str) -> Result<Option<String>, Memory> {
    Ok(Some(match asked {
        "time" => read::time(alloc, text)?,
        "writes-time" => time(alloc, number(text))?,
        "writes-length" => length(alloc, number(text))?,
        "encloses" => encloses(alloc)?,
        "word" => word(alloc, number(text))?,
        _ => return Ok(None),
    }))
}

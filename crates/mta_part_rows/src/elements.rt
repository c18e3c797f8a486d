//! Elements of BER, each by itself: what octets are read as, and what octets are written. A row has fields behind tabs:
//! what is asked, what is to be answered, and what it is about: octets, which numbers may stand behind, but where
//! another thing is named. It is told of each row whether it was answered so. Where octets are not read, the answer is
//! the place and the kind of the first fault.
//!
//! `element` asks for the class of the first element's tag, whether it is constructed, its number, where its contents
//! begin, how many octets they are, how many stand behind it and how many it is; `header` for its fault alone, or `ok`,
//! as `oid` does of an object identifier and `inner` of an element that encloses one. There `behind` stands before the
//! fault of what is behind that one. `int` asks for an integer, which is written again, and `int-in` for one between
//! two numbers; `joined` for the octets of a string and `text` for those of one to four characters of PrintableString;
//! `utc` for a time and `time` for one of these characters.
//!
//! `bits` asks how many bits there are and for the number that they are, `padded` for the same once they are so many,
//! `is-set` whether the bit at a place is set, of them and of eight, and `bits-again` for the octets that are written
//! of them. `writes-time` asks for those of a moment, `writes-length` for those before so many, `encloses` for those of
//! a country in two elements with a NULL behind, and `word` whether so many octets are a word. `note` asks for the
//! title, the count and how many flags of the type of the worked example (`mta_ber_tests`).
//!
//! The rows were worked out by hand from X.690.

mod bits;
mod read;
mod written;

use crate::elements::bits::bits_answer;
use crate::elements::read::read_answer;
use crate::elements::written::written_answer;
use anyhow::{Result, bail};
use mta_ber::Memory;
use mta_rows::{Fields, octets_of, tell};
use std::alloc::Global;

fn answer_of_octets(
    alloc: Global,
    asked: &str,
    octets: &[u8],
    fields: Fields<'_>,
) -> Result<Option<String>, Memory> {
    match read_answer(alloc, asked, octets, fields)? {
        Some(said) => Ok(Some(said)),
        None => bits_answer(alloc, asked, octets, fields),
    }
}

fn answer_of(alloc: Global, asked: &str, mut fields: Fields<'_>) -> Result<String> {
    let said = written_answer(alloc, asked, fields.rest)?;
    if let Some(said) = said {
        return Ok(said);
    }
    let octets = octets_of(alloc, fields.take())?;
    let said = answer_of_octets(alloc, asked, octets.as_slice(), fields);
    match said? {
        Some(said) => Ok(said),
        None => bail!("nothing is asked"),
    }
}

/// Tells of a row whether it was answered as it says. Each asks something.
pub fn try_row(rt: &impl Print, alloc: Global, row: &str) -> Result<bool> {
    let mut fields = Fields { rest: row };
    let asked = fields.take();
    let wanted = fields.take();
    let about = fields.rest;
    let answered = answer_of(alloc, asked, fields)?;
    tell(rt, asked, about, answered.as_str(), wanted)?;
    Ok(true)
}

//! What is done with APDUs under tables, and what is made of them. A row has fields behind tabs: what is asked, what it
//! is about, what is to be answered, the octets of a message, a probe or a report, and numbers. Asked is the `verdict`;
//! the `copy` for a peer, or its `head`; the report that is `made`; or the copy for members, `expand`. A row that is
//! answered otherwise is printed.
//!
//! Octets are in hexadecimal, `07*1000` being a thousand of one. The rows were worked out from the formats by hand and
//! by an independent writer.

mod answer;
mod copy;
mod verdict;

use crate::rules::answer::Answer;
use anyhow::{Result, bail};
use mta_apdu::Apdu;
use mta_rows::{Fields, octets_of};
use mta_tables::Tables;
use std::alloc::{AllocError, Global};

/// What these octets are answered.
fn answer_of(
    alloc: Global,
    tables: &Tables,
    asked: &str,
    octets: &[u8],
    numbers: &[u32],
) -> Result<Answer> {
    let Ok(apdu) = Apdu::read(alloc, octets) else {
        bail!("no APDU");
    };
    let answer = Answer::of(alloc, tables, asked, &apdu, numbers);
    apdu.discard();
    Ok(answer?)
}

/// The numbers of a text, one space between two.
fn numbers_of(alloc: Global, text: &str) -> Result<Vec<u32>, AllocError> {
    let mut numbers = Vec::new(alloc);
    for word in text.split(' ') {
        if let Ok(number) = word.parse::<u32>() {
            numbers.push(number)?;
        }
    }
    Ok(numbers)
}

/// Prints a row that is answered otherwise than it says. Each asks something.
pub fn try_row(rt: &impl Print, alloc: Global, tables: &Tables, row: &str) -> Result<bool> {
    let mut fields = Fields { rest: row };
    let (asked, about, expected) = (fields.take(), fields.take(), fields.take());
    let octets = octets_of(alloc, fields.take())?;
    let numbers = numbers_of(alloc, fields.take())?;
    let answered = answer_of(alloc, tables, asked, octets.as_slice(), numbers.as_slice())?;
    if answered.is(alloc, expected)? {
        return Ok(true);
    }
    println!(rt; "{asked} {about}: not {expected}")?;
    Ok(true)
}

//! The forms in memory of the outside, the two synced writes of a record, and the journal. A row has fields behind
//! tabs: what is asked, what is to be answered, and what it is asked with; octets are in hexadecimal. It is told of
//! each row whether it was answered so.
//!
//! The rows `source`, `sink`, `disk`, `clock` and those of the same names with `safe-` before them have nothing to be
//! answered: they make what is asked from there on. `streams.rt`, `disks.rt`, `journals.rt` and `areas.rt` in
//! `outside` have what is asked.
//!
//! The rows were worked out by hand; the octets of journals are those of the format, written out.

mod areas;
pub mod disks;
mod journals;
mod large;
mod numbers;
pub mod streams;

use crate::outside::disks::Disks;
use crate::outside::journals::journal_answer;
use crate::outside::streams::Streams;
use anyhow::Result;
use mta_rows::{Fields, tell};
use std::alloc::Global;

/// What is asked from there on: whether the row says so.
fn is_made(
    alloc: Global,
    streams: &mut Streams,
    disks: &mut Disks,
    asked: &str,
    fields: Fields<'_>,
) -> Result<bool> {
    Ok(streams.make(alloc, asked, fields)? || disks.make(alloc, asked, fields)?)
}

fn answer_of(
    alloc: Global,
    streams: &mut Streams,
    disks: &mut Disks,
    asked: &str,
    fields: Fields<'_>,
) -> Result<String> {
    if let Some(said) = streams.answer(alloc, asked, fields)? {
        return Ok(said);
    }
    if let Some(said) = disks.answer(alloc, asked, fields)? {
        return Ok(said);
    }
    journal_answer(alloc, asked, fields)
}

/// Tells of a row that asks something whether it was answered as it says, and answers that it asks.
pub fn try_row(
    rt: &impl Print,
    alloc: Global,
    streams: &mut Streams,
    disks: &mut Disks,
    row: &str,
) -> Result<bool> {
    let mut fields = Fields { rest: row };
    let asked = fields.take();
    if is_made(alloc, streams, disks, asked, fields)? {
        return Ok(false);
    }
    let wanted = fields.take();
    let about = fields.rest;
    let answered = answer_of(alloc, streams, disks, asked, fields)?;
    tell(rt, asked, about, answered.as_str(), wanted)?;
    Ok(true)
}

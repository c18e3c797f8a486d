//! Streams of units as octets: what they are read as, whatever cuts they come in, and what units are written as. A row
//! has fields behind tabs: what is asked, what is to be answered, and what it is about. It is told of each row whether
//! it was answered so.
//!
//! `read` asks for the units of a stream, each followed by a semicolon, and the fault behind them. `cuts` asks the same
//! of the stream in three parts, whatever the two places are at which it is cut. `writes` asks for the octets of a
//! unit: `sync`, `resume`, `exception`, `please`, `reject` and `abort` with their numbers, `piece` with its text,
//! `give`, and one `accept` and one `open`, which `units/made.rt` has.
//!
//! The rows were worked out by hand from X.228.

mod made;
mod read;
mod told;

use crate::units::made::written;
use crate::units::read::{cuts, whole};
use anyhow::Result;
use mta_ber::Memory;
use mta_rows::{Fields, octets_of, tell};
use std::alloc::Global;

fn answer_of(
    alloc: Global,
    asked: &str,
    fields: Fields<'_>,
    octets: &[u8],
) -> Result<String, Memory> {
    match asked {
        "read" => whole(alloc, octets),
        "cuts" => cuts(alloc, octets),
        _ => written(alloc, fields),
    }
}

/// Tells of a row whether it was answered as it says. Each asks something.
pub fn try_row(rt: &impl Print, alloc: Global, row: &str) -> Result<bool> {
    let mut fields = Fields { rest: row };
    let asked = fields.take();
    let wanted = fields.take();
    let about = fields.rest;
    let octets = if asked == "writes" {
        Vec::new(alloc)
    } else {
        octets_of(alloc, about)?
    };
    let answered = answer_of(alloc, asked, fields, octets.as_slice())?;
    tell(rt, asked, about, answered.as_str(), wanted)?;
    Ok(true)
}

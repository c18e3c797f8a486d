//! Runs of `mta_rehearse` over objects in memory: what each prints, and its status.
//!
//! These rows want nothing: `texts TEXT`, the texts of the agents' tables, and `add COUNT TEXT`, which puts a text
//! behind them so many times, where each `%` stands for its number from 0 in two digits; a line ends with `|`. `fails
//! PLACE CALL` has a call of the row behind fail, the place being `texts` or `output` and the first call 1.
//!
//! `run` runs the words behind it, separated by a comma, and is answered the status and what was printed.
//!
//! The rows were worked out by hand from the manual.

mod held;

use anyhow::Result;
pub use held::Held;
use mta_edge::{MemSink, MemSource, Octets};
use mta_rehearse_run::rehearse_run;
use mta_rows::{Fields, said, tell, words_of};
use std::alloc::Global;

fn ran_into(alloc: Global, held: &Held, line: &str, out: &mut MemSink) -> Result<u8> {
    let words = words_of(alloc, line, ',')?;
    let octets = Octets::from_slice(alloc, held.texts.as_slice())?;
    let mut conf = MemSource::new(octets, [held.texts_fail].to_vec(alloc)?);
    Ok(rehearse_run(alloc, words.as_slice(), &mut conf, out))
}

/// The status and what was printed. Nothing fails behind it.
fn ran(alloc: Global, held: &mut Held, line: &str) -> Result<String> {
    let mut out = MemSink::new(alloc, [held.output_fails].to_vec(alloc)?);
    let status = ran_into(alloc, held, line, &mut out)?;
    held.calm();
    Ok(said(alloc, status, out.octets())?)
}

/// Tells of a row that wants something whether it was answered so.
pub fn try_row(rt: &impl Print, alloc: Global, held: &mut Held, row: &str) -> Result<()> {
    let mut fields = Fields { rest: row };
    let asked = fields.take();
    if asked != "run" {
        return held.take(alloc, asked, fields);
    }
    let wanted = fields.take();
    let answered = ran(alloc, held, fields.rest)?;
    tell(rt, asked, fields.rest, answered.as_str(), wanted)?;
    Ok(())
}

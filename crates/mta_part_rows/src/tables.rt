//! Texts of tables and texts that are none, what tables say, and where names go; and the text forms of names. A row has
//! fields behind tabs: what is asked, what is to be answered, and what it is about. In a text each line ends with `|`.
//! It is told of each row whether it was answered so.
//!
//! `reads` asks whether a text is one of tables, or for its first bad line; `many` asks it of a text that is made: its
//! fields are a count, the front, a piece that comes so many times, in which `%` stands for its number from 0 in four
//! digits, and the back. `tables/answers.rt` has what is asked of tables, and `tables/names.rt` what is asked of names
//! alone.
//!
//! The rows were worked out by hand from the grammar of tables and from X.402.

mod answers;
mod made;
mod names;

use crate::tables::answers::answer;
use anyhow::Result;
use mta_rows::{Fields, tell};
use mta_tables::Tables;
use std::alloc::Global;

/// Tells of a row whether it was answered as it says. Each asks something.
pub fn try_row(rt: &impl Print, alloc: Global, tables: &Tables, row: &str) -> Result<bool> {
    let mut fields = Fields { rest: row };
    let asked = fields.take();
    let wanted = fields.take();
    let about = fields.rest;
    let answered = answer(alloc, tables, asked, fields)?;
    tell(rt, asked, about, answered.as_str(), wanted)?;
    Ok(true)
}

//! Runs of `mta_store` over objects in memory: what each prints, its status, and what the disks hold then. The clock
//! stands at 0.
//!
//! These rows want nothing. `case NAME` begins a case, with two empty disks and nothing that fails. `step OCTETS` puts
//! a record with this body behind what the disk of the spool holds, and `tables TEXT` one of tables, where each line
//! ends with `|`; `mark OCTETS` puts one behind what that of the marks holds, and `fetched MAILBOX NUMBER` and `deleted
//! MAILBOX NUMBER` one of that mark; `spool-octets OCTETS` and `marks-octets OCTETS` say all that a disk holds. `fails
//! PLACE CALL` has a call of the row behind fail, the place being `spool`, `marks` or `output` and the first call 1.
//!
//! In these the field behind the first says what is wanted. `run` runs the words behind it, and is answered the status
//! and what was printed; `holds` is answered what the disk `spool` or `marks` holds. `stops` runs the words behind it,
//! stops them at each call of the disk of the marks by each of eight choices of what a crash leaves, and runs the words
//! in the next field over the image: at the end it has to be answered as the first field behind says, and before as
//! that or as one of the others.
//!
//! The rows were worked out by hand from the manual and the formats of the journals.

mod held;
mod made;

use crate::store::made::{ran, stops};
use anyhow::{Result, bail};
pub use held::Held;
use mta_rows::{Fields, shown, tell};
use std::alloc::Global;

// What a run is answered; nothing fails behind it.
fn ran_and_calm(alloc: Global, held: &mut Held, line: &str) -> Result<String> {
    let answered = ran(alloc, held, line)?;
    held.calm();
    Ok(answered)
}

fn holds(alloc: Global, held: &Held, disk: &str) -> Result<String> {
    match disk {
        "spool" => Ok(shown(alloc, held.spool.as_slice())?),
        "marks" => Ok(shown(alloc, held.marks.as_slice())?),
        _ => bail!("no such disk"),
    }
}

fn tell_of(
    rt: &impl Print,
    alloc: Global,
    held: &mut Held,
    asked: &str,
    mut fields: Fields<'_>,
) -> Result<()> {
    let wanted = fields.take();
    let answered = match asked {
        "run" => ran_and_calm(alloc, held, fields.rest)?,
        "stops" => stops(alloc, held, fields)?,
        _ => holds(alloc, held, fields.rest)?,
    };
    let about = if asked == "stops" { "" } else { fields.rest };
    let case = held.case.as_str();
    let name = format!(in alloc; "{case}: {asked}")?;
    tell(rt, name.as_str(), about, answered.as_str(), wanted)?;
    Ok(())
}

/// Tells of a row that wants something whether it was answered so, under the name of its case.
pub fn try_row(rt: &impl Print, alloc: Global, held: &mut Held, row: &str) -> Result<()> {
    let mut fields = Fields { rest: row };
    let asked = fields.take();
    match asked {
        "run" | "holds" | "stops" => tell_of(rt, alloc, held, asked, fields),
        _ => held.take(alloc, asked, fields),
    }
}

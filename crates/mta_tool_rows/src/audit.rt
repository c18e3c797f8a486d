//! Runs of `mta_audit` over objects in memory: what each prints, its status, and what the disks hold then.
//!
//! These rows want nothing. `case NAME` begins a case, with two empty disks and nothing that fails. `first OCTETS` and
//! `second OCTETS` put a record with this body behind what the disk holds, `first-tables TEXT` and `second-tables TEXT`
//! one of tables, where each line ends with `|`; `first-areas` and `second-areas` make the disk an empty journal of two
//! areas, `first-moved OCTETS` and `second-moved OCTETS` one whose second area is current and has a record with this
//! body; `first-octets OCTETS` and `second-octets OCTETS` say all that the disk holds, and `second-is-first` that it
//! holds what the first does.
//! `fails PLACE CALL` has a call of the row behind fail, the place being `first`, `second` or `output` and the first
//! call 1.
//!
//! In these the field behind the first says what is wanted. `run` runs the words behind it, separated by a comma, and
//! is answered the status and what was printed; `holds` is answered what the disk `first` or `second` holds behind it,
//! or `the same` where it holds what it held before.
//!
//! The rows were worked out by hand from the manual and the format of the journal.

mod held;
mod made;

use crate::audit::made::ran;
use anyhow::{Result, bail};
pub use held::Held;
use mta_rows::{Fields, shown, tell};
use std::alloc::Global;

// What a run is answered; nothing fails behind it.
fn ran_and_calm(alloc: Global, held: &mut Held, line: &str) -> Result<String> {
    let answered = ran(alloc, held, line)?;
    held.calm();
    Ok(answered)
}

fn held_then(alloc: Global, before: &[u8], now: &[u8]) -> Result<String> {
    if before == now {
        return Ok(String::from_str(alloc, "the same")?);
    }
    Ok(shown(alloc, now)?)
}

fn holds(alloc: Global, held: &Held, disk: &str) -> Result<String> {
    match disk {
        "first" => held_then(alloc, held.first_before.as_slice(), held.first.as_slice()),
        "second" => held_then(alloc, held.second_before.as_slice(), held.second.as_slice()),
        _ => bail!("no such disk"),
    }
}

fn tell_of(
    rt: &impl Print,
    alloc: Global,
    held: &mut Held,
    asked: &str,
    mut fields: Fields<'_>,
) -> Result<()> {
    let wanted = fields.take();
    let answered = match asked {
        "run" => ran_and_calm(alloc, held, fields.rest)?,
        _ => holds(alloc, held, fields.rest)?,
    };
    tell(rt, asked, held.case.as_str(), answered.as_str(), wanted)?;
    Ok(())
}

/// Tells of a row that wants something whether it was answered so, under the name of its case.
pub fn try_row(rt: &impl Print, alloc: Global, held: &mut Held, row: &str) -> Result<()> {
    let mut fields = Fields { rest: row };
    let asked = fields.take();
    match asked {
        "run" | "holds" => tell_of(rt, alloc, held, asked, fields),
        _ => held.take(alloc, asked, fields),
    }
}

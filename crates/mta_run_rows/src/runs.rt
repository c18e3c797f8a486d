//! Runs of the program over objects in memory: what each prints, its status, and the octets that it leaves on the
//! disk.
//!
//! These rows want nothing. `case NAME` begins a case, with an empty disk, no station and nothing that fails; tables,
//! input, clock and names stay until another is said. `tables TEXT`, where each line ends with `|`; `input OCTETS`;
//! `clock MOMENT`; `fails PLACE CALL`, the place being `input`, `output` or `disk` and the first call 1; `disk COUNT
//! OCTETS` and `disk-text COUNT TEXT`, which put octets or a text behind what the disk holds, so many times. `station
//! ROLE OCTETS` hands in one more station for the next run, `in` or `out PEER`: it has one link, whose peer gives these
//! octets and no more. `held-station` is the same, but its link gives nothing before another station's link has come
//! back.
//!
//! In these a field behind the first says what is wanted. `run` runs the words behind it, which may be none, over the
//! disk as it is and without stations, and is answered the status and what was printed. `run-in-place` is the same over
//! a disk that is changed in place, which nothing makes fail, and with the stations that were handed in. `put` is
//! answered what the link of the station of this number was put then. `holds` is answered what the disk holds, `size`
//! how many octets that is, and `records` records the tables in the spool that the disk holds, and is answered how many
//! items it has. `stops` runs `submit`, stops it at each of its device calls by each of eight choices of what a crash
//! leaves, and runs `spool` over the image: at the end it has to be answered as the first field behind says, and before
//! as that or as one of the others. `stops-of-spool` is the same of `spool`, which does no more than open the disk and
//! print.
//!
//! The rows were worked out by hand from the manual, the format of the journal, the protocol of a lane and X.411.

mod held;
mod made;
mod stations;
mod stops;

use crate::runs::made::{run_in_place, run_words};
use crate::runs::stops::stops;
use crate::spools::records;
use anyhow::{Result, bail};
pub use held::Held;
use mta_rows::{Fields, shown};
use std::alloc::Global;
use std::sync::Wait;
use std::thread::Threads;

fn size(alloc: Global, held: &Held) -> Result<String> {
    let size = held.case.disk.len();
    Ok(format!(in alloc; "{size}")?)
}

// Whether the fields behind are texts that an image may be answered with, and no words.
fn has_texts(asked: &str) -> bool {
    asked == "stops" || asked == "stops-of-spool"
}

fn answer_of<R: Threads + Wait + Sync>(
    rt: &R,
    alloc: Global,
    held: &mut Held,
    asked: &str,
    wanted: &str,
    fields: Fields<'_>,
) -> Result<String> {
    match asked {
        "run" => run_words(rt, alloc, held, fields.rest),
        "run-in-place" => run_in_place(rt, alloc, held, fields.rest),
        "put" => held.was_put(alloc, wanted, fields.rest),
        "holds" => Ok(shown(alloc, held.case.disk.as_slice())?),
        "size" => size(alloc, held),
        "records" => records(alloc, &mut held.case),
        "stops" => stops(rt, alloc, held, "submit", fields),
        "stops-of-spool" => stops(rt, alloc, held, "spool", fields),
        _ => bail!("nothing is asked"),
    }
}

/// Tells of a row that wants something whether it was answered so.
pub fn try_row<R: Print + Threads + Wait + Sync>(
    rt: &R,
    alloc: Global,
    held: &mut Held,
    row: &str,
) -> Result<()> {
    let mut fields = Fields { rest: row };
    let asked = fields.take();
    if held.take(alloc, asked, fields)? {
        return Ok(());
    }
    let wanted = fields.take();
    let answered = answer_of(rt, alloc, held, asked, wanted, fields)?;
    let about = if has_texts(asked) { "" } else { fields.rest };
    held.case
        .tell(rt, alloc, asked, about, answered.as_str(), wanted)
}

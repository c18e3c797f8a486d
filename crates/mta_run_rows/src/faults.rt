//! Faults, stops, hostile octets and hostile units: runs of the program over objects in memory, where calls fail, where
//! the process is stopped, and where input or peer give what they may not.
//!
//! These rows want nothing. `case NAME` begins a case, with an empty disk; tables, input, clock and names stay until
//! another is said. `tables TEXT`, where each line ends with `|`; `input OCTETS`; `clock MOMENT`.
//!
//! In these a field behind the first says what is wanted. A script is three fields: the words, the role of its station
//! (`in`, `out PEER`, or nothing where there is none) and the octets that the one peer of that station gives.
//!
//! `run SCRIPT` runs it over the disk as it is, is answered the status and what was printed, and keeps the disk. The
//! others below leave the disk as it was.
//!
//! `failing PLACE SCRIPT` runs the script again and again, with the first call of the place failing, then the second,
//! and so on, until nothing fails. The place is `tables`, `input`, `output`, `disk`, `station` or `link`. Behind it
//! stand what the runs say, one field after the other: the status, what was printed, ` then ` and what `spool` says of
//! the disk. Each field stands for one run or for several in a row, and the last for those in which nothing fails.
//!
//! `stops SCRIPT PRINTED PUT` stops the script at each call of the disk by each of eight choices of what a crash
//! leaves, and runs `spool` over the image, which has to say one of the fields behind. `PRINTED` is a text or `PUT` are
//! octets that acknowledge something, and the other is empty. Where the run had printed or put it before the call
//! behind the stop, the image has to say one of the fields behind the field `kept`.
//!
//! `hostile WORDS ROLE FRONT WRONG` is a script whose peer gives the octets of the front and then others, which are not
//! allowed there. It is answered what the peer was put. The others may change nothing: the same peer without them has
//! to leave the same disk and text.
//!
//! `refused OCTETS` is answered what `decode` says of octets that are no APDU. `submit` has to say the same, and
//! neither may call the disk. `fronts OCTETS` is answered so where each front of the octets, themselves left out, is.
//!
//! In these memory may be refused, once, as `checks/memory.sh` has it be; without that they show the same. `short
//! SCRIPT PRINTED PUT` runs a script once, which may end for want of memory. What `spool` says of the disk then has to
//! be one of the fields behind, as `stops` has them. `writes OCTETS` is answered what a writer writes of them, `reads
//! OCTETS` the kinds of the units that they are, and `takes` what `spool` says once a spool has taken the input: a call
//! that is refused is made again, of the same value, and then has to do what it is to do.
//!
//! The rows were worked out by hand from the manual, the format of the journal, the protocol of a lane and BER.

mod again;
mod failing;
mod hostile;
mod scripts;
mod short;
mod stops;

use crate::case::Case;
use crate::faults::again::{reads, takes, writes};
use crate::faults::failing::failing;
use crate::faults::hostile::{fronts, hostile, refused};
use crate::faults::scripts::run_on;
use crate::faults::short::short;
use crate::faults::stops::stops;
use anyhow::{Result, bail};
use mta_rows::Fields;
use std::alloc::Global;
use std::sync::Wait;
use std::thread::Threads;

fn answer_of<R: Threads + Wait + Sync>(
    rt: &R,
    alloc: Global,
    case: &mut Case,
    asked: &str,
    wanted: &str,
    fields: Fields<'_>,
) -> Result<String> {
    match asked {
        "run" => run_on(rt, alloc, case, fields),
        "failing" => failing(rt, alloc, case, fields),
        "stops" => stops(rt, alloc, case, fields),
        "hostile" => hostile(rt, alloc, case, wanted, fields),
        "refused" => refused(rt, alloc, case, fields.rest),
        "fronts" => fronts(rt, alloc, case, wanted, fields.rest),
        "short" => short(rt, alloc, case, fields),
        "writes" => writes(alloc, case, wanted, fields.rest),
        "reads" => reads(alloc, case, fields.rest),
        "takes" => takes(rt, alloc, case, wanted),
        _ => bail!("nothing is asked"),
    }
}

/// Tells of a row that wants something whether it was answered so.
pub fn try_row<R: Print + Threads + Wait + Sync>(
    rt: &R,
    alloc: Global,
    case: &mut Case,
    row: &str,
) -> Result<()> {
    let mut fields = Fields { rest: row };
    let asked = fields.take();
    if case.take(alloc, asked, fields)? {
        return Ok(());
    }
    let wanted = fields.take();
    let answered = answer_of(rt, alloc, case, asked, wanted, fields)?;
    let about = match asked {
        "run" | "failing" => fields.take(),
        _ => "",
    };
    case.tell(rt, alloc, asked, about, answered.as_str(), wanted)
}

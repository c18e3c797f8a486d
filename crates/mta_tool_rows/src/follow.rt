//! Runs of `mta_follow` over objects in memory: what each prints, its status, what the link was put and what the disk
//! holds then.
//!
//! These rows want nothing. `case NAME` begins a case, with an empty disk, a link that gives nothing, and nothing that
//! fails. `areas` makes the disk a journal of two areas, and `record OCTETS` puts a record with this body behind what
//! the disk holds; `disk OCTETS` says all that it holds. `input OCTETS` says what the link gives, `pieces N` that it
//! gives no more than so many octets a call, and `no-link` that the station has none for the next run. `fails PLACE
//! CALL` has a call of the next run fail, the place being `disk`, `link`, `station` or `output` and the first call 1.
//!
//! In these the field behind the first says what is wanted. `run` runs the words behind it, separated by a comma, and
//! is answered the status and what was printed; `put` is answered what the link was put then, in hexadecimal; `holds`
//! is answered what the disk holds; `records` how many octets it holds and how many records. `fails-each` runs the
//! words with the first disk call failing, then with the second, until none fails, each over the disk as it was, and is
//! answered the statuses. `crashes` stops the run at each of its disk calls: `crashes.rt` says what it is answered.
//!
//! The rows were worked out by hand from the manual, the units of a standby and the format of the journal.

mod crashes;
mod held;
mod link;
mod made;

use crate::follow::crashes::{crashes, records};
use crate::follow::made::run_of;
use anyhow::{Result, bail};
pub use held::Held;
use mta_rows::{Fields, shown, tell};
use std::alloc::{AllocError, Global};

// A run of more disk calls than this is none of these rows.
const MOST_CALLS: u64 = 200;

// Octets in hexadecimal.
fn digits_of(alloc: Global, octets: &[u8]) -> Result<String, AllocError> {
    let mut text = String::new(alloc);
    for octet in octets {
        text.push_str(format!(in alloc; "{octet:02X}")?.as_str())?;
    }
    Ok(text)
}

/// The status and what was printed. The disk is kept as the run leaves it.
fn ran(alloc: Global, held: &mut Held, line: &str) -> Result<String> {
    let run = run_of(alloc, held, line, held.disk_fails)?;
    held.disk = run.disk().octets().to_vec(alloc)?;
    held.put = run.was_put().to_vec(alloc)?;
    held.calm();
    Ok(run.said(alloc)?)
}

/// The statuses of runs with the first disk call failing, then the second, until none fails.
fn fails_each(alloc: Global, held: &Held, line: &str) -> Result<String> {
    let mut text = String::new(alloc);
    for call in 1..MOST_CALLS {
        let run = run_of(alloc, held, line, call)?;
        let status = run.status();
        text.push_str(format!(in alloc; "{status} ")?.as_str())?;
        if run.disk().calls() < call {
            return Ok(text);
        }
    }
    Ok(text)
}

fn answer_of(alloc: Global, held: &mut Held, asked: &str, fields: Fields<'_>) -> Result<String> {
    match asked {
        "run" => ran(alloc, held, fields.rest),
        "put" => Ok(digits_of(alloc, held.put.as_slice())?),
        "holds" => Ok(shown(alloc, held.disk.as_slice())?),
        "records" => records(alloc, held),
        "fails-each" => fails_each(alloc, held, fields.rest),
        "crashes" => crashes(alloc, held, fields.rest),
        _ => bail!("nothing is asked"),
    }
}

fn asks(asked: &str) -> bool {
    matches!(
        asked,
        "run" | "put" | "holds" | "records" | "fails-each" | "crashes"
    )
}

/// Tells of a row that wants something whether it was answered so, under the name of its case.
pub fn try_row(rt: &impl Print, alloc: Global, held: &mut Held, row: &str) -> Result<()> {
    let mut fields = Fields { rest: row };
    let asked = fields.take();
    if !asks(asked) {
        return held.take(alloc, asked, fields);
    }
    let wanted = fields.take();
    let answered = answer_of(alloc, held, asked, fields)?;
    tell(rt, asked, held.case.as_str(), answered.as_str(), wanted)?;
    Ok(())
}

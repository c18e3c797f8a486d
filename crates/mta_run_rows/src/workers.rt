//! Workers over a spool in memory, whose stations give links in memory: what each link was put, what the worker came
//! to, and the queue and the mailboxes then.
//!
//! These rows want nothing. `case NAME` begins a case, with an empty disk, no link and nothing that fails; tables,
//! clock and names stay until another is said. `tables TEXT`, where each line ends with `|`; `clock MOMENT`; `limits
//! SESSIONS UNITS`, which are 10 and 5,000 where a case says nothing; `gives OCTETS`, one more link, whose peer gives
//! these octets and no more; `fails PLACE CALL`, the place being `link` for the last link, `station` or `disk`, and the
//! first call 1, of the disk the first behind its opening.
//!
//! In these a field behind the first says what is wanted. `records` records the tables, and is answered how many
//! items there are. `submit` takes the octets behind it and does what is due, and is answered the number; `queue` is
//! answered the queue, and `mailbox` what the mailbox behind it got. `works` has a worker serve the links that were
//! given: behind it stands `in`, or `out PEER`. It is answered how many links came back, how many of them were
//! closed, and why it ended. `put` is answered what the link of this number was put.
//!
//! `batch` is answered the lowest item with recipients for the peer behind it, and all these, and `waiting` the items
//! that wait for it. `start RECIPIENTS ITEM LANE` starts the next activity of a lane of generation 1, where `3-5`
//! stands for three recipients. It is answered its number and how many octets it has, or why it was refused.
//!
//! `overtakes` has two sessions of responders over one spool. The first is carried on up to its question of this name,
//! and then the second is carried on to its end, and then the first. It is answered what the question was, and how
//! both ended.
//!
//! `failing` is `works` again and again, with each call of the disk failing in turn once it is opened. The worker's end
//! and the queue of what the disk holds then have to be what the fields behind say, one field after the other, each for
//! one call or for several in a row. `stops` is `works` stopped at each call of the disk by each of eight choices of
//! what a crash leaves: each time the queue has to be as one of the fields behind says, and at the end as the first of
//! them.
//!
//! The rows were worked out by hand from the protocol of a lane, the format of the journal and X.411.

mod asked;
mod faults;
mod held;
mod links;
mod overtaking;
mod spooled;
mod works;

use crate::spools::records;
use crate::workers::asked::{batch, start, waiting};
use crate::workers::faults::{failing, stops};
use crate::workers::overtaking::overtakes;
use crate::workers::spooled::{mailbox, queue_now, submit};
use crate::workers::works::works;
use anyhow::{Result, bail};
pub use held::Held;
use mta_rows::Fields;
use std::alloc::Global;
use std::sync::Wait;

// What is asked of the spool.
fn answer_of_spool(
    alloc: Global,
    held: &mut Held,
    asked: &str,
    wanted: &str,
    fields: Fields<'_>,
) -> Result<String> {
    match asked {
        "records" => records(alloc, &mut held.case),
        "submit" => submit(alloc, &mut held.case, fields.rest),
        "queue" => queue_now(alloc, &held.case),
        "mailbox" => mailbox(alloc, &held.case, fields.rest),
        "put" => held.was_put(alloc, wanted, fields.rest),
        "batch" => batch(alloc, &held.case, fields.rest),
        "waiting" => waiting(alloc, &held.case, fields.rest),
        "start" => start(alloc, &mut held.case, fields),
        _ => bail!("nothing is asked"),
    }
}

fn answer_of<R: Wait>(
    rt: &R,
    alloc: Global,
    held: &mut Held,
    asked: &str,
    wanted: &str,
    fields: Fields<'_>,
) -> Result<String> {
    match asked {
        "works" => works(rt, alloc, held, fields.rest),
        "overtakes" => overtakes(alloc, held, fields.rest),
        "failing" => failing(rt, alloc, held, fields),
        "stops" => stops(rt, alloc, held, fields),
        _ => answer_of_spool(alloc, held, asked, wanted, fields),
    }
}

/// Tells of a row that wants something whether it was answered so.
pub fn try_row<R: Wait + Print>(rt: &R, alloc: Global, held: &mut Held, row: &str) -> Result<()> {
    let mut fields = Fields { rest: row };
    let asked = fields.take();
    if held.take(alloc, asked, fields)? {
        return Ok(());
    }
    let wanted = fields.take();
    let answered = answer_of(rt, alloc, held, asked, wanted, fields)?;
    let about = fields.take();
    held.case
        .tell(rt, alloc, asked, about, answered.as_str(), wanted)
}

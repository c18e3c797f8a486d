//! Spools on the disk of a case. A spool is changed and ended in functions to which it is handed: where it comes out of
//! a `?` of the same one, or is dropped on one of its ways, the proof goes through all its parts.

ghost use Rattle.std.specs.Prelude.{IfOk};
ghost use Rattle.mta_edge.specs.Moments.{memory_clock};
ghost use Rattle.mta_spool.specs.Bases.{base_of, Keeps};

use crate::case::Case;
use crate::given::{clock, safe_disk};
use anyhow::{Result, anyhow, bail};
use mta_edge::{Disk, MemClock, SafeDisk};
use mta_spool::{Spool, Tables};
use std::alloc::Global;

/// A spool over a disk in memory of which no call fails.
pub type Memories = Spool<SafeDisk, MemClock>;

/// The spool on a disk, under a clock that stands at this moment.
pub fn opened<D: Disk + Drop>(alloc: Global, disk: D, moment: u64) -> Result<Spool<D, MemClock>>
    ensures { IfOk result (λ s. Keeps D.model memory_clock s (base_of D.model memory_clock s)) }
{
    let clock = clock(alloc, moment)?;
    match Spool::open(alloc, disk, clock) {
        Ok(spool) => Ok(spool),
        Err(_) => Err(anyhow!("not opened")),
    }
}

/// The spool that these octets are, at the moment of the case.
pub fn spool_of(alloc: Global, case: &Case, disk: &[u8]) -> Result<Memories> {
    opened(alloc, safe_disk(alloc, disk)?, case.moment)
}

// How many items the spool has once these tables are recorded; none where they are not.
fn items_under(spool: &mut Memories, tables: &Tables) -> Option<usize> {
    match spool.set_tables(tables) {
        Ok(()) => Some(spool.items().len()),
        Err(_) => None,
    }
}

// The same of the tables of a text, and the disk then.
fn recorded(alloc: Global, mut spool: Memories, text: &[u8]) -> (SafeDisk, Option<usize>) {
    let items = match Tables::read(alloc, text) {
        Ok(tables) => items_under(&mut spool, &tables),
        Err(_) => None,
    };
    (spool.end(), items)
}

/// Records the tables in the spool that the disk holds, and keeps what it holds then: how many items the spool has.
pub fn records(alloc: Global, case: &mut Case) -> Result<String> {
    let spool = spool_of(alloc, case, case.disk.as_slice())?;
    let (disk, items) = recorded(alloc, spool, case.tables.as_slice());
    let Some(items) = items else {
        bail!("no tables, or not recorded");
    };
    case.disk = disk.octets().to_vec(alloc)?;
    Ok(format!(in alloc; "{items}")?)
}

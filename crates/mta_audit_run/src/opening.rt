//! Opening the disk of a spool for an audit.
//!
//! It is opened as a journal, whatever a crash has left of it, and its bodies are replayed. Nothing is appended, and
//! nothing is moved from one area to the other: a disk without records is made an empty journal of two areas, and
//! another is only read.

ghost use Rattle.std.specs.Prelude.{IfErr, IfOk};
ghost use Rattle.mta_audit_run.specs.Opened.{IsOpened, IsRefused};

use crate::side::{Side, side_of_bodies};
use mta_edge::Disk;
use mta_journal::{Journal, OpenFault, OpenWhy, Opened};
use mta_spool::may_stand;
use std::alloc::Global;

/// A disk that was opened, and its spool.
#[derive(Drop)]
pub struct OpenedSide<D: Disk + Drop> {
    pub disk: D,
    pub side: Side,
}

/// A refusal, which hands the disk back.
#[derive(Drop)]
pub struct SideFault<D: Disk + Drop> {
    pub disk: D,
    pub why: OpenWhy,
}

/// Opens the spool on this disk, whatever a crash has left of it.
pub fn open_side<D: Disk + Drop>(alloc: Global, disk: D) -> Result<OpenedSide<D>, SideFault<D>>
    ensures opened { IfOk result (λ o. IsOpened D.model disk o.disk o.side) }
    ensures refused { IfErr result (λ e. IsRefused D.model disk e.disk e.why) }
{
    let Opened {
        journal,
        first,
        bodies,
        synced: _,
    } = match Journal::open(alloc, disk) {
        Ok(opened) => opened,
        Err(OpenFault { disk, why }) => return Err(SideFault { disk, why }),
    };
    if !may_stand(first, bodies.as_slice()) {
        return Err(SideFault {
            disk: journal.end(),
            why: OpenWhy::NotSpool { at: first },
        });
    }
    match side_of_bodies(alloc, first, bodies) {
        Ok(side) => Ok(OpenedSide {
            disk: journal.end(),
            side,
        }),
        Err(why) => Err(SideFault {
            disk: journal.end(),
            why,
        }),
    }
}

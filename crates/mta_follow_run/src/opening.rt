//! Opening the disks of both sides.
//!
//! The spool's is opened as an agent opens it, so that it is compacted and its format set, and then its records are
//! read. The standby's is opened as a journal, whatever its records are; one that a stop has left in the second area is
//! moved into the first.

ghost use Rattle.std.specs.Prelude.{◌≡◌, IfErr, IfOk, IsTrue, ◌↔◌};
ghost use Rattle.mta_journal.specs.Bodies.{AreWithin, longest_first};
ghost use Rattle.mta_journal.specs.Shown.{IsPlain};
ghost use Rattle.mta_follow_run.specs.Opened.{IsNoSpool, IsNoStandby, IsOpenedFrom, IsRefusedFrom, IsSpool, IsStandby};

use crate::stop::{Stop, stop_of_append, stop_of_journal, stop_of_spool};
use mta_edge::{Clock, Disk, Octets};
use mta_journal::{Journal, OpenFault, Opened};
use mta_spool::{Spool, SpoolOpen};
use std::alloc::Global;

/// A journal that was opened, and the bodies of its records.
#[derive(Drop)]
pub struct Records<D: Disk + Drop> {
    pub journal: Journal<D>,
    pub bodies: Vec<Octets>,
}

/// A refusal, which hands the disk back.
#[derive(Drop)]
pub struct Refused<D> {
    pub disk: D,
    pub stop: Stop,
}

// The records of the journal on a disk.
fn open_records<D: Disk + Drop>(alloc: Global, disk: D) -> Result<Records<D>, Refused<D>>
    ensures opened { IfOk result (λ r. IsOpenedFrom D.model disk r.journal r.bodies.items) }
    ensures refused { IfErr result (λ e. IsRefusedFrom D.model disk e.disk e.stop) }
{
    let Opened {
        journal,
        first: _,
        bodies,
        synced: _,
    } = match Journal::open(alloc, disk) {
        Ok(opened) => opened,
        Err(OpenFault { disk, why }) => {
            return Err(Refused {
                disk,
                stop: stop_of_journal(why),
            });
        }
    };
    Ok(Records { journal, bodies })
}

/// The records of the spool on this disk, as it is opened.
pub fn open_spool<D: Disk + Drop, C: Clock + Drop>(
    alloc: Global,
    disk: D,
    clock: C,
) -> Result<Records<D>, Refused<D>>
    ensures spool { IfOk result (λ r. IsSpool D.model disk r.journal.disk r.bodies.items) }
    ensures none { IfErr result (λ e. IsNoSpool D.model disk e.disk e.stop) }
{
    match Spool::open(alloc, disk, clock) {
        Ok(spool) => open_records(alloc, spool.end()),
        Err(
            SpoolOpen {
                disk,
                clock: _,
                why,
            },
        ) => Err(Refused {
            disk,
            stop: stop_of_spool(why),
        }),
    }
}

// Whether the records stand in the only area or the first one.
fn is_plain(first: u64) -> bool
    ensures { IsTrue result ↔ IsPlain first }
{
    first == 8 || first == 23
}

/// The records of the standby on this disk, which may be appended to.
pub fn open_standby<D: Disk + Drop>(alloc: Global, disk: D) -> Result<Records<D>, Refused<D>>
    ensures standby { IfOk result (λ r. IsStandby D.model disk r.journal r.bodies.items) }
    ensures none { IfErr result (λ e. IsNoStandby D.model disk e.disk e.stop) }
{
    let mut records = open_records(alloc, disk)?;
    if is_plain(records.journal.first()) {
        return Ok(records);
    }
    match records.journal.settle() {
        Ok(()) => Ok(records),
        Err(fault) => Err(Refused {
            disk: records.journal.end(),
            stop: stop_of_append(fault),
        }),
    }
}

//! Opening a spool on a disk, whatever a crash has left of it.
//!
//! In come a disk and a clock; `find` gives the journal and the state after its steps, and `go_on` moves what a stop
//! has left in the second area, compacts a journal that has grown past its use, and sets the format where the history
//! has an older one. Out goes a `Spool` that stands for the history with which it goes on, or the disk, the clock and
//! the reason: no spool from some place on, the format does not fit, the disk failed, memory.
//!
//! A disk of at most nine octets, and one of one area without records, become an empty spool of two areas; one that
//! stands for no history is only read. From the first sync on a crash leaves the history as it was, the compacted
//! one, or that with the format; before it, what one before the call might have left.

ghost use Rattle.std.specs.Prelude.{◌≡◌, IfErr, IfOk};

use crate::at_opening::AtOpening;
use crate::entries::Entries;
use crate::find::{Found, NotFound, find};
use crate::going_on::{Done, go_on};
use crate::spool::Spool;
use crate::why::{OpenWhy, why_of_journal};
use mta_edge::{Clock, Disk};
use std::alloc::Global;
use std::snapshot::Snapshot;

/// A refusal, which hands the disk and the clock back.
#[derive(Drop)]
pub struct SpoolOpen<D: Disk + Drop, C: Clock + Drop> {
    pub disk: D,
    pub clock: C,
    pub why: OpenWhy,
}

impl<D: Disk + Drop, C: Clock + Drop> Spool<D, C> {
    ghost use Rattle.mta_spool.specs.Bases.{Keeps, base_of};
    ghost use Rattle.mta_spool.specs.GoingOn.{HasNotOpened, HasOpened};

    /// Opens the spool on this disk, whatever a crash has left of it. A disk of at most nine octets, whatever it
    /// holds, and one of one area without records become an empty spool of two areas; another is replayed. A journal
    /// of two areas, of which the first is current, that has a mebibyte at least and would be at least halved is
    /// replaced by one snapshot: its closed lanes are gone then, and of spent messages their contents. Behind that
    /// the format is set, where the history has an older one.
    ///
    /// # Errors
    /// `NotSpool` exactly where the disk holds no spool, and `at` is the offset of the first octet that is not one of
    /// the first eight; else, in the current area, of the first open gate with no body behind it, or 15 where the
    /// second area is current and does not begin where it may; else of the first open gate whose body is that of no
    /// step which is possible there, or of the second area's where its record is no snapshot. `Full` exactly where the
    /// format does not fit behind the history. `Disk` only where the disk failed; `Memory`.
    pub fn open(alloc: Global, disk: D, clock: C) -> Result<Spool<D, C>, SpoolOpen<D, C>>
        ensures opened { IfOk result (λ s. HasOpened D.model disk s) }
        ensures clock { IfOk result (λ s. s.clock ≡ clock) }
        ensures handed_clock { IfOk result (λ s. s.opened.clock ≡ clock) }
        ensures keeps { IfOk result (λ s. Keeps D.model C.model s (base_of D.model C.model s)) }
        ensures refused { IfErr result (λ e. HasNotOpened D.model disk e.disk e.why) }
        ensures clock_back { IfErr result (λ e. e.clock ≡ clock) }
    {
        let handed = Snapshot::of(&disk);
        let Found {
            mut journal,
            mut replay,
            bodies,
            synced,
        } = match find(alloc, disk) {
            Ok(found) => found,
            Err(NotFound { disk, why }) => {
                let why = why_of_journal(why);
                return Err(SpoolOpen { disk, clock, why });
            }
        };
        match go_on(alloc, &mut journal, &mut replay) {
            Ok(
                Done {
                    snapshot,
                    sets_format,
                },
            ) => {
                let at_hand = Snapshot::of(&clock);
                let gate = journal.first();
                let first = Snapshot::of(&gate);
                let over = journal.disk_now();
                Ok(Spool {
                    alloc,
                    journal,
                    clock,
                    replay,
                    entries: Entries::new(),
                    opened: AtOpening {
                        disk: handed,
                        clock: at_hand,
                        synced,
                        over,
                        bodies,
                        snapshot,
                        sets_format,
                        first,
                    },
                })
            }
            Err(why) => {
                replay.discard();
                Err(SpoolOpen {
                    disk: journal.end(),
                    clock,
                    why,
                })
            }
        }
    }
}

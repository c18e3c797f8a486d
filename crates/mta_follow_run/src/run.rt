//! The top call of the program: one session of either side, over a disk, a station, a clock and a sink that are handed
//! in.

ghost use Rattle.std.specs.Prelude.{[], map, string_bytes};
ghost use Rattle.mta_follow_run.specs.Outcome.{Follow, Push, handed};
ghost use Rattle.mta_output.specs.Output.{output};
ghost use Rattle.mta_follow_run.specs.Ran.{HasRun, TellsAll};

use crate::lines::{tell, tell_kept, tell_pushed};
use crate::opening::{open_spool, open_standby};
use crate::pull::{Pulled, follow_over};
use crate::push::push_over;
use crate::stop::Stop;
use crate::words::{Command, command_of};
use mta_edge::{Clock, Disk, Sink};
use mta_links::Station;
use std::alloc::Global;

/// The status of a run, and the objects.
#[derive(Drop)]
pub struct Followed<D: Disk + Drop, S: Station + Drop> {
    pub status: u8,
    pub disk: D,
    pub station: S,
}

// What came of pushing, and the objects.
#[derive(Drop)]
struct Sent<D: Disk + Drop, S: Station + Drop> {
    outcome: Result<u64, Stop>,
    disk: D,
    station: S,
}

// What came of following, and the objects.
#[derive(Drop)]
struct Got<D: Disk + Drop, S: Station + Drop> {
    outcome: Pulled,
    disk: D,
    station: S,
}

// Pushes the records of the spool on a disk.
fn send<D: Disk + Drop, S: Station + Drop, C: Clock + Drop>(
    alloc: Global,
    disk: D,
    mut station: S,
    clock: C,
) -> Sent<D, S>
    ensures { Push (handed [] D.model S.Link.model S.model disk result.disk station result.station) result.outcome }
{
    match open_spool(alloc, disk, clock) {
        Ok(records) => {
            let outcome = push_over(alloc, &mut station, records.bodies.as_slice());
            Sent {
                outcome,
                disk: records.journal.end(),
                station,
            }
        }
        Err(refused) => Sent {
            outcome: Err(refused.stop),
            disk: refused.disk,
            station,
        },
    }
}

// Follows with the records of the standby on a disk.
fn get<D: Disk + Drop, S: Station + Drop>(alloc: Global, disk: D, mut station: S) -> Got<D, S>
    ensures { Follow (handed [] D.model S.Link.model S.model disk result.disk station result.station)
        result.outcome.kept result.outcome.ended }
{
    match open_standby(alloc, disk) {
        Ok(records) => {
            let mut journal = records.journal;
            let outcome = follow_over(alloc, &mut station, &mut journal, records.bodies.as_slice());
            Got {
                outcome,
                disk: journal.end(),
                station,
            }
        }
        Err(refused) => Got {
            outcome: Pulled {
                kept: 0,
                ended: Err(refused.stop),
            },
            disk: refused.disk,
            station,
        },
    }
}

/// Runs one session of a standby, over the next link of a station.
///
/// `push HOST PORT` opens the spool, puts its records, each behind the word that the one before it is kept, says that
/// these were all, and prints `pushed N`. `pull PORT` opens its disk as a journal and gets the records: one that it
/// holds is compared, and another is appended. It answers each, when it is kept, and prints `kept N`, and where not all
/// came the line of the status behind it.
///
/// The status is 0 where all records are kept; or, with the line of it, 1 where the words are others; 3 where the disk
/// holds no spool, or the standby's no journal; 4 where the disk failed; 5 where the next record does not fit; 7 where
/// memory ran out; 9 where the sink failed; 15 where there was no link, it failed, or its input ended early; 16 where a
/// record is another than the one kept; and 17 where a unit is none that was due.
pub fn follow_run<D: Disk + Drop, S: Station + Drop, C: Clock + Drop, O: Sink>(
    alloc: Global,
    words: &[String],
    out: &mut O,
    disk: D,
    station: S,
    clock: C,
) -> Followed<D, S>
    ensures ran { HasRun (handed (map string_bytes words.now) D.model S.Link.model S.model disk result.disk station
        result.station) (output O.model out.old out.new) result.status }
    ensures tells { TellsAll (handed (map string_bytes words.now) D.model S.Link.model S.model disk result.disk station
        result.station) (output O.model out.old out.new) result.status }
{
    match command_of(words) {
        Some(Command::Push { .. }) => {
            let Sent {
                outcome,
                disk,
                station,
            } = send(alloc, disk, station, clock);
            Followed {
                status: tell_pushed(out, outcome),
                disk,
                station,
            }
        }
        Some(Command::Pull { .. }) => {
            let Got {
                outcome: Pulled { kept, ended },
                disk,
                station,
            } = get(alloc, disk, station);
            Followed {
                status: tell_kept(out, kept, ended),
                disk,
                station,
            }
        }
        None => Followed {
            status: tell(out, Stop::Usage),
            disk,
            station,
        },
    }
}

//! The top call of the program: the audit of two spools, over disks and a sink that are handed in.

ghost use Rattle.std.specs.Prelude.{◌≡◌, ◌≤◌, map, string_bytes};
ghost use Rattle.mta_audit_run.specs.Outcome.{HasAudited, handed};
ghost use Rattle.mta_output.specs.Output.{output};
ghost use Rattle.mta_audit_run.specs.Ran.{HasRun, IsComplete, Tells};
ghost use Rattle.mta_audit_run.specs.Second.{HasSeen, IsReported};

use crate::audit::{Report, report_of};
use crate::lines::close;
use crate::opening::{OpenedSide, SideFault, open_side};
use crate::side::Side;
use crate::stop::{Spool, Stop, stop_of_open};
use mta_edge::{Disk, Sink};
use std::alloc::Global;

/// The status of a run, and the disks.
#[derive(Drop)]
pub struct Audited<D: Disk + Drop, E: Disk + Drop> {
    pub status: u8,
    pub first: D,
    pub second: E,
}

// What came of the second disk, and that disk.
#[derive(Drop)]
struct Seen<E: Disk + Drop> {
    outcome: Result<Report, Stop>,
    second: E,
}

// What came of an audit, and the disks.
#[derive(Drop)]
struct Compared<D: Disk + Drop, E: Disk + Drop> {
    outcome: Result<Report, Stop>,
    first: D,
    second: E,
}

// The audit of two spools, or want of memory for it.
fn outcome_of(alloc: Global, first: &Side, second: &Side) -> Result<Report, Stop>
    ensures { IsReported first.now second.now result }
{
    let report = report_of(alloc, first, second)?;
    Ok(report)
}

// Opens the second disk, and audits it with the first spool.
fn see_second<E: Disk + Drop>(alloc: Global, first: &Side, second: E) -> Seen<E>
    ensures { HasSeen E.model first.now second result.second result.outcome }
{
    match open_side(alloc, second) {
        Ok(OpenedSide { disk, side }) => Seen {
            outcome: outcome_of(alloc, first, &side),
            second: disk,
        },
        Err(SideFault { disk, why }) => Seen {
            outcome: Err(stop_of_open(Spool::Second, why)),
            second: disk,
        },
    }
}

// Opens the first disk, replays it whole, and then the second.
fn compare<D: Disk + Drop, E: Disk + Drop>(
    alloc: Global,
    words: &[String],
    first: D,
    second: E,
) -> Compared<D, E>
    ensures { HasAudited (handed (map string_bytes words.now) D.model E.model first result.first second result.second)
        result.outcome }
{
    if words.len() != 2 {
        return Compared {
            outcome: Err(Stop::Usage),
            first,
            second,
        };
    }
    match open_side(alloc, first) {
        Ok(OpenedSide { disk, side }) => {
            let Seen { outcome, second } = see_second(alloc, &side, second);
            Compared {
                outcome,
                first: disk,
                second,
            }
        }
        Err(SideFault { disk, why }) => Compared {
            outcome: Err(stop_of_open(Spool::First, why)),
            first: disk,
            second,
        },
    }
}

/// Audits two spools: of each initiator's lane of the first to the second's agent, and then of each of the second's to
/// the first's, and of each of its halves, it prints a line that says whether the receiver completed what the sender
/// sent, once and in order: `first lane K out sent S completed C agree`, or `differs at I` in place of what follows
/// `out`. `in` stands for the half in which the responder sends. Of a lane that stands in the snapshot with which a
/// history begins, or another end of which does, and of one that has no other end where the other history begins with
/// a snapshot, each half is told as `not covered`. The words are the names of two files, which are not looked at here:
/// their disks are handed in.
///
/// Neither history is changed: a disk without records is made an empty journal, and another is only read.
///
/// The status is 0 where all halves agree that are covered, and 18 where one differs; or, with the line of it, 1 where
/// the words are not two; 3 where a disk holds no spool; 4 where a disk failed; 7 where memory ran out; and 9 where the
/// sink failed.
pub fn audit_run<D: Disk + Drop, E: Disk + Drop, O: Sink>(
    alloc: Global,
    words: &[String],
    out: &mut O,
    first: D,
    second: E,
) -> Audited<D, E>
    ensures ran { HasRun (handed (map string_bytes words.now) D.model E.model first result.first second result.second)
        (output O.model out.old out.new) result.status }
    ensures tells { Tells (handed (map string_bytes words.now) D.model E.model first result.first second result.second)
        (output O.model out.old out.new) result.status }
    ensures complete { IsComplete (handed (map string_bytes words.now) D.model E.model first result.first second
        result.second) (output O.model out.old out.new) result.status }
{
    let Compared {
        outcome,
        first,
        second,
    } = compare(alloc, words, first, second);
    let status = close(alloc, out, outcome);
    Audited {
        status,
        first,
        second,
    }
}

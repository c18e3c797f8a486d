//! The top call of the program: what is asked of a mailbox, over a spool, a disk of marks and a sink that are handed
//! in.

ghost use Rattle.std.specs.Prelude.{◌≡◌, Some, map, string_bytes};
ghost use Rattle.mta_output.specs.Output.{output};
ghost use Rattle.mta_marks.specs.Opening.{HasOpened as HasOpenedMarks};
ghost use Rattle.mta_journal.specs.Shown.{IsPlain};
ghost use Rattle.mta_marks.specs.Marks.{IsMark};
ghost use Rattle.mta_store_run.specs.Acting.{HasActed, HasMarked, IsMarkedAs};
ghost use Rattle.mta_store_run.specs.Asked.{IsAsked, asked_of};
ghost use Rattle.mta_store_run.specs.Outcome.{HasDone, HasRun, handed};
ghost use Rattle.mta_store_run.specs.Ran.{IsComplete, TellsStatus};

use crate::asked::{Asked, asked_of};
use crate::deciding::{Decision, decide};
use crate::lines::close;
use crate::stop::{Stop, stop_of_add, stop_of_marks};
use mta_ber::Octets;
use mta_commands::{Stop as AgentStop, stop_of_open};
use mta_edge::{Clock, Disk, Sink};
use mta_journal::AppendFault;
use mta_marks::{Added, Mark, Marks, MarksFault};
use mta_spool::{Spool, SpoolOpen};
use std::alloc::Global;

/// The status of a run, and the disks.
#[derive(Drop)]
pub struct Stored<D: Disk + Drop, E: Disk + Drop> {
    pub status: u8,
    pub spool: D,
    pub marks: E,
}

// What came of the marks, and their disk.
#[derive(Drop)]
struct Acted<E: Disk + Drop> {
    outcome: Result<Octets, Stop>,
    marks: E,
}

// What came of what was asked, and the disks.
#[derive(Drop)]
struct Done<D: Disk + Drop, E: Disk + Drop> {
    outcome: Result<Octets, Stop>,
    spool: D,
    marks: E,
}

// The text, or why its mark was not appended.
fn text_with(outcome: Result<(), AppendFault>, text: Octets) -> Result<Octets, Stop>
    ensures { IsMarkedAs outcome text result }
{
    match outcome {
        Ok(()) => Ok(text),
        Err(fault) => Err(stop_of_add(fault)),
    }
}

// Appends a mark. Only then the text may be printed.
fn mark_with<E: Disk + Drop>(marks: Marks<E>, mark: Mark, text: Octets) -> Acted<E>
    requires plain { IsPlain marks.journal.first }
    requires mark { IsMark mark }
    ensures { HasMarked E.model marks mark text result.marks result.outcome }
{
    let Added { disk, outcome } = marks.add(&mark);
    Acted {
        outcome: text_with(outcome, text),
        marks: disk,
    }
}

// Answers what is asked of marks that are open.
fn act<D: Disk + Drop, C: Clock + Drop, E: Disk + Drop>(
    alloc: Global,
    asked: &Asked,
    spool: &Spool<D, C>,
    marks: Marks<E>,
) -> Acted<E>
    requires asked { IsAsked asked.now }
    requires plain { IsPlain marks.journal.first }
    ensures { (old : E) → HasOpenedMarks E.model old marks
        → HasActed E.model asked.now spool.now.current old result.marks result.outcome }
{
    match decide(alloc, asked, spool, &marks) {
        Ok(Decision { text, mark }) => match mark {
            Some(mark) => mark_with(marks, mark, text),
            None => Acted {
                outcome: Ok(text),
                marks: marks.end(),
            },
        },
        Err(stop) => Acted {
            outcome: Err(stop),
            marks: marks.end(),
        },
    }
}

// Opens the marks, and answers what is asked.
fn act_on<D: Disk + Drop, C: Clock + Drop, E: Disk + Drop>(
    alloc: Global,
    asked: &Asked,
    spool: &Spool<D, C>,
    marks: E,
) -> Acted<E>
    requires { IsAsked asked.now }
    ensures { HasActed E.model asked.now spool.now.current marks result.marks result.outcome }
{
    match Marks::open(alloc, marks) {
        Ok(marks) => act(alloc, asked, spool, marks),
        Err(MarksFault { disk, why }) => Acted {
            outcome: Err(stop_of_marks(why)),
            marks: disk,
        },
    }
}

// Opens the spool, and then the marks, and answers what is asked.
fn open_both<D: Disk + Drop, C: Clock + Drop, E: Disk + Drop>(
    alloc: Global,
    asked: &Asked,
    spool: D,
    marks: E,
    clock: C,
) -> Done<D, E>
    requires { IsAsked asked.now }
    ensures { HasDone (handed D.model E.model (Some asked.now) spool result.spool marks result.marks) result.outcome }
{
    match Spool::open(alloc, spool, clock) {
        Ok(spool) => {
            let Acted { outcome, marks } = act_on(alloc, asked, &spool, marks);
            Done {
                outcome,
                spool: spool.end(),
                marks,
            }
        }
        Err(SpoolOpen { disk, why, .. }) => Done {
            outcome: Err(Stop::Agent(stop_of_open(why))),
            spool: disk,
            marks,
        },
    }
}

// Answers what the words ask.
fn answer<D: Disk + Drop, C: Clock + Drop, E: Disk + Drop>(
    alloc: Global,
    words: &[String],
    spool: D,
    marks: E,
    clock: C,
) -> Done<D, E>
    ensures { HasDone (handed D.model E.model (asked_of (map string_bytes words.now)) spool result.spool marks
        result.marks) result.outcome }
{
    match asked_of(alloc, words) {
        Ok(Some(asked)) => open_both(alloc, &asked, spool, marks, clock),
        Ok(None) => Done {
            outcome: Err(Stop::Usage),
            spool,
            marks,
        },
        Err(_) => Done {
            outcome: Err(Stop::Agent(AgentStop::Memory)),
            spool,
            marks,
        },
    }
}

/// Lists, fetches or deletes what a mailbox holds.
///
/// An entry of a mailbox is a delivery to it, and has a number: its place, from 1, among the deliveries to that
/// mailbox. The spool says which there are, and `marks`, a journal on a disk of its own, which were fetched and
/// deleted. `list MAILBOX` prints `N new T item I` or `N fetched T item I` for each entry that is not deleted; `fetch
/// MAILBOX N` marks the entry as fetched where it is new, and then prints its APDU; `delete MAILBOX N` marks it as
/// deleted, and prints nothing.
///
/// The spool is opened as `mta` opens it, and no step is made. The marks get one mark at most; it is durable before the
/// text is printed.
///
/// The status is 0; or, with the line of it, 1 where the words are none of these; 3 where the first disk holds no
/// spool; 4 where a disk failed; 5 where a journal would grow past its limit; 7 where memory ran out; 9 where the sink
/// failed; 10 where no mailbox is named so; 12 where it has no entry of this number, or that was deleted; 13 where an
/// entry to be deleted is new; and 14 where the second disk holds no marks.
pub fn store_run<D: Disk + Drop, E: Disk + Drop, C: Clock + Drop, O: Sink>(
    alloc: Global,
    words: &[String],
    out: &mut O,
    spool: D,
    marks: E,
    clock: C,
) -> Stored<D, E>
    ensures ran { HasRun (handed D.model E.model (asked_of (map string_bytes words.now)) spool result.spool marks
        result.marks) (output O.model out.old out.new) result.status }
    ensures tells { TellsStatus (handed D.model E.model (asked_of (map string_bytes words.now)) spool result.spool marks
        result.marks) (output O.model out.old out.new) result.status }
    ensures complete { IsComplete (handed D.model E.model (asked_of (map string_bytes words.now)) spool result.spool
        marks result.marks) (output O.model out.old out.new) result.status }
{
    let Done {
        outcome,
        spool,
        marks,
    } = answer(alloc, words, spool, marks, clock);
    let status = close(alloc, out, outcome);
    Stored {
        status,
        spool,
        marks,
    }
}

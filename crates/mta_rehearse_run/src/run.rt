//! The top call of the program: where the messages for a name would go, over a source and a sink that are handed in.

ghost use Rattle.std.specs.Prelude.{◌≡◌, ◌≤◌, map, string_bytes};
ghost use Rattle.mta_rehearse_run.specs.Asked.{asked_of};
ghost use Rattle.mta_output.specs.Output.{HasPrinted, output};
ghost use Rattle.mta_rehearse_run.specs.Output.{HasClosed};
ghost use Rattle.mta_rehearse_run.specs.Ran.{HasRun, Tells, IsComplete};

use crate::lines::tell;
use crate::rehearsal::{Rehearsal, rehearse};
use crate::stop::Stop;
use mta_edge::{Sink, Source, put_all};
use std::alloc::Global;

fn print<O: Sink>(out: &mut O, rehearsal: &Rehearsal) -> u8
    ensures printed { HasPrinted rehearsal.now.text rehearsal.now.status (output O.model out.old out.new) result }
    ensures later { O.model.faults out.old ≤ O.model.faults out.new }
{
    match put_all(out, rehearsal.text.as_slice()) {
        Ok(()) => rehearsal.status,
        Err(_) => 9,
    }
}

fn close<O: Sink>(alloc: Global, out: &mut O, outcome: Result<Rehearsal, Stop>) -> u8
    ensures closed { HasClosed outcome (output O.model out.old out.new) result }
    ensures later { O.model.faults out.old ≤ O.model.faults out.new }
{
    match outcome {
        Ok(rehearsal) => print(out, &rehearsal),
        Err(stop) => tell(alloc, out, &stop),
    }
}

/// Prints the walk of a name from an agent, and answers the status. The words are the agent's name and the text form of
/// the O/R name. `conf` has the texts of 1 to 64 agents' tables, a line `---` between two, at most 1,048,576 octets in
/// all.
///
/// Each agent of the walk is a line: `at AGENT peer PEER`, and the last one `at AGENT mailbox WORD`, `at AGENT list
/// WORD` or `at AGENT no route`; or, behind a last `peer`, `unknown agent WORD` where no text has that name, or `loop
/// AGENT` where the peer is an agent of the walk.
///
/// The status is 0, 20 for a loop, and 21 for an unknown agent; or, with the line of it in place of a walk, 1 where the
/// words are none of these; 2 for a bad line, with its number in all of the texts; 19 where a text has the name or the
/// domain of an earlier one; 10 where no text has the agent's name; 7 where memory ran out, and 8 and 9 where the
/// source or the sink failed.
pub fn rehearse_run<I: Source, O: Sink>(
    alloc: Global,
    words: &[String],
    conf: &mut I,
    out: &mut O,
) -> u8
    ensures ran { HasRun I.model (asked_of (map string_bytes words.now)) conf.old conf.new
        (output O.model out.old out.new) result }
    ensures tells { Tells I.model (asked_of (map string_bytes words.now)) conf.old conf.new
        (output O.model out.old out.new) result }
    ensures complete { IsComplete I.model (asked_of (map string_bytes words.now)) conf.old conf.new
        (output O.model out.old out.new) result }
{
    let outcome = rehearse(alloc, words, conf);
    close(alloc, out, outcome)
}

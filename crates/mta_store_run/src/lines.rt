//! The line and the status of a stop, and the end of a run.

ghost use Rattle.std.specs.Prelude.{◌≡◌, ◌≤◌, ◌++◌, ◌∷◌, [], IfOk};
ghost use Rattle.std.specs.Fmt.{decimal};
ghost use Rattle.mta_output.specs.Output.{output};
ghost use Rattle.mta_store_run.specs.Output.{HasClosed, HasTold};
ghost use Rattle.mta_store_run.specs.Stops.{line_of, status_of};

use crate::stop::Stop;
use mta_apdu_text::put_number;
use mta_ber::{Memory, Octets};
use mta_commands::print::print;
use mta_commands::{tell as tell_agent, tell_line};
use mta_edge::Sink;
use std::alloc::Global;

// A line that ends with a number.
fn numbered(alloc: Global, front: &[u8], number: u64) -> Result<Octets, Memory>
    ensures { IfOk result (λ line. line ≡ front.now ++ (decimal number ++ 10 ∷ [])) }
{
    let mut line = Octets::from_slice(alloc, front)?;
    put_number(&mut line, number)?;
    line.extend(b"\n")?;
    Ok(line)
}

/// Prints the line of a stop, or that memory is out where there is none for it, and answers the status, or 9 where the
/// sink fails.
#[tactic(auto, unfolding(crate::specs::Stops::line_of))]
pub fn tell<O: Sink>(alloc: Global, out: &mut O, stop: Stop) -> u8
    ensures told { HasTold stop (output O.model out.old out.new) result }
    ensures later { O.model.faults out.old ≤ O.model.faults out.new }
{
    match stop {
        Stop::Usage => {
            let line = Octets::from_slice(alloc, b"usage: mta_store list or fetch or delete\n");
            tell_line(out, line, 1)
        }
        Stop::Agent(stop) => tell_agent(alloc, out, &stop),
        Stop::NoEntry { number } => {
            tell_line(out, numbered(alloc, b"no entry ", u64::from(number)), 12)
        }
        Stop::NotFetched { number } => {
            tell_line(out, numbered(alloc, b"not fetched ", u64::from(number)), 13)
        }
        Stop::NotMarks { at } => tell_line(out, numbered(alloc, b"not marks at ", at), 14),
    }
}

/// Prints a text, or the line of a stop, and answers the status.
pub(crate) fn close<O: Sink>(alloc: Global, out: &mut O, outcome: Result<Octets, Stop>) -> u8
    ensures closed { HasClosed outcome (output O.model out.old out.new) result }
    ensures later { O.model.faults out.old ≤ O.model.faults out.new }
{
    match outcome {
        Ok(text) => match print(out, Ok(text)) {
            Ok(()) => 0,
            Err(_) => 9,
        },
        Err(stop) => tell(alloc, out, stop),
    }
}

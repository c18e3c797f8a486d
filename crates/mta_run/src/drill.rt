//! `drill`: what a drill of so many messages counts.
//!
//! The messages are passed between two agents on empty disks in memory (`mta_drill`), and the text of the drill is
//! printed. Of what was handed in only the output is called. It stops where the sink fails, or memory is refused.

ghost use Rattle.std.specs.Prelude.{◌≤◌};
ghost use Rattle.mta_output.specs.Output.{output};
ghost use Rattle.mta_run.specs.Drilling.{HasPrintedDrill, IsDrilledAs};

use mta_ber::{Memory, Octets};
use mta_commands::Stop;
use mta_commands::print::print;
use mta_drill::drill as pass_messages;
use mta_edge::{SafeDisk, Sink};
use std::alloc::Global;

// The text of a drill.
fn text_of(alloc: Global, messages: u32) -> Result<Octets, Stop>
    requires some { 1 ≤ messages }
    ensures { IsDrilledAs messages result }
{
    let first = SafeDisk::new(alloc, Octets::new(alloc));
    let second = SafeDisk::new(alloc, Octets::new(alloc));
    match pass_messages(alloc, messages, first, second) {
        Ok(drilled) => Ok(drilled.text),
        Err(Memory) => Err(Stop::Memory),
    }
}

/// Passes so many messages, at least one, and prints what the drill counts.
pub(crate) fn drill<O: Sink>(alloc: Global, messages: u32, out: &mut O) -> Result<(), Stop>
    requires some { 1 ≤ messages }
    ensures drilled { HasPrintedDrill messages (output O.model out.old out.new) result }
    ensures later { O.model.faults out.old ≤ O.model.faults out.new }
{
    print(out, text_of(alloc, messages))
}

//! Printing a text.

ghost use Rattle.std.specs.Prelude.{◌≤◌};
ghost use Rattle.mta_output.specs.Output.{output};
ghost use Rattle.mta_commands.specs.Output.{HasShown};

use crate::stop::Stop;
use mta_ber::Octets;
use mta_edge::{Sink, put_all};

/// Prints a text, or hands on why there is none.
pub fn print<O: Sink>(out: &mut O, text: Result<Octets, Stop>) -> Result<(), Stop>
    ensures printed { HasShown text (output O.model out.old out.new) result }
    ensures later { O.model.faults out.old ≤ O.model.faults out.new }
{
    match text {
        Err(stop) => Err(stop),
        Ok(text) => match put_all(out, text.as_slice()) {
            Ok(()) => Ok(()),
            Err(_) => Err(Stop::Sink),
        },
    }
}

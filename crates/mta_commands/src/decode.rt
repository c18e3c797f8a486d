//! `decode`: the text of the APDU that the input is.
//!
//! The input is read to its end (`inputs.rt`), and the text of `mta_apdu_text` printed. It stops where
//! the input has a fault, a source or the sink fails, or memory is refused. It has no disk.

ghost use Rattle.std.specs.Prelude.{◌≡◌, ◌≤◌};
ghost use Rattle.mta_commands.specs.Decode.{IsDecodedAs, HasDecoded};
ghost use Rattle.mta_output.specs.Output.{output};

use crate::inputs::octets_of;
use crate::print::print;
use crate::stop::{Stop, stop_of_read};
use mta_apdu::Apdu;
use mta_ber::Octets;
use mta_edge::{Sink, Source};
use mta_show::show_apdu;
use std::alloc::Global;

fn text_of(alloc: Global, octets: &Octets) -> Result<Octets, Stop>
    ensures { IsDecodedAs octets.now result }
{
    let apdu = match Apdu::read(alloc, octets.as_slice()) {
        Ok(apdu) => apdu,
        Err(fault) => return Err(stop_of_read(fault)),
    };
    let text = show_apdu(alloc, &apdu);
    apdu.discard();
    match text {
        Ok(text) => Ok(text),
        Err(_) => Err(Stop::Memory),
    }
}

/// Reads the input to its end, and prints the APDU that it is.
pub fn decode<I: Source, O: Sink>(alloc: Global, input: &mut I, out: &mut O) -> Result<(), Stop>
    ensures decoded { HasDecoded I.model input.old input.new (output O.model out.old out.new) result }
    ensures later { O.model.faults out.old ≤ O.model.faults out.new }
{
    match octets_of(alloc, input) {
        Ok(octets) => print(out, text_of(alloc, &octets)),
        Err(stop) => Err(stop),
    }
}

//! The line and the status of a stop.

ghost use Rattle.std.specs.Prelude.{◌≡◌, ◌≤◌, ◌++◌, ◌∷◌, [], IfOk, OnOk};
ghost use Rattle.std.specs.Fmt.{decimal};
ghost use Rattle.mta_output.specs.Output.{output};
ghost use Rattle.mta_rehearse_run.specs.Output.{HasTold};
ghost use Rattle.mta_rehearse_run.specs.Stops.{kind_text, line_of, status_of};

use crate::stop::Stop;
use itoa::Buffer;
use mta_ber::{Memory, Octets};
use mta_edge::{Sink, put_all};
use mta_tables::LineKind;
use std::alloc::Global;

fn kind_text(kind: LineKind) -> &'static [u8]
    ensures { result.now ≡ kind_text kind }
{
    match kind {
        LineKind::TooLong => b"TooLong",
        LineKind::Word => b"Word",
        LineKind::Number => b"Number",
        LineKind::Name => b"Name",
        LineKind::Unknown => b"Unknown",
        LineKind::Twice => b"Twice",
        LineKind::TooMany => b"TooMany",
        LineKind::Missing => b"Missing",
    }
}

fn put_number(line: &mut Octets, number: u64) -> Result<(), Memory>
    ensures { OnOk result (line.new ≡ line.old ++ decimal number) }
{
    let mut buffer = Buffer::new();
    line.extend(buffer.format(number).as_bytes())
}

fn put_last_number(line: &mut Octets, number: u64) -> Result<(), Memory>
    ensures { OnOk result (line.new ≡ line.old ++ (decimal number ++ 10 ∷ [])) }
{
    put_number(line, number)?;
    line.extend(b"\n")
}

// Puts the last word of a line, behind a space.
fn put_last_word(line: &mut Octets, word: &[u8]) -> Result<(), Memory>
    ensures { OnOk result (line.new ≡ line.old ++ (32 ∷ word.now ++ 10 ∷ [])) }
{
    line.extend(b" ")?;
    line.extend(word)?;
    line.extend(b"\n")
}

#[tactic(auto, unfolding(crate::specs::Stops::line_of))]
fn line_of(alloc: Global, stop: &Stop) -> Result<Octets, Memory>
    ensures { IfOk result (λ line. line ≡ line_of stop.now) }
{
    let mut line = Octets::new(alloc);
    match stop {
        Stop::Usage => line.extend(b"usage: mta_rehearse AGENT NAME\n")?,
        Stop::Tables { line: number, kind } => {
            line.extend(b"tables line ")?;
            put_number(&mut line, *number)?;
            put_last_word(&mut line, kind_text(*kind))?;
        }
        Stop::Memory => line.extend(b"out of memory\n")?,
        Stop::Source => line.extend(b"source fault\n")?,
        Stop::Twice(number) => {
            line.extend(b"agent twice ")?;
            put_last_number(&mut line, u64::from(*number))?;
        }
        Stop::NoAgent(name) => {
            line.extend(b"no such agent ")?;
            line.extend(name.as_slice())?;
            line.extend(b"\n")?;
        }
    }
    Ok(line)
}

fn status_of(stop: &Stop) -> u8
    ensures { result ≡ status_of stop.now }
{
    match stop {
        Stop::Usage => 1,
        Stop::Tables { .. } => 2,
        Stop::Memory => 7,
        Stop::Source => 8,
        Stop::NoAgent(_) => 10,
        Stop::Twice(_) => 19,
    }
}

/// Prints the line of a stop, or that memory is out where there is none for it, and answers the status, or 9 where the
/// sink fails.
#[tactic(auto, unfolding(crate::specs::Stops::line_of))]
pub fn tell<O: Sink>(alloc: Global, out: &mut O, stop: &Stop) -> u8
    ensures told { HasTold stop.now (output O.model out.old out.new) result }
    ensures later { O.model.faults out.old ≤ O.model.faults out.new }
{
    match line_of(alloc, stop) {
        Ok(line) => match put_all(out, line.as_slice()) {
            Ok(()) => status_of(stop),
            Err(_) => 9,
        },
        Err(_) => match put_all(out, b"out of memory\n") {
            Ok(()) => 7,
            Err(_) => 9,
        },
    }
}

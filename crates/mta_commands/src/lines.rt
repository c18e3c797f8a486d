//! The last line and the status of a run.
//!
//! In comes the stop of a command, or none; out go its line (`line_of`) to the sink and its status
//! (`status_of`). Where there is no memory for the line, `out of memory` is told; where the sink fails,
//! or failed before, the status is 9. The disk is not called any more.

ghost use Rattle.std.specs.Prelude.{◌≡◌, ◌≤◌, ◌++◌, ◌↔◌, ◌∷◌, [], IfOk, IsTrue, OnOk};
ghost use Rattle.std.specs.Fmt.{decimal};
ghost use Rattle.mta_commands.specs.Lines.{accepted_line, kind_text, fault_text, status_of, line_of};
ghost use Rattle.mta_commands.specs.declared.stop.Stop.TheVariants as Stops;
ghost use Rattle.mta_output.specs.Output.{output};
ghost use Rattle.mta_commands.specs.Output.{HasTold, HasClosed, TellsLine};

use crate::stop::Stop;
use mta_apdu_text::put_number;
use mta_ber::{Kind, Memory, Octets};
use mta_edge::{Sink, put_all};
use mta_tables::LineKind;
use std::alloc::Global;

const USAGE: &[u8] =
    b"usage: mta submit or serve SESSIONS STATION... or spool or read MAILBOX or decode or drill N\n";

fn kind_text(kind: LineKind) -> &'static [u8]
    ensures { result.now ≡ kind_text kind }
{
    match kind {
        LineKind::TooLong => b"TooLong",
        LineKind::Word => b"Word",
        LineKind::Number => b"Number",
        LineKind::Name => b"Name",
        LineKind::Unknown => b"Unknown",
        LineKind::Twice => b"Twice",
        LineKind::TooMany => b"TooMany",
        LineKind::Missing => b"Missing",
    }
}

fn fault_text(kind: Kind) -> &'static [u8]
    ensures { result.now ≡ fault_text kind }
{
    match kind {
        Kind::Truncated => b"Truncated",
        Kind::BadLength => b"BadLength",
        Kind::BadTag => b"BadTag",
        Kind::TooDeep => b"TooDeep",
        Kind::BadInt => b"BadInt",
        Kind::BadText => b"BadText",
        Kind::BadTime => b"BadTime",
        Kind::Missing => b"Missing",
        Kind::Twice => b"Twice",
        Kind::BadSize => b"BadSize",
        Kind::TooLong => b"TooLong",
        Kind::Trailing => b"Trailing",
    }
}

// Puts the last number of a line.
fn put_last_number(line: &mut Octets, number: u64) -> Result<(), Memory>
    ensures { OnOk result (line.new ≡ line.old ++ (decimal number ++ 10 ∷ [])) }
{
    put_number(line, number)?;
    line.extend(b"\n")
}

// Puts the last word of a line, behind a space.
fn put_last_word(line: &mut Octets, word: &[u8]) -> Result<(), Memory>
    ensures { OnOk result (line.new ≡ line.old ++ (32 ∷ word.now ++ 10 ∷ [])) }
{
    line.extend(b" ")?;
    line.extend(word)?;
    line.extend(b"\n")
}

// The line of a stop.
#[tactic(auto, unfolding(crate::specs::Lines::line_of))]
fn line_of(alloc: Global, stop: &Stop) -> Result<Octets, Memory>
    ensures { IfOk result (λ line. line ≡ line_of stop.now) }
{
    let mut line = Octets::new(alloc);
    match stop {
        Stop::Usage => line.extend(USAGE)?,
        Stop::Tables { line: number, kind } => {
            line.extend(b"tables line ")?;
            put_number(&mut line, u64::from(*number))?;
            put_last_word(&mut line, kind_text(*kind))?;
        }
        Stop::NotSpool { at } => {
            line.extend(b"not a spool at ")?;
            put_last_number(&mut line, *at)?;
        }
        Stop::Disk => line.extend(b"disk fault\n")?,
        Stop::Full { size, need } => {
            line.extend(b"spool full ")?;
            put_number(&mut line, *size)?;
            line.extend(b" ")?;
            put_last_number(&mut line, *need)?;
        }
        Stop::Spent { last } => {
            line.extend(b"no number ")?;
            put_last_number(&mut line, *last)?;
        }
        Stop::Memory => line.extend(b"out of memory\n")?,
        Stop::Source => line.extend(b"source fault\n")?,
        Stop::Sink => {}
        Stop::NoMailbox(name) => {
            line.extend(b"no such mailbox ")?;
            line.extend(name.as_slice())?;
            line.extend(b"\n")?;
        }
        Stop::NoPeer(name) => {
            line.extend(b"no such peer ")?;
            line.extend(name.as_slice())?;
            line.extend(b"\n")?;
        }
        Stop::BadApdu { at, kind } => {
            line.extend(b"bad APDU at ")?;
            put_number(&mut line, u64::from(*at))?;
            put_last_word(&mut line, fault_text(*kind))?;
        }
    }
    Ok(line)
}

// The status of a stop.
fn status_of(stop: &Stop) -> u8
    ensures { result ≡ status_of stop.now }
{
    match stop {
        Stop::Usage => 1,
        Stop::Tables { .. } => 2,
        Stop::NotSpool { .. } => 3,
        Stop::Disk => 4,
        Stop::Full { .. } | Stop::Spent { .. } => 5,
        Stop::BadApdu { .. } => 6,
        Stop::Memory => 7,
        Stop::Source => 8,
        Stop::Sink => 9,
        Stop::NoMailbox(_) | Stop::NoPeer(_) => 10,
    }
}

/// The line for an item that was accepted.
pub fn accepted_line(alloc: Global, number: u32) -> Result<Octets, Memory>
    ensures { IfOk result (λ line. line ≡ accepted_line number) }
{
    let mut line = Octets::from_slice(alloc, b"accepted ")?;
    put_number(&mut line, u64::from(number))?;
    line.extend(b"\n")?;
    Ok(line)
}

/// Prints a line, or that memory is out where there was none for it, and answers the status: that of the line, or 7, or
/// 9 where the sink fails.
#[tactic(auto, unfolding(crate::specs::Lines::line_of))]
pub fn tell_line<O: Sink>(out: &mut O, line: Result<Octets, Memory>, status: u8) -> u8
    ensures told { TellsLine line status (output O.model out.old out.new) result }
    ensures later { O.model.faults out.old ≤ O.model.faults out.new }
{
    match line {
        Ok(line) => match put_all(out, line.as_slice()) {
            Ok(()) => status,
            Err(_) => 9,
        },
        Err(_) => match put_all(out, b"out of memory\n") {
            Ok(()) => 7,
            Err(_) => 9,
        },
    }
}

/// Prints the line of a stop, or that memory is out where there is none for it, and answers the status, or 9 where the
/// sink fails.
pub fn tell<O: Sink>(alloc: Global, out: &mut O, stop: &Stop) -> u8
    ensures told { HasTold stop.now (output O.model out.old out.new) result }
    ensures later { O.model.faults out.old ≤ O.model.faults out.new }
{
    let line = line_of(alloc, stop);
    tell_line(out, line, status_of(stop))
}

fn is_sink(stop: &Stop) -> bool
    ensures { IsTrue result ↔ (stop.now ≡ Stops.Sink) }
{
    matches!(stop, Stop::Sink)
}

/// Tells the stop of a command, unless the sink failed already, and answers the status of the run.
pub fn close<O: Sink>(alloc: Global, out: &mut O, outcome: Result<(), Stop>) -> u8
    ensures closed { HasClosed outcome (output O.model out.old out.new) result }
    ensures later { O.model.faults out.old ≤ O.model.faults out.new }
{
    match outcome {
        Ok(()) => 0,
        Err(stop) => {
            if is_sink(&stop) {
                9
            } else {
                tell(alloc, out, &stop)
            }
        }
    }
}

//! The line and the status of a stop, and the end of a run.

ghost use Rattle.std.specs.Prelude.{◌≡◌, ◌≤◌, ◌++◌, ◌∷◌, [], IfOk, OnOk};
ghost use Rattle.std.specs.Fmt.{decimal};
ghost use Rattle.mta_output.specs.Output.{HasPrinted, output};
ghost use Rattle.mta_audit_run.specs.Output.{HasClosed, HasTold};
ghost use Rattle.mta_audit_run.specs.Stops.{line_of, status_by, status_of};

use crate::audit::Report;
use crate::stop::Stop;
use crate::text::{put_number, spool_text};
use mta_ber::{Memory, Octets};
use mta_edge::{Sink, put_all};
use std::alloc::Global;

fn put_last_number(line: &mut Octets, number: u64) -> Result<(), Memory>
    ensures { OnOk result (line.new ≡ line.old ++ (decimal number ++ 10 ∷ [])) }
{
    put_number(line, number)?;
    line.extend(b"\n")
}

#[tactic(auto, unfolding(crate::specs::Stops::line_of))]
fn line_of(alloc: Global, stop: Stop) -> Result<Octets, Memory>
    ensures { IfOk result (λ line. line ≡ line_of stop) }
{
    let mut line = Octets::new(alloc);
    match stop {
        Stop::Usage => line.extend(b"usage: mta_audit FIRST SECOND\n")?,
        Stop::NotSpool { spool, at } => {
            line.extend(spool_text(spool))?;
            line.extend(b" not a spool at ")?;
            put_last_number(&mut line, at)?;
        }
        Stop::Disk => line.extend(b"disk fault\n")?,
        Stop::Memory => line.extend(b"out of memory\n")?,
    }
    Ok(line)
}

fn status_of(stop: Stop) -> u8
    ensures { result ≡ status_of stop }
{
    match stop {
        Stop::Usage => 1,
        Stop::NotSpool { .. } => 3,
        Stop::Disk => 4,
        Stop::Memory => 7,
    }
}

fn status_by(agrees: bool) -> u8
    ensures { result ≡ status_by agrees }
{
    if agrees { 0 } else { 18 }
}

/// Prints the line of a stop, or that memory is out where there is none for it, and answers the status, or 9 where the
/// sink fails.
#[tactic(auto, unfolding(crate::specs::Stops::line_of))]
pub fn tell<O: Sink>(alloc: Global, out: &mut O, stop: Stop) -> u8
    ensures told { HasTold stop (output O.model out.old out.new) result }
    ensures later { O.model.faults out.old ≤ O.model.faults out.new }
{
    match line_of(alloc, stop) {
        Ok(line) => match put_all(out, line.as_slice()) {
            Ok(()) => status_of(stop),
            Err(_) => 9,
        },
        Err(_) => match put_all(out, b"out of memory\n") {
            Ok(()) => 7,
            Err(_) => 9,
        },
    }
}

fn print<O: Sink>(out: &mut O, report: &Report) -> u8
    ensures printed { HasPrinted report.now.text (status_by report.now.agrees) (output O.model out.old out.new) result }
    ensures later { O.model.faults out.old ≤ O.model.faults out.new }
{
    match put_all(out, report.text.as_slice()) {
        Ok(()) => status_by(report.agrees),
        Err(_) => 9,
    }
}

/// Prints what came of an audit, and answers the status.
pub fn close<O: Sink>(alloc: Global, out: &mut O, outcome: Result<Report, Stop>) -> u8
    ensures closed { HasClosed outcome (output O.model out.old out.new) result }
    ensures later { O.model.faults out.old ≤ O.model.faults out.new }
{
    match outcome {
        Ok(report) => print(out, &report),
        Err(stop) => tell(alloc, out, stop),
    }
}

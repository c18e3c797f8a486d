//! What is printed: how many records were kept or put, and the line of a stop. No memory is taken.

ghost use Rattle.std.specs.Prelude.{◌≡◌, ◌≤◌, ◌++◌, codes};
ghost use Rattle.std.specs.Fmt.{decimal};
ghost use Rattle.mta_output.specs.Output.{HasPrinted, output};
ghost use Rattle.mta_follow_run.specs.Output.{HasPut};
ghost use Rattle.mta_follow_run.specs.Stops.{kept_text, last_number, line_of, pushed_text, status_by, status_of};

use crate::stop::Stop;
use itoa::Buffer;
use mta_edge::{Failed, Sink, put_all};

// Puts a number in decimal digits.
fn put_number<O: Sink>(out: &mut O, number: u64) -> Result<(), Failed>
    ensures { HasPut (decimal number) (output O.model out.old out.new) result }
{
    let mut buffer = Buffer::new();
    put_all(out, buffer.format(number).as_bytes())
}

// Puts a text, a number behind it, and the end of the line.
fn put_counted<O: Sink>(out: &mut O, text: &[u8], number: u64) -> Result<(), Failed>
    ensures { HasPut (text.now ++ last_number number) (output O.model out.old out.new) result }
{
    put_all(out, text)?;
    put_number(out, number)?;
    put_all(out, b"\n")
}

fn put_full<O: Sink>(out: &mut O, size: u64, need: u64) -> Result<(), Failed>
    ensures { HasPut (codes "spool full " ++ (decimal size ++ (codes " " ++ last_number need)))
        (output O.model out.old out.new) result }
{
    put_all(out, b"spool full ")?;
    put_number(out, size)?;
    put_counted(out, b" ", need)
}

// Puts the line of a stop.
#[tactic(auto, unfolding(crate::specs::Stops::line_of))]
fn put_line<O: Sink>(out: &mut O, stop: Stop) -> Result<(), Failed>
    ensures { HasPut (line_of stop) (output O.model out.old out.new) result }
{
    match stop {
        Stop::Usage => put_all(out, b"usage: mta_follow push HOST PORT or pull PORT\n"),
        Stop::NotSpool { at } => put_counted(out, b"not a spool at ", at),
        Stop::Disk => put_all(out, b"disk fault\n"),
        Stop::Full { size, need } => put_full(out, size, need),
        Stop::Memory => put_all(out, b"out of memory\n"),
        Stop::Broken => put_all(out, b"link broken\n"),
        Stop::Diverged { number } => put_counted(out, b"diverged at ", number),
        Stop::BadUnit { at } => put_counted(out, b"bad unit at ", at),
    }
}

fn status_of(stop: Stop) -> u8
    ensures { result ≡ status_of stop }
{
    match stop {
        Stop::Usage => 1,
        Stop::NotSpool { .. } => 3,
        Stop::Disk => 4,
        Stop::Full { .. } => 5,
        Stop::Memory => 7,
        Stop::Broken => 15,
        Stop::Diverged { .. } => 16,
        Stop::BadUnit { .. } => 17,
    }
}

/// Prints the line of a stop, and answers its status, or 9 where the sink fails.
pub fn tell<O: Sink>(out: &mut O, stop: Stop) -> u8
    ensures printed { HasPrinted (line_of stop) (status_of stop) (output O.model out.old out.new) result }
    ensures later { O.model.faults out.old ≤ O.model.faults out.new }
{
    match put_line(out, stop) {
        Ok(()) => status_of(stop),
        Err(_) => 9,
    }
}

/// Prints how many records a standby got and keeps, and why it did not get all, and answers the status.
#[tactic(auto, unfolding(crate::specs::Stops::kept_text))]
pub fn tell_kept<O: Sink>(out: &mut O, kept: u64, ended: Result<(), Stop>) -> u8
    ensures printed { HasPrinted (kept_text kept ended) (status_by ended) (output O.model out.old out.new) result }
    ensures later { O.model.faults out.old ≤ O.model.faults out.new }
{
    if put_counted(out, b"kept ", kept).is_err() {
        return 9;
    }
    match ended {
        Ok(()) => 0,
        Err(stop) => tell(out, stop),
    }
}

/// Prints how many records were pushed, or why not all were, and answers the status.
#[tactic(auto, unfolding(crate::specs::Stops::pushed_text))]
pub fn tell_pushed<O: Sink>(out: &mut O, pushed: Result<u64, Stop>) -> u8
    ensures printed { HasPrinted (pushed_text pushed) (status_by pushed) (output O.model out.old out.new) result }
    ensures later { O.model.faults out.old ≤ O.model.faults out.new }
{
    match pushed {
        Ok(count) => match put_counted(out, b"pushed ", count) {
            Ok(()) => 0,
            Err(_) => 9,
        },
        Err(stop) => tell(out, stop),
    }
}

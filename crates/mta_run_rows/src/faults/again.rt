//! Values that live on where memory is refused: what was refused is asked for again, of the same value.

ghost use Rattle.std.specs.Prelude.{◌≡◌, ◌≢◌, [], OnOk, IfOk};
ghost use Rattle.mta_ber.specs.Canon.{IsTag, appended, begun, element, ended};
ghost use Rattle.mta_machine.specs.Apdu.{IsApdu};

use crate::case::Case;
use crate::faults::short::queue_at_last;
use crate::spools::{Memories, spool_of};
use anyhow::{Result, anyhow, bail};
use mta_apdu::Apdu;
use mta_ber::{Tag, Writer};
use mta_edge::{Memory, Octets, SafeDisk};
use mta_records::StepFault;
use mta_spool::{Tables, Turned};
use mta_units::{Frames, Next, Unit};
use std::alloc::Global;
use std::sync::Wait;
use std::thread::Threads;

// Octets are fed in pieces of this size.
const PIECE: usize = 7;

// More steps than are due in a row.
const MOST_STEPS: u32 = 100;

fn begin(w: &mut Writer, tag: Tag) -> std::result::Result<(), Memory>
    requires { IsTag tag }
    ensures { OnOk result (w.new ≡ begun tag w.old) }
{
    match w.begin(tag) {
        Ok(()) => Ok(()),
        Err(_) => w.begin(tag),
    }
}

fn put(w: &mut Writer, tag: Tag, content: &[u8]) -> std::result::Result<(), Memory>
    requires { IsTag tag }
    ensures { OnOk result (w.new ≡ appended w.old (element tag content.now)) }
{
    match w.put(tag, content) {
        Ok(()) => Ok(()),
        Err(_) => w.put(tag, content),
    }
}

// What a writer has written into itself where each call that is refused is made again: an OCTET STRING in a SEQUENCE in
// a SEQUENCE, and its octets behind it.
fn written(alloc: Global, content: &[u8]) -> std::result::Result<Octets, Memory> {
    let sequence = Tag {
        class: 0,
        constructed: true,
        number: 16,
    };
    let octets = Tag {
        class: 0,
        constructed: false,
        number: 4,
    };
    let mut inside = Writer::new(alloc);
    put(&mut inside, octets, content)?;
    let mut w = Writer::new(alloc);
    begin(&mut w, sequence)?;
    put(&mut w, sequence, inside.as_slice())?;
    put(&mut w, octets, content)?;
    if w.end().is_err() {
        w.end()?;
    }
    Ok(w.finish())
}

/// What a writer writes of these octets.
pub fn writes(alloc: Global, case: &Case, wanted: &str, text: &str) -> Result<String> {
    let content = case.octets(alloc, text)?;
    match written(alloc, content.as_slice()) {
        Ok(octets) => case.spelled(alloc, wanted, octets.as_slice()),
        Err(_) => Err(anyhow!("memory is refused twice")),
    }
}

fn kind_of(unit: &Unit) -> &'static str {
    match unit {
        Unit::Open(_) => "Open",
        Unit::Accept { .. } => "Accept",
        Unit::Start { .. } => "Start",
        Unit::Piece(_) => "Piece",
        Unit::Sync { .. } => "Sync",
        Unit::End { .. } => "End",
        Unit::Close => "Close",
        _ => "another",
    }
}

fn feed(frames: &mut Frames, piece: &[u8]) -> std::result::Result<(), Memory> {
    if frames.room() < piece.len() as u64 {
        return Err(Memory);
    }
    match frames.feed(piece) {
        Ok(()) => Ok(()),
        Err(_) => frames.feed(piece),
    }
}

fn next(frames: &mut Frames) -> std::result::Result<Next, Memory> {
    match frames.next() {
        Ok(next) => Ok(next),
        Err(_) => frames.next(),
    }
}

// Takes the units that have come, and says their kinds.
fn take(frames: &mut Frames, text: &mut String, most: usize) -> Result<()> {
    for _ in 0..most {
        let Ok(next) = next(frames) else {
            bail!("memory is refused twice");
        };
        match next {
            Next::Unit(unit) => {
                text.push_str(kind_of(&unit))?;
                text.push(' ')?;
            }
            Next::More => return Ok(()),
            Next::Bad { .. } => bail!("no unit"),
        }
    }
    Ok(())
}

/// The kinds of the units of a stream.
pub fn reads(alloc: Global, case: &Case, text: &str) -> Result<String> {
    let octets = case.octets(alloc, text)?;
    let mut frames = Frames::new(alloc);
    let mut said = String::new(alloc);
    for piece in octets.as_slice().chunks(PIECE) {
        if feed(&mut frames, piece).is_err() {
            bail!("memory is refused twice");
        }
        take(&mut frames, &mut said, PIECE)?;
    }
    Ok(said)
}

fn record(spool: &mut Memories, tables: &Tables) -> std::result::Result<(), StepFault>
    ensures { IfOk result (λ _. spool.new.current.machine.tables ≢ []) }
{
    match spool.set_tables(tables) {
        Err(StepFault::Memory) => spool.set_tables(tables),
        other => other,
    }
}

fn accept(spool: &mut Memories, apdu: &[u8]) -> std::result::Result<u32, StepFault>
    requires apdu { IsApdu apdu.now }
    requires tables { spool.old.current.machine.tables ≢ [] }
{
    match spool.accept(apdu) {
        Err(StepFault::Memory) => spool.accept(apdu),
        other => other,
    }
}

fn turn(spool: &mut Memories) -> std::result::Result<Turned, StepFault> {
    match spool.turn() {
        Err(StepFault::Memory) => spool.turn(),
        other => other,
    }
}

// Makes the steps that are due.
fn settle(spool: &mut Memories) -> std::result::Result<(), StepFault> {
    for _ in 0..MOST_STEPS {
        if let Turned::Quiet { .. } = turn(spool)? {
            return Ok(());
        }
    }
    Ok(())
}

// Takes octets as an item and does what is due.
fn take_up(
    alloc: Global,
    spool: &mut Memories,
    tables: &Tables,
    octets: &[u8],
) -> Result<std::result::Result<(), StepFault>> {
    let Ok(apdu) = Apdu::read(alloc, octets) else {
        bail!("no APDU, or no memory");
    };
    apdu.discard();
    if let Err(fault) = record(spool, tables) {
        return Ok(Err(fault));
    }
    if let Err(fault) = accept(spool, octets) {
        return Ok(Err(fault));
    }
    Ok(settle(spool))
}

// The disk behind a spool that took the input, and why a step was refused.
fn taken(
    alloc: Global,
    mut spool: Memories,
    text: &[u8],
    octets: &[u8],
) -> (SafeDisk, Result<std::result::Result<(), StepFault>>) {
    let done = match Tables::read(alloc, text) {
        Ok(tables) => take_up(alloc, &mut spool, &tables, octets),
        Err(_) => Err(anyhow!("no tables, or no memory")),
    };
    (spool.end(), done)
}

/// Takes the input into the spool and does what is due, where a step that is refused for want of memory is made again:
/// what `spool` says then. A disk in memory that cannot grow has failed, and is answered as wanted.
pub fn takes<R: Threads + Wait + Sync>(
    rt: &R,
    alloc: Global,
    case: &Case,
    wanted: &str,
) -> Result<String> {
    let spool = spool_of(alloc, case, case.disk.as_slice())?;
    let (disk, done) = taken(alloc, spool, case.tables.as_slice(), case.input.as_slice());
    match done? {
        Ok(()) => queue_at_last(rt, alloc, case, disk.octets()),
        Err(StepFault::Disk) => Ok(String::from_str(alloc, wanted)?),
        Err(fault) => Ok(format!(in alloc; "{fault:?}")?),
    }
}

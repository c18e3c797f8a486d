//! Feeds a stream of Data units of 4 KiB to `Frames` in cuts of 1,500 octets, and prints how many units and octets were
//! read. There are no words. A script times it (checks/speed.sh units); what is printed never varies.

use anyhow::{Result, anyhow};
use mta_ber::{Memory, Octets};
use mta_units::{Frames, Next, Unit, write_unit};
use std::alloc::Global;

/// The octets of a unit's piece.
const PIECE: usize = 4096;

/// The octets of a cut.
const CUT: usize = 1500;

/// How many units the stream has that is fed again and again.
const UNITS: u32 = 750;

/// How often it is fed.
const TURNS: u32 = 300;

/// What was read.
#[derive(Clone, Copy, Debug)]
struct Count {
    units: u64,
    octets: u64,
}

/// The stream: Data units, one behind the other.
fn stream(alloc: Global) -> Result<Octets, Memory> {
    let unit = Unit::Piece(Octets::from_slice(alloc, &[0xA5; PIECE])?);
    let one = write_unit(alloc, &unit)?;
    let mut octets = Octets::new(alloc);
    for _ in 0..UNITS {
        octets.extend(one.as_slice())?;
    }
    Ok(octets)
}

/// Takes the units that came whole.
fn drain(frames: &mut Frames, count: &mut Count) -> Result<()> {
    for _ in 0..u64::MAX {
        match frames.next() {
            Ok(Next::Unit(Unit::Piece(octets))) => {
                count.units = count.units.saturating_add(1);
                count.octets = count.octets.saturating_add(octets.len() as u64);
            }
            Ok(Next::More) => return Ok(()),
            _ => return Err(anyhow!("no such unit")),
        }
    }
    Ok(())
}

fn feed_cut(frames: &mut Frames, cut: &[u8]) -> Result<()> {
    if cut.len() as u64 > frames.room() {
        return Err(anyhow!("the stream is too long"));
    }
    frames.feed(cut).map_err(|_| anyhow!("no memory"))
}

/// Feeds the stream once, cut by cut.
fn read_once(frames: &mut Frames, octets: &[u8], count: &mut Count) -> Result<()> {
    let mut left = octets;
    for _ in 0..octets.len() {
        if left.is_empty() {
            return Ok(());
        }
        let (cut, behind) = left.split_at(left.len().min(CUT));
        feed_cut(frames, cut)?;
        drain(frames, count)?;
        left = behind;
    }
    Ok(())
}

pub fn timed(rt: &(impl Print + AllocGlobal)) -> Result<()> {
    let octets = stream(rt.alloc()).map_err(|_| anyhow!("no memory"))?;
    let mut frames = Frames::new(rt.alloc());
    let mut count = Count {
        units: 0,
        octets: 0,
    };
    for _ in 0..TURNS {
        read_once(&mut frames, octets.as_slice(), &mut count)?;
    }
    println!(rt; "{} units {} octets", count.units, count.octets)?;
    Ok(())
}

//! A worker over the disk as it is.
//!
//! A spool is changed and ended in a function to which it is handed: where it comes out of a `?` of the same one, or is
//! dropped there, the proof goes through each of its parts.

ghost use Rattle.mta_edge.specs.Moments.{memory_clock};
ghost use Rattle.mta_spool.specs.Bases.{base_of, Keeps};

use crate::given::disk_of;
use crate::spools::opened;
use crate::workers::held::Held;
use crate::workers::links::{limits, station};
use anyhow::{Result, anyhow};
use mta_edge::{Disk, MemClock, MemDisk, Octets, SafeDisk};
use mta_links::{MemLink, MemStation};
use mta_session::Limits;
use mta_shared::Shared;
use mta_spool::Spool;
use mta_worker::{WorkerEnd, work};
use std::alloc::{AllocError, Global};
use std::mem;
use std::sync::Wait;

/// What a worker leaves: the disk, what each link was put, and what it came to.
#[derive(Drop)]
pub struct Worked<D: Drop> {
    pub disk: D,
    pub puts: Vec<Vec<u8>>,
    pub end: WorkerEnd,
}

/// How many calls of the disk opening it makes.
pub fn calls_of_opening(alloc: Global, held: &Held) -> Result<u64> {
    let disk = disk_of(alloc, held.case.disk.as_slice(), 0)?;
    Ok(opened(alloc, disk, held.case.moment)?.end().calls())
}

// A worker alone with a spool.
fn alone<R: Wait, D: Disk + Drop>(
    rt: &R,
    alloc: Global,
    spool: Spool<D, MemClock>,
    station: &mut MemStation,
    limits: &Limits,
) -> Result<(D, WorkerEnd)>
    requires { Keeps D.model memory_clock spool (base_of D.model memory_clock spool) }
{
    match Shared::open(alloc, spool) {
        Ok((shared, mut pass)) => {
            let end = work(rt, alloc, &shared, &mut pass, station, limits);
            Ok((shared.close(pass).end(), end))
        }
        Err(spool) => {
            spool.end();
            Err(anyhow!("no memory"))
        }
    }
}

fn puts_of(alloc: Global, links: &[MemLink]) -> Result<Vec<Vec<u8>>, AllocError> {
    let mut puts = Vec::new(alloc);
    for link in links {
        puts.push(link.octets().to_vec(alloc)?)?;
    }
    Ok(puts)
}

// What a worker of this station makes of a spool.
fn work_with<R: Wait, D: Disk + Drop>(
    rt: &R,
    alloc: Global,
    held: &Held,
    spool: Spool<D, MemClock>,
    mut station: MemStation,
) -> Result<Worked<D>>
    requires { Keeps D.model memory_clock spool (base_of D.model memory_clock spool) }
{
    let (disk, end) = alone(rt, alloc, spool, &mut station, &limits(held))?;
    let puts = puts_of(alloc, station.ended())?;
    Ok(Worked { disk, puts, end })
}

/// What a worker of this role makes of a spool.
pub fn work_at<R: Wait, D: Disk + Drop>(
    rt: &R,
    alloc: Global,
    held: &Held,
    spool: Spool<D, MemClock>,
    role: &str,
) -> Result<Worked<D>>
    requires { Keeps D.model memory_clock spool (base_of D.model memory_clock spool) }
{
    match station(alloc, held, role) {
        Ok(station) => work_with(rt, alloc, held, spool, station),
        Err(error) => {
            spool.end();
            Err(error)
        }
    }
}

/// What a worker came to.
pub fn said(alloc: Global, end: &WorkerEnd) -> Result<String, AllocError> {
    let (sessions, closed, halt) = (end.sessions, end.closed, end.halt);
    format!(in alloc; "sessions {sessions} closed {closed} {halt:?}")
}

// What a disk holds, which is let go.
fn octets_of(alloc: Global, disk: SafeDisk) -> Result<Vec<u8>, AllocError> {
    disk.octets().to_vec(alloc)
}

fn octets_of_failing(alloc: Global, disk: MemDisk) -> Result<Vec<u8>, AllocError> {
    disk.octets().to_vec(alloc)
}

// Over a disk that is changed in place, of which no call fails.
fn works_in_place<R: Wait>(rt: &R, alloc: Global, held: &mut Held, role: &str) -> Result<String> {
    let octets = mem::replace(&mut held.case.disk, Vec::new(alloc));
    let disk = SafeDisk::new(alloc, Octets::from_vec(octets));
    let spool = opened(alloc, disk, held.case.moment)?;
    let Worked { disk, puts, end } = work_at(rt, alloc, held, spool, role)?;
    held.puts = puts;
    held.spend(alloc);
    held.case.disk = octets_of(alloc, disk)?;
    Ok(said(alloc, &end)?)
}

// Over a disk whose call of a number fails, counted from opening on.
fn works_over_failing<R: Wait>(
    rt: &R,
    alloc: Global,
    held: &mut Held,
    role: &str,
) -> Result<String> {
    let call = calls_of_opening(alloc, held)?.saturating_add(held.disk_fails);
    let disk = disk_of(alloc, held.case.disk.as_slice(), call)?;
    let spool = opened(alloc, disk, held.case.moment)?;
    let Worked { disk, puts, end } = work_at(rt, alloc, held, spool, role)?;
    held.puts = puts;
    held.spend(alloc);
    held.case.disk = octets_of_failing(alloc, disk)?;
    Ok(said(alloc, &end)?)
}

/// Has a worker serve the links that were given, and keeps what the disk holds then and what they were put.
pub fn works<R: Wait>(rt: &R, alloc: Global, held: &mut Held, role: &str) -> Result<String> {
    if held.disk_fails == 0 {
        works_in_place(rt, alloc, held, role)
    } else {
        works_over_failing(rt, alloc, held, role)
    }
}

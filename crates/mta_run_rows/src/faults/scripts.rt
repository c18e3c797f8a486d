//! One run over objects in memory, of which a call of one may fail. All that may want memory is made before the
//! objects: where they would be let go on each way of a `?`, the proof goes through all their parts.

use crate::case::Case;
use crate::given::{clock, role_of};
use crate::program::called;
use anyhow::{Result, anyhow, bail};
use mta_edge::{MemDisk, MemSink, MemSource, Octets};
use mta_links::{MemLink, MemStation};
use mta_rows::{Fields, said, words_of};
use mta_run::Finished;
use std::alloc::{AllocError, Global};
use std::sync::Wait;
use std::thread::Threads;

/// What is run: the words, and the role of its station and what that station's one peer gives. An empty role stands for
/// no station.
#[derive(Clone, Copy)]
pub struct Script<'a> {
    pub words: &'a str,
    pub role: &'a str,
    pub gives: &'a [u8],
}

/// Of which object a call fails.
#[derive(Clone, Copy, PartialEq, Eq)]
pub enum Place {
    Nowhere,
    Tables,
    Input,
    Output,
    Disk,
    Station,
    Link,
}

impl Place {
    pub fn of(name: &str) -> Result<Place> {
        match name {
            "tables" => Ok(Place::Tables),
            "input" => Ok(Place::Input),
            "output" => Ok(Place::Output),
            "disk" => Ok(Place::Disk),
            "station" => Ok(Place::Station),
            "link" => Ok(Place::Link),
            _ => Err(anyhow!("nothing fails there")),
        }
    }
}

/// The call that fails, from 1.
#[derive(Clone, Copy)]
pub struct Failing {
    pub place: Place,
    pub call: u64,
}

impl Failing {
    pub fn nothing() -> Failing {
        Failing {
            place: Place::Nowhere,
            call: 0,
        }
    }

    // The numbers of the calls of this object that fail.
    fn calls(self, alloc: Global, place: Place) -> Result<Vec<u64>, AllocError> {
        let mut calls = Vec::new(alloc);
        if self.place == place {
            calls.push(self.call)?;
        }
        Ok(calls)
    }
}

/// What a run left: its status and what was printed as one text, the disk, and what the peer was put.
pub struct Ran {
    pub said: String,
    pub disk: MemDisk,
    pub put: Vec<u8>,
}

// Written out, since a derived one is opened anew, field by field, at each place where a value is let go.
impl Drop for Ran {
    fn drop(self) {
        let Ran {
            said: _,
            disk: _,
            put: _,
        } = self;
    }
}

impl Ran {
    /// What was said alone.
    pub fn into_said(self) -> String {
        let Ran {
            said,
            disk: _,
            put: _,
        } = self;
        said
    }
}

fn links_of(alloc: Global, script: Script<'_>, failing: Failing) -> Result<Vec<MemLink>> {
    let input = Octets::from_slice(alloc, script.gives)?;
    let fails = failing.calls(alloc, Place::Link)?;
    let mut links = Vec::new(alloc);
    links.push(MemLink::new(alloc, input, fails))?;
    Ok(links)
}

fn station_of(alloc: Global, script: Script<'_>, failing: Failing) -> Result<MemStation> {
    let role = role_of(alloc, script.role)?;
    let fails = failing.calls(alloc, Place::Station)?;
    let links = links_of(alloc, script, failing)?;
    Ok(MemStation::new(alloc, role, links, fails)?)
}

fn stations_of(alloc: Global, script: Script<'_>, failing: Failing) -> Result<Vec<MemStation>> {
    let mut stations = Vec::new(alloc);
    if !script.role.is_empty() {
        stations.push(station_of(alloc, script, failing)?)?;
    }
    Ok(stations)
}

// What the links that came back were put.
fn put_to(alloc: Global, stations: &[MemStation]) -> Result<Vec<u8>, AllocError> {
    let mut put = Vec::new(alloc);
    for station in stations {
        for link in station.ended() {
            put.extend_from_slice(link.octets())?;
        }
    }
    Ok(put)
}

// What a script makes of a disk of these octets, where this call fails, and what it prints.
fn finished<R: Threads + Wait + Sync>(
    rt: &R,
    alloc: Global,
    case: &Case,
    script: Script<'_>,
    failing: Failing,
    disk: &[u8],
    out: &mut MemSink,
) -> Result<Finished<MemDisk, MemStation>> {
    let words = words_of(alloc, script.words, ' ')?;
    let conf = Octets::from_slice(alloc, case.tables.as_slice())?;
    let conf_fails = failing.calls(alloc, Place::Tables)?;
    let input = Octets::from_slice(alloc, case.input.as_slice())?;
    let input_fails = failing.calls(alloc, Place::Input)?;
    let disk = Octets::from_slice(alloc, disk)?;
    let disk_fails = failing.calls(alloc, Place::Disk)?;
    let clock = clock(alloc, case.moment)?;
    let stations = stations_of(alloc, script, failing)?;
    Ok(called(
        rt,
        alloc,
        words.as_slice(),
        MemSource::new(conf, conf_fails),
        MemSource::new(input, input_fails),
        out,
        MemDisk::new(alloc, disk, disk_fails),
        stations,
        clock,
    ))
}

// What was said, and what the links were put.
fn said_and_put(
    alloc: Global,
    status: u8,
    stations: &[MemStation],
    out: &MemSink,
) -> Result<(String, Vec<u8>), AllocError> {
    let said = said(alloc, status, out.octets())?;
    Ok((said, put_to(alloc, stations)?))
}

// What a run left, whose stations are let go.
fn left_by(
    alloc: Global,
    finished: Finished<MemDisk, MemStation>,
    out: &MemSink,
) -> Result<Ran, AllocError> {
    let Finished {
        status,
        disk,
        stations,
    } = finished;
    match said_and_put(alloc, status, stations.as_slice(), out) {
        Ok((said, put)) => Ok(Ran { said, disk, put }),
        Err(error) => Err(error),
    }
}

/// Runs a script over a disk that holds these octets, where this call fails.
pub fn run_of<R: Threads + Wait + Sync>(
    rt: &R,
    alloc: Global,
    case: &Case,
    script: Script<'_>,
    failing: Failing,
    disk: &[u8],
) -> Result<Ran> {
    let mut out = MemSink::new(alloc, failing.calls(alloc, Place::Output)?);
    let finished = finished(rt, alloc, case, script, failing, disk, &mut out)?;
    Ok(left_by(alloc, finished, &out)?)
}

/// What `spool` says of these octets.
pub fn queue<R: Threads + Wait + Sync>(
    rt: &R,
    alloc: Global,
    case: &Case,
    disk: &[u8],
) -> Result<String> {
    let spool = Script {
        words: "spool",
        role: "",
        gives: &[],
    };
    Ok(run_of(rt, alloc, case, spool, Failing::nothing(), disk)?.into_said())
}

/// Runs what the fields say, and keeps what the disk holds then.
pub fn run_on<R: Threads + Wait + Sync>(
    rt: &R,
    alloc: Global,
    case: &mut Case,
    mut fields: Fields<'_>,
) -> Result<String> {
    let (words, role) = (fields.take(), fields.take());
    let gives = case.octets(alloc, fields.take())?;
    let gives = gives.as_slice();
    let script = Script { words, role, gives };
    let before = case.disk.as_slice();
    let ran = run_of(rt, alloc, case, script, Failing::nothing(), before)?;
    case.disk = ran.disk.octets().to_vec(alloc)?;
    if ran.said.is_empty() {
        bail!("no status");
    }
    Ok(ran.into_said())
}

//! `serve`: record the tables, do what is due, have each station served by a worker of its own, do what is due, and
//! print a line a station.
//!
//! The tables are read first, and each peer that a station calls has to stand in them; then the spool is opened.
//! `begin` makes the tables' step where their text changed, and what is due. `work_side_by_side` runs the workers over
//! the spool under its lock, and gives the stations back. Then what has come due is done, and the lines are printed.
//!
//! What was accepted and what was sent stays in the spool whatever the status. Where a step of the run's own is refused
//! the run stops for that; else the end of a worker decides.

ghost use Rattle.std.specs.Prelude.{◌≡◌, ◌⊎◌, ◌≤◌, Err, List, false};
ghost use Rattle.mta_edge.specs.Views.{ClockLaws, DiskLaws};
ghost use Rattle.mta_records.specs.declared.step.Step.{Step};
ghost use Rattle.mta_spool.specs.Bases.{base_of, Keeps};
ghost use Rattle.mta_spool.specs.Stands.{Stands};
ghost use Rattle.mta_stations.specs.Stations.{roles_in};
ghost use Rattle.mta_commands.specs.declared.stop.Stop.TheVariants as Stops;
ghost use Rattle.mta_output.specs.Output.{output};
ghost use Rattle.mta_run.specs.Served.{HasServed, HasTablesFor, ServesSpool};

use mta_ber::Word;
use mta_commands::{Ended, Stop, begin, finish, refused, stop_of_step, tables_of};
use mta_edge::{Clock, Disk, Sink, Source};
use mta_lane_list_laws::{called_lanes_agree, lanes_agree};
use mta_links::Station;
use mta_session::Limits;
use mta_spool::{Spool, Tables};
use mta_stations::unnamed_peer;
use mta_worker::{Worked, work_side_by_side};
use mta_worker_list_laws::{ends_agree, reading_tells};
use std::alloc::Global;
use std::sync::Wait;
use std::thread::Threads;

// The most units of a session.
const MOST_UNITS: u32 = 1_048_576;

// The words of a command line name no more stations.
const MOST_STATIONS: usize = 16;

/// What serving left: the disk, why it stopped where it did, and the stations in their order.
#[derive(Drop)]
pub struct ServeEnd<D: Drop, S: Drop> {
    pub ended: Ended<D>,
    pub stations: Vec<S>,
}

// A run that stops with its spool open.
fn stopped<D: Disk + Drop, C: Clock + Drop, S: Drop>(
    spool: Spool<D, C>,
    stations: Vec<S>,
    stop: Stop,
) -> ServeEnd<D, S>
    ensures disk { result.ended.disk ≡ spool.journal.disk }
    ensures stations { result.stations ≡ stations }
    ensures outcome { result.ended.outcome ≡ Err stop }
{
    ServeEnd {
        ended: Ended {
            disk: spool.end(),
            outcome: Err(stop),
        },
        stations,
    }
}

// Serves over an open spool.
fn serve_spool<
    R: Threads + Wait + Sync,
    D: Disk + Drop + Send,
    C: Clock + Drop + Send,
    S: Station + Drop + Send,
    O: Sink,
>(
    rt: &R,
    alloc: Global,
    sessions: u32,
    tables: &Tables,
    out: &mut O,
    mut spool: Spool<D, C>,
    stations: Vec<S>,
) -> ServeEnd<D, S>
where
    S::Link: Send,
    requires going { spool.journal.ended ≡ false }
    requires stands { (steps : List Step) × Stands D.model spool steps }
    requires keeps { Keeps D.model C.model spool (base_of D.model C.model spool) }
    ensures served { ServesSpool D.model C.model S.Link.model S.model sessions tables.now.text
        (output O.model out.old out.new) spool stations.items result.stations.items result.ended.disk
        result.ended.outcome }
    ensures later { O.model.faults out.old ≤ O.model.faults out.new }
{
    if let Err(fault) = begin(&mut spool, tables) {
        return stopped(spool, stations, stop_of_step(fault));
    }
    if stations.len() > MOST_STATIONS {
        return stopped(spool, stations, Stop::Memory);
    }
    let limits = Limits {
        sessions,
        units: MOST_UNITS,
    };
    let Worked {
        mut spool,
        stations,
        ends,
        refused,
    } = work_side_by_side(rt, alloc, spool, stations, &limits);
    let outcome = if refused {
        Err(Stop::Memory)
    } else {
        finish(alloc, &mut spool, out, ends.as_slice())
    };
    ServeEnd {
        ended: Ended {
            disk: spool.end(),
            outcome,
        },
        stations,
    }
}

// The stop for a peer that the tables do not name.
fn stop_of_peer(peer: &Word) -> Stop
    ensures { (result ≡ Stops.NoPeer peer.now) ⊎ (result ≡ Stops.Memory) }
{
    match peer.share() {
        Ok(name) => Stop::NoPeer(name),
        Err(_) => Stop::Memory,
    }
}

// Reads the tables, which have to name each peer that is called.
fn tables_for<S: Station, I: Source>(
    alloc: Global,
    conf: &mut I,
    stations: &[S],
) -> Result<Tables, Stop>
    ensures { HasTablesFor I.model conf.old conf.new (roles_in S.model stations.now) result }
{
    let tables = match tables_of(alloc, conf) {
        Ok(tables) => tables,
        Err(stop) => return Err(stop),
    };
    match unnamed_peer(&tables, stations) {
        Some(peer) => Err(stop_of_peer(peer)),
        None => Ok(tables),
    }
}

/// What holds of each disk and of each clock.
pub fn outside_laws<D: Disk, C: Clock>()
    ensures disks { DiskLaws D.model }
    ensures clocks { ClockLaws C.model }
{}

/// Serves up to `sessions` sessions at each station, each by a worker in a thread of its own.
pub fn serve<
    R: Threads + Wait + Sync,
    D: Disk + Drop + Send,
    C: Clock + Drop + Send,
    S: Station + Drop + Send,
    I: Source,
    O: Sink,
>(
    rt: &R,
    alloc: Global,
    sessions: u32,
    conf: &mut I,
    out: &mut O,
    disk: D,
    stations: Vec<S>,
    clock: C,
) -> ServeEnd<D, S>
where
    S::Link: Send,
    ensures ended { HasServed D.model C.model I.model S.Link.model S.model sessions
        (roles_in S.model stations.items) conf.old conf.new disk result.ended.disk clock stations.items
        result.stations.items (output O.model out.old out.new) result.ended.outcome }
    ensures later { O.model.faults out.old ≤ O.model.faults out.new }
{
    outside_laws::<D, C>();
    reading_tells();
    ends_agree::<D, C, S::Link, S>();
    lanes_agree::<S::Link>();
    called_lanes_agree::<S::Link>();
    let tables = match tables_for(alloc, conf, stations.as_slice()) {
        Ok(tables) => tables,
        Err(stop) => {
            return ServeEnd {
                ended: Ended {
                    disk,
                    outcome: Err(stop),
                },
                stations,
            };
        }
    };
    match Spool::open(alloc, disk, clock) {
        Err(why) => ServeEnd {
            ended: refused(why),
            stations,
        },
        Ok(spool) => serve_spool(rt, alloc, sessions, &tables, out, spool, stations),
    }
}

//! The jobs of workers: dealt from a list of stations, and gathered again.

ghost use Rattle.std.specs.Prelude.{◌≡◌, ◌+◌, ◌<◌, ◌≤◌, [], ◌++◌, All, map, reverse, vec_capacity, vec_len};
ghost use mathlib.Core.List.{IsPrefix};
ghost use Rattle.mta_shared.specs.Passes.{lock_of, IsReady};
ghost use Rattle.mta_worker.specs.Jobs.{end_of, ends_as, IsDealt, IsDealtOne, IsDone, owned_by, SawFront, station_of};

use mta_edge::{Clock, Disk};
use mta_records::Step;
use mta_shared::{Pass, Shared};
use mta_spool::Spool;
use mta_stations::WorkerEnd;

/// A worker's station and its pass, and what it came to.
#[derive(Drop)]
pub struct Job<S: Drop> {
    pub station: S,
    pub pass: Pass<Step>,
    pub end: Option<WorkerEnd>,
}

/// A job for each station, the last one first.
pub fn deal<D: Disk + Drop, C: Clock + Drop, S: Drop>(
    shared: &Shared<Spool<D, C>>,
    main: &mut Pass<Step>,
    stations: &mut Vec<S>,
    jobs: &mut Vec<Job<S>>,
)
    requires ready { IsReady (lock_of shared.now) main.old × (vec_len stations.old < main.old.parts) }
    requires room { (jobs.old.items ≡ []) × (vec_len stations.old ≤ vec_capacity jobs.old) }
    ensures main { IsReady (lock_of shared.now) main.new × (main.new.parts + vec_len jobs.new ≡ main.old.parts)
        × (main.new.seen ≡ main.old.seen) × (main.new.own ≡ main.old.own) × (main.new.base ≡ main.old.base)
        × (main.new.from ≡ main.old.from) }
    ensures stations { (stations.new.items ≡ []) × (reverse (map station_of jobs.new.items) ≡ stations.old.items) }
    ensures room { vec_len stations.old ≤ vec_capacity stations.new }
    ensures count { vec_len jobs.new ≡ vec_len stations.old }
    ensures dealt { All (IsDealt (lock_of shared.now) main.old) jobs.new.items }
    ensures ones { All (IsDealtOne (lock_of shared.now)) jobs.new.items }
{
    while let Some(station) = stations.pop() {
        let pass = shared.split(main);
        jobs.push_reserved(Job {
            station,
            pass,
            end: None,
        });
    }
}

/// Joins the passes, and gives the stations and the ends back in their order.
pub fn gather<D: Disk + Drop, C: Clock + Drop, S: Drop>(
    shared: &Shared<Spool<D, C>>,
    main: &mut Pass<Step>,
    mut jobs: Vec<Job<S>>,
    stations: &mut Vec<S>,
    ends: &mut Vec<WorkerEnd>,
)
    requires ready { IsReady (lock_of shared.now) main.old × All (IsDone (lock_of shared.now)) jobs.items }
    requires room { (stations.old.items ≡ []) × (vec_len jobs ≤ vec_capacity stations.old) }
    requires places { (ends.old.items ≡ []) × (vec_len jobs ≤ vec_capacity ends.old) }
    ensures main { IsReady (lock_of shared.now) main.new × (main.new.parts ≡ main.old.parts + vec_len jobs)
        × (main.new.base ≡ main.old.base) × (main.new.from ≡ main.old.from) × IsPrefix main.old.seen main.new.seen }
    ensures stations { stations.new.items ≡ reverse (map station_of jobs.items) }
    ensures ends { ends_as ends.new.items ≡ reverse (map end_of jobs.items) }
    ensures own { main.new.own ≡ main.old.own ++ owned_by jobs.items }
    ensures seen { All (SawFront main.new.seen) jobs.items }
{
    while let Some(job) = jobs.pop() {
        let Job { station, pass, end } = job;
        let Some(end) = end else { unreachable!() };
        shared.join(main, pass);
        stations.push_reserved(station);
        ends.push_reserved(end);
    }
    jobs.destroy_empty();
}

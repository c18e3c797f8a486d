//! A whole run of workers: the lock is made, each station gets a worker with a pass of its own, and the lock is closed.

ghost use Rattle.std.specs.Prelude.{◌≡◌, ◌<◌, ◌^◌, ℕ, false, All, IsTrue, length, slice_index_or, vec_len};
ghost use mathlib.Core.List.{IsPrefix};
ghost use Rattle.mta_shared.specs.Passes.{lock_of, IsReady};
ghost use Rattle.mta_spool.specs.Bases.{base_of, Keeps};
ghost use Rattle.mta_worker.specs.Jobs.{IsDealtOne, JobDone};
ghost use Rattle.mta_worker.specs.Wholes.{AreWorkers};

use crate::jobs::{Job, deal, gather};
use crate::worker::work;
use mta_edge::{Clock, Disk};
use mta_links::{CloseWhy, Station};
use mta_session::Limits;
use mta_shared::Shared;
use mta_spool::Spool;
use mta_stations::{Halt, WorkerEnd};
use std::alloc::Global;
use std::sync::Wait;
use std::thread;
use std::thread::Threads;

/// The most workers at a time.
const WORKERS: usize = 16;

/// What workers leave: the spool, the stations in their order, and what each worker came to.
pub struct Worked<D: Disk + Drop, C: Clock + Drop, S: Drop> {
    pub spool: Spool<D, C>,
    pub stations: Vec<S>,
    pub ends: Vec<WorkerEnd>,
    /// Whether there was no memory for them, so that nothing was done.
    pub refused: bool,
}

// Why the station of a worker that came to this halt is closed.
fn why_closed(halt: Halt) -> CloseWhy {
    match halt {
        Halt::Limit => CloseWhy::Served,
        Halt::StationEnded | Halt::StationFailed | Halt::NoPeer => CloseWhy::GivenUp,
        Halt::Disk | Halt::Full { .. } | Halt::Spent { .. } | Halt::Memory => CloseWhy::Refused,
    }
}

// The work of one job. Its station is closed once the worker is through, and not when all of them are.
fn do_job<R: Wait, D: Disk + Drop, C: Clock + Drop, S: Station + Drop>(
    rt: &R,
    alloc: Global,
    shared: &Shared<Spool<D, C>>,
    job: &mut Job<S>,
    limits: &Limits,
)
    requires { IsDealtOne (lock_of shared.now) job.old }
    ensures { JobDone D.model C.model S.Link.model S.model limits.now (lock_of shared.now) job.old job.new }
{
    let end = work(rt, alloc, shared, &mut job.pass, &mut job.station, limits);
    job.station.close(why_closed(end.halt));
    job.end = Some(end);
}

// Each job in a thread of its own.
fn do_jobs<
    R: Threads + Wait + Sync,
    D: Disk + Drop + Send,
    C: Clock + Drop + Send,
    S: Station + Drop + Send,
>(rt: &R, alloc: Global, shared: &Shared<Spool<D, C>>, jobs: &mut [Job<S>], limits: &Limits)
where
    S::Link: Send,
    requires { All (IsDealtOne (lock_of shared.now)) jobs.old }
    ensures { (i : ℕ) (d : _) → i < length jobs.old →
        JobDone D.model C.model S.Link.model S.model limits.now (lock_of shared.now)
        (slice_index_or jobs.old i d) (slice_index_or jobs.new i d) }
{
    thread::for_each_mut(
        rt,
        jobs,
        WORKERS,
        &|_, job: &mut Job<S>|
            requires { IsDealtOne (lock_of shared.now) job.old }
            ensures { JobDone D.model C.model S.Link.model S.model limits.entry.now (lock_of shared.entry.now)
                job.old job.new }
        {
            do_job(rt, alloc, shared, job, limits);
        },
    );
}

/// Has each station served by a worker in a thread of its own, 16 at a time, over one spool under one lock.
///
/// There is one history. Each step that is added to it is the own entry of exactly one worker, and each worker's own
/// entries are the steps that it made, in their order.
pub fn work_side_by_side<
    R: Threads + Wait + Sync,
    D: Disk + Drop + Send,
    C: Clock + Drop + Send,
    S: Station + Drop + Send,
>(
    rt: &R,
    alloc: Global,
    spool: Spool<D, C>,
    mut stations: Vec<S>,
    limits: &Limits,
) -> Worked<D, C, S>
where
    S::Link: Send,
    requires few { vec_len stations < 2 ^ 32 }
    requires keeps { Keeps D.model C.model spool (base_of D.model C.model spool) }
    ensures keeps { Keeps D.model C.model result.spool (base_of D.model C.model spool) }
    ensures grows { IsPrefix spool.entries result.spool.entries }
    ensures refused { IsTrue result.refused → (result.spool ≡ spool) × (result.stations.items ≡ stations.items) }
    ensures workers { result.refused ≡ false → AreWorkers D.model C.model S.Link.model S.model limits.now
        stations.items result.stations.items result.ends.items spool.entries (base_of D.model C.model spool)
        result.spool.entries }
{
    let Ok(mut jobs) = Vec::with_capacity(alloc, stations.len()) else {
        return Worked {
            spool,
            stations,
            ends: Vec::new(alloc),
            refused: true,
        };
    };
    let Ok(mut ends) = Vec::with_capacity(alloc, stations.len()) else {
        jobs.destroy_empty();
        return Worked {
            spool,
            stations,
            ends: Vec::new(alloc),
            refused: true,
        };
    };
    match Shared::open(alloc, spool) {
        Ok((shared, mut main)) => {
            deal(&shared, &mut main, &mut stations, &mut jobs);
            do_jobs(rt, alloc, &shared, jobs.as_mut_slice(), limits);
            gather(&shared, &mut main, jobs, &mut stations, &mut ends);
            Worked {
                spool: shared.close(main),
                stations,
                ends,
                refused: false,
            }
        }
        Err(spool) => {
            jobs.destroy_empty();
            Worked {
                spool,
                stations,
                ends,
                refused: true,
            }
        }
    }
}

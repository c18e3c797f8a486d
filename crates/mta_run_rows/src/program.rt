//! The program's run.

use mta_edge::{Disk, MemClock, MemSink, Source};
use mta_links::Station;
use mta_run::{Finished, run};
use std::alloc::Global;
use std::sync::Wait;
use std::thread::Threads;

/// The run alone, since nothing behind it asks for its clauses.
pub fn called<
    R: Threads + Wait + Sync,
    D: Disk + Drop + Send,
    S: Station + Drop + Send,
    I: Source + Drop,
>(
    rt: &R,
    alloc: Global,
    words: &[String],
    mut conf: I,
    mut input: I,
    out: &mut MemSink,
    disk: D,
    stations: Vec<S>,
    clock: MemClock,
) -> Finished<D, S>
where
    S::Link: Send,
{
    run(
        rt, alloc, words, &mut conf, &mut input, out, disk, stations, clock,
    )
}

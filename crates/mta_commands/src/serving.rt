//! What `serve` does of its own over an open spool: `begin` before its workers, and `finish` behind them.
//!
//! `begin` makes the tables' step where their text changed, and then what is due. `finish` does what has come due while
//! the workers worked, where the disk has not failed, and prints a line a station. A step that is refused is a fault of
//! `begin`, and with `finish` the stop for it; else the end of a worker decides.
//!
//! Each step is durable before its call answers, so a crash at any moment leaves the history with a beginning of them.

ghost use Rattle.std.specs.Prelude.{◌≡◌, ◌≤◌, List, false};
ghost use Rattle.mta_records.specs.declared.step.Step.{Step};
ghost use Rattle.mta_spool.specs.Bases.{KeepsOn};
ghost use Rattle.mta_spool.specs.Stands.{fault_of, IsOfNoLane, Stands, TellsFewer};
ghost use Rattle.mta_output.specs.Output.{output};
ghost use Rattle.mta_commands.specs.Serving.{HasBegun, HasFinished, HasToldStations, IsOutcome, SettlesBehind};

use crate::print::print;
use crate::stop::{Stop, stop_of_halt, stop_of_step};
use crate::submit::settle;
use mta_edge::{Clock, Disk, Sink};
use mta_spool::{Spool, StepFault, Tables};
use mta_stations::{WorkerEnd, deciding, station_lines};
use std::alloc::Global;

/// Records the tables, where they changed, and does what is due.
pub fn begin<D: Disk + Drop, C: Clock + Drop>(
    spool: &mut Spool<D, C>,
    tables: &Tables,
) -> Result<(), StepFault>
    requires going { spool.old.journal.ended ≡ false }
    requires stands { (steps : List Step) × Stands D.model spool.old steps }
    ensures begun { HasBegun D.model (C.model.tells spool.old.clock) tables.now.text spool.old spool.new result }
    ensures clock { TellsFewer C.model spool.old.clock spool.new.clock }
    ensures opened { spool.new.opened ≡ spool.old.opened }
    ensures keeps { KeepsOn D.model C.model spool.old spool.new }
{
    match spool.set_tables(tables) {
        Ok(()) => settle(spool),
        Err(fault) => Err(fault),
    }
}

// Does what has come due behind the workers, where the disk has not failed.
fn settle_behind<D: Disk + Drop, C: Clock + Drop>(spool: &mut Spool<D, C>) -> Result<(), StepFault>
    requires stands { spool.old.journal.ended ≡ false → (steps : List Step) × Stands D.model spool.old steps }
    ensures settled { SettlesBehind D.model (C.model.tells spool.old.clock) spool.old spool.new result }
    ensures keeps { KeepsOn D.model C.model spool.old spool.new }
{
    if spool.is_ended() {
        return Err(StepFault::Ended);
    }
    settle(spool)
}

// Prints a line a station.
fn tell_stations<O: Sink>(alloc: Global, out: &mut O, ends: &[WorkerEnd]) -> Result<(), Stop>
    ensures told { HasToldStations ends.now (output O.model out.old out.new) result }
    ensures later { O.model.faults out.old ≤ O.model.faults out.new }
{
    let text = match station_lines(alloc, ends) {
        Ok(text) => Ok(text),
        Err(_) => Err(Stop::Memory),
    };
    print(out, text)
}

// Why a run ends whose last turns came to this, and whose workers came to these ends.
fn outcome_of(settled: Result<(), StepFault>, ends: &[WorkerEnd]) -> Result<(), Stop>
    requires no_lane { IsOfNoLane (fault_of settled) }
    ensures { IsOutcome settled ends.now result }
{
    match settled {
        Err(fault) => Err(stop_of_step(fault)),
        Ok(()) => match deciding(ends) {
            Some(halt) => Err(stop_of_halt(halt)),
            None => Ok(()),
        },
    }
}

/// What comes behind the workers: what is due, the lines, and why the run ends.
pub fn finish<D: Disk + Drop, C: Clock + Drop, O: Sink>(
    alloc: Global,
    spool: &mut Spool<D, C>,
    out: &mut O,
    ends: &[WorkerEnd],
) -> Result<(), Stop>
    requires stands { spool.old.journal.ended ≡ false → (steps : List Step) × Stands D.model spool.old steps }
    ensures finished { HasFinished D.model (C.model.tells spool.old.clock) ends.now (output O.model out.old out.new)
        spool.old spool.new result }
    ensures keeps { KeepsOn D.model C.model spool.old spool.new }
    ensures later { O.model.faults out.old ≤ O.model.faults out.new }
{
    let settled = settle_behind(spool);
    match tell_stations(alloc, out, ends) {
        Ok(()) => outcome_of(settled, ends),
        Err(stop) => Err(stop),
    }
}

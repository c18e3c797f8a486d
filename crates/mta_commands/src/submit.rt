//! `submit`: record the tables, accept the APDU, print its number, do what is due.
//!
//! The inputs are read first (`inputs.rt`), and then the spool is opened. `store` makes the tables'
//! step where their text changed, and the Accept; each is durable before its call answers.
//! `acknowledge` prints `accepted N`, so from there on the item is kept whatever happens. `settle`
//! calls `turn` until nothing is due.
//!
//! A spool that cannot be opened and a step that is refused are stops, with the steps before them made.
//! A crash at any moment leaves the history with a beginning of these steps; a recipient for whom no
//! step was made yet is pending, and the next `submit` makes what is due then.

ghost use Rattle.std.specs.Prelude.{◌≡◌, ◌≤◌, List, Some, false};
ghost use Rattle.mta_machine.specs.Apdu.{IsApdu};
ghost use Rattle.mta_records.specs.declared.step.Step.{Step};
ghost use Rattle.mta_spool.specs.Bases.{KeepsOn};
ghost use Rattle.mta_spool.specs.Stands.{Stands, TellsFewer};
ghost use Rattle.mta_words.specs.declared.words.Words.TheVariants as Say;
ghost use Rattle.mta_commands.specs.Command.{HasEnded, NoneWorked};
ghost use Rattle.mta_commands.specs.Handed.{handed};
ghost use Rattle.mta_output.specs.Output.{output};
ghost use Rattle.mta_commands.specs.Submit.{HasAcknowledged, HasSettled, HasStored, HasWorked};

use crate::ended::{Ended, refused};
use crate::inputs::{Inputs, inputs_of};
use crate::lines::accepted_line;
use crate::stop::{Stop, stop_of_step};
use mta_ber::Octets;
use mta_edge::{Clock, Disk, Sink, Source, put_all};
use mta_spool::{Spool, StepFault, Tables, Turned};
use std::alloc::Global;

// Records the tables, where they changed, and takes the APDU; its number.
fn store<D: Disk + Drop, C: Clock + Drop>(
    spool: &mut Spool<D, C>,
    tables: &Tables,
    apdu: &Octets,
) -> Result<u32, StepFault>
    requires going { spool.old.journal.ended ≡ false }
    requires apdu { IsApdu apdu.now }
    requires stands { (steps : List Step) × Stands D.model spool.old steps }
    ensures stored { HasStored D.model (C.model.tells spool.old.clock) tables.now.text apdu.now spool.old spool.new
        result }
    ensures clock { TellsFewer C.model spool.old.clock spool.new.clock }
{
    match spool.set_tables(tables) {
        Ok(()) => spool.accept(apdu.as_slice()),
        Err(fault) => Err(fault),
    }
}

/// Does what is due until nothing is.
pub fn settle<D: Disk + Drop, C: Clock + Drop>(spool: &mut Spool<D, C>) -> Result<(), StepFault>
    requires going { spool.old.journal.ended ≡ false }
    requires stands { (steps : List Step) × Stands D.model spool.old steps }
    ensures settled { HasSettled D.model (C.model.tells spool.old.clock) spool.old spool.new result }
    ensures clock { TellsFewer C.model spool.old.clock spool.new.clock }
    ensures opened { spool.new.opened ≡ spool.old.opened }
    ensures keeps { KeepsOn D.model C.model spool.old spool.new }
{
    loop {
        match spool.turn() {
            Ok(Turned::Did(step)) => drop(step),
            Ok(Turned::Quiet { .. }) => return Ok(()),
            Err(fault) => return Err(fault),
        }
    }
}

// Prints the number of an item.
fn acknowledge<O: Sink>(alloc: Global, out: &mut O, number: u32) -> Result<(), Stop>
    ensures said { HasAcknowledged (output O.model out.old out.new) number result }
    ensures later { O.model.faults out.old ≤ O.model.faults out.new }
{
    let Ok(line) = accepted_line(alloc, number) else {
        return Err(Stop::Memory);
    };
    match put_all(out, line.as_slice()) {
        Ok(()) => Ok(()),
        Err(_) => Err(Stop::Sink),
    }
}

// Records the tables, takes the APDU, prints its number, and does what is due until nothing is.
fn work<D: Disk + Drop, C: Clock + Drop, O: Sink>(
    alloc: Global,
    spool: &mut Spool<D, C>,
    inputs: Inputs,
    out: &mut O,
) -> Result<(), Stop>
    requires going { spool.old.journal.ended ≡ false }
    requires apdu { IsApdu inputs.apdu }
    requires stands { (steps : List Step) × Stands D.model spool.old steps }
    ensures worked { HasWorked D.model (C.model.tells spool.old.clock) inputs.tables.text inputs.apdu
        (output O.model out.old out.new) spool.old spool.new result }
    ensures later { O.model.faults out.old ≤ O.model.faults out.new }
{
    let Inputs { tables, apdu } = inputs;
    let number = match store(spool, &tables, &apdu) {
        Ok(number) => number,
        Err(fault) => return Err(stop_of_step(fault)),
    };
    match acknowledge(alloc, out, number) {
        Ok(()) => {}
        Err(stop) => return Err(stop),
    }
    match settle(spool) {
        Ok(()) => Ok(()),
        Err(fault) => Err(stop_of_step(fault)),
    }
}

/// Reads the tables and the input, records them in the spool, prints the item's number, and does what is due.
pub fn submit<D: Disk + Drop, C: Clock + Drop, I: Source, O: Sink>(
    alloc: Global,
    conf: &mut I,
    input: &mut I,
    out: &mut O,
    disk: D,
    clock: C,
) -> Ended<D>
    ensures ended { HasEnded (handed D.model C.model I.model (Some Say.Submit) conf.old conf.new input.old input.new
        disk result.disk clock) NoneWorked (output O.model out.old out.new) result.outcome }
    ensures later { O.model.faults out.old ≤ O.model.faults out.new }
{
    let inputs = match inputs_of(alloc, conf, input) {
        Ok(inputs) => inputs,
        Err(stop) => {
            return Ended {
                disk,
                outcome: Err(stop),
            };
        }
    };
    match Spool::open(alloc, disk, clock) {
        Err(why) => refused(why),
        Ok(mut spool) => {
            let outcome = work(alloc, &mut spool, inputs, out);
            Ended {
                disk: spool.end(),
                outcome,
            }
        }
    }
}

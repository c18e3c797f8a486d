//! The word `spool`: the queue and the lanes that are open, printed.
//!
//! The disk is opened as a spool and handed back; the text is that of `mta_show`. No step is added. It
//! stops where opening refuses the disk, the sink fails, or memory is refused; what a crash leaves is
//! what opening leaves.

ghost use Rattle.std.specs.Prelude.{◌≡◌, ◌≤◌};
ghost use Rattle.mta_words.specs.declared.words.Words.TheVariants as Say;
ghost use Rattle.mta_commands.specs.Causes.{queue_of};
ghost use Rattle.mta_output.specs.Output.{output};
ghost use Rattle.mta_commands.specs.Shows.{IsShown, HasShownSpool};

use crate::ended::{Ended, refused};
use crate::print::print;
use crate::stop::Stop;
use mta_ber::Octets;
use mta_edge::{Clock, Disk, Sink};
use mta_show::show_queue;
use mta_spool::Spool;
use std::alloc::Global;

fn queue_of<D: Disk + Drop, C: Clock + Drop>(
    alloc: Global,
    spool: &Spool<D, C>,
) -> Result<Octets, Stop>
    ensures { IsShown (queue_of spool.now.current) result }
{
    match show_queue(alloc, spool.items(), spool.lanes()) {
        Ok(text) => Ok(text),
        Err(_) => Err(Stop::Memory),
    }
}

/// Prints the queue and the lanes that are open.
pub fn queue<D: Disk + Drop, C: Clock + Drop, O: Sink>(
    alloc: Global,
    out: &mut O,
    disk: D,
    clock: C,
) -> Ended<D>
    ensures done { HasShownSpool D.model Say.Queue (output O.model out.old out.new) disk result.disk result.outcome }
    ensures later { O.model.faults out.old ≤ O.model.faults out.new }
{
    match Spool::open(alloc, disk, clock) {
        Err(why) => refused(why),
        Ok(spool) => {
            let text = queue_of(alloc, &spool);
            Ended {
                outcome: print(out, text),
                disk: spool.end(),
            }
        }
    }
}

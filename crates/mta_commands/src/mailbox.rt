//! The word `read`: what a mailbox got, printed.
//!
//! The disk is opened as a spool and handed back; the mailbox is looked up in the tables recorded last,
//! and the text is that of `mta_show`. No step is added. It stops where opening refuses the disk, no
//! such mailbox is named, the sink fails, or memory is refused; what a crash leaves is what opening
//! leaves.

ghost use Rattle.std.specs.Prelude.{◌≡◌, ◌≤◌, is_some};
ghost use Rattle.mta_words.specs.declared.words.Words.TheVariants as Say;
ghost use Rattle.mta_commands.specs.Causes.{mailbox_in, mailbox_named};
ghost use Rattle.mta_output.specs.Output.{output};
ghost use Rattle.mta_commands.specs.Shows.{IsMailboxShown, HasShownSpool};

use crate::ended::{Ended, refused};
use crate::print::print;
use crate::stop::Stop;
use mta_ber::{Octets, Word};
use mta_edge::{Clock, Disk, Sink};
use mta_show::show_mailbox;
use mta_spool::Spool;
use mta_tables::Tables;
use std::alloc::Global;

// Whether the tables have a mailbox of this word.
#[tactic(auto, unfolding(mta_machine::specs::Rules::tables_value))]
fn has_mailbox(tables: &Tables, name: &[u8]) -> bool
    ensures { result ≡ is_some (mailbox_in name.now tables.now.text) }
{
    let _text = tables.text();
    tables.mailbox(name).is_some()
}

/// Whether the tables recorded last have a mailbox of this word.
#[tactic(auto, using(crate::proofs::Named::named_under, crate::proofs::Named::none_named))]
pub fn is_named<D: Disk + Drop, C: Clock + Drop>(spool: &Spool<D, C>, name: &[u8]) -> bool
    ensures { result ≡ is_some (mailbox_named spool.now.current name.now) }
{
    match spool.tables() {
        Some(tables) => has_mailbox(tables, name),
        None => false,
    }
}

fn mailbox_of<D: Disk + Drop, C: Clock + Drop>(
    alloc: Global,
    spool: &Spool<D, C>,
    name: Word,
) -> Result<Octets, Stop>
    ensures { IsMailboxShown spool.now.current name result }
{
    if !is_named(spool, name.as_slice()) {
        return Err(Stop::NoMailbox(name));
    }
    match show_mailbox(alloc, name.as_slice(), spool.items(), spool.mailboxes()) {
        Ok(text) => Ok(text),
        Err(_) => Err(Stop::Memory),
    }
}

/// Prints what a mailbox got.
pub fn mailbox<D: Disk + Drop, C: Clock + Drop, O: Sink>(
    alloc: Global,
    name: Word,
    out: &mut O,
    disk: D,
    clock: C,
) -> Ended<D>
    ensures done { HasShownSpool D.model (Say.Mailbox name) (output O.model out.old out.new) disk
        result.disk result.outcome }
    ensures later { O.model.faults out.old ≤ O.model.faults out.new }
{
    match Spool::open(alloc, disk, clock) {
        Err(why) => refused(why),
        Ok(spool) => {
            let text = mailbox_of(alloc, &spool, name);
            Ended {
                outcome: print(out, text),
                disk: spool.end(),
            }
        }
    }
}

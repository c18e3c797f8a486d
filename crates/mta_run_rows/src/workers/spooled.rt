//! What is asked of a spool before and behind a worker.

use crate::case::Case;
use crate::spools::{Memories, spool_of};
use anyhow::{Result, anyhow, bail};
use mta_apdu::Apdu;
use mta_edge::{Memory, Octets, SafeDisk};
use mta_rows::shown;
use mta_show::{show_mailbox, show_queue};
use mta_spool::{Tables, Turned};
use std::alloc::Global;

// More steps than are due in a row.
const MOST_STEPS: u32 = 1000;

fn queue_in(alloc: Global, spool: Memories) -> std::result::Result<Octets, Memory> {
    let text = show_queue(alloc, spool.items(), spool.lanes());
    spool.end();
    text
}

fn mailbox_in(alloc: Global, spool: Memories, word: &str) -> std::result::Result<Octets, Memory> {
    let text = show_mailbox(alloc, word.as_bytes(), spool.items(), spool.mailboxes());
    spool.end();
    text
}

fn text_of(alloc: Global, text: std::result::Result<Octets, Memory>) -> Result<String> {
    match text {
        Ok(text) => Ok(shown(alloc, text.as_slice())?),
        Err(_) => Err(anyhow!("no memory")),
    }
}

/// The queue of the spool that these octets are.
pub fn queue(alloc: Global, case: &Case, octets: &[u8]) -> Result<String> {
    let spool = spool_of(alloc, case, octets)?;
    text_of(alloc, queue_in(alloc, spool))
}

/// The queue of the spool that the disk holds.
pub fn queue_now(alloc: Global, case: &Case) -> Result<String> {
    queue(alloc, case, case.disk.as_slice())
}

/// What the mailbox of this word got.
pub fn mailbox(alloc: Global, case: &Case, word: &str) -> Result<String> {
    let spool = spool_of(alloc, case, case.disk.as_slice())?;
    text_of(alloc, mailbox_in(alloc, spool, word))
}

// Takes octets as the next item, under these tables; its number.
fn accept(alloc: Global, spool: &mut Memories, tables: &Tables, octets: &[u8]) -> Result<u32> {
    let Ok(apdu) = Apdu::read(alloc, octets) else {
        bail!("no APDU");
    };
    apdu.discard();
    match spool.set_tables(tables) {
        Ok(()) => match spool.accept(octets) {
            Ok(number) => Ok(number),
            Err(_) => Err(anyhow!("not accepted")),
        },
        Err(_) => Err(anyhow!("not recorded")),
    }
}

// Makes the steps that are due.
fn settle(spool: &mut Memories) -> Result<()> {
    for _ in 0..MOST_STEPS {
        match spool.turn() {
            Ok(Turned::Did(_)) => {}
            Ok(Turned::Quiet { .. }) => return Ok(()),
            Err(_) => bail!("refused"),
        }
    }
    bail!("too many steps")
}

// Takes octets as the next item, under the tables of a text; its number.
fn accept_under(alloc: Global, spool: &mut Memories, text: &[u8], octets: &[u8]) -> Result<u32> {
    match Tables::read(alloc, text) {
        Ok(tables) => accept(alloc, spool, &tables, octets),
        Err(_) => Err(anyhow!("no tables")),
    }
}

// The same, and makes the steps that are due then.
fn take_up(alloc: Global, spool: &mut Memories, text: &[u8], octets: &[u8]) -> Result<u32> {
    let number = accept_under(alloc, spool, text, octets)?;
    settle(spool)?;
    Ok(number)
}

// The same, and the disk then.
fn take_into(
    alloc: Global,
    mut spool: Memories,
    text: &[u8],
    octets: &[u8],
) -> (SafeDisk, Result<u32>) {
    let taken = take_up(alloc, &mut spool, text, octets);
    (spool.end(), taken)
}

/// Takes octets as the next item of the spool that the disk holds, does what is due, and keeps what it holds then.
pub fn submit(alloc: Global, case: &mut Case, text: &str) -> Result<String> {
    let octets = case.octets(alloc, text)?;
    let spool = spool_of(alloc, case, case.disk.as_slice())?;
    let (disk, taken) = take_into(alloc, spool, case.tables.as_slice(), octets.as_slice());
    let number = taken?;
    case.disk = disk.octets().to_vec(alloc)?;
    Ok(format!(in alloc; "accepted {number}")?)
}

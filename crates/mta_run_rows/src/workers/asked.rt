//! What is asked of the spool for a peer, and an activity that is started by hand.

use crate::case::Case;
use crate::given::word_of;
use crate::spools::{Memories, spool_of};
use anyhow::{Result, anyhow, bail};
use mta_ber::Word;
use mta_edge::{Memory, SafeDisk};
use mta_records::{Batch, Outgoing, Recipients, StepFault};
use mta_rows::Fields;
use std::alloc::{AllocError, Global};

// Numbers, one space between two.
fn numbers(alloc: Global, numbers: &[u32]) -> Result<String, AllocError> {
    let mut text = String::new(alloc);
    for number in numbers {
        if !text.is_empty() {
            text.push(' ')?;
        }
        text.push_str(format!(in alloc; "{number}")?.as_str())?;
    }
    Ok(text)
}

fn batch_in(mut spool: Memories, peer: &Word) -> std::result::Result<Option<Batch>, Memory> {
    let batch = spool.batch_for(peer);
    spool.end();
    batch
}

fn said_of_batch(alloc: Global, batch: &Batch) -> Result<String, AllocError> {
    let item = batch.item;
    let recipients = numbers(alloc, batch.recipients.as_slice())?;
    let recipients = recipients.as_str();
    format!(in alloc; "item {item} recipients {recipients}")
}

/// The lowest item with recipients for a peer, and all these; none where there is none.
pub fn batch(alloc: Global, case: &Case, peer: &str) -> Result<String> {
    let peer = word_of(alloc, peer)?;
    let spool = spool_of(alloc, case, case.disk.as_slice())?;
    match batch_in(spool, &peer) {
        Ok(Some(batch)) => Ok(said_of_batch(alloc, &batch)?),
        Ok(None) => Ok(format!(in alloc; "none")?),
        Err(_) => Err(anyhow!("no memory")),
    }
}

fn said_of_waiting(alloc: Global, waiting: Option<&[u32]>) -> Result<String> {
    match waiting {
        Some(items) => Ok(numbers(alloc, items)?),
        None => Ok(format!(in alloc; "none")?),
    }
}

/// The items that wait for a peer; none where the tables do not name it.
pub fn waiting(alloc: Global, case: &Case, peer: &str) -> Result<String> {
    let peer = word_of(alloc, peer)?;
    let spool = spool_of(alloc, case, case.disk.as_slice())?;
    let said = said_of_waiting(alloc, spool.waiting(&peer));
    spool.end();
    said
}

fn number(text: &str) -> Result<u32> {
    match text.parse::<u32>() {
        Ok(number) => Ok(number),
        Err(_) => bail!("no number"),
    }
}

// Puts the numbers of a word: one, or all from the first to the last where two stand with `-` between.
fn put_numbers(numbers: &mut Vec<u32>, word: &str) -> Result<()> {
    let (first, last) = match word.split_once('-') {
        None => (word, word),
        Some(parts) => parts,
    };
    for number in number(first)?..=number(last)? {
        numbers.push(number)?;
    }
    Ok(())
}

fn recipients_of(alloc: Global, text: &str) -> Result<Recipients> {
    let mut numbers = Vec::new(alloc);
    for word in text.split(' ') {
        put_numbers(&mut numbers, word)?;
    }
    Ok(Recipients::from_vec(numbers))
}

// Starts the next activity of a lane of generation 1, and the disk then.
fn start_in(
    mut spool: Memories,
    lane: u32,
    batch: &Batch,
) -> (SafeDisk, std::result::Result<Outgoing, StepFault>) {
    let started = spool.start(lane, 1, batch);
    (spool.end(), started)
}

fn said_of_start(
    alloc: Global,
    started: &std::result::Result<Outgoing, StepFault>,
) -> Result<String, AllocError> {
    match started {
        Ok(outgoing) => {
            let (activity, total) = (outgoing.activity, outgoing.total());
            format!(in alloc; "activity {activity} of {total} octets")
        }
        Err(fault) => format!(in alloc; "{fault:?}"),
    }
}

/// Starts the next activity of a lane of generation 1 for recipients of an item, and keeps what the disk holds then.
pub fn start(alloc: Global, case: &mut Case, mut fields: Fields<'_>) -> Result<String> {
    let recipients = recipients_of(alloc, fields.take())?;
    let item = number(fields.take())?;
    let lane = number(fields.take())?;
    let batch = Batch { item, recipients };
    let spool = spool_of(alloc, case, case.disk.as_slice())?;
    let (disk, started) = start_in(spool, lane, &batch);
    case.disk = disk.octets().to_vec(alloc)?;
    Ok(said_of_start(alloc, &started)?)
}

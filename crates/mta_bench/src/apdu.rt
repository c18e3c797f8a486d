//! Reads messages of 1, 40 and 1,000 recipients again and again, or writes them, and prints how often and how many
//! octets. The word is `read` or `write`; both where there is none. A script times it (checks/speed.sh apdu); what is
//! printed never varies.

use crate::message::message;
use anyhow::{Result, anyhow};
use mta_apdu::Apdu;
use std::alloc::Global;
use std::env::Args;

/// How many recipients are read or written for each count of recipients.
const WORK: u32 = 40_000;

/// How many of so many readings were well.
fn read(alloc: Global, octets: &[u8], times: u32) -> u64 {
    let mut well: u64 = 0;
    for _ in 0..times {
        if let Ok(apdu) = Apdu::read(alloc, octets) {
            apdu.discard();
            well = well.saturating_add(1);
        }
    }
    well
}

/// How many octets were written in so many writings.
fn write_again_and_again(alloc: Global, apdu: &Apdu<'_>, times: u32) -> u64 {
    let mut written: u64 = 0;
    for _ in 0..times {
        if let Ok(octets) = apdu.write(alloc) {
            written = written.saturating_add(octets.len() as u64);
        }
    }
    written
}

fn write(alloc: Global, octets: &[u8], times: u32) -> u64 {
    match Apdu::read(alloc, octets) {
        Ok(apdu) => {
            let written = write_again_and_again(alloc, &apdu, times);
            apdu.discard();
            written
        }
        Err(_) => 0,
    }
}

fn report(rt: &(impl Print + AllocGlobal), word: &str, count: u32) -> Result<()> {
    let octets = message(rt.alloc(), count, b"Hi").map_err(|_| anyhow!("no memory"))?;
    let times = WORK / count.max(1);
    let size = octets.len();
    if word != "write" {
        let well = read(rt.alloc(), octets.as_slice(), times);
        rt.println(format_args!("{count} recipients, {size} octets: read {well} times"))?;
    }
    if word != "read" {
        let written = write(rt.alloc(), octets.as_slice(), times);
        rt.println(format_args!("{count} recipients, {size} octets: written {written} octets"))?;
    }
    Ok(())
}

pub fn timed(rt: &(impl Print + AllocGlobal), mut words: Args<Global>) -> Result<()> {
    let only = words.next();
    let word = match &only {
        Some(word) => word.as_str(),
        None => "",
    };
    for count in [1, 40, 1000] {
        report(rt, word, count)?;
    }
    Ok(())
}

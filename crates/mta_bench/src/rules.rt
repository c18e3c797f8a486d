//! Decides again and again what is done with the first or the last of 1,000 recipients, each of whom leads to a
//! mailbox or each to a peer, and makes copies of a message of the longest content, their heads, copies of its octets
//! alone, or reads it and makes none. The word is `first-to-mailbox`, `last-to-mailbox`, `first-to-peer`,
//! `last-to-peer`, `head`, `copy`, `octets` or `none`; all where there is no word. A script times it
//! (checks/speed.sh rules); what is printed never varies.

use crate::message::message;
use anyhow::{Result, anyhow};
use mta_apdu::Apdu;
use mta_ber::{Memory, Octets, ReadFault};
use mta_copies::{outgoing_head, outgoing_message};
use mta_envelope::Message;
use mta_rules::{Verdict, verdict_message};
use mta_tables::Tables;
use std::alloc::Global;
use std::env::Args;

/// Every recipient leads to a peer.
const TO_A_PEER: &str = "domain C=GB;A=GOLD\n\
name GOLD-1\n\
peer X a b monologue 4 3\n\
route C=GB peer X\n";

/// Every recipient leads to a mailbox.
const TO_A_MAILBOX: &str = "domain C=GB;A=GOLD\n\
name GOLD-1\n\
mailbox watt C=GB;A=GOLD;S=WATT\n";

/// Verdicts that are asked for again and again.
struct Work {
    word: &'static str,
    tables: &'static str,
    position: u32,
    times: u32,
}

const VERDICTS: [Work; 4] = [
    Work {
        word: "first-to-mailbox",
        tables: TO_A_MAILBOX,
        position: 1,
        times: 2_000_000,
    },
    Work {
        word: "last-to-mailbox",
        tables: TO_A_MAILBOX,
        position: 1_000,
        times: 2_000_000,
    },
    Work {
        word: "first-to-peer",
        tables: TO_A_PEER,
        position: 1,
        times: 10_000,
    },
    Work {
        word: "last-to-peer",
        tables: TO_A_PEER,
        position: 1_000,
        times: 10_000,
    },
];

/// How many copies are made.
const COPIES: u32 = 2_000;

/// How many octets the content has of which copies are made: the longest whose copy for one recipient can be sent.
const CONTENT_LENGTH: usize = 2_097_008;

/// How often the recipient at a position, from 1, is not reported, of so many times.
fn passed_on(tables: &Tables, message: &Message<'_>, position: u32, times: u32) -> u64 {
    let mut count: u64 = 0;
    if position < 1 || position as usize > message.envelope.fields().recipients.len() {
        return count;
    }
    for _ in 0..times {
        match verdict_message(1, tables, 0, message, position, 0, 0) {
            Verdict::Relay(_) | Verdict::Deliver(_) => count = count.saturating_add(1),
            _ => {}
        }
    }
    count
}

/// How many octets the heads of copies have.
fn heads(alloc: Global, tables: &Tables, message: &Message<'_>) -> u64 {
    let mut made: u64 = 0;
    if message.envelope.fields().trace.len() > 0 {
        return made;
    }
    for _ in 0..COPIES {
        if let Ok(octets) = outgoing_head(alloc, tables, 0, message, &[1], 0) {
            made = made.saturating_add(octets.len() as u64);
        }
    }
    made
}

/// How many octets copies have.
fn copies(alloc: Global, tables: &Tables, message: &Message<'_>) -> u64 {
    let mut made: u64 = 0;
    if message.envelope.fields().trace.len() > 0 {
        return made;
    }
    for _ in 0..COPIES {
        if let Ok(octets) = outgoing_message(alloc, tables, 0, message, &[1], 0) {
            made = made.saturating_add(octets.len() as u64);
        }
    }
    made
}

/// How many octets are copied alone.
fn octets_again(alloc: Global, octets: &[u8]) -> u64 {
    let mut made: u64 = 0;
    for _ in 0..COPIES {
        if let Ok(copy) = Octets::from_slice(alloc, octets) {
            made = made.saturating_add(copy.len() as u64);
        }
    }
    made
}

/// How many verdicts are so of the message that octets spell.
fn verdicts_of(
    alloc: Global,
    tables: &Tables,
    octets: &[u8],
    work: &Work,
) -> Result<u64, ReadFault> {
    let apdu = Apdu::read(alloc, octets)?;
    let count = match &apdu {
        Apdu::Message(message) => passed_on(tables, message, work.position, work.times),
        Apdu::Probe(_) | Apdu::Report(_) => 0,
    };
    apdu.discard();
    Ok(count)
}

fn verdicts(alloc: Global, work: &Work) -> Result<u64> {
    let octets = message(alloc, 1_000, b"Hi")?;
    let tables = Tables::read(alloc, work.tables.as_bytes())?;
    match verdicts_of(alloc, &tables, octets.as_slice(), work) {
        Ok(count) => Ok(count),
        Err(_) => Err(anyhow!("no message")),
    }
}

/// How many octets are made of a message, which these octets spell.
fn made_of(
    alloc: Global,
    tables: &Tables,
    message: &Message<'_>,
    octets: &[u8],
    word: &str,
) -> u64 {
    match word {
        "head" => heads(alloc, tables, message),
        "copy" => copies(alloc, tables, message),
        "octets" => octets_again(alloc, octets),
        _ => 0,
    }
}

/// How many octets are made of the message that octets spell.
fn made_of_octets(
    alloc: Global,
    tables: &Tables,
    octets: &[u8],
    word: &str,
) -> Result<u64, ReadFault> {
    let apdu = Apdu::read(alloc, octets)?;
    let made = match &apdu {
        Apdu::Message(message) => made_of(alloc, tables, message, octets, word),
        Apdu::Probe(_) | Apdu::Report(_) => 0,
    };
    apdu.discard();
    Ok(made)
}

/// The message with the longest content.
fn long_message(alloc: Global) -> Result<Octets, Memory> {
    let mut content: Vec<u8> = Vec::new(alloc);
    content.resize(CONTENT_LENGTH, 7)?;
    message(alloc, 1, content.as_slice())
}

fn made(alloc: Global, word: &str) -> Result<u64> {
    let octets = long_message(alloc)?;
    let tables = Tables::read(alloc, TO_A_PEER.as_bytes())?;
    match made_of_octets(alloc, &tables, octets.as_slice(), word) {
        Ok(made) => Ok(made),
        Err(_) => Err(anyhow!("no message")),
    }
}

fn is_asked(asked: &Option<String>, word: &str) -> bool {
    match asked {
        None => true,
        Some(asked) => asked.as_str() == word,
    }
}

pub fn timed(rt: &(impl Print + AllocGlobal), mut words: Args<Global>) -> Result<()> {
    let asked = words.next();
    for work in &VERDICTS {
        if is_asked(&asked, work.word) {
            let count = verdicts(rt.alloc(), work)?;
            println!(rt; "{}: passed on {count} times", work.word)?;
        }
    }
    for word in ["head", "copy", "octets", "none"] {
        if is_asked(&asked, word) {
            let made = made(rt.alloc(), word)?;
            println!(rt; "{word}: {made} octets")?;
        }
    }
    Ok(())
}

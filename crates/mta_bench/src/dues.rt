//! Opens a spool in memory in which many items wait for one peer and a few for another, and then asks it again and
//! again: what is due, what goes to the other peer next, or what waits for that one; or, once all items have expired,
//! what goes to the first peer next, before any turn or behind one. The words are `due`, `batch`, `waiting`, `expired`
//! or `reported`, how many items there are, and how often it is asked. A script times it (checks/speed.sh dues).

use anyhow::{Result, anyhow};
use mta_ber::{Octets, Word};
use mta_edge::{MemClock, SafeDisk};
use mta_spool::Spool;
use std::alloc::Global;
use std::env::Args;

/// A message to one recipient.
const MESSAGE: [u8; 101] = [
    0xa0, 0x63, 0x31, 0x5d, 0x60, 0x18, 0x30, 0x16, 0x61, 0x04, 0x13, 0x02, 0x47, 0x42, 0x62, 0x06,
    0x13, 0x04, 0x47, 0x4f, 0x4c, 0x44, 0xa5, 0x06, 0x80, 0x04, 0x42, 0x45, 0x4c, 0x4c, 0x64, 0x17,
    0x63, 0x0e, 0x61, 0x04, 0x13, 0x02, 0x47, 0x42, 0x62, 0x06, 0x13, 0x04, 0x47, 0x4f, 0x4c, 0x44,
    0x16, 0x05, 0x4d, 0x30, 0x30, 0x30, 0x31, 0x46, 0x01, 0x16, 0x69, 0x00, 0xa2, 0x23, 0x31, 0x21,
    0x60, 0x18, 0x30, 0x16, 0x61, 0x04, 0x13, 0x02, 0x47, 0x42, 0x62, 0x06, 0x13, 0x04, 0x47, 0x4f,
    0x4c, 0x44, 0xa5, 0x06, 0x80, 0x04, 0x57, 0x41, 0x54, 0x54, 0x80, 0x01, 0x01, 0x81, 0x02, 0x00,
    0xa8, 0x04, 0x02, 0x48, 0x69,
];

/// Where the message names the domain of its recipient.
const DOMAIN: usize = 78;

/// How many items wait for the peer that is asked for.
const FEW: u32 = 10;

/// When the first item arrived, late in 2026.
const ARRIVED: u64 = 2_427_000_000;

/// How many items arrive in a second. So none of a million has waited for its hold time when the last one comes.
const IN_A_SECOND: u32 = 100;

/// How long behind the last arrival all items have expired, in seconds: some three years.
const PAST_ALL_HOLDS: u64 = 100_000_000;

const TABLES: &[u8] =
    b"domain C=GB;A=GOLD\nname GOLD-1\npeer HUB a b twa 4 3\npeer EAST a b twa 4 3\n\
    route C=GB;A=ACME peer HUB\nroute C=GB;A=EAST peer EAST\n";

/// What the words say.
#[derive(Drop)]
struct Words {
    kind: String,
    items: u32,
    rounds: u32,
}

fn asked(mut words: Args<Global>) -> Option<Words> {
    let kind = words.next()?;
    let items = words.next()?.parse::<u32>().ok()?;
    let rounds = words.next()?.parse::<u32>().ok()?;
    Some(Words {
        kind,
        items,
        rounds,
    })
}

/// The octets behind their number, in four octets.
pub fn put_counted(out: &mut Vec<u8>, octets: &[u8]) -> Result<()> {
    let Ok(count) = u32::try_from(octets.len()) else {
        return Err(anyhow!("too many octets"));
    };
    out.extend_from_slice(&count.to_be_bytes())?;
    out.extend_from_slice(octets)?;
    Ok(())
}

/// A record of the journal with this body.
pub fn put_record(journal: &mut Vec<u8>, body: &[u8]) -> Result<()> {
    journal.push(1)?;
    put_counted(journal, body)
}

/// The message to a recipient in this domain.
fn message_to(alloc: Global, domain: &[u8]) -> Result<Vec<u8>> {
    let mut message = Vec::from_slice(alloc, &MESSAGE[..DOMAIN])?;
    message.extend_from_slice(domain)?;
    message.extend_from_slice(&MESSAGE[DOMAIN + 4..])?;
    Ok(message)
}

/// When the item of a number arrived.
fn moment_of(number: u32) -> u64 {
    ARRIVED + u64::from(number / IN_A_SECOND)
}

fn put_item(alloc: Global, journal: &mut Vec<u8>, number: u32, message: &[u8]) -> Result<()> {
    let moment = moment_of(number);
    let mut body = Vec::from_slice(alloc, &[2])?;
    body.extend_from_slice(&moment.to_be_bytes())?;
    put_counted(&mut body, message)?;
    put_record(journal, body.as_slice())
}

/// A journal: the tables, and so many items, of which the last few wait for the second peer.
fn journal_of(alloc: Global, items: u32) -> Result<Octets> {
    let near = message_to(alloc, b"EAST")?;
    let far = message_to(alloc, b"ACME")?;
    let mut journal = Vec::from_slice(alloc, b"MTASPL01")?;
    let mut body = Vec::from_slice(alloc, &[1])?;
    put_counted(&mut body, TABLES)?;
    put_record(&mut journal, body.as_slice())?;
    for number in 0..items {
        let message = if items - number <= FEW { &near } else { &far };
        put_item(alloc, &mut journal, number, message.as_slice())?;
    }
    journal.push(0)?;
    Ok(Octets::from_vec(journal))
}

/// When it is asked.
fn asked_at(words: &Words) -> u64 {
    let last = moment_of(words.items);
    match words.kind.as_str() {
        "expired" | "reported" => last.saturating_add(PAST_ALL_HOLDS),
        _ => last,
    }
}

/// Whom it is asked for.
fn asked_for(words: &Words) -> &'static [u8] {
    match words.kind.as_str() {
        "expired" | "reported" => b"HUB",
        _ => b"EAST",
    }
}

fn open(alloc: Global, words: &Words) -> Result<Spool<SafeDisk, MemClock>> {
    let journal = journal_of(alloc, words.items)?;
    let disk = SafeDisk::new(alloc, journal);
    let clock = MemClock::new([asked_at(words)].to_vec(alloc)?);
    Spool::open(alloc, disk, clock).map_err(|_| anyhow!("no spool"))
}

fn look_again(spool: &mut Spool<SafeDisk, MemClock>, rounds: u32) -> Result<usize> {
    let mut quiet: usize = 0;
    for _ in 0..rounds {
        match spool.turn() {
            Ok(_) => quiet = quiet.saturating_add(1),
            Err(_) => return Err(anyhow!("no turn")),
        }
    }
    Ok(quiet)
}

fn take_again(spool: &mut Spool<SafeDisk, MemClock>, peer: &Word, rounds: u32) -> Result<usize> {
    let mut found: usize = 0;
    for _ in 0..rounds {
        if spool.batch_for(peer)?.is_some() {
            found = found.saturating_add(1);
        }
    }
    Ok(found)
}

fn list_again(spool: &Spool<SafeDisk, MemClock>, peer: &Word, rounds: u32) -> usize {
    let mut found: usize = 0;
    for _ in 0..rounds {
        if let Some(items) = spool.waiting(peer) {
            found = found.saturating_add(items.len());
        }
    }
    found
}

/// How often nothing was due at first, and how much was found then. Of what has expired it is asked before any turn.
fn found_in(
    spool: &mut Spool<SafeDisk, MemClock>,
    words: &Words,
    peer: &Word,
) -> Result<(usize, usize)> {
    if words.kind.as_str() == "expired" {
        return Ok((0, take_again(spool, peer, words.rounds)?));
    }
    let first = look_again(spool, 1)?;
    let found = match words.kind.as_str() {
        "due" => look_again(spool, words.rounds)?,
        "batch" | "reported" => take_again(spool, peer, words.rounds)?,
        _ => list_again(spool, peer, words.rounds),
    };
    Ok((first, found))
}

/// The same, and the spool is ended.
fn spent(
    mut spool: Spool<SafeDisk, MemClock>,
    words: &Words,
    peer: &Word,
) -> Result<(usize, usize)> {
    let found = found_in(&mut spool, words, peer);
    spool.end();
    found
}

fn answer_to(alloc: Global, words: &Words) -> Result<(usize, usize)> {
    let Some(peer) = Word::from_octets(alloc, Octets::from_slice(alloc, asked_for(words))?)? else {
        return Err(anyhow!("no word"));
    };
    let spool = open(alloc, words)?;
    spent(spool, words, &peer)
}

pub fn timed(rt: &(impl Print + AllocGlobal), words: Args<Global>) -> Result<()> {
    let Some(words) = asked(words) else {
        println!(rt; "usage: mta_bench dues due|batch|waiting|expired|reported ITEMS ROUNDS")?;
        return Ok(());
    };
    let (first, found) = answer_to(rt.alloc(), &words)?;
    rt.println(format_args!("{first} look, then {found} found"))?;
    Ok(())
}

//! Takes one message of many recipients through a spool in memory: each of them is unknown and reported, or delivered
//! to a mailbox, or all are relayed to a peer in one activity, or half of them wait for the peer while the others are
//! reported. The words are `settle`, `deliver`, `relay` or `mixed`, how many recipients there are, and how often the
//! spool is opened again behind that. A script times it (checks/speed.sh recipients).

use crate::dues::{put_counted, put_record};
use crate::message::{RECIPIENT, message_to};
use anyhow::{Result, anyhow};
use mta_ber::{Octets, Word};
use mta_edge::{MemClock, SafeDisk};
use mta_records::{LaneRole, Reference};
use mta_spool::{Spool, Turned};
use std::alloc::Global;
use std::env::Args;

/// Where a recipient names its domain.
const DOMAIN: usize = 16;

/// When the message arrived, late in 2026.
const ARRIVED: u64 = 2_427_000_000;

/// Nobody of A=GOLD is known.
const UNKNOWN: &[u8] =
    b"domain C=GB;A=GOLD\nname GOLD-1\npeer HUB a b twa 4 3\nroute C=GB;A=ACME peer HUB\n";

/// Watt of A=GOLD has a mailbox.
const LOCAL: &[u8] = b"domain C=GB;A=GOLD\nname GOLD-1\nmailbox watt C=GB;A=GOLD;S=WATT\n";

type MemSpool = Spool<SafeDisk, MemClock>;

/// What the words say.
#[derive(Drop)]
struct Words {
    kind: String,
    count: u32,
    openings: u32,
}

fn asked(mut words: Args<Global>) -> Option<Words> {
    let kind = words.next()?;
    let count = words.next()?.parse::<u32>().ok()?;
    let openings = words.next()?.parse::<u32>().ok()?;
    Some(Words {
        kind,
        count,
        openings,
    })
}

fn clock(alloc: Global) -> Result<MemClock> {
    Ok(MemClock::new([ARRIVED].to_vec(alloc)?))
}

fn open(alloc: Global, disk: SafeDisk) -> Result<MemSpool> {
    Spool::open(alloc, disk, clock(alloc)?).map_err(|_| anyhow!("no spool"))
}

/// So many recipients of A=ACME and behind them so many of A=GOLD.
fn recipients(alloc: Global, far: u32, near: u32) -> Result<Octets> {
    let mut octets = Octets::new(alloc);
    for _ in 0..far {
        octets.extend(&RECIPIENT[..DOMAIN])?;
        octets.extend(b"ACME")?;
        octets.extend(&RECIPIENT[DOMAIN + 4..])?;
    }
    for _ in 0..near {
        octets.extend(&RECIPIENT)?;
    }
    Ok(octets)
}

/// Makes what is due until nothing is, and tells how many steps that was.
fn settle(spool: &mut MemSpool) -> Result<u64> {
    for made in 0..u64::MAX {
        match spool.turn() {
            Ok(Turned::Did(_)) => {}
            Ok(Turned::Quiet { .. }) => return Ok(made),
            Err(_) => return Err(anyhow!("no turn")),
        }
    }
    Ok(0)
}

/// Relays what goes to the peer in one activity, and tells how many recipients that was.
fn relay(alloc: Global, spool: &mut MemSpool, peer: &Word) -> Result<u64> {
    let Some(batch) = spool.batch_for(peer)? else {
        return Ok(0);
    };
    let reference = Reference::new(Octets::new(alloc), 0, None);
    let failed = |_| anyhow!("no lane");
    let lane = spool
        .lane_open(LaneRole::Responder, peer, reference, true, 4, 3)
        .map_err(failed)?;
    let outgoing = spool.start(lane, 1, &batch).map_err(failed)?;
    spool.ending(lane, 1, outgoing.activity).map_err(failed)?;
    spool.sent(lane, 1, outgoing.activity).map_err(failed)?;
    Ok(batch.recipients.as_slice().len() as u64)
}

fn done_in(alloc: Global, spool: &mut MemSpool, words: &Words) -> Result<u64> {
    let Some(peer) = Word::from_octets(alloc, Octets::from_slice(alloc, b"HUB")?)? else {
        return Err(anyhow!("no word"));
    };
    let settled = settle(spool)?;
    match words.kind.as_str() {
        "relay" => relay(alloc, spool, &peer),
        _ => Ok(settled),
    }
}

/// How many are to be relayed, and how many are of this domain.
fn parts(words: &Words) -> (u32, u32) {
    match words.kind.as_str() {
        "relay" => (words.count, 0),
        "mixed" => (words.count / 2, words.count - words.count / 2),
        _ => (0, words.count),
    }
}

fn tables_of(words: &Words) -> &'static [u8] {
    match words.kind.as_str() {
        "deliver" => LOCAL,
        _ => UNKNOWN,
    }
}

/// A journal: the tables, and one message.
fn journal_of(alloc: Global, words: &Words) -> Result<Octets> {
    let (far, near) = parts(words);
    let list = recipients(alloc, far, near)?;
    let message = message_to(alloc, list.as_slice(), b"Hi")?;
    let mut journal = Vec::from_slice(alloc, b"MTASPL01")?;
    let mut body = Vec::from_slice(alloc, &[1])?;
    put_counted(&mut body, tables_of(words))?;
    put_record(&mut journal, body.as_slice())?;
    let mut body = Vec::from_slice(alloc, &[2])?;
    body.extend_from_slice(&ARRIVED.to_be_bytes())?;
    put_counted(&mut body, message.as_slice())?;
    put_record(&mut journal, body.as_slice())?;
    journal.push(0)?;
    Ok(Octets::from_vec(journal))
}

/// How many steps were made or recipients relayed, and how many items there are in the end.
fn answer_to(alloc: Global, words: &Words) -> Result<(u64, usize)> {
    let mut spool = open(alloc, SafeDisk::new(alloc, journal_of(alloc, words)?))?;
    let made = done_in(alloc, &mut spool, words)?;
    for _ in 0..words.openings {
        spool = open(alloc, spool.end())?;
    }
    let items = spool.items().len();
    spool.end();
    Ok((made, items))
}

pub fn timed(rt: &(impl Print + AllocGlobal), words: Args<Global>) -> Result<()> {
    let Some(words) = asked(words) else {
        println!(rt; "usage: mta_bench recipients settle|deliver|relay|mixed COUNT OPENINGS")?;
        return Ok(());
    };
    let (made, items) = answer_to(rt.alloc(), &words)?;
    rt.println(format_args!("{made} made, {items} items"))?;
    Ok(())
}

//! Reads the tables of 64 agents again and again, 16 KiB each, alone or with the longest walk of a name through them:
//! each agent sends it on to the next, and the last one back to the first. The word is `read` or `walk`. A script times
//! it (checks/speed.sh rehearse).

use anyhow::{Result, anyhow};
use mta_edge::{MemSink, MemSource, Octets};
use mta_rehearse_run::rehearse_run;
use mta_tables::Tables;
use std::alloc::Global;
use std::env::Args;

/// How often all is done.
const ROUNDS: u32 = 16;

/// How many agents there are.
const AGENTS: u32 = 64;

/// The mailboxes of an agent, with which its text has 16,360 octets.
const MAILBOXES: u32 = 276;

fn digits(n: u32) -> [u8; 4] {
    [
        b'0' + (n / 1000 % 10) as u8,
        b'0' + (n / 100 % 10) as u8,
        b'0' + (n / 10 % 10) as u8,
        b'0' + (n % 10) as u8,
    ]
}

fn put_agent(text: &mut Vec<u8>, n: u32) -> Result<()> {
    text.push(b'A')?;
    text.extend_from_slice(&digits(n))?;
    Ok(())
}

fn put_head(text: &mut Vec<u8>, n: u32) -> Result<()> {
    let next = (n % AGENTS + 1) % AGENTS;
    text.extend_from_slice(b"domain C=GB;A=")?;
    put_agent(text, n)?;
    text.extend_from_slice(b"\nname ")?;
    put_agent(text, n)?;
    text.extend_from_slice(b"\npeer ")?;
    put_agent(text, next)?;
    text.extend_from_slice(b" a b twa 4 3\nroute C=GB peer ")?;
    put_agent(text, next)?;
    text.extend_from_slice(b"\n")?;
    Ok(())
}

/// The tables of the agent of this number.
fn text_of(alloc: Global, n: u32) -> Result<Vec<u8>> {
    let mut text = Vec::new(alloc);
    put_head(&mut text, n)?;
    for m in 0..MAILBOXES {
        text.extend_from_slice(b"mailbox m")?;
        text.extend_from_slice(&digits(m))?;
        text.extend_from_slice(b" C=GB;A=GOLD;P=ACME LTD;O=WORKS;S=HOLDER ")?;
        text.extend_from_slice(&digits(m))?;
        text.extend_from_slice(b"\n")?;
    }
    Ok(text)
}

/// The tables of each agent.
fn texts_of(alloc: Global) -> Result<Vec<Vec<u8>>> {
    let mut texts = Vec::new(alloc);
    for n in 0..AGENTS {
        texts.push(text_of(alloc, n)?)?;
    }
    Ok(texts)
}

/// All texts, a line `---` between two.
fn file_of(alloc: Global, texts: &[Vec<u8>]) -> Result<Octets> {
    let mut file = Octets::new(alloc);
    for (i, text) in texts.iter().enumerate() {
        if i > 0 {
            file.extend(b"---\n").map_err(|_| anyhow!("no memory"))?;
        }
        file.extend(text.as_slice())
            .map_err(|_| anyhow!("no memory"))?;
    }
    Ok(file)
}

fn read_all(rt: &(impl Print + AllocGlobal), texts: &[Vec<u8>]) -> Result<()> {
    let mut mailboxes = 0usize;
    for _ in 0..ROUNDS {
        for text in texts {
            let tables = Tables::read(rt.alloc(), text.as_slice()).map_err(|_| anyhow!(
                "no tables"
            ))?;
            mailboxes = mailboxes.saturating_add(tables.mailboxes().len());
        }
    }
    rt.println(format_args!("{mailboxes} mailboxes read"))?;
    Ok(())
}

fn walk_all(rt: &(impl Print + AllocGlobal), file: &Octets) -> Result<()> {
    let alloc = rt.alloc();
    let mut words = Vec::new(alloc);
    words.push(String::from_str(alloc, "A0000")?)?;
    words.push(String::from_str(alloc, "C=GB;A=NORTH;S=BELL")?)?;
    let mut loops = 0u32;
    for _ in 0..ROUNDS {
        let octets = file.copy(alloc).map_err(|_| anyhow!("no memory"))?;
        let mut conf = MemSource::new(octets, Vec::new(alloc));
        let mut out = MemSink::new(alloc, Vec::new(alloc));
        if rehearse_run(alloc, words.as_slice(), &mut conf, &mut out) == 20 {
            loops = loops.saturating_add(1);
        }
    }
    rt.println(format_args!("{loops} walks go round"))?;
    Ok(())
}

pub fn timed(rt: &(impl Print + AllocGlobal), mut words: Args<Global>) -> Result<()> {
    let texts = texts_of(rt.alloc())?;
    match words.next() {
        Some(word) => match word.as_str() {
            "read" => read_all(rt, texts.as_slice()),
            _ => walk_all(rt, &file_of(rt.alloc(), texts.as_slice())?),
        },
        None => Err(anyhow!("the words are no command")),
    }
}

//! Reads a text of tables again and again, or asks tables where names go, by `route` or by a plain scan of the
//! mailboxes. The words are `read`, `route` or `scan`, and how many mailboxes and routes there are, 1 to 4,096. A
//! script times it (checks/speed.sh tables).

use anyhow::{Result, anyhow};
use mta_name_text::FromText;
use mta_names::OrName;
use mta_tables::{Hop, Tables};
use std::alloc::Global;
use std::env::Args;

/// How often a text is read.
const READINGS: u32 = 8;

/// How often each name is asked for by `route`. A scan asks once.
const ROUNDS: u32 = 16;

/// What the words say.
#[derive(Drop)]
struct Words {
    kind: String,
    count: u32,
}

fn asked(mut words: Args<Global>) -> Option<Words> {
    let kind = words.next()?;
    let count = words.next()?.parse::<u32>().ok()?;
    Some(Words { kind, count })
}

fn digits(n: u32) -> [u8; 4] {
    [
        b'0' + (n / 1000 % 10) as u8,
        b'0' + (n / 100 % 10) as u8,
        b'0' + (n / 10 % 10) as u8,
        b'0' + (n % 10) as u8,
    ]
}

fn put_mailbox(text: &mut Vec<u8>, n: u32) -> Result<()> {
    text.extend_from_slice(b"mailbox m")?;
    text.extend_from_slice(&digits(n))?;
    text.extend_from_slice(b" C=GB;A=GOLD;P=ACME LTD;O=WORKS;S=HOLDER ")?;
    text.extend_from_slice(&digits(n))?;
    text.extend_from_slice(b"\n")?;
    Ok(())
}

fn put_route(text: &mut Vec<u8>, n: u32) -> Result<()> {
    text.extend_from_slice(b"route C=GB;A=GOLD;P=P")?;
    text.extend_from_slice(&digits(n))?;
    text.extend_from_slice(b" peer HUB\n")?;
    Ok(())
}

fn put_list(text: &mut Vec<u8>, n: u32) -> Result<()> {
    text.extend_from_slice(b"list l")?;
    text.extend_from_slice(&digits(n))?;
    text.extend_from_slice(b" back C=GB;A=GOLD;CN=LIST ")?;
    text.extend_from_slice(&digits(n))?;
    text.extend_from_slice(b"\n")?;
    Ok(())
}

/// A text of so many mailboxes, so many routes and a sixteenth as many lists.
fn text_of(alloc: Global, count: u32) -> Result<Vec<u8>> {
    let mut text = Vec::from_slice(
        alloc,
        b"domain C=GB;A=GOLD\nname GOLD-1\npeer HUB a b twa 4 3\n",
    )?;
    for n in 0..count {
        put_mailbox(&mut text, n)?;
        put_route(&mut text, n)?;
        if n % 16 == 0 {
            put_list(&mut text, n)?;
        }
    }
    Ok(text)
}

fn name_of(alloc: Global, front: &[u8], n: u32) -> Result<OrName> {
    let mut text = Vec::from_slice(alloc, b"C=gb;A= Gold;P=")?;
    text.extend_from_slice(front)?;
    text.extend_from_slice(&digits(n))?;
    if text.len() > 1000 {
        return Err(anyhow!("the name is too long"));
    }
    OrName::from_text(alloc, text.as_slice()).map_err(|_| anyhow!("no name"))
}

/// The name of each mailbox and one name for each route.
fn names_of(alloc: Global, count: u32) -> Result<Vec<OrName>> {
    let mut names = Vec::new(alloc);
    for n in 0..count {
        names.push(name_of(alloc, b"acme  ltd;O=Works;S=Holder ", n)?)?;
        names.push(name_of(alloc, b"p", n)?)?;
    }
    Ok(names)
}

fn is_found(tables: &Tables, name: &OrName) -> bool {
    !matches!(tables.route(name), Hop::None)
}

fn is_scanned(tables: &Tables, name: &OrName) -> bool {
    tables.mailboxes().iter().any(|m| m.name.same(name))
}

fn count_found(tables: &Tables, names: &[OrName], scan: bool) -> usize {
    if scan {
        names.iter().filter(|name| is_scanned(tables, name)).count()
    } else {
        names.iter().filter(|name| is_found(tables, name)).count()
    }
}

fn read_again(rt: &(impl Print + AllocGlobal), text: &[u8]) -> Result<()> {
    let mut lines = 0usize;
    for _ in 0..READINGS {
        let tables = Tables::read(rt.alloc(), text).map_err(|_| anyhow!("no tables"))?;
        lines = lines.saturating_add(tables.mailboxes().len());
    }
    rt.println(format_args!("{lines} mailboxes read"))?;
    Ok(())
}

fn ask_again(rt: &(impl Print + AllocGlobal), text: &[u8], count: u32, scan: bool) -> Result<()> {
    let tables = Tables::read(rt.alloc(), text).map_err(|_| anyhow!("no tables"))?;
    let names = names_of(rt.alloc(), count)?;
    let rounds = if scan { 1 } else { ROUNDS };
    let mut found = 0usize;
    for _ in 0..rounds {
        found = found.saturating_add(count_found(&tables, names.as_slice(), scan));
    }
    rt.println(format_args!("{found} names found"))?;
    Ok(())
}

pub fn timed(rt: &(impl Print + AllocGlobal), words: Args<Global>) -> Result<()> {
    let Some(words) = asked(words) else {
        return Err(anyhow!("the words are no command"));
    };
    let text = text_of(rt.alloc(), words.count)?;
    match words.kind.as_str() {
        "read" => read_again(rt, text.as_slice()),
        "route" => ask_again(rt, text.as_slice(), words.count, false),
        _ => ask_again(rt, text.as_slice(), words.count, true),
    }
}

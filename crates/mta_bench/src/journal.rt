//! Appends bodies to a journal in a file, or writes the same octets one record after the other, each with one sync. The
//! words are `journal` or `plain`, the file, the number of bodies and the octets of each. A script times it
//! (checks/speed.sh journal).

ghost use Rattle.std.specs.Prelude.{◌≤◌, length};

use crate::disk::FileDisk;
use anyhow::{Result, anyhow};
use mta_journal::{Journal, Opened};
use std::alloc::Global;
use std::env::Args;
use std::fs::{File, OpenOptions};
use std::os::unix::fs::FileExt;

/// The most octets of a body here.
const LONGEST: usize = 1_000_000;

/// What the words say.
#[derive(Drop)]
struct Words {
    journal: bool,
    path: String,
    count: u32,
    size: usize,
}

fn asked(mut words: Args<Global>) -> Option<Words> {
    let kind = words.next()?;
    let path = words.next()?;
    let count = words.next()?.parse::<u32>().ok()?;
    let size = words.next()?.parse::<usize>().ok()?;
    Some(Words {
        journal: kind.as_str() == "journal",
        path,
        count,
        size,
    })
}

// Appends a body, in the only area or in the first of two.
fn append(journal: &mut Journal<FileDisk>, body: &[u8]) -> Result<()>
    requires { length body.now ≤ 4194304 }
{
    if journal.first() == 8 {
        return journal.append(body).map_err(|_| anyhow!("not appended"));
    }
    if journal.first() == 23 {
        return journal.append(body).map_err(|_| anyhow!("not appended"));
    }
    Err(anyhow!("the second area is current"))
}

fn append_all(alloc: Global, file: File, body: &[u8], count: u32) -> Result<()>
    requires { length body.now ≤ 4194304 }
{
    let Ok(opened) = Journal::open(alloc, FileDisk::new(file)) else {
        return Err(anyhow!("not opened"));
    };
    let Opened {
        mut journal,
        first: _,
        bodies: _,
        synced: _,
    } = opened;
    for _ in 0..count {
        append(&mut journal, body)?;
    }
    Ok(())
}

fn write_all(file: &File, body: &[u8], count: u32) -> Result<()> {
    let mut at: u64 = 0;
    for _ in 0..count {
        file.write_all_at(body, at)?;
        file.sync_data()?;
        at = at.saturating_add(body.len() as u64);
    }
    Ok(())
}

pub fn timed(rt: &HostRuntime, words: Args<Global>) -> Result<()> {
    let Some(words) = asked(words) else {
        println!(rt; "usage: mta_bench journal journal|plain FILE BODIES OCTETS")?;
        return Ok(());
    };
    if words.size > LONGEST {
        return Err(anyhow!("the bodies are too long"));
    }
    let file = OpenOptions::new()
        .read(true)
        .write(true)
        .create(true)
        .open(rt, words.path.as_str())?;
    let body = vec![in rt.alloc(); 7u8; words.size]?;
    if words.journal {
        append_all(rt.alloc(), file, body.as_slice(), words.count)?;
    } else {
        write_all(&file, body.as_slice(), words.count)?;
    }
    println!(rt; "{} bodies", words.count)?;
    Ok(())
}

//! Reads a message of about 2 MiB again and again, and prints how many elements were read. The word is the lengths that
//! it has, `definite` or `indefinite`; both where there is none. A script times it (checks/speed.sh ber); what is
//! printed never varies.

ghost use Rattle.std.specs.Prelude.{◌≤◌, ◌<◌, ◌^◌, ◌+◌, length};

use anyhow::{Result, anyhow};
use mta_ber::{Fault, Memory, Octets, Tag, View, Writer};
use std::alloc::Global;
use std::env::Args;

/// How often each message is read.
const TURNS: u32 = 20;

/// How many recipients a message has.
const RECIPIENTS: u32 = 40000;

/// The fields of a recipient in definite lengths: a name of two levels, a number and indicators.
const DEFINITE: [u8; 43] = [
    0x31, 0x29, 0x60, 0x20, 0x30, 0x1E, 0x83, 0x0C, 79, 82, 71, 65, 78, 73, 90, 65, 84, 73, 79, 78,
    0x84, 0x0E, 87, 65, 84, 84, 32, 65, 78, 68, 32, 83, 79, 78, 83, 46, 0x80, 0x01, 0x01, 0x81,
    0x02, 0x00, 0xA8,
];

/// The same in indefinite lengths.
const INDEFINITE: [u8; 49] = [
    0x31, 0x80, 0x60, 0x80, 0x30, 0x80, 0x83, 0x0C, 79, 82, 71, 65, 78, 73, 90, 65, 84, 73, 79, 78,
    0x84, 0x0E, 87, 65, 84, 84, 32, 65, 78, 68, 32, 83, 79, 78, 83, 46, 0, 0, 0, 0, 0x80, 0x01,
    0x01, 0x81, 0x02, 0x00, 0xA8, 0, 0,
];

fn recipients(alloc: Global, recipient: &[u8]) -> Result<Octets, Memory> {
    let mut octets = Octets::new(alloc);
    for _ in 0..RECIPIENTS {
        octets.extend(recipient)?;
    }
    Ok(octets)
}

/// A message of so many recipients in definite lengths.
fn definite(alloc: Global) -> Result<Octets, Memory> {
    let content = recipients(alloc, &DEFINITE)?;
    let tag = Tag {
        class: 2,
        constructed: true,
        number: 0,
    };
    let mut w = Writer::new(alloc);
    w.put(tag, content.as_slice())?;
    Ok(w.finish())
}

/// The same in indefinite lengths.
fn indefinite(alloc: Global) -> Result<Octets, Memory> {
    let mut octets = Octets::from_slice(alloc, &[0xA0, 0x80])?;
    octets.extend(recipients(alloc, &INDEFINITE)?.as_slice())?;
    octets.extend(&[0, 0])?;
    Ok(octets)
}

/// How many elements there are: this one and all in it.
fn count_elements(view: &View) -> Result<u64, Fault> {
    let mut count: u64 = 1;
    if view.tag.constructed {
        let mut parts = view.parts();
        'parts: loop {
            match parts.next()? {
                None => return Ok(count),
                Some(part) => count = count.saturating_add(count_elements(&part)?),
            }
        }
    }
    Ok(count)
}

fn read(octets: &[u8]) -> Result<u64, Fault>
    requires { length octets.now < 2 ^ 32 }
{
    count_elements(&View::first(octets, 0)?)
}

fn read_again_and_again(octets: &Octets) -> Result<u64> {
    let mut count: u64 = 0;
    let slice = octets.as_slice();
    if slice.len() > 4_000_000 {
        return Err(anyhow!("the message is too long"));
    }
    for _ in 0..TURNS {
        match read(slice) {
            Ok(elements) => count = count.saturating_add(elements),
            Err(fault) => return Err(anyhow!("a fault at {}", fault.at)),
        }
    }
    Ok(count)
}

fn report(
    rt: &(impl Print + AllocGlobal),
    word: &str,
    message: Result<Octets, Memory>,
) -> Result<()> {
    let octets = message.map_err(|_| anyhow!("no memory"))?;
    let count = read_again_and_again(&octets)?;
    let size = octets.len();
    rt.println(format_args!("{word} {size} octets {count} elements"))?;
    Ok(())
}

pub fn timed(rt: &(impl Print + AllocGlobal), mut words: Args<Global>) -> Result<()> {
    let only = words.next();
    let word = match &only {
        Some(word) => word.as_str(),
        None => "",
    };
    if word != "indefinite" {
        report(rt, "definite", definite(rt.alloc()))?;
    }
    if word != "definite" {
        report(rt, "indefinite", indefinite(rt.alloc()))?;
    }
    Ok(())
}

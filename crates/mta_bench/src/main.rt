//! What the scripts in `checks/` time. The first word says which part is timed, and the words behind it are that
//! part's own, as the head of its file has them. Without a word the usage line is printed.
#![tactic(auto)]

mod apdu;
mod ber;
mod disk;
mod dues;
mod journal;
mod message;
mod recipients;
mod rehearse;
mod rules;
mod shared;
mod tables;
mod units;

use anyhow::Result;
use std::env;

fn usage(rt: &impl Print) -> Result<()> {
    println!(rt;
        "usage: mta_bench apdu|ber|dues|journal|recipients|rehearse|rules|shared|tables|units WORDS"
    )?;
    Ok(())
}

fn main(rt: HostRuntime) -> Result<()> {
    let mut words = env::args(&rt)?;
    let _ = words.next();
    let part = words.next();
    let part = match &part {
        Some(part) => part.as_str(),
        None => "",
    };
    match part {
        "apdu" => apdu::timed(&rt, words),
        "ber" => ber::timed(&rt, words),
        "dues" => dues::timed(&rt, words),
        "journal" => journal::timed(&rt, words),
        "recipients" => recipients::timed(&rt, words),
        "rehearse" => rehearse::timed(&rt, words),
        "rules" => rules::timed(&rt, words),
        "shared" => shared::timed(&rt, words),
        "tables" => tables::timed(&rt, words),
        "units" => units::timed(&rt),
        _ => usage(&rt),
    }
}

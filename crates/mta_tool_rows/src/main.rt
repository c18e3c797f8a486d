//! Runs of the tools over objects in memory: `mta_store` (`store.rt`), `mta_follow` (`follow.rt`), `mta_audit`
//! (`audit.rt`) and `mta_rehearse` (`rehearse.rt`). Reads rows from its input, each with fields behind tabs. A row
//! `section` names the tool of the rows behind it; the head of its file says what they are. Prints the tool's name, and
//! tells of each row that wants something whether it was answered so.
//!
//! Octets are words of hexadecimal digits or, of `follow` and `audit`, names, one space between two. `name NAME OCTETS`
//! gives octets a name in its section.
#![tactic(auto)]

mod audit;
mod follow;
mod given;
mod rehearse;
mod store;

use anyhow::{Result, anyhow, bail};
use std::alloc::Global;

/// What rows are about, and what they have handed in.
#[derive(Drop)]
enum Section {
    None,
    Store(store::Held),
    Follow(follow::Held),
    Audit(audit::Held),
    Rehearse(rehearse::Held),
}

impl Section {
    fn of(alloc: Global, name: &str) -> Result<Section> {
        match name {
            "store" => Ok(Section::Store(store::Held::new(alloc))),
            "follow" => Ok(Section::Follow(follow::Held::new(alloc))),
            "audit" => Ok(Section::Audit(audit::Held::new(alloc))),
            "rehearse" => Ok(Section::Rehearse(rehearse::Held::new(alloc))),
            _ => bail!("no such section"),
        }
    }
}

/// The section that has begun.
struct Rows {
    section: Section,
}

// Written out, since a derived one is opened anew, field by field, at each place where a value is let go.
impl Drop for Rows {
    fn drop(self) {
        let Rows { section: _ } = self;
    }
}

impl Rows {
    fn begin(&mut self, rt: &impl Print, alloc: Global, name: &str) -> Result<()> {
        self.section = Section::of(alloc, name)?;
        println!(rt; "{name}")?;
        Ok(())
    }

    /// Begins the section that a row names, or tells of a row that wants something whether it was answered so.
    fn take(&mut self, rt: &impl Print, alloc: Global, row: &str) -> Result<()> {
        if let Some(name) = row.strip_prefix("section\t") {
            return self.begin(rt, alloc, name);
        }
        match &mut self.section {
            Section::None => Err(anyhow!("a row stands in no section")),
            Section::Store(held) => store::try_row(rt, alloc, held, row),
            Section::Follow(held) => follow::try_row(rt, alloc, held, row),
            Section::Audit(held) => audit::try_row(rt, alloc, held, row),
            Section::Rehearse(held) => rehearse::try_row(rt, alloc, held, row),
        }
    }
}

fn main(rt: HostRuntime) -> Result<()> {
    let alloc = rt.alloc();
    let mut rows = Rows {
        section: Section::None,
    };
    for row in rt.lines(alloc) {
        let row = row?;
        rows.take(&rt, alloc, row.as_str())?;
    }
    Ok(())
}

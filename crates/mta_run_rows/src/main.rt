//! Runs of the program over objects in memory (`runs.rt`), workers over a spool (`workers.rt`), and runs in which calls
//! fail, the process stops, or input and peers give what they may not (`faults.rt`). Reads rows from its input, each
//! with fields behind tabs. A row `section` names what the rows behind it are about; the head of its file says what
//! they are. Prints the section's name, and tells of each row that wants something whether it was answered so, under
//! the name of its case.
//!
//! Octets are words of hexadecimal digits or names, one space between two. `name NAME OCTETS` gives octets a name in
//! its section.
#![tactic(auto)]

mod case;
mod faults;
mod given;
mod program;
mod runs;
mod spools;
mod workers;

use crate::case::Case;
use anyhow::{Result, anyhow, bail};
use std::alloc::Global;
use std::sync::Wait;
use std::thread::Threads;

/// What rows are about, and what they have handed in.
#[derive(Drop)]
enum Section {
    None,
    Runs(runs::Held),
    Workers(workers::Held),
    Faults(Case),
}

impl Section {
    fn of(alloc: Global, name: &str) -> Result<Section> {
        match name {
            "runs" => Ok(Section::Runs(runs::Held::new(alloc))),
            "workers" => Ok(Section::Workers(workers::Held::new(alloc))),
            "faults" => Ok(Section::Faults(Case::new(alloc))),
            _ => bail!("no such section"),
        }
    }
}

/// The section that has begun.
struct Rows {
    section: Section,
}

// Written out, since a derived one is opened anew, field by field, at each place where a value is let go.
impl Drop for Rows {
    fn drop(self) {
        let Rows { section: _ } = self;
    }
}

impl Rows {
    fn begin(&mut self, rt: &impl Print, alloc: Global, name: &str) -> Result<()> {
        self.section = Section::of(alloc, name)?;
        println!(rt; "{name}")?;
        Ok(())
    }

    /// Begins the section that a row names, or tells of a row that wants something whether it was answered so.
    fn take<R: Print + Threads + Wait + Sync>(
        &mut self,
        rt: &R,
        alloc: Global,
        row: &str,
    ) -> Result<()> {
        if let Some(name) = row.strip_prefix("section\t") {
            return self.begin(rt, alloc, name);
        }
        match &mut self.section {
            Section::None => Err(anyhow!("a row stands in no section")),
            Section::Runs(held) => runs::try_row(rt, alloc, held, row),
            Section::Workers(held) => workers::try_row(rt, alloc, held, row),
            Section::Faults(case) => faults::try_row(rt, alloc, case, row),
        }
    }
}

fn main(rt: HostRuntime) -> Result<()> {
    let alloc = rt.alloc();
    let mut rows = Rows {
        section: Section::None,
    };
    for row in rt.lines(alloc) {
        let row = row?;
        rows.take(&rt, alloc, row.as_str())?;
    }
    Ok(())
}

//! Parts of the agent, each by itself: the outside and the journal (`outside.rt`), bodies of records (`records.rt`),
//! units of associations (`units.rt`), elements of BER (`elements.rt`), sessions (`sessions.rt`), first faults of APDUs
//! (`faults.rt`), tables and names (`tables.rt`), command lines (`words.rt`), and what is done and made under tables
//! (`rules.rt`). Reads rows from its input, most with fields behind tabs. A row `section` names what the rows behind it
//! are about; the head of its file says what they are. A row `tables` holds the text of the tables of the rows behind
//! it, in which each line ends with `|`. Prints the section's name, what is told of its rows, and how many were
//! answered as they say or told otherwise.
#![tactic(auto)]

mod elements;
mod faults;
mod outside;
mod records;
mod rules;
mod sessions;
mod tables;
mod units;
mod words;

use crate::outside::disks::Disks;
use crate::outside::streams::Streams;
use crate::sessions::walk::Walk;
use anyhow::{Result, anyhow};
use mta_rows::{Fields, lines_of};
use mta_tables::Tables;
use std::alloc::Global;

/// What rows are about.
#[derive(Clone, Copy)]
enum Section {
    Outside,
    Records,
    Units,
    Elements,
    Sessions,
    Faults,
    Tables,
    Words,
    Rules,
}

impl Section {
    fn of(name: &str) -> Option<Section> {
        match name {
            "outside" => Some(Section::Outside),
            "records" => Some(Section::Records),
            "units" => Some(Section::Units),
            "elements" => Some(Section::Elements),
            "sessions" => Some(Section::Sessions),
            "faults" => Some(Section::Faults),
            "tables" => Some(Section::Tables),
            "words" => Some(Section::Words),
            "rules" => Some(Section::Rules),
            _ => None,
        }
    }
}

/// The tables of a text, copied.
fn tables_of(alloc: Global, text: &str) -> Result<Tables> {
    let text = lines_of(alloc, text)?;
    let tables = Tables::read(alloc, text.as_slice())?;
    Ok(tables.copy(alloc)?)
}

/// The section that has begun, how many of its rows asked something, and what rows have handed in.
struct Rows {
    section: Option<Section>,
    count: u64,
    streams: Streams,
    disks: Disks,
    walk: Walk,
    tables: Tables,
}

// Written out, since a derived one is opened anew, field by field, at each place where a value is let go.
impl Drop for Rows {
    fn drop(self) {
        let Rows {
            section: _,
            count: _,
            streams: _,
            disks: _,
            walk: _,
            tables: _,
        } = self;
    }
}

impl Rows {
    fn new(alloc: Global) -> Result<Rows> {
        let tables = tables_of(alloc, "domain C=GB;A=GOLD|name GOLD-1|")?;
        Ok(Rows {
            section: None,
            count: 0,
            streams: Streams::new(alloc),
            disks: Disks::new(alloc),
            walk: Walk::new(alloc),
            tables,
        })
    }

    /// Prints how many rows of the section asked something, where any did.
    fn end(&self, rt: &impl Print) -> Result<()> {
        if self.count > 0 {
            println!(rt; "{} rows", self.count)?;
        }
        Ok(())
    }

    fn begin(&mut self, rt: &impl Print, name: &str) -> Result<()> {
        self.end(rt)?;
        println!(rt; "{name}")?;
        self.section = Section::of(name);
        self.count = 0;
        Ok(())
    }

    /// Tells of a row what it is answered: whether it asks something.
    fn try_row(&mut self, rt: &impl Print, alloc: Global, row: &str) -> Result<bool> {
        match self.section {
            Some(Section::Outside) => {
                outside::try_row(rt, alloc, &mut self.streams, &mut self.disks, row)
            }
            Some(Section::Records) => records::try_row(rt, alloc, row),
            Some(Section::Units) => units::try_row(rt, alloc, row),
            Some(Section::Elements) => elements::try_row(rt, alloc, row),
            Some(Section::Sessions) => sessions::try_row(rt, &mut self.walk, row),
            Some(Section::Faults) => faults::try_row(rt, alloc, row),
            Some(Section::Tables) => tables::try_row(rt, alloc, &self.tables, row),
            Some(Section::Words) => words::try_row(rt, alloc, row),
            Some(Section::Rules) => rules::try_row(rt, alloc, &self.tables, row),
            None => Err(anyhow!("a row stands in no section")),
        }
    }

    fn take(&mut self, rt: &impl Print, alloc: Global, row: &str) -> Result<()> {
        let mut fields = Fields { rest: row };
        match fields.take() {
            "section" => self.begin(rt, fields.rest)?,
            "tables" => self.tables = tables_of(alloc, fields.rest)?,
            _ => {
                if self.try_row(rt, alloc, row)? {
                    self.count = self.count.saturating_add(1);
                }
            }
        }
        Ok(())
    }
}

fn main(rt: HostRuntime) -> Result<()> {
    let alloc = rt.alloc();
    let mut rows = Rows::new(alloc)?;
    for row in rt.lines(alloc) {
        let row = row?;
        rows.take(&rt, alloc, row.as_str())?;
    }
    rows.end(&rt)
}

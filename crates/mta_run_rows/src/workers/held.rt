//! What is handed in to a worker, and what its links were put.

use crate::case::Case;
use anyhow::{Result, bail};
use mta_rows::{Fields, number};
use std::alloc::{AllocError, Global};

// The limits where a case says nothing.
const SESSIONS: u32 = 10;

const UNITS: u32 = 5_000;

/// What the peer of a link gives, and the first call of the link that fails, or 0.
#[derive(Drop)]
pub struct Given {
    pub octets: Vec<u8>,
    pub fails: u64,
}

/// What is handed in, the first calls that fail of station and disk, or 0, and what the last links were put.
#[derive(Drop)]
pub struct Held {
    pub case: Case,
    pub given: Vec<Given>,
    pub puts: Vec<Vec<u8>>,
    pub sessions: u32,
    pub units: u32,
    pub station_fails: u64,
    pub disk_fails: u64,
}

fn count(text: &str) -> u32 {
    text.parse::<u32>().unwrap_or(1)
}

impl Held {
    pub fn new(alloc: Global) -> Held {
        Held {
            case: Case::new(alloc),
            given: Vec::new(alloc),
            puts: Vec::new(alloc),
            sessions: SESSIONS,
            units: UNITS,
            station_fails: 0,
            disk_fails: 0,
        }
    }

    fn begin(&mut self, alloc: Global, name: &str) -> Result<(), AllocError> {
        self.case.begin(alloc, name)?;
        self.puts = Vec::new(alloc);
        self.sessions = SESSIONS;
        self.units = UNITS;
        self.spend(alloc);
        Ok(())
    }

    /// The links are spent, and nothing fails any more.
    pub fn spend(&mut self, alloc: Global) {
        self.given = Vec::new(alloc);
        self.station_fails = 0;
        self.disk_fails = 0;
    }

    fn fail(&mut self, mut fields: Fields<'_>) -> Result<()> {
        let place = fields.take();
        let call = number(fields.take());
        match (place, self.given.last_mut()) {
            ("link", Some(given)) => given.fails = call,
            ("station", _) => self.station_fails = call,
            ("disk", _) => self.disk_fails = call,
            _ => bail!("nothing fails there"),
        }
        Ok(())
    }

    fn give(&mut self, alloc: Global, text: &str) -> Result<()> {
        let octets = self.case.octets(alloc, text)?;
        self.given.push(Given { octets, fails: 0 })?;
        Ok(())
    }

    fn limit(&mut self, mut fields: Fields<'_>) {
        self.sessions = count(fields.take());
        self.units = count(fields.take());
    }

    /// Takes what a row hands in: whether it hands in something.
    pub fn take(&mut self, alloc: Global, asked: &str, fields: Fields<'_>) -> Result<bool> {
        match asked {
            "case" => self.begin(alloc, fields.rest)?,
            "limits" => self.limit(fields),
            "gives" => self.give(alloc, fields.rest)?,
            "fails" => self.fail(fields)?,
            _ => return self.case.take(alloc, asked, fields),
        }
        Ok(true)
    }

    // What the link of this number, from 1, was put.
    fn put_of(&self, link: &str) -> Result<&[u8]> {
        let place = count(link).saturating_sub(1) as usize;
        match self.puts.get(place) {
            Some(octets) => Ok(octets.as_slice()),
            None => bail!("no such link"),
        }
    }

    /// What the link of this number, from 1, was put: as it is wanted, or else in hexadecimal.
    pub fn was_put(&self, alloc: Global, wanted: &str, link: &str) -> Result<String> {
        self.case.spelled(alloc, wanted, self.put_of(link)?)
    }
}

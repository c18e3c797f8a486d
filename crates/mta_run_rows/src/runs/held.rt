//! What is handed in to a run, and what the links of its stations were put.

use crate::case::Case;
use anyhow::{Result, bail};
use mta_rows::{Fields, lines_of, number};
use std::alloc::{AllocError, Global};

/// A station with one link: its role, what the peer gives, and whether the link is held.
#[derive(Drop)]
pub struct Given {
    pub role: String,
    pub octets: Vec<u8>,
    pub is_held: bool,
}

/// What is handed in, the first call that fails of the input, the output and the disk, or 0, and what the link of each
/// station was put last.
#[derive(Drop)]
pub struct Held {
    pub case: Case,
    pub stations: Vec<Given>,
    pub puts: Vec<Vec<u8>>,
    pub input_fails: u64,
    pub output_fails: u64,
    pub disk_fails: u64,
}

fn put_again(octets: &mut Vec<u8>, piece: &[u8], count: u64) -> Result<(), AllocError> {
    for _ in 0..count {
        octets.extend_from_slice(piece)?;
    }
    Ok(())
}

impl Held {
    pub fn new(alloc: Global) -> Held {
        Held {
            case: Case::new(alloc),
            stations: Vec::new(alloc),
            puts: Vec::new(alloc),
            input_fails: 0,
            output_fails: 0,
            disk_fails: 0,
        }
    }

    fn begin(&mut self, alloc: Global, name: &str) -> Result<(), AllocError> {
        self.case.begin(alloc, name)?;
        self.stations = Vec::new(alloc);
        self.puts = Vec::new(alloc);
        self.input_fails = 0;
        self.output_fails = 0;
        self.disk_fails = 0;
        Ok(())
    }

    fn fail(&mut self, mut fields: Fields<'_>) -> Result<()> {
        let place = fields.take();
        let call = number(fields.take());
        match place {
            "input" => self.input_fails = call,
            "output" => self.output_fails = call,
            "disk" => self.disk_fails = call,
            _ => bail!("nothing fails there"),
        }
        Ok(())
    }

    fn put(&mut self, alloc: Global, mut fields: Fields<'_>) -> Result<()> {
        let count = number(fields.take());
        let piece = self.case.octets(alloc, fields.take())?;
        Ok(put_again(&mut self.case.disk, piece.as_slice(), count)?)
    }

    fn put_text(&mut self, alloc: Global, mut fields: Fields<'_>) -> Result<()> {
        let count = number(fields.take());
        let piece = lines_of(alloc, fields.take())?;
        Ok(put_again(&mut self.case.disk, piece.as_slice(), count)?)
    }

    fn give(&mut self, alloc: Global, mut fields: Fields<'_>, is_held: bool) -> Result<()> {
        let role = String::from_str(alloc, fields.take())?;
        let octets = self.case.octets(alloc, fields.take())?;
        self.stations.push(Given {
            role,
            octets,
            is_held,
        })?;
        Ok(())
    }

    /// Takes what a row hands in: whether it hands in something.
    pub fn take(&mut self, alloc: Global, asked: &str, fields: Fields<'_>) -> Result<bool> {
        match asked {
            "case" => self.begin(alloc, fields.rest)?,
            "fails" => self.fail(fields)?,
            "disk" => self.put(alloc, fields)?,
            "disk-text" => self.put_text(alloc, fields)?,
            "station" => self.give(alloc, fields, false)?,
            "held-station" => self.give(alloc, fields, true)?,
            _ => return self.case.take(alloc, asked, fields),
        }
        Ok(true)
    }

    // What the link of the station of this number was put, from 1.
    fn put_of(&self, station: &str) -> Result<&[u8]> {
        let place = number(station).saturating_sub(1) as usize;
        match self.puts.get(place) {
            Some(octets) => Ok(octets.as_slice()),
            None => bail!("no such station"),
        }
    }

    /// What the link of the station of this number was put, from 1: as it is wanted, or else in hexadecimal.
    pub fn was_put(&self, alloc: Global, wanted: &str, station: &str) -> Result<String> {
        self.case.spelled(alloc, wanted, self.put_of(station)?)
    }
}

//! What is handed in to a run.

use crate::given::{put_number, put_record, put_tables};
use anyhow::{Result, bail};
use mta_rows::{Fields, Names, lines_of, number};
use std::alloc::{AllocError, Global};

/// The octets of the two disks, those that they held before the last run, and the first call that fails of each and of
/// the output, or 0.
#[derive(Drop)]
pub struct Held {
    pub case: String,
    pub names: Names,
    pub first: Vec<u8>,
    pub second: Vec<u8>,
    pub first_before: Vec<u8>,
    pub second_before: Vec<u8>,
    pub first_fails: u64,
    pub second_fails: u64,
    pub output_fails: u64,
}

// A journal of two areas, which has no record in the first, where the second is current or not, and begins there.
fn areas(alloc: Global, is_second: bool, high: usize) -> Result<Vec<u8>, AllocError> {
    let mut disk = b"MTASPL01\x01\x00\x00\x00\x0a\xff".to_vec(alloc)?;
    disk.push(if is_second { 1 } else { 0 })?;
    put_number(&mut disk, 0)?;
    put_number(&mut disk, high)?;
    disk.push(0)?;
    Ok(disk)
}

// One whose second area has a record with this body. The first area would have room for it.
fn moved(alloc: Global, body: &[u8]) -> Result<Vec<u8>, AllocError> {
    let high = 24 + body.len() + 5;
    let mut disk = areas(alloc, true, high)?;
    disk.resize(high, 0)?;
    disk.push(0)?;
    put_record(&mut disk, body)?;
    Ok(disk)
}

// Puts what a row says behind what a disk holds, or in its place.
fn put(alloc: Global, names: &Names, disk: &mut Vec<u8>, what: &str, text: &str) -> Result<()> {
    match what {
        "" => put_record(disk, names.octets(alloc, text)?.as_slice())?,
        "tables" => put_tables(alloc, disk, lines_of(alloc, text)?.as_slice())?,
        "areas" => *disk = areas(alloc, false, 0)?,
        "moved" => *disk = moved(alloc, names.octets(alloc, text)?.as_slice())?,
        "octets" => *disk = names.octets(alloc, text)?,
        _ => bail!("no such row"),
    }
    Ok(())
}

impl Held {
    pub fn new(alloc: Global) -> Held {
        Held {
            case: String::new(alloc),
            names: Names::new(alloc),
            first: Vec::new(alloc),
            second: Vec::new(alloc),
            first_before: Vec::new(alloc),
            second_before: Vec::new(alloc),
            first_fails: 0,
            second_fails: 0,
            output_fails: 0,
        }
    }

    /// Nothing fails any more.
    pub fn calm(&mut self) {
        self.first_fails = 0;
        self.second_fails = 0;
        self.output_fails = 0;
    }

    fn begin(&mut self, alloc: Global, name: &str) -> Result<(), AllocError> {
        self.case = String::from_str(alloc, name)?;
        self.first = Vec::new(alloc);
        self.second = Vec::new(alloc);
        self.calm();
        Ok(())
    }

    fn fail(&mut self, mut fields: Fields<'_>) -> Result<()> {
        let place = fields.take();
        let call = number(fields.take());
        match place {
            "first" => self.first_fails = call,
            "second" => self.second_fails = call,
            "output" => self.output_fails = call,
            _ => bail!("nothing fails there"),
        }
        Ok(())
    }

    fn name(&mut self, alloc: Global, mut fields: Fields<'_>) -> Result<()> {
        let name = fields.take();
        let octets = self.names.octets(alloc, fields.take())?;
        Ok(self.names.add(alloc, name, octets)?)
    }

    /// Takes what a row hands in.
    pub fn take(&mut self, alloc: Global, asked: &str, fields: Fields<'_>) -> Result<()> {
        let (place, what) = asked.split_once('-').unwrap_or((asked, ""));
        match place {
            "case" => self.begin(alloc, fields.rest)?,
            "name" => self.name(alloc, fields)?,
            "fails" => self.fail(fields)?,
            "first" => put(alloc, &self.names, &mut self.first, what, fields.rest)?,
            "second" if what == "is-first" => self.second = self.first.clone()?,
            "second" => put(alloc, &self.names, &mut self.second, what, fields.rest)?,
            _ => bail!("no such row"),
        }
        Ok(())
    }
}

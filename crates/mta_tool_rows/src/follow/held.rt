//! What is handed in to a run.

use crate::given::put_record;
use anyhow::{Result, bail};
use mta_rows::{Fields, Names, number};
use std::alloc::{AllocError, Global};

/// The octets of the disk and of the link, how many the link gives a call, and the first call that fails of each
/// object, or 0.
#[derive(Drop)]
pub struct Held {
    pub case: String,
    pub names: Names,
    pub disk: Vec<u8>,
    pub input: Vec<u8>,
    pub has_link: bool,
    pub most: usize,
    pub disk_fails: u64,
    pub link_fails: u64,
    pub station_fails: u64,
    pub output_fails: u64,
    pub put: Vec<u8>,
}

// A journal of two areas, which has no record.
fn put_areas(disk: &mut Vec<u8>) -> Result<(), AllocError> {
    disk.extend_from_slice(
        b"MTASPL01\x01\x00\x00\x00\x0a\xff\x00\x00\x00\x00\x00\x00\x00\x00\x00\x00",
    )
}

impl Held {
    pub fn new(alloc: Global) -> Held {
        Held {
            case: String::new(alloc),
            names: Names::new(alloc),
            disk: Vec::new(alloc),
            input: Vec::new(alloc),
            has_link: true,
            most: usize::MAX,
            disk_fails: 0,
            link_fails: 0,
            station_fails: 0,
            output_fails: 0,
            put: Vec::new(alloc),
        }
    }

    /// Nothing fails any more, and a link is there.
    pub fn calm(&mut self) {
        self.has_link = true;
        self.disk_fails = 0;
        self.link_fails = 0;
        self.station_fails = 0;
        self.output_fails = 0;
    }

    fn begin(&mut self, alloc: Global, name: &str) -> Result<(), AllocError> {
        self.case = String::from_str(alloc, name)?;
        self.disk = Vec::new(alloc);
        self.input = Vec::new(alloc);
        self.most = usize::MAX;
        self.calm();
        Ok(())
    }

    fn fail(&mut self, mut fields: Fields<'_>) -> Result<()> {
        let place = fields.take();
        let call = number(fields.take());
        match place {
            "disk" => self.disk_fails = call,
            "link" => self.link_fails = call,
            "station" => self.station_fails = call,
            "output" => self.output_fails = call,
            _ => bail!("nothing fails there"),
        }
        Ok(())
    }

    fn name(&mut self, alloc: Global, mut fields: Fields<'_>) -> Result<()> {
        let name = fields.take();
        let octets = self.names.octets(alloc, fields.take())?;
        Ok(self.names.add(alloc, name, octets)?)
    }

    /// Takes what a row hands in.
    pub fn take(&mut self, alloc: Global, asked: &str, fields: Fields<'_>) -> Result<()> {
        match asked {
            "case" => self.begin(alloc, fields.rest)?,
            "name" => self.name(alloc, fields)?,
            "fails" => self.fail(fields)?,
            "areas" => put_areas(&mut self.disk)?,
            "record" => {
                let body = self.names.octets(alloc, fields.rest)?;
                put_record(&mut self.disk, body.as_slice())?;
            }
            "disk" => self.disk = self.names.octets(alloc, fields.rest)?,
            "input" => self.input = self.names.octets(alloc, fields.rest)?,
            "pieces" => self.most = number(fields.rest) as usize,
            "no-link" => self.has_link = false,
            _ => bail!("no such row"),
        }
        Ok(())
    }
}

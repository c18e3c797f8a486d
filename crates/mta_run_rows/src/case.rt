//! What the rows of a case hand in, in each section.

use anyhow::{Result, anyhow};
use mta_rows::{Fields, Names, lines_of, number, pairs, tell};
use std::alloc::{AllocError, Global};

/// What a case hands in, and what the disk holds. Tables, input, moment and names stay until another is said.
#[derive(Drop)]
pub struct Case {
    pub name: String,
    pub names: Names,
    pub tables: Vec<u8>,
    pub input: Vec<u8>,
    pub disk: Vec<u8>,
    pub moment: u64,
}

impl Case {
    pub fn new(alloc: Global) -> Case {
        Case {
            name: String::new(alloc),
            names: Names::new(alloc),
            tables: Vec::new(alloc),
            input: Vec::new(alloc),
            disk: Vec::new(alloc),
            moment: 0,
        }
    }

    /// Begins a case of this name, with an empty disk.
    pub fn begin(&mut self, alloc: Global, name: &str) -> Result<(), AllocError> {
        self.name = String::from_str(alloc, name)?;
        self.disk = Vec::new(alloc);
        Ok(())
    }

    fn name(&mut self, alloc: Global, mut fields: Fields<'_>) -> Result<()> {
        let name = fields.take();
        let octets = self.octets(alloc, fields.take())?;
        Ok(self.names.add(alloc, name, octets)?)
    }

    /// Takes what a row hands in: whether it hands in something.
    pub fn take(&mut self, alloc: Global, asked: &str, fields: Fields<'_>) -> Result<bool> {
        match asked {
            "case" => self.begin(alloc, fields.rest)?,
            "name" => self.name(alloc, fields)?,
            "tables" => self.tables = lines_of(alloc, fields.rest)?,
            "input" => self.input = self.octets(alloc, fields.rest)?,
            "clock" => self.moment = number(fields.rest),
            _ => return Ok(false),
        }
        Ok(true)
    }

    /// The octets of words.
    pub fn octets(&self, alloc: Global, text: &str) -> Result<Vec<u8>> {
        match self.names.octets(alloc, text) {
            Ok(octets) => Ok(octets),
            Err(_) => Err(anyhow!("no octets")),
        }
    }

    /// These octets: as they are wanted, or else in hexadecimal, one space between two.
    pub fn spelled(&self, alloc: Global, wanted: &str, octets: &[u8]) -> Result<String> {
        let expected = self.octets(alloc, wanted)?;
        if expected.as_slice() == octets {
            Ok(String::from_str(alloc, wanted)?)
        } else {
            Ok(pairs(alloc, octets)?)
        }
    }

    /// Tells whether a row, which asks something about something, was answered as it says.
    pub fn tell(
        &self,
        rt: &impl Print,
        alloc: Global,
        asked: &str,
        about: &str,
        answered: &str,
        wanted: &str,
    ) -> Result<()> {
        let case = self.name.as_str();
        let name = format!(in alloc; "{case}: {asked}")?;
        tell(rt, name.as_str(), about, answered, wanted)?;
        Ok(())
    }
}

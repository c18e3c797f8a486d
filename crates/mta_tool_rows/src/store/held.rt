//! What is handed in to a run.

use crate::given::{counted_body, put_number, put_record, put_tables};
use anyhow::{Result, bail};
use mta_rows::{Fields, lines_of, number, octets_of};
use std::alloc::{AllocError, Global};

/// The octets of the two disks, and the first call that fails of each and of the output, or 0.
#[derive(Drop)]
pub struct Held {
    pub case: String,
    pub spool: Vec<u8>,
    pub marks: Vec<u8>,
    pub spool_fails: u64,
    pub marks_fails: u64,
    pub output_fails: u64,
}

// The body of a mark: its octet, a mailbox and a number.
fn mark_body(alloc: Global, kind: u8, mut fields: Fields<'_>) -> Result<Vec<u8>, AllocError> {
    let mailbox = fields.take();
    let mut body = counted_body(alloc, kind, mailbox.as_bytes())?;
    put_number(&mut body, number(fields.take()) as usize)?;
    Ok(body)
}

impl Held {
    pub fn new(alloc: Global) -> Held {
        Held {
            case: String::new(alloc),
            spool: Vec::new(alloc),
            marks: Vec::new(alloc),
            spool_fails: 0,
            marks_fails: 0,
            output_fails: 0,
        }
    }

    /// Nothing fails any more.
    pub fn calm(&mut self) {
        self.spool_fails = 0;
        self.marks_fails = 0;
        self.output_fails = 0;
    }

    fn begin(&mut self, alloc: Global, name: &str) -> Result<(), AllocError> {
        self.case = String::from_str(alloc, name)?;
        self.spool = Vec::new(alloc);
        self.marks = Vec::new(alloc);
        self.calm();
        Ok(())
    }

    fn fail(&mut self, mut fields: Fields<'_>) -> Result<()> {
        let place = fields.take();
        let call = number(fields.take());
        match place {
            "spool" => self.spool_fails = call,
            "marks" => self.marks_fails = call,
            "output" => self.output_fails = call,
            _ => bail!("nothing fails there"),
        }
        Ok(())
    }

    /// Takes what a row hands in.
    pub fn take(&mut self, alloc: Global, asked: &str, fields: Fields<'_>) -> Result<()> {
        match asked {
            "case" => self.begin(alloc, fields.rest)?,
            "fails" => self.fail(fields)?,
            "tables" => {
                let text = lines_of(alloc, fields.rest)?;
                put_tables(alloc, &mut self.spool, text.as_slice())?;
            }
            "step" => {
                let body = octets_of(alloc, fields.rest)?;
                put_record(&mut self.spool, body.as_slice())?;
            }
            "mark" => {
                let body = octets_of(alloc, fields.rest)?;
                put_record(&mut self.marks, body.as_slice())?;
            }
            "fetched" => {
                let body = mark_body(alloc, 1, fields)?;
                put_record(&mut self.marks, body.as_slice())?;
            }
            "deleted" => {
                let body = mark_body(alloc, 2, fields)?;
                put_record(&mut self.marks, body.as_slice())?;
            }
            "spool-octets" => self.spool = octets_of(alloc, fields.rest)?,
            "marks-octets" => self.marks = octets_of(alloc, fields.rest)?,
            _ => bail!("no such row"),
        }
        Ok(())
    }
}

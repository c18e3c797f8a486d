//! What is handed in to a run.

use anyhow::{Result, bail};
use mta_rows::{Fields, lines_of, number};
use std::alloc::{AllocError, Global};

/// The texts, and the first call that fails of their source and of the output, or 0.
#[derive(Drop)]
pub struct Held {
    pub texts: Vec<u8>,
    pub texts_fail: u64,
    pub output_fails: u64,
}

// Puts a piece, with its number in the place of each `%`.
fn put_piece(octets: &mut Vec<u8>, piece: &[u8], number: u64) -> Result<(), AllocError> {
    let digits = [b'0' + (number / 10 % 10) as u8, b'0' + (number % 10) as u8];
    for c in piece {
        match c {
            b'%' => octets.extend_from_slice(&digits)?,
            _ => octets.push(*c)?,
        }
    }
    Ok(())
}

impl Held {
    pub fn new(alloc: Global) -> Held {
        Held {
            texts: Vec::new(alloc),
            texts_fail: 0,
            output_fails: 0,
        }
    }

    /// Nothing fails any more.
    pub fn calm(&mut self) {
        self.texts_fail = 0;
        self.output_fails = 0;
    }

    fn fail(&mut self, mut fields: Fields<'_>) -> Result<()> {
        let place = fields.take();
        let call = number(fields.take());
        match place {
            "texts" => self.texts_fail = call,
            "output" => self.output_fails = call,
            _ => bail!("nothing fails there"),
        }
        Ok(())
    }

    fn add(&mut self, alloc: Global, mut fields: Fields<'_>) -> Result<()> {
        let count = number(fields.take());
        let piece = lines_of(alloc, fields.take())?;
        for n in 0..count {
            put_piece(&mut self.texts, piece.as_slice(), n)?;
        }
        Ok(())
    }

    /// Takes what a row hands in.
    pub fn take(&mut self, alloc: Global, asked: &str, fields: Fields<'_>) -> Result<()> {
        match asked {
            "texts" => self.texts = lines_of(alloc, fields.rest)?,
            "add" => self.add(alloc, fields)?,
            "fails" => self.fail(fields)?,
            _ => bail!("no such row"),
        }
        Ok(())
    }
}

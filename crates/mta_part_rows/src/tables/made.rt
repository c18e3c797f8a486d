//! Texts that are made of many pieces.

use mta_rows::{Fields, lines_of};
use std::alloc::{AllocError, Global};

fn digits(n: u32) -> [u8; 4] {
    [
        b'0' + (n / 1000 % 10) as u8,
        b'0' + (n / 100 % 10) as u8,
        b'0' + (n / 10 % 10) as u8,
        b'0' + (n % 10) as u8,
    ]
}

/// Puts a piece, with its number in the place of each `%`.
fn put_piece(text: &mut Vec<u8>, piece: &[u8], number: u32) -> Result<(), AllocError> {
    for c in piece {
        match c {
            b'%' => text.extend_from_slice(&digits(number))?,
            _ => text.push(*c)?,
        }
    }
    Ok(())
}

/// The text of a count, a front, a piece and a back.
pub fn text_of(alloc: Global, mut fields: Fields<'_>) -> Result<Vec<u8>, AllocError> {
    let count = fields.take().parse::<u32>().unwrap_or(0);
    let mut text = lines_of(alloc, fields.take())?;
    let piece = lines_of(alloc, fields.take())?;
    let back = lines_of(alloc, fields.take())?;
    for number in 0..count {
        put_piece(&mut text, piece.as_slice(), number)?;
    }
    text.extend_from_slice(back.as_slice())?;
    Ok(text)
}

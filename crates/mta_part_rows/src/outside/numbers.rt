//! Numbers and octets of fields.

use anyhow::Result;
use mta_edge::Octets;
use mta_rows::{Fields, octets_of};
use std::alloc::{AllocError, Global};

/// The numbers of a text, one space between two.
pub fn numbers(alloc: Global, text: &str) -> Result<Vec<u64>, AllocError> {
    let mut numbers = Vec::new(alloc);
    for word in text.split(' ') {
        if let Ok(number) = word.parse::<u64>() {
            numbers.push(number)?;
        }
    }
    Ok(numbers)
}

/// The octets of the next field.
pub fn octets(alloc: Global, fields: &mut Fields<'_>) -> Result<Octets> {
    Ok(Octets::from_vec(octets_of(alloc, fields.take())?))
}

//! Bit strings.

use crate::elements::read::first_of;
use crate::elements::written::written_bits;
use crate::faults::fault_text;
use mta_ber::{Bits, Fault, Memory};
use mta_rows::{Fields, pairs};
use std::alloc::{AllocError, Global};

fn bits_of(octets: &[u8]) -> Result<Bits, Fault> {
    first_of(octets)?.bits()
}

fn bits_text(alloc: Global, bits: Bits) -> Result<String, AllocError> {
    let (count, word) = (bits.count(), bits.word());
    format!(in alloc; "{count} {word}")
}

fn is_set(alloc: Global, bits: Bits, place: u8) -> Result<String, AllocError> {
    let (of_bits, of_eight) = (bits.is_set(place), bits.padded(8).is_set(place));
    format!(in alloc; "{of_bits} {of_eight}")
}

fn again(alloc: Global, bits: Bits) -> Result<String, Memory> {
    let octets = written_bits(alloc, bits)?;
    Ok(pairs(alloc, octets.as_slice())?)
}

fn number(text: &str) -> u8 {
    text.parse::<u8>().unwrap_or(0)
}

fn said_of(alloc: Global, asked: &str, number: u8, bits: Bits) -> Result<String, Memory> {
    match asked {
        "bits" => Ok(bits_text(alloc, bits)?),
        "bits-again" => again(alloc, bits),
        "padded" => Ok(bits_text(alloc, bits.padded(number.min(64)))?),
        _ => Ok(is_set(alloc, bits, number)?),
    }
}

/// What the row is answered, where it asks of a bit string.
pub fn bits_answer(
    alloc: Global,
    asked: &str,
    octets: &[u8],
    fields: Fields<'_>,
) -> Result<Option<String>, Memory> {
    if !matches!(asked, "bits" | "bits-again" | "padded" | "is-set") {
        return Ok(None);
    }
    Ok(Some(match bits_of(octets) {
        Ok(bits) => said_of(alloc, asked, number(fields.rest), bits)?,
        Err(fault) => fault_text(alloc, fault)?,
    }))
}

//! Octets and lines, as rows spell them.

ghost use Rattle.std.specs.Prelude.{◌≡◌, ◌<◌, ◌++◌, ℕ, List, map, string_bytes, IfErr, IfOk, OnOk, Ok};
ghost use Rattle.std.specs.List.{before_first, repeat};
ghost use Rattle.hex.specs.Hex.{decode_of};
ghost use Rattle.mta_rows.specs.Texts.{IsCount, SpellsOctets, SpellsWord, line_feed_for, number_of as number_in};
ghost use Rattle.mta_rows.specs.Texts.{count_text, is_star, words_between};
ghost use Rattle.mta_rows.specs.declared.octets.RowFault.TheVariants as fault;

use hex::FromHexError;
use std::alloc::{AllocError, Global};
use thiserror::Error;

/// Why a text spells no octets.
#[derive(Debug, Drop, Error)]
pub enum RowFault {
    #[error("no octets")]
    BadOctets,
    #[error("out of memory")]
    Memory,
}

impl From<AllocError> for RowFault {
    ghost from_gives = { λ _ e. e ≡ fault.Memory };

    fn from(_fault: AllocError) -> RowFault {
        RowFault::Memory
    }
}

// The octets of hexadecimal digits.
fn pairs_of(alloc: Global, digits: &str) -> Result<Vec<u8>, RowFault>
    ensures octets { IfOk result (λ v. decode_of digits.now ≡ Ok v.items) }
    ensures refused { IfErr result (λ e. e ≡ fault.BadOctets
        → (octets : List ℕ) → decode_of digits.now ≡ Ok octets → ⊥) }
{
    match hex::decode(alloc, digits) {
        Ok(octets) => Ok(octets),
        Err(FromHexError::OutOfMemory) => Err(RowFault::Memory),
        Err(_) => Err(RowFault::BadOctets),
    }
}

// The number that digits are in decimal.
fn number_of(digits: &str) -> Result<u32, RowFault>
    ensures number { IfOk result (λ n. IsCount digits.now × (n ≡ number_in digits.now)) }
    ensures refused { IfErr result (λ e. e ≡ fault.BadOctets → IsCount digits.now → ⊥) }
{
    match digits.parse::<u32>() {
        Ok(number) => Ok(number),
        Err(_) => Err(RowFault::BadOctets),
    }
}

// Puts these octets so often.
fn put_again(octets: &mut Vec<u8>, piece: &[u8], count: u32) -> Result<(), AllocError>
    ensures { OnOk result (octets.new.items ≡ octets.old.items ++ repeat count piece.now) }
{
    for _ in 0..count {
        octets.extend_from_slice(piece)?;
    }
    Ok(())
}

// The digits of a word, and the text of how often their octets come.
fn parts_of(word: &str) -> (&str, &str)
    ensures digits { result.0.now ≡ before_first is_star word.now }
    ensures count { result.1.now ≡ count_text word.now }
{
    match word.split_once('*') {
        None => (word, "1"),
        Some(parts) => parts,
    }
}

// Puts the octets of a word, again and again where it ends with a number.
fn put_word(octets: &mut Vec<u8>, alloc: Global, word: &str) -> Result<(), RowFault>
    ensures put { OnOk result ((a : List ℕ) × SpellsWord word.now a
        × (octets.new.items ≡ octets.old.items ++ a)) }
    ensures refused { IfErr result (λ e. e ≡ fault.BadOctets → (a : List ℕ) → SpellsWord word.now a → ⊥) }
{
    let (digits, count) = parts_of(word);
    let piece = pairs_of(alloc, digits)?;
    let count = number_of(count)?;
    put_again(octets, piece.as_slice(), count)?;
    Ok(())
}

/// The octets of words of hexadecimal digits, one space between two. Behind a word may stand how often its octets come:
/// `07*1000` is a thousand of one. A text that spells no octets is refused.
pub fn octets_of(alloc: Global, text: &str) -> Result<Vec<u8>, RowFault>
    ensures octets { IfOk result (λ v. SpellsOctets text.now v.items) }
    ensures refused { IfErr result (λ e. e ≡ fault.BadOctets
        → (octets : List ℕ) → SpellsOctets text.now octets → ⊥) }
{
    let mut octets = Vec::new(alloc);
    let words = split(alloc, text, ' ')?;
    for word in words.as_slice() {
        put_word(&mut octets, alloc, word)?;
    }
    Ok(octets)
}

/// The octets of lines that are each ended by `|`, and what stands behind the last.
pub fn lines_of(alloc: Global, text: &str) -> Result<Vec<u8>, AllocError>
    ensures { IfOk result (λ v. v.items ≡ map line_feed_for text.now) }
{
    text.bytes()
        .map(|c| if c == b'|' { b'\n' } else { c })
        .collect(alloc)
}

// The words of a text, as they stand there.
pub(crate) fn split(alloc: Global, text: &str, between: char) -> Result<Vec<&str>, AllocError>
    ensures { IfOk result (λ v. between < 128 → map (λ x. x.now) v.items ≡ words_between between text.now) }
{
    text.split(between).collect(alloc)
}

/// The words of a command line, which has this character between two.
pub fn words_of(alloc: Global, line: &str, between: char) -> Result<Vec<String>, AllocError>
    ensures { IfOk result (λ v. between < 128 → map string_bytes v.items ≡ words_between between line.now) }
{
    let mut words = Vec::new(alloc);
    let parts = split(alloc, line, between)?;
    for part in parts.as_slice() {
        words.push(String::from_str(alloc, part)?)?;
    }
    Ok(words)
}

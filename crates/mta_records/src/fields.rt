//! Reading the fields of records, each from the front of octets.

ghost use Rattle.std.specs.Prelude.{◌≡◌, ◌≤◌, ◌<◌, ◌^◌, length, IfOk, IfSome, IsTrue};
ghost use Rattle.std.specs.Int.{w32, w64};
ghost use Rattle.std.specs.List.{list_all};
ghost use Rattle.mta_ber.specs.Times.{last_moment};
ghost use Rattle.mta_records.specs.Fields.{a_number, a_long_number, a_moment, a_string, a_short_string, a_word};
ghost use Rattle.mta_records.specs.Fields.{a_fault_kind, a_truth, a_role, an_additional, a_reference, some_numbers};
ghost use Rattle.mta_records.specs.Form.{an_octet, values_at, list_of};
ghost use Rattle.mta_records.specs.Answered.{Gives};
ghost use Rattle.mta_records.specs.Reference.{longest_reference};
ghost use Rattle.mta_records.specs.Words.{is_word_octet, is_word};

use crate::lane::{LaneRole, Recipients};
use crate::reference::Reference;
use mta_ber::{LAST_MOMENT, Memory, Octets, Word};
use std::alloc::{AllocFailed, Global};

// The most octets of the calling and of the additional reference of an association.
const LONGEST_REFERENCE: usize = 1_024;

/// Why no step was read: a field that begins where this many octets were left, or want of memory.
#[derive(Clone, Copy, Debug)]
pub enum Short {
    Left(usize),
    Memory,
}

impl From<Memory> for Short {
    ghost use Rattle.std.specs.Prelude.{◌≡◌};
    ghost use Rattle.mta_records.specs.declared.fields.Short.TheVariants.{Memory as memory_fault};

    ghost from_gives = { λ _ e. e ≡ memory_fault };

    fn from(_: Memory) -> Short {
        Short::Memory
    }
}

impl<T: Drop> From<AllocFailed<T>> for Short {
    ghost use Rattle.std.specs.Prelude.{◌≡◌};
    ghost use Rattle.mta_records.specs.declared.fields.Short.TheVariants.{Memory as memory_fault};

    ghost from_gives = { λ _ e. e ≡ memory_fault };

    fn from(_: AllocFailed<T>) -> Short {
        Short::Memory
    }
}

#[tactic(auto, unfolding(crate::specs::Form::octet_at))]
pub fn octet_of(octets: &[u8]) -> Result<(u8, &[u8]), Short>
    ensures { Gives (λ x. (x.0, x.1.now)) result (an_octet.at octets.now) }
{
    match octets {
        [octet, rest @ ..] => Ok((*octet, rest)),
        [] => Err(Short::Left(0)),
    }
}

#[tactic(auto, unfolding(crate::specs::Form::number_at))]
pub fn number_of(octets: &[u8]) -> Result<(u32, &[u8]), Short>
    ensures { Gives (λ x. (x.0, x.1.now)) result (a_number.at octets.now) }
{
    if octets.len() < 4 {
        return Err(Short::Left(octets.len()));
    }
    let (front, rest) = octets.split_at(4);
    Ok((
        u32::from_be_bytes([front[0], front[1], front[2], front[3]]),
        rest,
    ))
}

#[tactic(auto, unfolding(crate::specs::Form::number_at))]
pub fn long_number_of(octets: &[u8]) -> Result<(u64, &[u8]), Short>
    ensures { Gives (λ x. (x.0, x.1.now)) result (a_long_number.at octets.now) }
{
    if octets.len() < 8 {
        return Err(Short::Left(octets.len()));
    }
    let (front, rest) = octets.split_at(8);
    let number = u64::from_be_bytes([
        front[0], front[1], front[2], front[3], front[4], front[5], front[6], front[7],
    ]);
    Ok((number, rest))
}

#[tactic(auto, unfolding(crate::specs::Fields::moment_at))]
pub fn moment_of(octets: &[u8]) -> Result<(u64, &[u8]), Short>
    ensures exact { Gives (λ x. (x.0, x.1.now)) result (a_moment.at octets.now) }
    ensures fits { IfOk result (λ x. x.0 ≤ last_moment) }
{
    let (moment, rest) = long_number_of(octets)?;
    if moment > LAST_MOMENT {
        return Err(Short::Left(octets.len()));
    }
    Ok((moment, rest))
}

#[tactic(auto, unfolding(crate::specs::Fields::string_at))]
pub fn string_of(octets: &[u8]) -> Result<(&[u8], &[u8]), Short>
    ensures exact { Gives (λ x. (x.0.now, x.1.now)) result (a_string.at octets.now) }
    ensures fits { IfOk result (λ x. length x.0.now < 2 ^ 32) }
{
    let (size, rest) = number_of(octets)?;
    let size = size as usize;
    if rest.len() < size {
        return Err(Short::Left(octets.len()));
    }
    Ok(rest.split_at(size))
}

#[tactic(auto, unfolding(crate::specs::Fields::short_string_at))]
fn short_string_of(octets: &[u8]) -> Result<(&[u8], &[u8]), Short>
    ensures exact { Gives (λ x. (x.0.now, x.1.now)) result (a_short_string.at octets.now) }
    ensures fits { IfOk result (λ x. length x.0.now ≤ longest_reference) }
{
    let (string, rest) = string_of(octets)?;
    if string.len() > LONGEST_REFERENCE {
        return Err(Short::Left(octets.len()));
    }
    Ok((string, rest))
}

#[tactic(auto, unfolding(crate::specs::Fields::fault_kind_at))]
pub fn fault_kind_of(octets: &[u8]) -> Result<(u8, &[u8]), Short>
    ensures { Gives (λ x. (x.0, x.1.now)) result (a_fault_kind.at octets.now) }
{
    let (kind, rest) = octet_of(octets)?;
    if !matches!(kind, 1..=12) {
        return Err(Short::Left(octets.len()));
    }
    Ok((kind, rest))
}

#[tactic(auto, unfolding(crate::specs::Fields::truth_at))]
pub fn truth_of(octets: &[u8]) -> Result<(bool, &[u8]), Short>
    ensures { Gives (λ x. (x.0, x.1.now)) result (a_truth.at octets.now) }
{
    let (octet, rest) = octet_of(octets)?;
    match octet {
        0 => Ok((false, rest)),
        1 => Ok((true, rest)),
        _ => Err(Short::Left(octets.len())),
    }
}

#[tactic(auto, unfolding(crate::specs::Fields::role_at))]
pub fn role_of(octets: &[u8]) -> Result<(LaneRole, &[u8]), Short>
    ensures { Gives (λ x. (x.0, x.1.now)) result (a_role.at octets.now) }
{
    let (octet, rest) = octet_of(octets)?;
    match octet {
        0 => Ok((LaneRole::Initiator, rest)),
        1 => Ok((LaneRole::Responder, rest)),
        _ => Err(Short::Left(octets.len())),
    }
}

fn are_word_octets(text: &[u8]) -> bool
    ensures { result ≡ list_all is_word_octet text.now }
{
    text.iter().all(|c| {
        matches!(*c, 65..=90) || matches!(*c, 97..=122) || matches!(*c, 48..=57) || *c == b'-'
    })
}

fn is_word(text: &[u8]) -> bool
    ensures { result ≡ is_word text.now }
{
    are_word_octets(text) && 1 <= text.len() && text.len() <= 32
}

#[tactic(auto, unfolding(crate::specs::Fields::word_at))]
pub fn word_of(alloc: Global, octets: &[u8]) -> Result<(Word, &[u8]), Short>
    ensures { Gives (λ x. (x.0, x.1.now)) result (a_word.at octets.now) }
{
    let (text, rest) = string_of(octets)?;
    if !is_word(text) {
        return Err(Short::Left(octets.len()));
    }
    match Word::from_octets(alloc, Octets::from_slice(alloc, text)?)? {
        Some(word) => Ok((word, rest)),
        None => Err(Short::Left(octets.len())),
    }
}

#[tactic(auto, unfolding(crate::specs::Fields::additional_at))]
fn additional_of(alloc: Global, octets: &[u8]) -> Result<(Option<Octets>, &[u8]), Short>
    ensures exact { Gives (λ x. (x.0, x.1.now)) result (an_additional.at octets.now) }
    ensures fits { IfOk result (λ x. IfSome x.0 (λ s. length s ≤ longest_reference)) }
{
    let (is_given, behind) = truth_of(octets)?;
    let (string, rest) = short_string_of(behind)?;
    if is_given {
        let string = Octets::from_slice(alloc, string)?;
        return Ok((Some(string), rest));
    }
    if !string.is_empty() {
        return Err(Short::Left(behind.len()));
    }
    Ok((None, rest))
}

#[tactic(auto, unfolding(crate::specs::Fields::reference_at))]
pub fn reference_of(alloc: Global, octets: &[u8]) -> Result<(Reference, &[u8]), Short>
    ensures { Gives (λ x. (x.0, x.1.now)) result (a_reference.at octets.now) }
{
    let (calling, rest) = short_string_of(octets)?;
    let (common, rest) = moment_of(rest)?;
    let (additional, rest) = additional_of(alloc, rest)?;
    let calling = Octets::from_slice(alloc, calling)?;
    Ok((Reference::new(calling, common, additional), rest))
}

fn values_of(alloc: Global, count: u32, octets: &[u8]) -> Result<(Vec<u32>, &[u8]), Short>
    ensures { Gives (λ x. (x.0.items, x.1.now)) result (values_at a_number.at count octets.now) }
{
    let mut numbers = Vec::new(alloc);
    let mut rest = octets;
    for _ in 0..count {
        let (number, behind) = number_of(rest)?;
        numbers.push(number)?;
        rest = behind;
    }
    Ok((numbers, rest))
}

/// The numbers behind their count, each of them a field.
fn counted_numbers_of(alloc: Global, octets: &[u8]) -> Result<(Vec<u32>, &[u8]), Short>
    ensures { Gives (λ x. (x.0.items, x.1.now)) result ((list_of a_number).at octets.now) }
{
    let (count, rest) = number_of(octets)?;
    values_of(alloc, count, rest)
}

#[tactic(auto, unfolding(crate::specs::Fields::numbers_at))]
pub fn numbers_of(alloc: Global, octets: &[u8]) -> Result<(Recipients, &[u8]), Short>
    ensures { Gives (λ x. (x.0, x.1.now)) result (some_numbers.at octets.now) }
{
    match counted_numbers_of(alloc, octets) {
        Ok((numbers, rest)) => Ok((Recipients::from_vec(numbers), rest)),
        Err(Short::Left(_)) => Err(Short::Left(octets.len())),
        Err(Short::Memory) => Err(Short::Memory),
    }
}

//! Reading the body of a mark, which has nothing behind the number.

ghost use Rattle.std.specs.Prelude.{◌≡◌, IfOk, IfSome, IsTrue, None, Ok, Some};
ghost use Rattle.std.specs.Option.{option_map};
ghost use Rattle.mta_records.specs.Fields.{a_number, a_string, a_word};
ghost use Rattle.mta_records.specs.Words.{is_word};
ghost use Rattle.mta_marks.specs.declared.mark.Mark.{Mark as MarkValue};
ghost use Rattle.mta_marks.specs.Marks.{IsMark, a_place, body_of};
ghost use Rattle.mta_marks.specs.Reading.{Gives, entry_in, kind_of, mark_of, mark_with};

use crate::mark::{Mark, MarkKind};
use mta_ber::{Memory, Octets, Word};
use mta_tables::is_word;
use std::alloc::Global;

// The number at the front, and what follows it.
#[tactic(auto, unfolding(mta_records::specs::Form::number_at))]
fn number_at(octets: &[u8]) -> Option<(u32, &[u8])>
    ensures { Gives (λ x. (x.0, x.1.now)) result (a_number.at octets.now) }
{
    if octets.len() < 4 {
        return None;
    }
    let (front, rest) = octets.split_at(4);
    Some((
        u32::from_be_bytes([front[0], front[1], front[2], front[3]]),
        rest,
    ))
}

// The octets behind their length at the front, and what follows them.
#[tactic(auto, unfolding(mta_records::specs::Fields::string_at))]
fn string_at(octets: &[u8]) -> Option<(&[u8], &[u8])>
    ensures { Gives (λ x. (x.0.now, x.1.now)) result (a_string.at octets.now) }
{
    let (size, rest) = number_at(octets)?;
    let size = size as usize;
    if rest.len() < size {
        return None;
    }
    Some(rest.split_at(size))
}

// The word behind its length at the front, and what follows it.
#[tactic(auto, unfolding(mta_records::specs::Fields::word_at))]
fn word_at(octets: &[u8]) -> Option<(&[u8], &[u8])>
    ensures exact { Gives (λ x. (x.0.now, x.1.now)) result (a_word.at octets.now) }
    ensures word { IfSome result (λ x. IsTrue (is_word x.0.now)) }
{
    let (text, rest) = string_at(octets)?;
    if !is_word(text) {
        return None;
    }
    Some((text, rest))
}

// The number of an entry at the front, and what follows it.
fn place_at(octets: &[u8]) -> Option<(u32, &[u8])>
    ensures { Gives (λ x. (x.0, x.1.now)) result (a_place.at octets.now) }
{
    let (number, rest) = number_at(octets)?;
    if number == 0 {
        return None;
    }
    Some((number, rest))
}

// The mailbox and the number of an entry, with nothing behind them.
#[tactic(auto, unfolding(crate::specs::Reading::entry_in))]
fn entry_in(octets: &[u8]) -> Option<(&[u8], u32)>
    ensures exact { option_map (λ x. (x.0.now, x.1)) result ≡ entry_in octets.now }
    ensures word { IfSome result (λ x. IsTrue (is_word x.0.now)) }
{
    let Some((mailbox, rest)) = word_at(octets) else {
        return None;
    };
    let Some((number, rest)) = place_at(rest) else {
        return None;
    };
    if !rest.is_empty() {
        return None;
    }
    Some((mailbox, number))
}

fn kind_of(octet: u8) -> Option<MarkKind>
    ensures { result ≡ kind_of octet }
{
    match octet {
        1 => Some(MarkKind::Fetched),
        2 => Some(MarkKind::Deleted),
        _ => None,
    }
}

// The mark of this kind and entry.
fn mark_with(
    alloc: Global,
    kind: MarkKind,
    mailbox: &[u8],
    number: u32,
) -> Result<Option<Mark>, Memory>
    requires { IsTrue (is_word mailbox.now) }
    ensures { IfOk result (λ o. o ≡ mark_with (Some kind) (Some (mailbox.now, number))) }
{
    let octets = Octets::from_slice(alloc, mailbox)?;
    match Word::from_octets(alloc, octets)? {
        Some(mailbox) => Ok(Some(Mark {
            kind,
            mailbox,
            number,
        })),
        None => Ok(None),
    }
}

fn read_mark(alloc: Global, body: &[u8]) -> Result<Option<Mark>, Memory>
    ensures { IfOk result (λ o. o ≡ mark_of body.now) }
{
    let [octet, entry @ ..] = body else {
        return Ok(None);
    };
    let Some(kind) = kind_of(*octet) else {
        return Ok(None);
    };
    match entry_in(entry) {
        Some((mailbox, number)) => mark_with(alloc, kind, mailbox, number),
        None => Ok(None),
    }
}

/// The mark of a body; none exactly where it is that of no mark. Memory is the only error.
pub fn mark_of(alloc: Global, body: &[u8]) -> Result<Option<Mark>, Memory>
    ensures found { (m : MarkValue) → result ≡ Ok (Some m) → IsMark m × (body_of m ≡ body.now) }
    ensures none { result ≡ Ok None → (m : MarkValue) → IsMark m → body_of m ≡ body.now → ⊥ }
{
    read_mark(alloc, body)
}

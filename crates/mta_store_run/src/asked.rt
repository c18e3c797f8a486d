//! The words of the command line.

ghost use Rattle.std.specs.Prelude.{◌≡◌, IfOk, map, string_bytes};
ghost use Rattle.mta_store_run.specs.Asked.{asked_by_three, asked_by_two, asked_of, is_mailbox, is_undashed};
ghost use Rattle.mta_store_run.specs.Asked.{list_said, mailbox_said, said_with, verb_of};

use crate::number::number_in;
use mta_ber::{Memory, Octets, Word};
use mta_tables::is_word;
use std::alloc::Global;

/// What is asked of a mailbox.
#[derive(Drop)]
pub enum Asked {
    /// `list MAILBOX`: what it holds.
    List { mailbox: Word },
    /// `fetch MAILBOX N`: what the entry of this number is.
    Fetch { mailbox: Word, number: u32 },
    /// `delete MAILBOX N`: that the entry of this number goes.
    Delete { mailbox: Word, number: u32 },
}

// The commands that name an entry.
#[derive(Clone, Copy)]
enum Verb {
    Fetch,
    Delete,
}

fn is_undashed(word: &[u8]) -> bool
    ensures { result ≡ is_undashed word.now }
{
    match word {
        [] => true,
        [first, ..] => *first != b'-',
    }
}

// Whether the word may name a mailbox.
fn is_mailbox(word: &[u8]) -> bool
    ensures { result ≡ is_mailbox word.now }
{
    is_word(word) && is_undashed(word)
}

fn verb_of(word: &str) -> Option<Verb>
    ensures { result ≡ verb_of word.now }
{
    if word == "fetch" {
        Some(Verb::Fetch)
    } else if word == "delete" {
        Some(Verb::Delete)
    } else {
        None
    }
}

// The word as a mailbox, where it may name one.
fn mailbox_of(alloc: Global, word: &[u8]) -> Result<Option<Word>, Memory>
    ensures { IfOk result (λ o. o ≡ mailbox_said word.now) }
{
    if !is_mailbox(word) {
        return Ok(None);
    }
    let octets = Octets::from_slice(alloc, word)?;
    Word::from_octets(alloc, octets)
}

fn list_of(mailbox: Option<Word>) -> Option<Asked>
    ensures { result ≡ list_said mailbox }
{
    match mailbox {
        Some(mailbox) => Some(Asked::List { mailbox }),
        None => None,
    }
}

fn asked_with(verb: Verb, mailbox: Option<Word>, number: Option<u32>) -> Option<Asked>
    ensures { result ≡ said_with verb mailbox number }
{
    match (mailbox, number) {
        (Some(mailbox), Some(number)) => match verb {
            Verb::Fetch => Some(Asked::Fetch { mailbox, number }),
            Verb::Delete => Some(Asked::Delete { mailbox, number }),
        },
        _ => None,
    }
}

// What two words ask.
fn asked_by_two(alloc: Global, verb: &str, mailbox: &[u8]) -> Result<Option<Asked>, Memory>
    ensures { IfOk result (λ o. o ≡ asked_by_two verb.now mailbox.now) }
{
    if verb != "list" {
        return Ok(None);
    }
    let mailbox = mailbox_of(alloc, mailbox)?;
    Ok(list_of(mailbox))
}

// What three words ask.
fn asked_by_three(
    alloc: Global,
    verb: &str,
    mailbox: &[u8],
    number: &[u8],
) -> Result<Option<Asked>, Memory>
    ensures { IfOk result (λ o. o ≡ asked_by_three (verb_of verb.now) mailbox.now number.now) }
{
    match verb_of(verb) {
        Some(verb) => {
            let mailbox = mailbox_of(alloc, mailbox)?;
            Ok(asked_with(verb, mailbox, number_in(number)))
        }
        None => Ok(None),
    }
}

/// What the words ask: `list` and a mailbox, or `fetch` or `delete`, a mailbox and a number from 1 to 4,294,967,295
/// without leading zeros. A mailbox is a word that does not begin with `-`. Nothing where they ask none of these.
pub fn asked_of(alloc: Global, words: &[String]) -> Result<Option<Asked>, Memory>
    ensures { IfOk result (λ o. o ≡ asked_of (map string_bytes words.now)) }
{
    match words {
        [verb, mailbox] => asked_by_two(alloc, verb.as_str(), mailbox.as_bytes()),
        [verb, mailbox, number] => asked_by_three(
            alloc,
            verb.as_str(),
            mailbox.as_bytes(),
            number.as_bytes(),
        ),
        _ => Ok(None),
    }
}

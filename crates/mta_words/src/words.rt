//! What the words of the command line say.
//!
//! In come the words behind the program's name; out goes a command, or nothing where they are outside the
//! grammar, which the caller tells as the usage line. First no word may begin with `-` and the first has to be a
//! command; then `clap` splits the others; then numbers, the mailbox and the stations are read. Only want of
//! memory fails, and nothing else is touched.

ghost use Rattle.std.specs.Prelude.{◌≡◌, map, string_bytes, All, IfOk, Some};
ghost use Rattle.std.specs.List.{list_all};
ghost use Rattle.mta_words.specs.Split.{Undashed, behind, first_and_others, matched_parts, only_word};
ghost use Rattle.mta_words.specs.Stations.{number_said};
ghost use Rattle.mta_words.specs.Words.{alone, behind_verb, command_in, drill_of, drill_said, is_undashed, mailbox_of};
ghost use Rattle.mta_words.specs.Words.{command_of, serve_of, serve_said};

use crate::number::number_in;
use crate::split::{one_word, served, stands_alone};
use crate::stations::{Stations, stations_from};
use crate::verb::{Verb, verb_of};
use clap::ArgMatches;
use mta_ber::{Memory, Octets, Word};
use mta_tables::is_word;
use std::alloc::Global;

/// What the words say.
#[derive(Drop)]
pub enum Words {
    /// `submit`: record the tables, and take the APDU on standard input.
    Submit,
    /// `serve SESSIONS STATION...`: serve 1 to 1,000,000 sessions at each of 1 to 16 stations.
    Serve { sessions: u32, stations: Stations },
    /// `spool`: print the queue.
    Queue,
    /// `read MAILBOX`: print what this mailbox got.
    Mailbox(Word),
    /// `decode`: print the APDU on standard input.
    Decode,
    /// `drill N`: pass 1 to 100,000 messages between two agents in memory.
    Drill(u32),
}

fn is_undashed(word: &str) -> bool
    ensures { result ≡ is_undashed word.now }
{
    match word.as_bytes() {
        [] => true,
        [first, ..] => *first != b'-',
    }
}

// Whether no word begins with `-`.
fn are_undashed(words: &[String]) -> bool
    ensures { result ≡ list_all (λ w. is_undashed (string_bytes w)) words.now }
{
    words.iter().all(|word| is_undashed(word.as_str()))
}

// The command, where no word stands behind it.
fn alone(alloc: Global, command: Words, words: &[String]) -> Result<Option<Words>, Memory>
    requires { All Undashed (behind (map string_bytes words.now)) }
    ensures { IfOk result (λ o. o ≡ alone command (behind (map string_bytes words.now))) }
{
    if stands_alone(alloc, words)? {
        Ok(Some(command))
    } else {
        Ok(None)
    }
}

fn mailbox_named(alloc: Global, name: &[u8]) -> Result<Option<Words>, Memory>
    ensures { IfOk result (λ o. o ≡ mailbox_of (Some name.now)) }
{
    if !is_word(name) {
        return Ok(None);
    }
    let octets = Octets::from_slice(alloc, name)?;
    match Word::from_octets(alloc, octets)? {
        Some(word) => Ok(Some(Words::Mailbox(word))),
        None => Ok(None),
    }
}

fn mailbox(alloc: Global, words: &[String]) -> Result<Option<Words>, Memory>
    requires { All Undashed (behind (map string_bytes words.now)) }
    ensures { IfOk result (λ o. o ≡ mailbox_of (only_word (behind (map string_bytes words.now)))) }
{
    match one_word(alloc, words)? {
        Some(name) => mailbox_named(alloc, name.as_bytes()),
        None => Ok(None),
    }
}

fn drill_of(messages: &[u8]) -> Option<Words>
    ensures { result ≡ drill_said (number_said 1 100000 messages.now) }
{
    match number_in(1, 100_000, messages) {
        Some(messages) => Some(Words::Drill(messages)),
        None => None,
    }
}

fn drill(alloc: Global, words: &[String]) -> Result<Option<Words>, Memory>
    requires { All Undashed (behind (map string_bytes words.now)) }
    ensures { IfOk result (λ o. o ≡ drill_of (only_word (behind (map string_bytes words.now)))) }
{
    match one_word(alloc, words)? {
        Some(messages) => Ok(drill_of(messages.as_bytes())),
        None => Ok(None),
    }
}

fn serve_at(sessions: u32, stations: Option<Stations>) -> Option<Words>
    ensures { result ≡ serve_said (Some sessions) stations }
{
    match stations {
        Some(stations) => Some(Words::Serve { sessions, stations }),
        None => None,
    }
}

fn serve_of(alloc: Global, sessions: &str, stations: &[&str]) -> Result<Option<Words>, Memory>
    ensures { IfOk result (λ o. o ≡ serve_of (Some (sessions.now, map (λ w. w.now) stations.now))) }
{
    match number_in(1, 1_000_000, sessions.as_bytes()) {
        Some(sessions) => {
            let stations = stations_from(alloc, Stations::new(alloc), stations)?;
            Ok(serve_at(sessions, stations))
        }
        None => Ok(None),
    }
}

// The command of words that were split.
fn serve_split(alloc: Global, matches: &ArgMatches<'_>) -> Result<Option<Words>, Memory>
    ensures { IfOk result (λ o. o ≡ serve_of (matched_parts matches.now)) }
{
    match matches.get_str("sessions") {
        Some(sessions) => match matches.get_raw("stations") {
            Some(stations) => serve_of(alloc, sessions, stations),
            None => Ok(None),
        },
        None => Ok(None),
    }
}

fn serve(alloc: Global, words: &[String]) -> Result<Option<Words>, Memory>
    requires { All Undashed (behind (map string_bytes words.now)) }
    ensures { IfOk result (λ o. o ≡ serve_of (first_and_others (behind (map string_bytes words.now)))) }
{
    match served(alloc, words)? {
        Some(matches) => serve_split(alloc, &matches),
        None => Ok(None),
    }
}

// The command of this first word and the others.
fn behind_verb(alloc: Global, verb: Verb, words: &[String]) -> Result<Option<Words>, Memory>
    requires { All Undashed (behind (map string_bytes words.now)) }
    ensures { IfOk result (λ o. o ≡ behind_verb (Some verb) (behind (map string_bytes words.now))) }
{
    match verb {
        Verb::Submit => alone(alloc, Words::Submit, words),
        Verb::Serve => serve(alloc, words),
        Verb::Spool => alone(alloc, Words::Queue, words),
        Verb::Read => mailbox(alloc, words),
        Verb::Decode => alone(alloc, Words::Decode, words),
        Verb::Drill => drill(alloc, words),
    }
}

fn command_in(alloc: Global, words: &[String]) -> Result<Option<Words>, Memory>
    requires { All Undashed (behind (map string_bytes words.now)) }
    ensures { IfOk result (λ o. o ≡ command_in (map string_bytes words.now)) }
{
    match words {
        [] => Ok(None),
        [first, ..] => match verb_of(first.as_str()) {
            Some(verb) => behind_verb(alloc, verb, words),
            None => Ok(None),
        },
    }
}

#[tactic(auto, using(crate::proofs::WordsLaws::of_words))]
fn read_words(alloc: Global, words: &[String]) -> Result<Option<Words>, Memory>
    ensures { IfOk result (λ o. o ≡ command_of (map string_bytes words.now)) }
{
    if !are_undashed(words) {
        return Ok(None);
    }
    command_in(alloc, words)
}

impl Words {
    ghost use Rattle.mta_words.specs.declared.words.Words.{Words};
    ghost use Rattle.mta_words.specs.Words.{Says};

    /// What the words say, without the program's name; nothing where they are outside the grammar. Memory is the
    /// only error.
    pub fn read(alloc: Global, words: &[String]) -> Result<Option<Words>, Memory>
        // What is answered is what the words say, and what they say is answered; so nothing is answered exactly
        // where no command has these words.
        ensures found { (command : Words) → result ≡ Ok (Some command)
            → Says (map string_bytes words.now) command }
        ensures only { (command : Words) → Says (map string_bytes words.now) command
            → IfOk result (λ o. o ≡ Some command) }

        // The same as a function.
        ensures exact { IfOk result (λ o. o ≡ command_of (map string_bytes words.now)) }
    {
        read_words(alloc, words)
    }
}

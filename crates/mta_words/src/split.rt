//! The words behind a command, split by `clap`.
//!
//! In come the words of the command line, of which the first is the command and none begins with `-`;
//! out go those behind it, by their places. `clap` names a word that is missing or one too many; its text of
//! that goes unread, since the program has one line for words outside its grammar.

ghost use Rattle.std.specs.Prelude.{◌≡◌, true, map, string_bytes, option_map, All, IfOk};
ghost use Rattle.clap.specs.Words.{app_of, is_simple_and_free};
ghost use Rattle.mta_words.specs.Split.{Undashed, IsMatched, IsServed, behind, is_nothing, only_word};

use clap::error::ErrorKind;
use clap::{Arg, ArgAction, ArgMatches, Command};
use mta_ber::Memory;
use std::alloc::Global;

// What the command makes of the words; nothing where it does not take them.
fn matched<'a>(command: Command<'a>, words: &'a [String]) -> Result<Option<ArgMatches<'a>>, Memory>
    requires { is_simple_and_free (app_of command) ≡ true }
    ensures { IfOk result (IsMatched (app_of command.entry) (map string_bytes words.entry.now)) }
{
    match command.try_get_matches_from(words) {
        Ok(matches) => Ok(Some(matches)),
        Err(error) => match error.kind() {
            ErrorKind::OutOfMemory => Err(Memory),
            _ => Ok(None),
        },
    }
}

/// Whether no word stands behind the command.
pub fn stands_alone(alloc: Global, words: &[String]) -> Result<bool, Memory>
    requires { All Undashed (behind (map string_bytes words.now)) }
    ensures { IfOk result (λ b. b ≡ is_nothing (behind (map string_bytes words.now))) }
{
    let command = Command::new(alloc, "mta");
    Ok(matched(command, words)?.is_some())
}

/// The word behind the command, where it is the only one.
pub fn one_word<'a>(alloc: Global, words: &'a [String]) -> Result<Option<&'a str>, Memory>
    requires { All Undashed (behind (map string_bytes words.now)) }
    ensures { IfOk result (λ o. option_map (λ s. s.now) o ≡ only_word (behind (map string_bytes words.entry.now))) }
{
    let word = Arg::new(alloc, "word").required(true);
    let command = Command::new(alloc, "mta").arg(word)?;
    match matched(command, words)? {
        Some(matches) => Ok(matches.get_str("word")),
        None => Ok(None),
    }
}

/// The words behind `serve`: one as `sessions`, and one or more as `stations`; nothing where they are not so many.
pub fn served<'a>(alloc: Global, words: &'a [String]) -> Result<Option<ArgMatches<'a>>, Memory>
    requires { All Undashed (behind (map string_bytes words.now)) }
    ensures { IfOk result (IsServed (behind (map string_bytes words.entry.now))) }
{
    let sessions = Arg::new(alloc, "sessions").required(true);
    let stations = Arg::new(alloc, "stations")
        .required(true)
        .action(ArgAction::Append);
    let command = Command::new(alloc, "mta").arg(sessions)?.arg(stations)?;
    matched(command, words)
}

//! Command lines. A row has `taken` or `usage`, and behind a tab the words, one space between two; a row without a tab
//! has no words. A row that is answered otherwise is printed, where words that are taken have to come back as they
//! were. The rows were written from the grammar by hand.

use anyhow::Result;
use mta_rows::words_of;
use mta_words::{StationWord, Words};
use std::alloc::{AllocError, Global};

fn text_of(octets: &[u8]) -> &str {
    match str::from_utf8(octets) {
        Ok(text) => text,
        Err(_) => "?",
    }
}

fn station_text(alloc: Global, station: &StationWord) -> Result<String, AllocError> {
    match station {
        StationWord::In { port } => format!(in alloc; " in:{port}"),
        StationWord::Out { peer, host, port } => {
            let peer = text_of(peer.as_slice());
            let host = text_of(host.as_slice());
            format!(in alloc; " out:{peer}:{host}:{port}")
        }
    }
}

fn serve_text(
    alloc: Global,
    sessions: u32,
    stations: &[StationWord],
) -> Result<String, AllocError> {
    let mut text = format!(in alloc; "serve {sessions}")?;
    for station in stations {
        let word = station_text(alloc, station)?;
        text.push_str(word.as_str())?;
    }
    Ok(text)
}

/// The words of a command.
fn words_text(alloc: Global, words: &Words) -> Result<String, AllocError> {
    match words {
        Words::Submit => format!(in alloc; "submit"),
        Words::Serve { sessions, stations } => serve_text(alloc, *sessions, stations.as_slice()),
        Words::Queue => format!(in alloc; "spool"),
        Words::Mailbox(name) => {
            let name = text_of(name.as_slice());
            format!(in alloc; "read {name}")
        }
        Words::Decode => format!(in alloc; "decode"),
        Words::Drill(messages) => format!(in alloc; "drill {messages}"),
    }
}

/// What the words say, as words.
fn said(alloc: Global, words: &[String]) -> Result<String, AllocError> {
    match Words::read(alloc, words) {
        Ok(Some(words)) => words_text(alloc, &words),
        Ok(None) => format!(in alloc; "usage"),
        Err(_) => format!(in alloc; "memory"),
    }
}

fn print_row(rt: &impl Print, line: &str, said: &str) -> Result<()> {
    println!(rt; "{line}: {said}")?;
    Ok(())
}

/// Prints a row that is answered otherwise than it says.
fn try_words(
    rt: &impl Print,
    alloc: Global,
    expected: &str,
    line: &str,
    words: &[String],
) -> Result<()> {
    let said = said(alloc, words)?;
    let wanted = if expected == "taken" { line } else { expected };
    if said.as_str() != wanted {
        print_row(rt, line, said.as_str())?;
    }
    Ok(())
}

/// Prints a row that is answered otherwise than it says. Each asks something.
pub fn try_row(rt: &impl Print, alloc: Global, row: &str) -> Result<bool> {
    match row.split_once('\t') {
        Some((expected, line)) => {
            let words = words_of(alloc, line, ' ')?;
            try_words(rt, alloc, expected, line, words.as_slice())?;
        }
        None => {
            let words = Vec::new(alloc);
            try_words(rt, alloc, row, "no words", words.as_slice())?;
        }
    }
    Ok(true)
}

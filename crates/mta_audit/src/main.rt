//! `mta_audit`, two spools lane by lane: the process.
//!
//! `main` makes sure that the descriptors of the standard streams are taken, reads the words, names the two files and
//! standard output, and hands them to `audit_run`; it ends with the status that this answers. Both files are made where
//! they are absent, and locked in the order of their devices and numbers, before either is read, and the locks go with
//! the process. Words that are not UTF-8 are told the usage line, and so are two that name one file. A file that cannot
//! be opened, and what is no regular file, fails at every call, so it is told as a disk fault.
#![tactic(auto)]

use mta_audit_run::{Stop, audit_run, tell};
use mta_host::{FileDisk, NO_STREAMS, Pair, Path, Process, Streams, Writing};
use std::process::ExitCode;
use std::{env, io, process};

// How many files the words name.
const FILES: usize = 2;

// The words behind the program's name.
fn arguments(rt: &HostRuntime) -> io::Result<Vec<String>> {
    let mut words = Vec::new(rt.alloc());
    for word in env::args(rt)?.skip(1) {
        words.push(word)?;
    }
    Ok(words)
}

// Why there are no words: one is not UTF-8, or memory was short.
fn stop_of_words(error: &io::Error) -> Stop {
    match error.kind() {
        io::ErrorKind::InvalidData => Stop::Usage,
        _ => Stop::Memory,
    }
}

// The word at a place, from 0; an empty text where there is none.
fn word_at(words: &[String], place: usize) -> &str {
    match words.get(place) {
        Some(word) => word.as_str(),
        None => "",
    }
}

// The folder in which a file stands.
fn folder_of(path: &str) -> &str {
    match path.rsplit_once('/') {
        Some(("", _)) => "/",
        Some((folder, _)) => folder,
        None => ".",
    }
}

// Where the file at a path is.
fn path_of(path: &str) -> Path<'_> {
    Path {
        folder: folder_of(path),
        path,
    }
}

fn main(rt: HostRuntime) -> ExitCode {
    let Ok(_streams) = Streams::taken(&rt) else {
        return ExitCode::from(NO_STREAMS);
    };
    let mut out = Writing::new(io::writer(&rt));
    let words = match arguments(&rt) {
        Ok(words) => words,
        Err(error) => {
            let status = tell(rt.alloc(), &mut out, stop_of_words(&error));
            return ExitCode::from(status);
        }
    };
    let words = words.as_slice();
    let process = Process::new(&rt, process::id(rt.process()));
    let pair = Pair::new();
    let (first, second) = (word_at(words, 0), word_at(words, 1));
    let is_one = first == second;
    let (mut first, second) = FileDisk::pair(&rt, &process, path_of(first), path_of(second), &pair);
    if words.len() == FILES && (is_one || first.is_one()) {
        return ExitCode::from(tell(rt.alloc(), &mut out, Stop::Usage));
    }
    let audited = audit_run(rt.alloc(), words, &mut out, first, second);
    ExitCode::from(audited.status)
}

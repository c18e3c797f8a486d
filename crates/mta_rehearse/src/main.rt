//! `mta_rehearse`, where the messages for an O/R name would go through the tables of several agents: the process.
//!
//! `main` makes sure that the descriptors of the standard streams are taken, reads the words, opens `mta.tables` in the
//! folder in which it is called, and hands them to `rehearse_run`; it ends with the status that this answers. It opens no spool. Words that are not UTF-8 are told
//! the usage line. A file that cannot be opened fails at every call, so it is told as a source fault.
#![tactic(auto)]

use mta_host::{NO_STREAMS, Octets, Reading, Streams, Writing};
use mta_rehearse_run::{Stop, rehearse_run, tell};
use std::fs::File;
use std::process::ExitCode;
use std::{env, io};

// The words behind the program's name.
fn arguments(rt: &HostRuntime) -> io::Result<Vec<String>> {
    let mut words = Vec::new(rt.alloc());
    for word in env::args(rt)?.skip(1) {
        words.push(word)?;
    }
    Ok(words)
}

// Why there are no words: one is not UTF-8, or memory was short.
fn stop_of_words(error: &io::Error) -> Stop {
    match error.kind() {
        io::ErrorKind::InvalidData => Stop::Usage,
        _ => Stop::Memory,
    }
}

// The file of the texts.
fn conf_of(rt: &HostRuntime) -> Reading<File> {
    Reading::new(Octets::File(File::open(rt, "mta.tables").ok()))
}

fn main(rt: HostRuntime) -> ExitCode {
    let Ok(_streams) = Streams::taken(&rt) else {
        return ExitCode::from(NO_STREAMS);
    };
    let mut out = Writing::new(io::writer(&rt));
    let status = match arguments(&rt) {
        Ok(words) => rehearse_run(rt.alloc(), &words, &mut conf_of(&rt), &mut out),
        Err(error) => tell(rt.alloc(), &mut out, &stop_of_words(&error)),
    };
    ExitCode::from(status)
}

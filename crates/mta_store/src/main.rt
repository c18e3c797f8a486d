//! `mta_store`, what a mailbox holds: the process.
//!
//! `main` makes sure that the descriptors of the standard streams are taken, reads the words, names `mta.spool` and
//! `mta.marks` in the folder in which it is called, standard output and the system's clock, and hands them to
//! `store_run`; it ends with the status that this answers. Both files are made where they are absent, and locked, at the
//! first call of the spool's disk, and the locks go with the process. Words that are not UTF-8 are told the usage line.
//! A file that cannot be opened fails at every call, so it is told as a disk fault, and so are two names of one file.
#![tactic(auto)]

use mta_ber::Memory;
use mta_host::{FileDisk, NO_STREAMS, Pair, Path, Process, Streams, SystemClock, Writing};
use mta_store_run::{Stop, store_run, tell};
use std::process::ExitCode;
use std::{env, io, process};

// The spool and its marks, in the folder in which the program is called.
const SPOOL: Path<'static> = Path {
    folder: ".",
    path: "mta.spool",
};

const MARKS: Path<'static> = Path {
    folder: ".",
    path: "mta.marks",
};

// The words behind the program's name.
fn arguments(rt: &HostRuntime) -> io::Result<Vec<String>> {
    let mut words = Vec::new(rt.alloc());
    for word in env::args(rt)?.skip(1) {
        words.push(word)?;
    }
    Ok(words)
}

// Why there are no words: one is not UTF-8, or memory was short.
fn stop_of_words(error: &io::Error) -> Stop {
    match error.kind() {
        io::ErrorKind::InvalidData => Stop::Usage,
        _ => Stop::from(Memory),
    }
}

fn main(rt: HostRuntime) -> ExitCode {
    let Ok(_streams) = Streams::taken(&rt) else {
        return ExitCode::from(NO_STREAMS);
    };
    let mut out = Writing::new(io::writer(&rt));
    let words = match arguments(&rt) {
        Ok(words) => words,
        Err(error) => {
            let status = tell(rt.alloc(), &mut out, stop_of_words(&error));
            return ExitCode::from(status);
        }
    };
    let process = Process::new(&rt, process::id(rt.process()));
    let pair = Pair::new();
    let (spool, marks) = FileDisk::pair(&rt, &process, SPOOL, MARKS, &pair);
    let stored = store_run(
        rt.alloc(),
        words.as_slice(),
        &mut out,
        spool,
        marks,
        SystemClock::new(&rt),
    );
    ExitCode::from(stored.status)
}

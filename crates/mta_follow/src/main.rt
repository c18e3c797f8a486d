//! `mta_follow`, a standby on another machine: the process.
//!
//! `main` makes sure that the descriptors of the standard streams are taken, reads the words, names `mta.spool` in the
//! folder in which it is called and standard output, makes the station that the words name, and hands all to
//! `follow_run`; it ends with the status that this answers. The file is opened, made where it is absent, and locked at
//! its disk's first call, and the lock goes with the process. Words that are not UTF-8 are told the usage line. What
//! cannot be opened fails at every call, so it is told as a fault of that object.
#![tactic(auto)]

use mta_ber::{Memory, Octets, Word};
use mta_follow_run::{Command, Stop, command_of, follow_run, tell};
use mta_host::{
    FileDisk, NO_STREAMS, Path, Patience, Process, Streams, SystemClock, TcpStation, Writing,
};
use mta_links::Role;
use std::process::ExitCode;
use std::time::Duration;
use std::{env, io, process};

// The spool, in the folder in which the program is called.
const SPOOL: Path<'static> = Path {
    folder: ".",
    path: "mta.spool",
};

// What the notes of a station call the standby.
const STANDBY: &[u8] = b"standby";

// The words behind the program's name.
fn arguments(rt: &HostRuntime) -> io::Result<Vec<String>> {
    let mut words = Vec::new(rt.alloc());
    for word in env::args(rt)?.skip(1) {
        words.push(word)?;
    }
    Ok(words)
}

// Why there are no words: one is not UTF-8, or memory was short.
fn stop_of_words(error: &io::Error) -> Stop {
    match error.kind() {
        io::ErrorKind::InvalidData => Stop::Usage,
        _ => Stop::Memory,
    }
}

// The role of a station that calls the standby.
fn calling(rt: &HostRuntime) -> Result<Role, Memory> {
    let alloc = rt.alloc();
    match Word::from_octets(alloc, Octets::from_slice(alloc, STANDBY)?)? {
        Some(word) => Ok(Role::Out(word)),
        None => Ok(Role::In),
    }
}

// How long a station waits for its peer. The standby puts its first unit once it has the first record whole, which may
// be long, so it has no time for that.
fn patience() -> Patience {
    let mut patience = Patience::usual();
    patience.admission = Duration::MAX;
    patience
}

// The station of the words: the standby's host and port, or the port at which it listens. Of other words none is asked
// for a link.
fn station_of<'a>(
    rt: &'a HostRuntime,
    process: &'a Process,
    words: &[String],
) -> Result<TcpStation<'a, HostRuntime>, Memory> {
    let patience = patience();
    match command_of(words) {
        Some(Command::Push { host, port }) => {
            let role = calling(rt)?;
            let host = host.to_string(rt.alloc())?;
            Ok(TcpStation::calling(rt, process, role, host, port, patience))
        }
        Some(Command::Pull { port }) => Ok(TcpStation::listening(rt, process, port, patience)),
        None => Ok(TcpStation::listening(rt, process, 0, patience)),
    }
}

// Reads the words, and has `follow_run` do what they say with the file, the output and the station of the process. It
// answers the status.
fn status_of<'a>(rt: &'a HostRuntime, process: &'a Process) -> u8 {
    let mut out = Writing::new(io::writer(rt));
    let words = match arguments(rt) {
        Ok(words) => words,
        Err(error) => return tell(&mut out, stop_of_words(&error)),
    };
    let station = match station_of(rt, process, words.as_slice()) {
        Ok(station) => station,
        Err(_) => return tell(&mut out, Stop::Memory),
    };
    let disk = FileDisk::new(rt, process, SPOOL);
    let clock = SystemClock::new(rt);
    let followed = follow_run(rt.alloc(), words.as_slice(), &mut out, disk, station, clock);
    followed.status
}

fn main(rt: HostRuntime) -> ExitCode {
    let Ok(_streams) = Streams::taken(&rt) else {
        return ExitCode::from(NO_STREAMS);
    };
    let process = Process::new(&rt, process::id(rt.process()));
    ExitCode::from(status_of(&rt, &process))
}

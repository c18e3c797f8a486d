//! What a station does, as a line of a file that monitoring reads.
//!
//! All stations of a process share the file: line K, of `LINE` octets with its line feed, is that of station K. A
//! station writes its line anew, by one call, where something changed, and once more when it ends. Where the file
//! cannot be written nothing else changes.

ghost use Rattle.std.specs.Prelude.{◌≡◌};

use crate::host::Host;
use crate::process::Process;
use arrayvec::ArrayString;
use mta_links::CloseWhy;
use std::fmt::Write;
use std::fs::{File, OpenOptions, Permissions};
use std::io;
use std::net::SocketAddr;
use std::os::unix::fs::{FileExt, OpenOptionsExt, PermissionsExt};
use std::time::SystemTime;

// The octets of a line with its line feed, of the words at its end, and of those before them.
const LINE: usize = 512;

const TAIL: usize = 60;

const HEAD: usize = LINE - 1 - TAIL;

// The longest name of a station: a host's name has at most 253 octets.
const NAME: usize = 300;

// The longest text of an error; a longer one is left out.
const WHY: usize = 100;

// Only the agent's user reads it.
const MODE: u32 = 0o600;

/// The line of a station in the file at this path.
#[derive(Clone, Copy)]
pub struct Place<'a> {
    pub path: &'a str,
    /// The station's number, from 1.
    pub station: u32,
    /// How many stations the process has.
    pub stations: u32,
}

// How often something happened, and when it last did, in seconds since 1970.
#[derive(Clone, Copy)]
struct Count {
    count: u64,
    at: u64,
}

impl Count {
    fn none() -> Count {
        Count { count: 0, at: 0 }
    }

    fn add(&mut self, more: u64, now: u64) {
        self.count = self.count.saturating_add(more);
        self.at = now;
    }
}

// The word for why a station has ended.
fn word_of(why: CloseWhy) -> &'static str {
    match why {
        CloseWhy::Served => "served",
        CloseWhy::GivenUp => "given-up",
        CloseWhy::Refused => "refused",
    }
}

/// What a station does. Nothing is written where it has no place.
#[derive(Drop)]
pub(crate) struct Notes<'a> {
    process: &'a Process,
    place: Option<Place<'a>>,
    file: Option<File>,
    name: ArrayString<NAME>,
    since: u64,
    waiting: usize,
    dropped: Count,
    sessions: Count,
    peer: Option<SocketAddr>,
    peer_at: u64,
    code: i32,
    why: ArrayString<WHY>,
    error_at: u64,
    ended: Option<CloseWhy>,
    ended_at: u64,
    is_changed: bool,
}

// The moment, in seconds since 1970, and 0 where the clock cannot be read.
fn moment<R: Host>(host: &R) -> u64 {
    let Ok(now) = SystemTime::now(host) else {
        return 0;
    };
    match now.duration_since(SystemTime::UNIX_EPOCH) {
        Ok(since) => since.as_secs(),
        Err(_) => 0,
    }
}

// The address, as IPv4 where it is one in the form of IPv6.
fn plain(address: SocketAddr) -> SocketAddr {
    SocketAddr::new(address.ip().to_canonical(), address.port())
}

// The octets of the lines of so many stations.
fn octets_of(stations: u32) -> u64 {
    u64::from(stations) * LINE as u64
}

// The file, which is made where it is absent, with room for the lines of all stations and of no more.
fn open<R: Host>(host: &R, place: Place<'_>) -> io::Result<File> {
    let file = OpenOptions::new()
        .write(true)
        .create(true)
        .mode(MODE)
        .open(host, place.path)?;
    file.set_permissions(Permissions::from_mode(MODE))?;
    file.set_len(octets_of(place.stations))?;
    Ok(file)
}

impl<'a> Notes<'a> {
    /// Of a station of this name: `in` or `out`, and where.
    pub(crate) fn new(process: &'a Process, name: ArrayString<NAME>) -> Notes<'a> {
        Notes {
            process,
            place: None,
            file: None,
            name,
            since: 0,
            waiting: 0,
            dropped: Count::none(),
            sessions: Count::none(),
            peer: None,
            peer_at: 0,
            code: 0,
            why: ArrayString::new(),
            error_at: 0,
            ended: None,
            ended_at: 0,
            is_changed: true,
        }
    }

    pub(crate) fn of_port(process: &'a Process, port: u16) -> Notes<'a> {
        let mut name = ArrayString::new();
        let _ = write!(name, "in {port}");
        Notes::new(process, name)
    }

    pub(crate) fn of_peer(process: &'a Process, host: &str, port: u16) -> Notes<'a> {
        let mut name = ArrayString::new();
        let _ = write!(name, "out {host}:{port}");
        Notes::new(process, name)
    }

    /// From now on they are written there.
    pub(crate) fn set_place(&mut self, place: Place<'a>) {
        self.place = Some(place);
    }

    /// It listens since now.
    pub(crate) fn listens<R: Host>(&mut self, host: &R) {
        self.since = moment(host);
        self.is_changed = true;
    }

    /// So many connections wait.
    pub(crate) fn waits(&mut self, waiting: usize) {
        self.is_changed = self.is_changed || self.waiting != waiting;
        self.waiting = waiting;
    }

    /// So many connections were dropped.
    pub(crate) fn drops<R: Host>(&mut self, host: &R, count: usize) {
        if count > 0 {
            self.dropped.add(count as u64, moment(host));
            self.is_changed = true;
        }
    }

    /// A session with the peer at this address begins.
    pub(crate) fn begins<R: Host>(&mut self, host: &R, peer: io::Result<SocketAddr>) {
        let now = moment(host);
        self.sessions.add(1, now);
        self.peer = peer.ok();
        self.peer_at = now;
        self.is_changed = true;
    }

    /// A call of the system failed.
    pub(crate) fn fails<R: Host>(&mut self, host: &R, error: &io::Error) {
        self.code = error.raw_os_error().unwrap_or(0);
        self.why.clear();
        let _ = write!(self.why, "{error}");
        self.error_at = moment(host);
        self.is_changed = true;
    }

    /// It has ended for this reason: it listens no more, and no connection waits.
    pub(crate) fn ends<R: Host>(&mut self, host: &R, why: CloseWhy) {
        self.since = 0;
        self.waiting = 0;
        self.ended = Some(why);
        self.ended_at = moment(host);
        self.is_changed = true;
    }

    // The line. What does not fit before the words at its end is left out.
    fn line(&self, station: u32) -> [u8; LINE] {
        let mut head = ArrayString::new();
        let _ = self.write_head(&mut head, station);
        let mut tail = ArrayString::new();
        let _ = self.write_tail(&mut tail);
        let mut line = [b' '; LINE];
        let (before, behind) = (head.len(), head.len() + tail.len());
        line[..before].copy_from_slice(head.as_str().as_bytes());
        line[before..behind].copy_from_slice(tail.as_str().as_bytes());
        line[LINE - 1] = b'\n';
        line
    }

    fn write_tail(&self, text: &mut ArrayString<TAIL>) -> std::fmt::Result {
        let word = self.ended.map_or("-", word_of);
        let (number, at) = (self.process.number, self.ended_at);
        write!(text, " process {number} ended {word} at {at}")
    }

    fn write_head(&self, text: &mut ArrayString<HEAD>, station: u32) -> std::fmt::Result {
        write!(
            text,
            "station {station} {} since {}",
            self.name.as_str(),
            self.since
        )?;
        write!(text, " waiting {}", self.waiting)?;
        write!(
            text,
            " dropped {} at {}",
            self.dropped.count, self.dropped.at
        )?;
        write!(
            text,
            " sessions {} at {}",
            self.sessions.count, self.sessions.at
        )?;
        match self.peer {
            Some(peer) => write!(text, " peer {} at {}", plain(peer), self.peer_at)?,
            None => write!(text, " peer - at {}", self.peer_at)?,
        }
        write!(
            text,
            " error {} at {} {}",
            self.code,
            self.error_at,
            self.why.as_str()
        )
    }

    /// Writes the line, where something changed since it was written.
    pub(crate) fn write<R: Host>(&mut self, host: &R) {
        let Some(place) = self.place else {
            return;
        };
        if !self.is_changed || !self.process.may_write(octets_of(place.stations)) {
            return;
        }
        if self.file.is_none() {
            self.file = open(host, place).ok();
        }
        if let Some(file) = &self.file {
            let line = self.line(place.station);
            let at = octets_of(place.station.saturating_sub(1));
            self.is_changed = file.write_all_at(&line, at).is_err();
        }
    }
}

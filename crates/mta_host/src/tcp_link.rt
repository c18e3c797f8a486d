//! Connections over TCP as links.
//!
//! Each call of a link is one call of the system on the whole piece, again where a signal interrupts
//! it and where a pause is over in which the peer gave or took nothing. A connection without delay of
//! small writes carries the octets, and it is closed where its link comes back. They tell nothing of what they carry: that the octets which the peer put are those which
//! a link gives is trusted.

ghost use Rattle.std.specs.Prelude.{◌≡◌, ◌<◌, ◌≤◌, IfSome, length};
ghost use Rattle.mta_edge.specs.Causes.{Rose};
ghost use Rattle.mta_links.specs.Links.{untold_link};

use crate::host::Host;
use crate::patience::Patience;
use crate::process::Process;
use crate::streams::{read_some, write_some};
use crate::unit::Pace;
use mta_edge::Failed;
use mta_links::Link;
use std::io::{self, ErrorKind};
use std::net::{SocketAddr, TcpStream};
use std::time::{Duration, Instant};

// An association in which nothing is sent takes fewer octets, both ways together.
const IDLE_OCTETS: u64 = 1024;

// The shortest time that a socket waits, in milliseconds.
const SHORTEST: u64 = 1;

/// How a session over a link went.
#[derive(Clone, Copy, Debug, PartialEq, Eq)]
pub enum Went {
    /// The peer gave no unit.
    Nowhere,
    /// Neither end had anything to send.
    Idle,
    /// Something went over the link.
    Through,
}

/// A link over a connection, which is closed where the link is dropped. A call fails where the connection is broken,
/// where the peer gives or takes nothing for as long as the station's patience says, and where it gives too little in
/// that time while a unit is under way. A link that a port gave fails, too, where the agent has put nothing on it for as
/// long as the patience says. Once the process has failed a call fails that would wait, and each one a while later.
#[derive(Drop)]
pub struct TcpLink<'a, R> {
    host: &'a R,
    process: &'a Process,
    stream: TcpStream,
    patience: Patience,
    // How long a call of the system waits.
    slice: Duration,
    // Since when the peer gives octets for as long as `admission` at most, where that is so.
    limited: Option<Instant>,
    pace: Pace,
    faults: u64,
    // The octets that went either way, and whether the peer gave its last one.
    moved: u64,
    ended: bool,
}

impl<'a, R: Host> TcpLink<'a, R> {
    pub(crate) fn new(
        host: &'a R,
        process: &'a Process,
        stream: TcpStream,
        patience: Patience,
    ) -> io::Result<TcpLink<'a, R>> {
        let shortest = Duration::from_millis(SHORTEST);
        let slice = patience.pause.min(patience.silence).max(shortest);
        stream.set_nonblocking(false)?;
        stream.set_nodelay(true)?;
        stream.set_read_timeout(Some(slice))?;
        stream.set_write_timeout(Some(slice))?;
        Ok(TcpLink {
            host,
            process,
            stream,
            patience,
            slice,
            limited: None,
            pace: Pace::new(),
            faults: 0,
            moved: 0,
            ended: false,
        })
    }

    /// From now on the peer gives octets for as long as `admission` at most, unless the agent puts some.
    pub(crate) fn limit(&mut self)
        ensures { self.new.faults ≡ self.old.faults }
    {
        self.limited = Instant::now(self.host).ok();
    }

    /// The peer's address.
    pub(crate) fn peer(&self) -> io::Result<SocketAddr> {
        self.stream.peer_addr()
    }

    /// How the session over it went so far.
    pub(crate) fn went(&self) -> Went {
        if self.pace.units() == 0 {
            Went::Nowhere
        } else if self.faults == 0 && !self.ended && self.moved < IDLE_OCTETS {
            Went::Idle
        } else {
            Went::Through
        }
    }

    // Whether it is too late for the peer to give octets: the agent has put nothing for too long, or the process failed
    // a while ago.
    fn is_too_late(&mut self) -> bool
        ensures { self.new.faults ≡ self.old.faults }
    {
        if self.limited.is_none() && self.process.has_failed() {
            self.limit();
        }
        let Some(since) = self.limited else {
            return false;
        };
        match Instant::now(self.host) {
            Ok(now) => now.duration_since(since) >= self.patience.admission,
            Err(_) => false,
        }
    }

    // Whether the peer gave too little of the unit that is under way.
    fn is_slow(&mut self) -> bool
        ensures { self.new.faults ≡ self.old.faults }
    {
        if !self.pace.is_under_way() {
            return false;
        }
        let now = Instant::now(self.host).ok();
        self.pace.is_slow(now, self.patience.silence)
    }

    // Whether a call that has waited for so long goes on waiting.
    fn goes_on(&self, waited: Duration) -> bool {
        waited < self.patience.silence && !self.process.has_failed()
    }

    // The count of what the peer gave, once it gave something.
    fn read(&mut self, into: &mut [u8]) -> Option<usize>
        ensures faults { self.new.faults ≡ self.old.faults }
        ensures bound { IfSome result (λ n. n ≤ length into.new) }
    {
        let mut waited = Duration::ZERO;
        for _ in 0..u64::MAX {
            match read_some(&mut self.stream, into) {
                Ok(count) => return Some(count),
                Err(error) if error.kind() == ErrorKind::WouldBlock => {}
                Err(_) => return None,
            }
            waited = waited.saturating_add(self.slice);
            if self.is_too_late() || !self.goes_on(waited) {
                return None;
            }
        }
        None
    }

    // The count of what the peer took, once it took something.
    fn write(&mut self, bytes: &[u8]) -> Option<usize>
        ensures faults { self.new.faults ≡ self.old.faults }
        ensures bound { IfSome result (λ n. n ≤ length bytes.now) }
        ensures some { IfSome result (λ n. 0 < length bytes.now → 0 < n) }
    {
        let mut waited = Duration::ZERO;
        for _ in 0..u64::MAX {
            match write_some(&mut self.stream, bytes) {
                Ok(count) => return Some(count),
                Err(error) if error.kind() == ErrorKind::WouldBlock => {}
                Err(_) => return None,
            }
            waited = waited.saturating_add(self.slice);
            if !self.goes_on(waited) {
                return None;
            }
        }
        None
    }

    fn fault(&mut self) -> Failed
        ensures later { self.old.faults ≤ self.new.faults }
        ensures rose { Rose self.old.faults self.new.faults }
    {
        self.faults = self.faults.saturating_add(1);
        Failed
    }
}

impl<R: Host> Link for TcpLink<'_, R> {
    ghost model = { untold_link (λ l. l.faults) };

    fn get(&mut self, into: &mut [u8]) -> Result<usize, Failed> {
        if self.is_too_late() || self.is_slow() {
            return Err(self.fault());
        }
        match self.read(into) {
            Some(count) => {
                self.moved = self.moved.saturating_add(count as u64);
                self.ended = self.ended || count == 0 && !into.is_empty();
                self.pace.note(&into[..count], Instant::now(self.host).ok());
                Ok(count)
            }
            None => Err(self.fault()),
        }
    }

    fn put(&mut self, bytes: &[u8]) -> Result<usize, Failed> {
        match self.write(bytes) {
            Some(count) => {
                self.moved = self.moved.saturating_add(count as u64);
                self.limited = None;
                Ok(count)
            }
            None => Err(self.fault()),
        }
    }
}

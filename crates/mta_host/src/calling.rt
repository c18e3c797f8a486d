//! A peer that is called.

use crate::host::Host;
use crate::notes::Notes;
use crate::patience::Patience;
use crate::process::Process;
use crate::tcp_link::{TcpLink, Went};
use mio::net::TcpStream;
use mio::{Events, Interest, Poll, Token};
use mta_links::CloseWhy;
use std::io::{self, ErrorKind};
use std::net::{SocketAddr, ToSocketAddrs};
use std::thread;
use std::time::Duration;

// What a wait for the answer to a call reports.
const CALL: Token = Token(0);

// Whether the host is there, though its process is not there yet, or went away while it was called.
fn is_there(kind: ErrorKind) -> bool {
    kind == ErrorKind::ConnectionRefused
        || kind == ErrorKind::ConnectionReset
        || kind == ErrorKind::ConnectionAborted
}

/// The peer at a host's port.
#[derive(Drop)]
pub(crate) struct Peer<'a, R> {
    host: &'a R,
    process: &'a Process,
    name: String,
    port: u16,
    patience: Patience,
    // What is waited before the next call, and what was waited last behind a call that reached nobody or a session in
    // which the peer gave nothing.
    rest: Duration,
    grown: Duration,
    pub(crate) notes: Notes<'a>,
}

impl<'a, R: Host> Peer<'a, R> {
    /// Nothing is called yet.
    pub(crate) fn new(
        host: &'a R,
        process: &'a Process,
        name: String,
        port: u16,
        patience: Patience,
    ) -> Peer<'a, R> {
        let notes = Notes::of_peer(process, name.as_str(), port);
        Peer {
            host,
            process,
            name,
            port,
            patience,
            rest: Duration::ZERO,
            grown: Duration::ZERO,
            notes,
        }
    }

    // Sleeps for so long, and ends the sleep within a pause once the process has failed.
    fn sleep(&self, duration: Duration) {
        let mut slept = Duration::ZERO;
        for _ in 0..u64::MAX {
            if slept >= duration || self.process.has_failed() {
                return;
            }
            thread::sleep(self.host, self.patience.pause);
            slept = slept.saturating_add(self.patience.pause);
        }
    }

    // Waits for the answer to a call, for as long as the patience says.
    fn wait(&self, stream: &mut TcpStream) -> io::Result<()> {
        let mut poll = Poll::new(self.host)?;
        let mut events = Events::with_capacity(self.host.alloc(), 1)?;
        poll.registry().register(stream, CALL, Interest::WRITABLE)?;
        let mut waited = Duration::ZERO;
        for _ in 0..u64::MAX {
            if waited >= self.patience.answer || self.process.has_failed() {
                return Err(ErrorKind::TimedOut.into());
            }
            // a signal ends a wait early, and the whole one is longer by that
            let _ = poll.poll(&mut events, Some(self.patience.pause));
            if !events.is_empty() {
                return poll.registry().deregister(stream);
            }
            waited = waited.saturating_add(self.patience.pause);
        }
        Err(ErrorKind::TimedOut.into())
    }

    // A connection to this address.
    fn connect(&self, address: SocketAddr) -> io::Result<TcpStream> {
        let mut stream = TcpStream::connect(self.host, address)?;
        self.wait(&mut stream)?;
        if let Some(error) = stream.take_error()? {
            return Err(error);
        }
        stream.peer_addr()?;
        Ok(stream)
    }

    // A connection to the first of the host's addresses that answers. Of the errors the first one is told that says
    // that the host is there, and the last one where none does.
    fn reach(&self) -> io::Result<TcpStream> {
        let mut why = io::Error::from(ErrorKind::NotFound);
        for address in (self.name.as_str(), self.port).to_socket_addrs(self.host)? {
            match self.connect(address) {
                Ok(stream) => return Ok(stream),
                Err(error) => {
                    if !is_there(why.kind()) {
                        why = error;
                    }
                }
            }
        }
        Err(why)
    }

    fn reached(&self) -> io::Result<TcpLink<'a, R>> {
        let stream = self.reach()?;
        TcpLink::new(self.host, self.process, stream.into(), self.patience)
    }

    // The pause before the next call grows.
    fn grow(&mut self) {
        let twice = self.grown.saturating_add(self.grown);
        self.grown = twice
            .max(self.patience.pause)
            .min(self.patience.longest_pause);
    }

    // Whether the peer is called again after so many calls in a row that reached nobody.
    fn goes_on(&self, calls: u64) -> bool {
        !self.process.has_failed()
            && (self.process.has_port() || calls < u64::from(self.patience.calls))
    }

    // One call, and what is told of it.
    fn call(&mut self) -> Option<TcpLink<'a, R>> {
        let answer = self.reached();
        match &answer {
            Ok(link) => self.notes.begins(self.host, link.peer()),
            Err(error) => self.notes.fails(self.host, error),
        }
        self.notes.write(self.host);
        answer.ok()
    }

    /// The link of the peer, which is called again after a pause where it is not reached. While a station at a port
    /// serves in the process that goes on without end; else so many calls in a row are made as the patience says.
    pub(crate) fn link(&mut self) -> Option<TcpLink<'a, R>> {
        self.notes.write(self.host);
        self.sleep(self.rest);
        for calls in 1..u64::MAX {
            if self.process.has_failed() {
                return None;
            }
            if let Some(link) = self.call() {
                return Some(link);
            }
            if !self.goes_on(calls) {
                return None;
            }
            self.grow();
            self.sleep(self.grown);
        }
        None
    }

    /// The session over the peer's link went so. Where the peer gave nothing the pause before the next call grows.
    pub(crate) fn back(&mut self, went: Went) {
        match went {
            Went::Nowhere => {
                self.grow();
                self.rest = self.grown;
            }
            Went::Idle => {
                self.grown = Duration::ZERO;
                self.rest = self.patience.pause;
            }
            Went::Through => {
                self.grown = Duration::ZERO;
                self.rest = Duration::ZERO;
            }
        }
    }

    /// The peer is called no more.
    pub(crate) fn close(&mut self, why: CloseWhy) {
        self.notes.ends(self.host, why);
        self.notes.write(self.host);
    }
}

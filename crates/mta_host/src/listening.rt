//! A port at which peers call, and the connections there that have not begun a session yet.

use crate::host::Host;
use crate::notes::Notes;
use crate::patience::{OPENING_OCTETS, PLACES, Patience};
use crate::process::Process;
use crate::tcp_link::TcpLink;
use crate::unit::is_opening;
use mio::net::{TcpListener, TcpStream};
use mio::{Events, Interest, Poll, Token};
use mta_links::CloseWhy;
use std::io::{self, ErrorKind};
use std::net::{Ipv4Addr, Ipv6Addr, SocketAddr};
use std::thread;
use std::time::{Duration, Instant};

// What a wait reports of: the socket that listens, and the connections by the numbers behind it.
const LISTENER: Token = Token(0);

// Numbers of the system for a socket that is none any more: EBADF, EINVAL, ENOTSOCK.
const LOST: [i32; 3] = [9, 22, 88];

// Numbers of the system for want of open files: ENFILE of the whole system, EMFILE of the process.
const SHORT: [i32; 2] = [23, 24];

// What a connection has brought.
#[derive(Clone, Copy, Debug, PartialEq, Eq)]
enum Brought {
    // Too little to begin a session.
    Little,
    Unit,
    // Its end, or a failure.
    End,
}

// A connection that has not begun a session.
#[derive(Drop)]
struct Waiting {
    stream: TcpStream,
    number: Token,
    since: Option<Instant>,
    brought: Brought,
    // Whether something may have come since it was looked at, and whether a wait reports it.
    is_told: bool,
    is_registered: bool,
}

impl Waiting {
    // Looks at what came, where something may have come, and leaves it for the link.
    fn look(&mut self, buffer: &mut [u8]) {
        if self.is_registered && !self.is_told {
            return;
        }
        self.is_told = false;
        self.brought = match self.stream.peek(buffer) {
            Ok(0) => Brought::End,
            Ok(count) if is_opening(&buffer[..count]) => Brought::Unit,
            Ok(_) => Brought::Little,
            Err(error) if is_passing(error.kind()) => Brought::Little,
            Err(_) => Brought::End,
        };
    }

    // Whether it is to be dropped: it ended, or has brought too little for too long.
    fn is_over(&self, now: Option<Instant>, patience: Patience) -> bool {
        match (self.brought, self.since, now) {
            (Brought::Unit, _, _) => false,
            (Brought::End, _, _) => true,
            (Brought::Little, Some(since), Some(now)) => {
                now.duration_since(since) >= patience.opening
            }
            _ => false,
        }
    }
}

fn is_passing(kind: ErrorKind) -> bool {
    kind == ErrorKind::WouldBlock || kind == ErrorKind::Interrupted
}

// Listens at this port of all addresses: by IPv6 with IPv4, and by IPv4 alone where the host has no IPv6.
fn bind<R: Host>(host: &R, port: u16) -> io::Result<TcpListener> {
    let both = SocketAddr::from((Ipv6Addr::UNSPECIFIED, port));
    match TcpListener::bind(host, both) {
        Ok(listener) => Ok(listener),
        Err(error) if error.kind() == ErrorKind::AddrInUse => Err(error),
        Err(error) if error.kind() == ErrorKind::PermissionDenied => Err(error),
        Err(_) => TcpListener::bind(host, SocketAddr::from((Ipv4Addr::UNSPECIFIED, port))),
    }
}

// A socket that listens, and the connections of it that have not begun a session, in the order in which they came.
#[derive(Drop)]
struct Door {
    listener: TcpListener,
    poll: Poll,
    events: Events,
    waiting: Vec<Waiting>,
    // The number of the connection that was accepted last.
    last: usize,
}

impl Door {
    fn open<R: Host>(host: &R, port: u16) -> io::Result<Door> {
        let mut listener = bind(host, port)?;
        let poll = Poll::new(host)?;
        poll.registry()
            .register(&mut listener, LISTENER, Interest::READABLE)?;
        Ok(Door {
            listener,
            poll,
            events: Events::with_capacity(host.alloc(), PLACES)?,
            waiting: Vec::with_capacity(host.alloc(), PLACES)?,
            last: 0,
        })
    }

    // Notes of which connections something is told, after so long at most.
    fn hear(&mut self, longest: Duration) -> io::Result<()> {
        self.poll.poll(&mut self.events, Some(longest))?;
        for event in self.events.iter() {
            let number = event.token();
            if let Some(at) = self.waiting.iter().position(|it| it.number == number) {
                self.waiting[at].is_told = true;
            }
        }
        Ok(())
    }

    // Looks at the connections, and drops those that are over. It answers how many.
    fn look<R: Host>(&mut self, host: &R, patience: Patience) -> usize {
        let mut buffer = [0u8; OPENING_OCTETS];
        for it in self.waiting.iter_mut() {
            it.look(&mut buffer);
        }
        let now = Instant::now(host).ok();
        let before = self.waiting.len();
        self.waiting.retain(|it| !it.is_over(now, patience));
        before.saturating_sub(self.waiting.len())
    }

    // The connection that came first of those that have brought a unit.
    fn take(&mut self) -> Option<TcpStream> {
        let at = self
            .waiting
            .iter()
            .position(|it| it.brought == Brought::Unit)?;
        let mut stream = self.waiting.remove(at).stream;
        let _ = self.poll.registry().deregister(&mut stream);
        Some(stream)
    }

    // Drops the connection that has waited longest, where one waits.
    fn drop_oldest(&mut self) -> bool {
        let is_there = !self.waiting.is_empty();
        if is_there {
            self.waiting.remove(0);
        }
        is_there
    }

    // One more connection waits, in place of the oldest where there is no room. It answers how many were dropped.
    fn accept<R: Host>(&mut self, host: &R, places: usize) -> io::Result<usize> {
        let (mut stream, _) = self.listener.accept()?;
        self.last = self.last.wrapping_add(1).max(1);
        let number = Token(self.last);
        // one that is not registered is looked at after each pause all the same
        let is_registered = self
            .poll
            .registry()
            .register(&mut stream, number, Interest::READABLE)
            .is_ok();
        let is_full = self.waiting.len() >= places;
        if is_full {
            self.drop_oldest();
        }
        self.waiting.push(Waiting {
            stream,
            number,
            since: Instant::now(host).ok(),
            brought: Brought::Little,
            is_told: true,
            is_registered,
        })?;
        Ok(usize::from(is_full))
    }

    // Waits until something comes, or the pause is over.
    fn wait<R: Host>(&mut self, host: &R, patience: Patience) {
        if self.hear(patience.pause).is_err() {
            thread::sleep(host, patience.pause);
        }
    }
}

/// The port that peers call.
#[derive(Drop)]
pub(crate) struct Port<'a, R> {
    host: &'a R,
    process: &'a Process,
    number: u16,
    patience: Patience,
    door: Option<Door>,
    pub(crate) notes: Notes<'a>,
}

impl<'a, R: Host> Port<'a, R> {
    /// Nothing is bound yet. From now on the process has one more port.
    pub(crate) fn new(
        host: &'a R,
        process: &'a Process,
        number: u16,
        patience: Patience,
    ) -> Port<'a, R> {
        process.add_port();
        Port {
            host,
            process,
            number,
            patience,
            door: None,
            notes: Notes::of_port(process, number),
        }
    }

    /// The number of the port, which is bound here where it was not.
    pub(crate) fn number(&mut self) -> Option<u16> {
        self.bind_once();
        match &self.door {
            Some(door) => Some(door.listener.local_addr().ok()?.port()),
            None => None,
        }
    }

    // Binds the port where it is not bound, and answers whether it is.
    fn bind_once(&mut self) -> bool {
        if self.door.is_none() {
            match Door::open(self.host, self.number) {
                Ok(door) => {
                    self.door = Some(door);
                    self.notes.listens(self.host);
                }
                Err(error) => self.notes.fails(self.host, &error),
            }
            self.notes.write(self.host);
        }
        self.door.is_some()
    }

    // Binds the port where it is not bound, again after a pause where it cannot be had.
    fn bind(&mut self) {
        for _ in 1..self.patience.binds {
            if self.bind_once() || self.process.has_failed() {
                return;
            }
            thread::sleep(self.host, self.patience.pause);
        }
        self.bind_once();
    }

    // The link of the first connection that has brought a unit, of those that wait; none where none has.
    fn ready(&mut self) -> Option<TcpLink<'a, R>> {
        let door = self.door.as_mut()?;
        // where this fails the next wait reports the same
        let _ = door.hear(Duration::ZERO);
        self.notes
            .drops(self.host, door.look(self.host, self.patience));
        let taken = door.take();
        self.notes.waits(door.waiting.len());
        let stream = taken?;
        let peer = stream.peer_addr();
        let mut link = TcpLink::new(self.host, self.process, stream.into(), self.patience).ok()?;
        link.limit();
        self.notes.begins(self.host, peer);
        self.notes.write(self.host);
        Some(link)
    }

    // A connection could not be accepted.
    fn fails(&mut self, error: &io::Error) {
        self.notes.fails(self.host, error);
        if let Some(door) = &mut self.door {
            if is_one_of(error, &SHORT) && door.drop_oldest() {
                self.notes.drops(self.host, 1);
                return;
            }
        }
        if is_one_of(error, &LOST) {
            self.door = None;
        }
        self.notes.write(self.host);
        thread::sleep(self.host, self.patience.pause);
    }

    // Takes one more connection, or waits until there is one, or for a pause.
    fn accept(&mut self) {
        let Some(door) = &mut self.door else {
            return;
        };
        match door.accept(self.host, self.process.places()) {
            Ok(dropped) => self.notes.drops(self.host, dropped),
            Err(error) if is_passing(error.kind()) => {
                self.notes.write(self.host);
                door.wait(self.host, self.patience);
            }
            Err(error) if error.kind() == ErrorKind::ConnectionAborted => {}
            Err(error) => self.fails(&error),
        }
    }

    /// The link of the peer that calls next: of the first connection that has brought a unit. None where the port
    /// cannot be had, and once the process has failed.
    pub(crate) fn link(&mut self) -> Option<TcpLink<'a, R>> {
        self.bind();
        for _ in 0..u64::MAX {
            if self.door.is_none() || self.process.has_failed() {
                return None;
            }
            if let Some(link) = self.ready() {
                return Some(link);
            }
            self.accept();
        }
        None
    }

    /// Lets the port go, with all connections that wait. The process has one port less.
    pub(crate) fn close(&mut self, why: CloseWhy) {
        self.process.remove_port();
        self.door = None;
        self.notes.ends(self.host, why);
        self.notes.write(self.host);
    }
}

// Whether the error has one of these numbers. An error of the numbers `LOST` says that the socket itself is gone; any
// other is of one connection, or passes.
fn is_one_of(error: &io::Error, codes: &[i32]) -> bool {
    match error.raw_os_error() {
        Some(code) => codes.contains(&code),
        None => false,
    }
}

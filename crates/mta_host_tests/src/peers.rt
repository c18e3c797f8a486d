//! What the tests of links and stations share: a short patience, a unit, and peers.

use mta_host::{Host, Patience, Process, TcpLink, TcpStation};
use mta_links::{Link, Station};
use std::io::{self, Read, Write};
use std::net::TcpStream;
use std::test::Fail;
use std::time::Duration;

/// The host of all tests.
pub const HOST: &str = "127.0.0.1";

/// A unit: the length of its body, a kind octet, and one octet of a body.
pub const UNIT: [u8; 6] = [0, 0, 0, 1, 5, 9];

pub fn short() -> Patience {
    Patience {
        silence: Duration::from_millis(100),
        opening: Duration::from_millis(1000),
        admission: Duration::from_secs(60),
        answer: Duration::from_millis(1000),
        pause: Duration::from_millis(5),
        longest_pause: Duration::from_millis(40),
        binds: 3,
        calls: 3,
    }
}

/// A station at a free port.
pub fn listening<'a, R: Host>(host: &'a R, process: &'a Process) -> TcpStation<'a, R> {
    TcpStation::listening(host, process, 0, short())
}

pub fn port_of<R: Host>(station: &mut TcpStation<'_, R>) -> Result<u16, Fail> {
    match station.port() {
        Some(port) => Ok(port),
        None => Err("no port".into()),
    }
}

/// A connection to the station.
pub fn connected<R: Host>(host: &R, station: &mut TcpStation<'_, R>) -> Result<TcpStream, Fail> {
    let port = port_of(station)?;
    Ok(TcpStream::connect(host, (HOST, port))?)
}

pub fn link_of<'a, R: Host>(station: &mut TcpStation<'a, R>) -> Result<TcpLink<'a, R>, Fail> {
    match station.next() {
        Ok(Some(link)) => Ok(link),
        _ => Err("no link".into()),
    }
}

/// Whether the next octets of the link are these.
pub fn gives<R: Host>(link: &mut TcpLink<'_, R>, octets: &[u8]) -> bool {
    let mut buffer = [0u8; 1];
    for octet in octets {
        if link.get(&mut buffer) != Ok(1) || buffer[0] != *octet {
            return false;
        }
    }
    true
}

/// A connection that called the station and gave a unit, and its link, which gave that unit.
pub fn called<'a, R: Host>(
    host: &R,
    station: &mut TcpStation<'a, R>,
) -> Result<(TcpStream, TcpLink<'a, R>), Fail> {
    let mut peer = connected(host, station)?;
    peer.write_all(&UNIT)?;
    let mut link = link_of(station)?;
    if !gives(&mut link, &UNIT) {
        return Err("not the unit".into());
    }
    Ok((peer, link))
}

/// Whether the other end closed the connection: 0 octets or a failure within 5 seconds, and no silence.
pub fn is_closed(peer: &mut TcpStream) -> io::Result<bool> {
    peer.set_read_timeout(Some(Duration::from_secs(5)))?;
    Ok(match peer.read(&mut [0u8; 1]) {
        Ok(count) => count == 0,
        Err(error) => error.kind() != io::ErrorKind::WouldBlock,
    })
}

/// Whether the connection is open, with nothing to read.
pub fn is_open(peer: &mut TcpStream) -> io::Result<bool> {
    peer.set_nonblocking(true)?;
    Ok(match peer.read(&mut [0u8; 1]) {
        Ok(_) => false,
        Err(error) => error.kind() == io::ErrorKind::WouldBlock,
    })
}

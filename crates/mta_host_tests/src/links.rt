//! Links over the loopback. A peer is a plain connection of the test's own.

use crate::peers::{UNIT, called, connected, link_of, listening, short};
use mta_edge::Failed;
use mta_host::{OPENING_OCTETS, Process, TcpStation};
use mta_links::{Link, Station};
use std::io::{Read, Write};
use std::test::Fail;
use std::thread;
use std::time::Duration;

#[test]
fn a_peer_gives_octet_by_octet_and_closes(rt: HostRuntime) -> Result<(), Fail> {
    let process = Process::new(&rt, 1);
    let mut station = listening(&rt, &process);
    let (mut peer, mut link) = called(&rt, &mut station)?;
    let mut buffer = [0u8; 2];
    for octet in [1, 2, 3] {
        assert_eq!(rt; peer.write(&[octet])?, 1);
        assert_eq!(rt; link.get(&mut buffer), Ok(1));
        assert_eq!(rt; buffer[0], octet);
    }
    drop(peer);
    assert_eq!(rt; link.get(&mut buffer), Ok(0));
    assert_eq!(rt; link.get(&mut buffer), Ok(0));
    drop(link);
    Ok(())
}

// What was put is unread when the peer goes, so the connection is reset.
#[test]
fn a_peer_resets(rt: HostRuntime) -> Result<(), Fail> {
    let process = Process::new(&rt, 1);
    let mut station = listening(&rt, &process);
    let (peer, mut link) = called(&rt, &mut station)?;
    assert_eq!(rt; link.put(&[7; 16]), Ok(16));
    drop(peer);
    assert_eq!(rt; link.get(&mut [0u8; 1]), Err(Failed));
    assert_eq!(rt; link.put(&[7]), Err(Failed));
    Ok(())
}

#[test]
fn a_peer_gives_nothing(rt: HostRuntime) -> Result<(), Fail> {
    let process = Process::new(&rt, 1);
    let mut station = listening(&rt, &process);
    let (_peer, mut link) = called(&rt, &mut station)?;
    assert_eq!(rt; link.get(&mut [0u8; 1]), Err(Failed));
    Ok(())
}

// A peer that gives an octet each 10 milliseconds, of units of six octets, which are whole in time.
#[test]
fn a_peer_gives_short_units_slowly(rt: HostRuntime) -> Result<(), Fail> {
    let mut patience = short();
    patience.silence = Duration::from_millis(200);
    let process = Process::new(&rt, 1);
    let mut station = TcpStation::listening(&rt, &process, 0, patience);
    let (mut peer, mut link) = called(&rt, &mut station)?;
    let mut buffer = [0u8; 16];
    for _ in 0..8 {
        for octet in UNIT {
            peer.write_all(&[octet])?;
            assert_eq!(rt; link.get(&mut buffer), Ok(1));
            thread::sleep(&rt, Duration::from_millis(10));
        }
    }
    Ok(())
}

// 1,024 octets come in each 200 ms, so a long unit takes as long as it takes.
#[test]
fn a_peer_gives_a_long_unit_fast_enough(rt: HostRuntime) -> Result<(), Fail> {
    let mut patience = short();
    patience.silence = Duration::from_millis(200);
    let process = Process::new(&rt, 1);
    let mut station = TcpStation::listening(&rt, &process, 0, patience);
    let (mut peer, mut link) = called(&rt, &mut station)?;
    peer.write_all(&[0, 1, 0, 0, 5])?;
    let mut buffer = [0u8; 4096];
    assert_eq!(rt; link.get(&mut buffer), Ok(5));
    for _ in 0..14 {
        peer.write_all(&[7; 1024])?;
        assert_eq!(rt; link.get(&mut buffer), Ok(1024));
        thread::sleep(&rt, Duration::from_millis(50));
    }
    Ok(())
}

// A peer that gives an octet each 20 milliseconds of a unit that never ends has no more than the time in which the
// agent is to put its first unit.
#[test]
fn a_peer_drips_before_it_is_admitted(rt: HostRuntime) -> Result<(), Fail> {
    let mut patience = short();
    patience.silence = Duration::from_secs(60);
    patience.admission = Duration::from_millis(200);
    let process = Process::new(&rt, 1);
    let mut station = TcpStation::listening(&rt, &process, 0, patience);
    let mut peer = connected(&rt, &mut station)?;
    peer.write_all(&[0, 31, 255, 255])?;
    peer.write_all(&[7; OPENING_OCTETS])?;
    let mut link = link_of(&mut station)?;
    for _ in 0..3000 {
        if link.get(&mut [0u8; 16_384]).is_err() {
            return Ok(());
        }
        peer.write_all(&[7])?;
        thread::sleep(&rt, Duration::from_millis(20));
    }
    Err("a minute was not enough".into())
}

// Once the agent has put octets the peer has the whole silence again.
#[test]
fn a_peer_is_slow_once_it_is_admitted(rt: HostRuntime) -> Result<(), Fail> {
    let mut patience = short();
    patience.silence = Duration::from_secs(60);
    patience.admission = Duration::from_secs(2);
    let process = Process::new(&rt, 1);
    let mut station = TcpStation::listening(&rt, &process, 0, patience);
    let (mut peer, mut link) = called(&rt, &mut station)?;
    assert_eq!(rt; link.put(&[7]), Ok(1));
    thread::sleep(&rt, Duration::from_millis(2500));
    peer.write_all(&[9])?;
    assert_eq!(rt; link.get(&mut [0u8; 1]), Ok(1));
    Ok(())
}

// The link takes what the system keeps for the connection, and then fails.
#[test]
fn a_peer_takes_nothing(rt: HostRuntime) -> Result<(), Fail> {
    let process = Process::new(&rt, 1);
    let mut station = listening(&rt, &process);
    let (_peer, mut link) = called(&rt, &mut station)?;
    let piece = [7u8; 65_536];
    for _ in 0..1000 {
        if link.put(&piece).is_err() {
            return Ok(());
        }
    }
    Err("64,000 KiB were taken".into())
}

#[test]
fn a_long_piece_is_taken_by_one_call(rt: HostRuntime) -> Result<(), Fail> {
    let process = Process::new(&rt, 1);
    let mut station = listening(&rt, &process);
    let (mut peer, mut link) = called(&rt, &mut station)?;
    assert_eq!(rt; link.put(&[7; 65_536]), Ok(65_536));
    drop(link);
    let mut read = Vec::new(rt.alloc());
    assert_eq!(rt; peer.read_to_end(&mut read)?, 65_536);
    assert!(rt; read.iter().all(|octet| *octet == 7));
    Ok(())
}

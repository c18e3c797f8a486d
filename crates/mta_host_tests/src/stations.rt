//! Stations over the loopback, from their first link to their end.

use crate::peers::{HOST, called, connected, is_closed, listening, port_of, short};
use mta_edge::{Disk, Failed};
use mta_host::{FileDisk, Path, Process, TcpStation};
use mta_links::{CloseWhy, Link, Role, Station};
use std::alloc::AllocError;
use std::fs::{File, Files};
use std::net::{TcpListener, TcpStream};
use std::test::Fail;
use std::thread;
use std::time::Duration;

// A call of a file that cannot be opened fails, and so does the process.
fn fail<'a, R: Files<File = File>>(files: &'a R, process: &'a Process) -> bool {
    let absent = Path {
        folder: "absent.try",
        path: "absent.try/spool",
    };
    FileDisk::new(files, process, absent).size().is_err()
}

// A station that calls this port of the host.
fn calling<'a>(
    rt: &'a HostRuntime,
    process: &'a Process,
    port: u16,
) -> Result<TcpStation<'a, HostRuntime>, AllocError> {
    let name = HOST.to_string(rt.alloc())?;
    Ok(TcpStation::calling(rt, process, Role::In, name, port, short()))
}

// A port at which nobody listens.
fn free_port(rt: &HostRuntime) -> Result<u16, Fail> {
    let listener = TcpListener::bind(rt, (HOST, 0))?;
    Ok(listener.local_addr()?.port())
}

// A peer that waits is closed, and another one is refused.
#[test]
fn a_closed_station_lets_its_port_go(rt: HostRuntime) -> Result<(), Fail> {
    let process = Process::new(&rt, 1);
    let mut station = listening(&rt, &process);
    let port = port_of(&mut station)?;
    let mut waiting = connected(&rt, &mut station)?;
    let (_peer, link) = called(&rt, &mut station)?;
    drop(link);
    station.close(CloseWhy::Served);
    assert!(rt; is_closed(&mut waiting)?);
    assert!(rt; TcpStream::connect(&rt, (HOST, port)).is_err());
    assert!(rt; station.next().is_err());
    Ok(())
}

#[test]
fn a_station_fails_once_the_process_has(rt: HostRuntime) -> Result<(), Fail> {
    let process = Process::new(&rt, 1);
    let mut station = listening(&rt, &process);
    let (_peer, mut link) = called(&rt, &mut station)?;
    let mut caller = calling(&rt, &process, port_of(&mut station)?)?;
    assert!(rt; fail(&rt, &process));
    assert_eq!(rt; link.put(&[7]), Ok(1));
    assert_eq!(rt; link.get(&mut [0u8; 1]), Err(Failed));
    drop(link);
    assert!(rt; station.next().is_err());
    assert!(rt; caller.next().is_err());
    Ok(())
}

// A station that was refused a step takes the others along.
#[test]
fn a_refused_station_ends_the_others(rt: HostRuntime) -> Result<(), Fail> {
    let process = Process::new(&rt, 1);
    let mut refused = listening(&rt, &process);
    let mut other = listening(&rt, &process);
    refused.close(CloseWhy::Refused);
    assert!(rt; other.next().is_err());
    Ok(())
}

// The disk fails while the station waits for a peer.
#[test]
fn a_station_fails_while_it_waits(rt: HostRuntime) -> Result<(), Fail> {
    let process = Process::new(&rt, 1);
    let (has_failed, _) = thread::join(
        &rt,
        || listening(&rt, &process).next().is_err(),
        || {
            thread::sleep(&rt, Duration::from_millis(100));
            fail(&rt, &process)
        },
    );
    assert!(rt; has_failed);
    Ok(())
}

// Three calls in a row reach nobody, and no station at a port serves.
#[test]
fn a_peer_is_given_up(rt: HostRuntime) -> Result<(), Fail> {
    let process = Process::new(&rt, 1);
    let mut port = listening(&rt, &process);
    port.close(CloseWhy::GivenUp);
    let mut station = calling(&rt, &process, free_port(&rt)?)?;
    assert!(rt; station.next().is_err());
    let name = "no host of this name".to_string(rt.alloc())?;
    let mut unknown = TcpStation::calling(&rt, &process, Role::In, name, 1, short());
    assert!(rt; unknown.next().is_err());
    Ok(())
}

// Beside a station that serves a peer is called on and on, which is there half a second later.
#[test]
fn a_peer_is_called_on_beside_a_port(rt: HostRuntime) -> Result<(), Fail> {
    let process = Process::new(&rt, 1);
    let _port = listening(&rt, &process);
    let port = free_port(&rt)?;
    let mut station = calling(&rt, &process, port)?;
    let (is_reached, is_called) = thread::join(
        &rt,
        || matches!(station.next(), Ok(Some(_))),
        || {
            thread::sleep(&rt, Duration::from_millis(500));
            match TcpListener::bind(&rt, (HOST, port)) {
                Ok(listener) => listener.accept().is_ok(),
                Err(_) => false,
            }
        },
    );
    assert!(rt; is_reached);
    assert!(rt; is_called);
    Ok(())
}

//! Stations in memory under words of a command line, and the lines of their workers' ends.

use mta_ber::{Octets, Word};
use mta_links::{MemStation, Role};
use mta_stations::{Halt, WorkerEnd, deciding, have_roles, station_lines, unnamed_peer};
use mta_tables::Tables;
use mta_words::{Stations, Words};
use std::alloc::Global;
use std::test::Fail;

const TABLES: &[u8] = b"domain C=GB;A=GOLD\nname GOLD-1\npeer HILL out in monologue 1 3\n";

fn words_of(alloc: Global, line: &str) -> Result<Vec<String>, Fail> {
    let mut words = Vec::new(alloc);
    for word in line.split(' ') {
        words.push(String::from_str(alloc, word)?)?;
    }
    Ok(words)
}

fn said(alloc: Global, line: &str) -> Result<Stations, Fail> {
    let words = words_of(alloc, line)?;
    match Words::read(alloc, words.as_slice())? {
        Some(Words::Serve { stations, .. }) => Ok(stations),
        _ => Err("other words".into()),
    }
}

// The role of a station that calls this peer, or waits to be called where the peer is `-`.
fn role_of(alloc: Global, peer: &str) -> Result<Role, Fail> {
    if peer == "-" {
        return Ok(Role::In);
    }
    let octets = Octets::from_slice(alloc, peer.as_bytes())?;
    let word = Word::from_octets(alloc, octets)?.ok_or("no word")?;
    Ok(Role::Out(word))
}

fn handed(alloc: Global, peers: &str) -> Result<Vec<MemStation>, Fail> {
    let mut stations = Vec::new(alloc);
    for peer in peers.split(' ') {
        let role = role_of(alloc, peer)?;
        stations.push(MemStation::new(alloc, role, Vec::new(alloc), Vec::new(alloc))?)?;
    }
    Ok(stations)
}

// The peer that the tables do not name.
fn unnamed(
    alloc: Global,
    tables: &Tables,
    stations: &[MemStation],
) -> Result<Option<Octets>, Fail> {
    match unnamed_peer(tables, stations) {
        Some(peer) => Ok(Some(Octets::from_slice(alloc, peer.as_slice())?)),
        None => Ok(None),
    }
}

// Large records are let go in functions of their own, each once.
fn forget_tables(_tables: Tables) {}

fn forget_words(_words: Stations) {}

fn forget_stations(_stations: Vec<MemStation>) {}

type Looked = Result<(bool, Option<Octets>), Fail>;

fn looked_at(alloc: Global, tables: &Tables, words: &Stations, peers: &str) -> Looked {
    let stations = handed(alloc, peers)?;
    let are = have_roles(words.as_slice(), stations.as_slice());
    let unnamed = unnamed(alloc, tables, stations.as_slice());
    forget_stations(stations);
    Ok((are, unnamed?))
}

fn looked_under(alloc: Global, tables: &Tables, line: &str, peers: &str) -> Looked {
    let words = said(alloc, line)?;
    let found = looked_at(alloc, tables, &words, peers);
    forget_words(words);
    found
}

// Whether the stations are those of the words, and the peer that the tables do not name.
fn looked(alloc: Global, line: &str, peers: &str) -> Looked {
    let tables = Tables::read(alloc, TABLES)?;
    let found = looked_under(alloc, &tables, line, peers);
    forget_tables(tables);
    found
}

fn is_octets(octets: &Option<Octets>, wanted: &str) -> bool {
    match octets {
        Some(octets) => octets.as_slice() == wanted.as_bytes(),
        None => wanted == "-",
    }
}

// What each station calls, and then whether they are those of the words, and the peer that is not named; and what is
// told where each of two workers served one session.
#[test]
fn stations_are_those_of_the_words_and_told(rt: HostRuntime) -> Result<(), Fail> {
    let rows = [
        ("serve 1 in:1001 in:1002", "- -", true, "-"),
        ("serve 1 in:1001 out:HILL:host:1002", "- HILL", true, "-"),
        ("serve 1 in:1001 out:HILL:host:1002", "HILL -", false, "-"),
        ("serve 1 in:1001 out:DALE:host:1002", "- DALE", true, "DALE"),
        ("serve 1 in:1001 out:DALE:host:1002", "-", false, "-"),
    ];
    for (line, peers, are, unnamed) in rows {
        let (found, peer) = looked(rt.alloc(), line, peers)?;
        assert_eq!(rt; found, are, "at {line}");
        assert!(rt; is_octets(&peer, unnamed), "at {line}");
    }
    let ends = [WorkerEnd {
        sessions: 1,
        closed: 1,
        halt: Halt::Limit,
    }; 2];
    let lines = station_lines(rt.alloc(), &ends)?;
    let wanted = "station 1 sessions 1 closed 1\nstation 2 sessions 1 closed 1\n";
    assert_eq!(rt; lines.as_slice(), wanted.as_bytes());
    assert_eq!(rt; deciding(&ends), None);
    Ok(())
}

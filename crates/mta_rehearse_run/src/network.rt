//! The texts of several agents' tables, a line `---` between two.

ghost use Rattle.std.specs.Prelude.{◌≡◌, ◌+◌, ◌≤◌, ◌<◌, ◌^◌, ◌&&◌, length, take, drop, true};
ghost use Rattle.std.specs.Prelude.{MatchOption, IfOk, IfSome, OnOk, Some, None};
ghost use Rattle.mta_rehearse_run.specs.Network.{begins_separator, parted, lines_in, tables_behind};
ghost use Rattle.mta_rehearse_run.specs.Network.{network_from, network_of};
ghost use Rattle.mta_rehearse_run.specs.Network.{IsTablesReadAs, IsAdded, AddsRead, HasRead, HasOctets, HasNetwork};

use crate::stop::Stop;
use mta_ber::Octets;
use mta_edge::{Source, SourceFault, read_all};
use mta_names::Row;
use mta_tables::{LineKind, Tables, TablesFault};
use std::alloc::Global;

/// The most octets of all texts.
const LONGEST: u32 = 1_048_576;

/// The most texts.
const MOST_TEXTS: u32 = 64;

/// The line between two texts.
const SEPARATOR: &[u8] = b"---\n";

// Whether the octets begin with the line between two texts.
fn begins_separator(octets: &[u8]) -> bool
    ensures { result ≡ begins_separator octets.now }
{
    octets.len() >= 4 && &octets[..4] == SEPARATOR
}

// Whether a text ends in front of these octets: a line begins here, the one between two texts.
fn ends_here(fresh: bool, octets: &[u8]) -> bool
    ensures { result ≡ (fresh && begins_separator octets.now) }
{
    fresh && begins_separator(octets)
}

// Where the first line between two texts begins.
fn separator_at(octets: &[u8]) -> Option<usize>
    ensures cut { MatchOption result (parted true octets.now ≡ (octets.now, None))
        (λ i. parted true octets.now ≡ (take i octets.now, Some (drop (i + 4) octets.now))) }
    ensures within { IfSome result (λ i. i + 4 ≤ length octets.now) }
{
    let mut fresh = true;
    for (i, c) in octets.iter().enumerate() {
        if ends_here(fresh, &octets[i..]) {
            return Some(i);
        }
        fresh = *c == b'\n';
    }
    None
}

fn lines_in(text: &[u8]) -> usize
    ensures exact { result ≡ lines_in text.now }
    ensures few { result ≤ length text.now }
{
    text.iter().filter(|c| **c == b'\n').count()
}

// The tables of a text that stands behind so many lines.
fn tables_behind(alloc: Global, before: u32, text: &[u8]) -> Result<Tables, Stop>
    ensures { IsTablesReadAs (tables_behind before text.now) result }
{
    match Tables::read(alloc, text) {
        Ok(tables) => Ok(tables),
        Err(TablesFault::BadLine { line, kind }) => Err(Stop::Tables {
            line: u64::from(before) + u64::from(line),
            kind,
        }),
        Err(TablesFault::Memory) => Err(Stop::Memory),
    }
}

// Puts the tables of a text that stands behind so many lines behind those that are there.
fn add_text(alloc: Global, before: u32, text: &[u8], agents: &mut Row<Tables>) -> Result<(), Stop>
    ensures { IsAdded (tables_behind before text.now) agents.old agents.new result }
{
    match tables_behind(alloc, before, text) {
        Ok(tables) => {
            agents.push(tables)?;
            Ok(())
        }
        Err(stop) => Err(stop),
    }
}

// Puts the tables of at most `room` texts behind those that are there. The octets stand behind `before` lines.
fn read_from(
    alloc: Global,
    room: u32,
    before: u32,
    octets: &[u8],
    agents: &mut Row<Tables>,
) -> Result<(), Stop>
    requires { before + length octets.now < 2 ^ 32 }
    ensures read { AddsRead (network_from room before octets.now) agents.old agents.new result }
    ensures few { OnOk result (length agents.new ≤ length agents.old + room) }
{
    if room == 0 {
        return Err(Stop::Tables {
            line: u64::from(before) + 1,
            kind: LineKind::TooMany,
        });
    }
    match separator_at(octets) {
        None => add_text(alloc, before, octets, agents),
        Some(end) => {
            let text = &octets[..end];
            match add_text(alloc, before, text, agents) {
                Ok(()) => {
                    let lines = lines_in(text) as u32;
                    let rest = &octets[end + 4..];
                    read_from(alloc, room - 1, before + lines + 1, rest, agents)
                }
                Err(stop) => Err(stop),
            }
        }
    }
}

// The tables of all texts, or their first bad line.
fn network_in(alloc: Global, octets: &[u8]) -> Result<Row<Tables>, Stop>
    requires { length octets.now ≤ 1048576 }
    ensures read { HasRead (network_of octets.now) result }
    ensures few { IfOk result (λ v. length v ≤ 64) }
{
    let mut agents = Row::new(alloc);
    match read_from(alloc, MOST_TEXTS, 0, octets, &mut agents) {
        Ok(()) => Ok(agents),
        Err(stop) => Err(stop),
    }
}

// Reads the texts to their end, or to one octet more than they may have.
fn octets_of<I: Source>(alloc: Global, conf: &mut I) -> Result<Octets, Stop>
    ensures { HasOctets I.model conf.old conf.new result }
{
    match read_all(alloc, conf, LONGEST) {
        Ok(octets) => Ok(octets),
        Err(SourceFault::Failed) => Err(Stop::Source),
        Err(SourceFault::TooLong) => Err(Stop::Tables {
            line: 1,
            kind: LineKind::TooLong,
        }),
        Err(SourceFault::Memory) => Err(Stop::Memory),
    }
}

/// Reads the texts to their end: the tables of each, at most 64.
///
/// # Errors
/// `Tables` for the first bad line, which is line 1 where the texts have more than 1,048,576 octets, and the first one
/// of the 65th text where there are more; `Source` only where the source failed; `Memory`.
pub fn read_network<I: Source>(alloc: Global, conf: &mut I) -> Result<Row<Tables>, Stop>
    ensures read { HasNetwork I.model conf.old conf.new result }
    ensures few { IfOk result (λ v. length v ≤ 64) }
{
    match octets_of(alloc, conf) {
        Ok(octets) => network_in(alloc, octets.as_slice()),
        Err(stop) => Err(stop),
    }
}

//! A standby's side of a session.
//!
//! It gets the records of a spool, one after the other. One that it keeps already is compared, and one behind those is
//! appended; then it says that the record is kept.

ghost use Rattle.std.specs.Prelude.{◌+◌, ◌<◌, ◌^◌};
ghost use Rattle.mta_journal.specs.Shown.{Holds, IsPlain};
ghost use Rattle.mta_follow_run.specs.Outcome.{PullsOver};
ghost use Rattle.mta_follow_run.specs.Pulling.{IsPullingNow, NextOf, Pulls, Rounds, Says};

use crate::get::get_unit;
use crate::put::put_number;
use crate::stop::Stop;
use crate::take::take_unit;
use mta_edge::{Disk, Octets};
use mta_follow_units::{Due, KEPT, Reader};
use mta_journal::Journal;
use mta_links::{Link, Station};
use std::alloc::Global;

/// How many records came that are kept, and why not all came.
#[derive(Drop)]
pub struct Pulled {
    pub kept: u64,
    pub ended: Result<(), Stop>,
}

// Gets and keeps the record behind so many; false where there are no more.
fn next_record<D: Disk + Drop, L: Link>(
    alloc: Global,
    link: &mut L,
    reader: &mut Reader,
    journal: &mut Journal<D>,
    kept: &[Octets],
    got: u64,
) -> Result<bool, Stop>
    requires now { IsPullingNow D.model L.model kept.now journal.old link.old reader.old got }
    requires more { got + 1 < 2 ^ 64 }
    ensures { NextOf D.model L.model kept.now journal.old link.old reader.old got journal.new link.new reader.new
        result }
{
    match get_unit(link, reader, Due::Record { got }) {
        Ok(true) => {}
        Ok(false) => return Err(Stop::Broken),
        Err(_) => return Err(Stop::Memory),
    }
    let is_record = take_unit(alloc, reader, journal, kept, got)?;
    reader.pass();
    Ok(is_record)
}

// What comes of a round: the next record is kept and told so, or the session has ended.
#[derive(Drop)]
pub(crate) enum Round {
    Kept,
    Ended(Pulled),
}

// Says that the record of this number is kept.
fn say_kept<L: Link>(link: &mut L, number: u64) -> Round
    ensures { Says L.model number link.old link.new result }
{
    match put_number(link, KEPT, number) {
        Ok(()) => Round::Kept,
        Err(_) => Round::Ended(Pulled {
            kept: number,
            ended: Err(Stop::Broken),
        }),
    }
}

// Gets the record behind so many, keeps it, and says so. Where 2^64 would have come it is want of memory.
fn next_round<D: Disk + Drop, L: Link>(
    alloc: Global,
    link: &mut L,
    reader: &mut Reader,
    journal: &mut Journal<D>,
    bodies: &[Octets],
    got: u64,
) -> Round
    requires { IsPullingNow D.model L.model bodies.now journal.old link.old reader.old got }
    ensures { Rounds D.model L.model bodies.now journal.old link.old reader.old got journal.new link.new reader.new
        result }
{
    let Some(number) = got.checked_add(1) else {
        return Round::Ended(Pulled {
            kept: got,
            ended: Err(Stop::Memory),
        });
    };
    match next_record(alloc, link, reader, journal, bodies, got) {
        Ok(true) => say_kept(link, number),
        Ok(false) => Round::Ended(Pulled {
            kept: got,
            ended: Ok(()),
        }),
        Err(stop) => Round::Ended(Pulled {
            kept: got,
            ended: Err(stop),
        }),
    }
}

/// Follows over a link: the journal has these bodies.
pub fn follow<D: Disk + Drop, L: Link>(
    alloc: Global,
    link: &mut L,
    journal: &mut Journal<D>,
    bodies: &[Octets],
) -> Pulled
    requires holds { Holds D.model journal.old bodies.now }
    requires plain { IsPlain journal.old.first }
    ensures { Pulls D.model L.model bodies.now journal.old journal.new link.old link.new result.kept result.ended }
{
    let mut reader = Reader::new(alloc);
    let mut got = 0;
    loop {
        match next_round(alloc, link, &mut reader, journal, bodies, got) {
            Round::Kept => got += 1,
            Round::Ended(pulled) => return pulled,
        }
    }
}

/// Follows over the next link of a station.
pub fn follow_over<D: Disk + Drop, S: Station>(
    alloc: Global,
    station: &mut S,
    journal: &mut Journal<D>,
    bodies: &[Octets],
) -> Pulled
    requires holds { Holds D.model journal.old bodies.now }
    requires plain { IsPlain journal.old.first }
    ensures { PullsOver D.model S.Link.model S.model bodies.now journal.old journal.new station.old station.new
        result.kept result.ended }
{
    match station.next() {
        Ok(Some(link)) => {
            let mut link = link;
            let pulled = follow(alloc, &mut link, journal, bodies);
            station.back(link);
            pulled
        }
        Ok(None) => Pulled {
            kept: 0,
            ended: Err(Stop::Broken),
        },
        Err(_) => Pulled {
            kept: 0,
            ended: Err(Stop::Broken),
        },
    }
}

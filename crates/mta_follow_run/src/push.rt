//! The spool's side of a session.
//!
//! It puts the records one after the other, and waits behind each until the standby says that it is kept.

ghost use Rattle.std.specs.Prelude.{◌≡◌, ◌≢◌, ◌<◌, ◌^◌, [], length, true, false};
ghost use Rattle.mta_journal.specs.Bodies.{AreWithin, longest_first};
ghost use Rattle.mta_follow_units.specs.Look.{Cut, look};
ghost use Rattle.mta_follow_units.specs.Units.{IsBad, kept_unit};
ghost use Rattle.mta_follow_units.specs.declared.due.Due.TheVariants.{Kept as kept_due};
ghost use Rattle.mta_follow_run.specs.Outcome.{PushesOver};
ghost use Rattle.mta_follow_run.specs.Pushing.{Pushes, PushesOne, Waits};

use crate::get::get_unit;
use crate::put::{put_number, put_record};
use crate::stop::Stop;
use mta_edge::Octets;
use mta_follow_units::{DONE, Due, Look, Reader};
use mta_links::{Link, Station};
use std::alloc::Global;

// Whether the unit that came says that the record of this number is kept.
fn is_kept(reader: &Reader, number: u64) -> bool
    requires { look (kept_due number) reader.now.left ≢ Cut }
    ensures kept { result ≡ true → reader.now.left ≡ kept_unit number }
    ensures other { result ≡ false → IsBad (kept_due number) reader.now.left }
{
    match reader.look(Due::Kept { number }) {
        Look::Kept => true,
        Look::Bad => false,
        Look::Cut => false,
        Look::Record(_) => false,
        Look::Done => false,
    }
}

// Waits until the standby says that the record of this number is kept.
fn wait_kept<L: Link>(link: &mut L, reader: &mut Reader, number: u64) -> Result<(), Stop>
    requires { reader.old.left ≡ [] }
    ensures { Waits L.model number link.old reader.old link.new reader.new result }
{
    match get_unit(link, reader, Due::Kept { number }) {
        Ok(true) => {}
        Ok(false) => return Err(Stop::Broken),
        Err(_) => return Err(Stop::Memory),
    }
    if !is_kept(reader, number) {
        return Err(Stop::BadUnit { at: reader.at() });
    }
    reader.pass();
    Ok(())
}

// Puts a record, and waits until it is kept.
fn push_record<L: Link>(
    link: &mut L,
    reader: &mut Reader,
    number: u64,
    body: &[u8],
) -> Result<(), Stop>
    requires none { reader.old.left ≡ [] }
    requires short { length body.now < 2 ^ 32 }
    ensures { PushesOne L.model number body.now link.old reader.old link.new reader.new result }
{
    if put_record(link, body).is_err() {
        return Err(Stop::Broken);
    }
    wait_kept(link, reader, number)
}

/// Pushes records with these bodies over a link, and says that these were all. Their number is answered.
pub fn push<L: Link>(alloc: Global, link: &mut L, bodies: &[Octets]) -> Result<u64, Stop>
    requires { AreWithin longest_first bodies.now }
    ensures { Pushes L.model bodies.now link.old link.new result }
{
    let mut reader = Reader::new(alloc);
    let mut number = 0;
    for body in bodies {
        number += 1;
        push_record(link, &mut reader, number, body.as_slice())?;
    }
    if put_number(link, DONE, number).is_err() {
        return Err(Stop::Broken);
    }
    Ok(number)
}

/// Pushes over the next link of a station.
pub fn push_over<S: Station>(alloc: Global, station: &mut S, bodies: &[Octets]) -> Result<u64, Stop>
    requires { AreWithin longest_first bodies.now }
    ensures { PushesOver S.Link.model S.model bodies.now station.old station.new result }
{
    match station.next() {
        Ok(Some(link)) => {
            let mut link = link;
            let pushed = push(alloc, &mut link, bodies);
            station.back(link);
            pushed
        }
        Ok(None) => Err(Stop::Broken),
        Err(_) => Err(Stop::Broken),
    }
}

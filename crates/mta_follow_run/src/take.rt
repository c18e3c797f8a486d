//! What a standby does with a unit that came.

ghost use Rattle.std.specs.Prelude.{◌≡◌, ◌≤◌, ◌<◌, ◌+◌, ◌^◌, length};
ghost use Rattle.mta_journal.specs.Appending.{IsShortEnough};
ghost use Rattle.mta_journal.specs.Shown.{IsPlain};
ghost use Rattle.mta_follow_units.specs.Look.{Cut, look};
ghost use Rattle.mta_follow_units.specs.declared.due.Due.TheVariants.{Record as record_due};
ghost use Rattle.mta_follow_run.specs.Taking.{Adds, IsEnded, Judges, Keeps, MayKeep, Takes};

use crate::stop::{Stop, stop_of_append};
use mta_edge::{Disk, Octets};
use mta_follow_units::{Due, Look, Reader};
use mta_journal::Journal;
use mta_records::{RecordFault, read_record};
use std::alloc::Global;

// Whether a step has this body, whose unit stands at this offset. A body of no step is none.
fn judge(alloc: Global, at: u64, body: &[u8]) -> Result<(), Stop>
    requires { length body.now < 2 ^ 32 }
    ensures { Judges at body.now result }
{
    match read_record(alloc, body) {
        Ok(_) => Ok(()),
        Err(RecordFault::BadRecord { .. }) => Err(Stop::BadUnit { at }),
        Err(RecordFault::Memory) => Err(Stop::Memory),
    }
}

// Appends a record with this body, whose unit stands at this offset. A body of no step is none.
fn append_record<D: Disk + Drop>(
    alloc: Global,
    journal: &mut Journal<D>,
    at: u64,
    body: &[u8],
) -> Result<(), Stop>
    requires plain { IsPlain journal.old.first }
    requires short { IsShortEnough journal.old.first journal.old.size body.now }
    requires fits { length body.now < 2 ^ 32 }
    ensures { Adds D.model at body.now journal.old journal.new result }
{
    judge(alloc, at, body)?;
    match journal.append(body) {
        Ok(()) => Ok(()),
        Err(fault) => Err(stop_of_append(fault)),
    }
}

// Keeps the record behind so many: it is the one that is kept, or is appended.
fn keep_record<D: Disk + Drop>(
    alloc: Global,
    journal: &mut Journal<D>,
    kept: &[Octets],
    got: u64,
    at: u64,
    body: &[u8],
) -> Result<(), Stop>
    requires plain { IsPlain journal.old.first }
    requires short { length kept.now ≤ got → IsShortEnough journal.old.first journal.old.size body.now }
    requires fits { length body.now < 2 ^ 32 }
    requires more { got + 1 < 2 ^ 64 }
    ensures { Keeps D.model kept.now got at body.now journal.old journal.new result }
{
    if kept.len() as u64 <= got {
        return append_record(alloc, journal, at, body);
    }
    let own = kept[got as usize].as_slice();
    if own == body {
        Ok(())
    } else {
        Err(Stop::Diverged { number: got + 1 })
    }
}

// There are no more records than so many: more may not be kept.
fn end_records(kept: &[Octets], got: u64) -> Result<(), Stop>
    ensures { IsEnded (length kept.now) got result }
{
    if kept.len() as u64 > got {
        Err(Stop::Diverged { number: got })
    } else {
        Ok(())
    }
}

/// Takes the unit that came, where so many records came before it, and answers whether it is a record.
pub fn take_unit<D: Disk + Drop>(
    alloc: Global,
    reader: &Reader,
    journal: &mut Journal<D>,
    kept: &[Octets],
    got: u64,
) -> Result<bool, Stop>
    requires told { look (record_due got) reader.now.left ≡ Cut → ⊥ }
    requires plain { IsPlain journal.old.first }
    requires short { length kept.now ≤ got → MayKeep journal.old got }
    requires more { got + 1 < 2 ^ 64 }
    ensures { Takes D.model kept.now got reader.now.at reader.now.left journal.old journal.new result }
{
    let at = reader.at();
    match reader.look(Due::Record { got }) {
        Look::Record(body) => {
            keep_record(alloc, journal, kept, got, at, body)?;
            Ok(true)
        }
        Look::Done => {
            end_records(kept, got)?;
            Ok(false)
        }
        Look::Bad => Err(Stop::BadUnit { at }),
        Look::Cut => Err(Stop::Broken),
        Look::Kept => Err(Stop::Broken),
    }
}

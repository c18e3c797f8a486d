//! Opening a journal, whatever a crash has left of it.
//!
//! In comes a disk, from the spool. It is synced first, so that nothing is pending. Of a disk of more
//! than nine octets the first ones are looked at and the records of its current area read (`areas.rt`,
//! `read.rt`). At most nine octets, and one area without records, are made a journal of two areas. Out
//! go the journal and its bodies, or the disk and why: no journal from some place on, the disk failed,
//! memory.
//!
//! A crash before that sync has succeeded leaves what one before the call might have left, and from it
//! on the same bodies. A disk that stands for bodies is not written to.

ghost use Rattle.std.specs.Prelude.{◌≡◌, [], ◌+◌, ◌≤◌, ◌<◌, length, false, None, IfOk, IfErr, OnOk};
ghost use Rattle.mta_edge.specs.Causes.{HasCause};
ghost use Rattle.mta_edge.specs.Crashes.{CrashLeaves, Settled};
ghost use Rattle.mta_edge.specs.Outside.{ContentGoes, Within};
ghost use Rattle.mta_edge.specs.Views.{StaysTold, WhereTold};
ghost use Rattle.mta_journal.specs.Bodies.{AreWithin, HasBodiesAt, StandsFor, longest_first};
ghost use Rattle.mta_journal.specs.Opening.{BeforeOrSame, BeginsAreas, HasOpenCause, HasRefused, IsLeft, IsPlaced};
ghost use Rattle.mta_journal.specs.Opening.{IsRefused, IsSame, IsSameFrom, IsSynced, KeepsFilled, KeepsNone};
ghost use Rattle.mta_journal.specs.Opening.{OnNotSpool};
ghost use Rattle.mta_journal.specs.Shown.{Holds, IsSound};

use crate::areas::{Placed, find_area};
use crate::journal::Journal;
use crate::read::Found;
use crate::why::OpenWhy;
use mta_disk::{lift_gate, put_frame, write_synced};
use mta_edge::{Disk, Failed, Octets};
use std::alloc::Global;
use std::snapshot::Snapshot;

// The octets `MTASPL01` and a closed gate.
const EMPTY: [u8; 9] = *b"MTASPL01\0";

// The length ten, the octet FF, the selector and eight octets of zero, and a closed gate.
const AREAS: [u8; 15] = [0, 0, 0, 10, 255, 0, 0, 0, 0, 0, 0, 0, 0, 0, 0];

// Begins two areas on a disk of one that has no bodies.
fn begin_areas<D: Disk>(disk: &mut D) -> Result<(), Failed>
    requires within { Within 9 (D.model.content disk.old) }
    requires settled { Settled D.model disk.old }
    ensures begun { OnOk result (ContentGoes D.model BeginsAreas disk.old disk.new) }
    ensures settled { OnOk result (Settled D.model disk.new) }
    ensures told { StaysTold D.model disk.old disk.new }
    ensures images { CrashLeaves D.model KeepsNone disk.old disk.new }
    ensures cause { HasCause (D.model.faults disk.old) (D.model.faults disk.new) result }
{
    put_frame(disk, 8, &AREAS)?;
    lift_gate(disk, 8)?;
    Ok(())
}

// Makes a disk of at most nine octets one area that has no bodies.
fn make_empty<D: Disk>(disk: &mut D) -> Result<(), Failed>
    requires short { WhereTold D.model disk.old (λ f. length f ≤ 9) }
    requires settled { Settled D.model disk.old }
    ensures made { OnOk result (ContentGoes D.model (λ f g. HasBodiesAt 8 [] g) disk.old disk.new) }
    ensures settled { OnOk result (Settled D.model disk.new) }
    ensures told { StaysTold D.model disk.old disk.new }
    ensures images { CrashLeaves D.model (λ f g. StandsFor g []) disk.old disk.new }
    ensures cause { HasCause (D.model.faults disk.old) (D.model.faults disk.new) result }
{
    write_synced(disk, 0, &EMPTY)?;
    Ok(())
}

// Makes a disk of at most nine octets one of two areas that have no bodies.
fn begin_short<D: Disk>(disk: &mut D) -> Result<(), Failed>
    requires short { WhereTold D.model disk.old (λ f. length f ≤ 9) }
    requires settled { Settled D.model disk.old }
    ensures made { OnOk result (ContentGoes D.model (λ f g. HasBodiesAt 23 [] g) disk.old disk.new) }
    ensures settled { OnOk result (Settled D.model disk.new) }
    ensures told { StaysTold D.model disk.old disk.new }
    ensures images { CrashLeaves D.model (λ f g. StandsFor g []) disk.old disk.new }
    ensures cause { HasCause (D.model.faults disk.old) (D.model.faults disk.new) result }
{
    make_empty(disk)?;
    begin_areas(disk)?;
    Ok(())
}

// The first of two areas without bodies.
fn no_bodies(alloc: Global) -> Placed
    ensures first { result.first ≡ 23 }
    ensures size { result.found.size ≡ 24 }
    ensures bodies { result.found.bodies.items ≡ [] }
    ensures frame { result.frame ≡ None }
{
    Placed {
        first: 23,
        found: Found {
            size: 24,
            bodies: Vec::new(alloc),
        },
        frame: None,
    }
}

/// A journal that was opened: the first gate of its current area, the bodies that it holds, and, for clauses alone,
/// the disk as the first sync left it.
#[derive(Drop)]
pub struct Opened<D: Disk + Drop> {
    pub journal: Journal<D>,
    pub first: u64,
    pub bodies: Vec<Octets>,
    pub synced: Snapshot<D>,
}

/// A refusal, which hands the disk back.
#[derive(Drop)]
pub struct OpenFault<D: Disk + Drop> {
    pub disk: D,
    pub why: OpenWhy,
}

// Makes a disk of at most nine octets a journal of two areas.
fn make_areas<D: Disk>(alloc: Global, disk: &mut D) -> Result<Placed, Failed>
    requires short { WhereTold D.model disk.old (λ f. length f ≤ 9) }
    requires settled { Settled D.model disk.old }
    ensures stands { IfOk result (λ r. WhereTold D.model disk.old (λ f. StandsFor f r.found.bodies.items)) }
    ensures placed { IfOk result (λ r. IsPlaced D.model disk.new r.first r.found.size r.found.bodies.items r.frame) }
    ensures some { IfOk result (λ r. r.first ≡ 8 → 9 < r.found.size) }
    ensures told { StaysTold D.model disk.old disk.new }
    ensures settled { OnOk result (Settled D.model disk.new) }
    ensures kept { KeepsFilled D.model disk.old disk.new }
    ensures cause { HasCause (D.model.faults disk.old) (D.model.faults disk.new) result }
    ensures images { CrashLeaves D.model IsSame disk.old disk.new }
{
    begin_short(disk)?;
    Ok(no_bodies(alloc))
}

// Makes a longer disk of one area without bodies a journal of two areas.
fn begin_again<D: Disk>(alloc: Global, disk: &mut D) -> Result<Placed, Failed>
    requires none { WhereTold D.model disk.old (λ f. HasBodiesAt 8 [] f) }
    requires long { WhereTold D.model disk.old (λ f. 9 < length f) }
    requires settled { Settled D.model disk.old }
    ensures stands { IfOk result (λ r. WhereTold D.model disk.old (λ f. StandsFor f r.found.bodies.items)) }
    ensures placed { IfOk result (λ r. IsPlaced D.model disk.new r.first r.found.size r.found.bodies.items r.frame) }
    ensures some { IfOk result (λ r. r.first ≡ 8 → 9 < r.found.size) }
    ensures told { StaysTold D.model disk.old disk.new }
    ensures settled { OnOk result (Settled D.model disk.new) }
    ensures kept { KeepsFilled D.model disk.old disk.new }
    ensures cause { HasCause (D.model.faults disk.old) (D.model.faults disk.new) result }
    ensures images { CrashLeaves D.model IsSame disk.old disk.new }
{
    begin_areas(disk)?;
    Ok(no_bodies(alloc))
}

// Finds the bodies on a disk with nothing pending. Where there are none in one area, or at most nine octets, the disk
// is made a journal of two areas.
fn find<D: Disk>(alloc: Global, disk: &mut D) -> Result<Placed, OpenWhy>
    requires settled { Settled D.model disk.old }
    ensures stands { IfOk result (λ r. WhereTold D.model disk.old (λ f. StandsFor f r.found.bodies.items)) }
    ensures placed { IfOk result (λ r. IsPlaced D.model disk.new r.first r.found.size r.found.bodies.items r.frame) }
    ensures some { IfOk result (λ r. r.first ≡ 8 → 9 < r.found.size) }
    ensures told { StaysTold D.model disk.old disk.new }
    ensures settled { OnOk result (Settled D.model disk.new) }
    ensures refused { OnNotSpool result (λ p. ContentGoes D.model (IsRefused p) disk.old disk.new) }
    ensures kept { KeepsFilled D.model disk.old disk.new }
    ensures cause { HasOpenCause (D.model.faults disk.old) (D.model.faults disk.new) result }
    ensures images { CrashLeaves D.model IsSame disk.old disk.new }
{
    let size = disk.size()?;
    if size <= 9 {
        let made = make_areas(alloc, disk)?;
        return Ok(made);
    }
    let placed = find_area(alloc, disk, size)?;
    if placed.found.size == 9 {
        let begun = begin_again(alloc, disk)?;
        return Ok(begun);
    }
    Ok(placed)
}

// What was found on a disk, and the disk as the first sync left it.
#[derive(Drop)]
struct Recovered<D> {
    placed: Placed,
    synced: Snapshot<D>,
}

// Finds the bodies on a disk that a crash may have left.
fn recover<D: Disk>(alloc: Global, disk: &mut D) -> Result<Recovered<D>, OpenWhy>
    ensures stands { IfOk result (λ r. WhereTold D.model disk.old (λ f. StandsFor f r.placed.found.bodies.items)) }
    ensures placed { IfOk result (λ r.
        IsPlaced D.model disk.new r.placed.first r.placed.found.size r.placed.found.bodies.items r.placed.frame) }
    ensures sound { IfOk result (λ r.
        IsSound D.model disk.new r.placed.first r.placed.found.size false r.placed.frame) }
    ensures holds { IfOk result (λ r. Holds D.model
        (record { disk = disk.new; first = r.placed.first; size = r.placed.found.size; ended = false })
        r.placed.found.bodies.items) }
    ensures told { StaysTold D.model disk.old disk.new }
    ensures settled { OnOk result (Settled D.model disk.new) }
    ensures refused { OnNotSpool result (λ p. ContentGoes D.model (IsRefused p) disk.old disk.new) }
    ensures kept { KeepsFilled D.model disk.old disk.new }
    ensures cause { HasOpenCause (D.model.faults disk.old) (D.model.faults disk.new) result }
    ensures images { CrashLeaves D.model (BeforeOrSame D.model disk.old) disk.old disk.new }
    ensures since { IfOk result (λ r. WhereTold D.model disk.old
        (λ f. IsSameFrom D.model f disk.old disk.new (D.model.moment r.synced.value))) }
    ensures sync { IfOk result (λ r. IsSynced D.model disk.old r.synced.value) }
    ensures left { WhereTold D.model disk.old (λ f. IsLeft D.model f disk.old disk.new) }
{
    disk.sync()?;
    let synced = Snapshot::of(disk);
    let placed = find(alloc, disk)?;
    Ok(Recovered { placed, synced })
}

impl<D: Disk + Drop> Journal<D> {
    /// Opens the journal on this disk, whatever a crash has left of it. It begins with a sync. A disk of at most nine
    /// octets, whatever they are, and one of one area that has no bodies are made a journal of two areas with none.
    ///
    /// # Errors
    /// `NotSpool` exactly where a disk of more than nine octets is no journal, at the place where that shows; `Disk`
    /// only where the disk failed; `Memory`.
    pub fn open(alloc: Global, mut disk: D) -> Result<Opened<D>, OpenFault<D>>
        ensures stands { IfOk result (λ o. WhereTold D.model disk (λ f. StandsFor f o.bodies.items)) }
        ensures holds { IfOk result (λ o. Holds D.model o.journal o.bodies.items) }
        ensures told { IfOk result (λ o. StaysTold D.model disk o.journal.disk) }
        ensures short { IfOk result (λ o. AreWithin longest_first o.bodies.items) }
        ensures first { IfOk result (λ o. o.first ≡ o.journal.first) }
        ensures some { IfOk result (λ o. o.journal.first ≡ 8 → 9 < o.journal.size) }
        ensures later { IfOk result (λ o. D.model.faults disk ≤ D.model.faults o.journal.disk) }
        ensures kept { IfOk result (λ o. KeepsFilled D.model disk o.journal.disk) }
        ensures images { IfOk result (λ o. CrashLeaves D.model (BeforeOrSame D.model disk) disk o.journal.disk) }
        ensures since { IfOk result (λ o. WhereTold D.model disk
            (λ f. IsSameFrom D.model f disk o.journal.disk (D.model.moment o.synced.value))) }
        ensures sync { IfOk result (λ o. IsSynced D.model disk o.synced.value) }
        ensures refused { IfErr result (λ e. HasRefused D.model disk e.disk e.why) }
        ensures refused_told { IfErr result (λ e. StaysTold D.model disk e.disk) }
        ensures refused_kept { IfErr result (λ e. KeepsFilled D.model disk e.disk) }
        ensures refused_left { IfErr result (λ e. WhereTold D.model disk (λ f. IsLeft D.model f disk e.disk)) }
        ensures refused_images { IfErr result (λ e. CrashLeaves D.model (BeforeOrSame D.model disk) disk e.disk) }
    {
        match recover(alloc, &mut disk) {
            Ok(
                Recovered {
                    placed: Placed {
                        first,
                        found: Found { size, bodies },
                        frame,
                    },
                    synced,
                },
            ) => Ok(Opened {
                journal: Journal {
                    alloc,
                    disk,
                    first,
                    size,
                    ended: false,
                    frame,
                },
                first,
                bodies,
                synced,
            }),
            Err(why) => Err(OpenFault { disk, why }),
        }
    }
}

//! A journal, how it grows by a body, and how it is written anew.
//!
//! In comes a body from a step of the spool: of at most `LONGEST_BODY` octets, or `LONGEST_FIRST` where
//! it is the first of its area. `append` puts it behind the closed gate at the end, syncs, opens the
//! gate, and syncs (`mta_disk`): four calls of the disk, or six where the body is long, since then its
//! length and the gate behind it are written beside it, and it is not copied. `compact` puts one body in
//! the place of all, and `settle` ends what a stopped `compact` began (`parts.rt`). Out goes Ok with the
//! body durable, or `Full`, `Ended`, `Disk` or `Memory`; after all but `Disk` the journal is as it was,
//! and after `Disk` it takes no more.
//!
//! A crash at any moment of `append` leaves the bodies that the journal held, or those and this one: the
//! gate is closed on the disk before anything stands behind it, so a torn record is never read. One of
//! `compact` leaves the bodies that it held, or the one; one of `settle` those that it held.

ghost use Rattle.std.specs.Prelude.{◌≡◌, ◌+◌, ◌*◌, ◌≤◌, ◌<◌, ◌^◌, length, OnOk, IsErrOf};
ghost use Rattle.mta_edge.specs.Crashes.{Settled};
ghost use Rattle.mta_edge.specs.Outside.{ContentGoes, Within};
ghost use Rattle.mta_edge.specs.Views.{StaysTold};
ghost use Rattle.mta_disk.specs.Answers.{HasPutCause};
ghost use Rattle.mta_journal.specs.Appending.{CrashLeavesBehind, IsShortEnough, PutsBehind, journal_limit};
ghost use Rattle.mta_journal.specs.Bodies.{need_of};
ghost use Rattle.mta_journal.specs.Shown.{IsPlain};

use crate::parts::{move_down, replace};
use mta_disk::{PutFault, frame_of, lift_gate, put_closed};
use mta_edge::{Disk, Octets};
use std::alloc::Global;
use std::marker::Model;
use std::mem;
use std::snapshot::Snapshot;
use thiserror::Error;

/// The most octets of a journal.
pub const JOURNAL_LIMIT: u64 = 536_870_912;

/// Why a body was not appended, or a journal not written anew.
#[derive(Clone, Copy, Debug, PartialEq, Eq, Error)]
pub enum AppendFault {
    /// So many octets are used, and the record needs so many more.
    #[error("the journal has {size} octets and the record needs {need}")]
    Full { size: u64, need: u64 },
    /// The disk failed. The journal takes no more bodies; a crash leaves it with what the call was to do, or without.
    #[error("the disk failed")]
    Disk,
    /// An earlier call answered `Disk`.
    #[error("the journal has ended")]
    Ended,
    /// Memory was refused, before the disk was called.
    #[error("out of memory")]
    Memory,
}

/// A journal on one disk.
#[derive(Drop)]
pub struct Journal<D: Disk + Drop> {
    pub(crate) alloc: Global,
    pub(crate) disk: D,
    // The first gate of the current area.
    pub(crate) first: u64,
    // The offset behind the closed gate.
    pub(crate) size: u64,
    pub(crate) ended: bool,
    // Where the second area is current: what stands behind its first gate, up to the closed one and with it. So
    // `settle` takes no memory and does not read.
    pub(crate) frame: Option<Octets>,
}

impl<D: Disk + Drop> Model for Journal<D> {
    ghost use Rattle.mta_journal.specs.Shown.{Shown, IsSound};

    ghost Value = { Shown D };

    ghost view = { λ j. record { disk = j.disk; first = j.first; size = j.size; ended = j.ended } };

    ghost invariant = { λ j. IsSound D.model j.disk j.first j.size j.ended j.frame };
}

// Puts a body in its record behind the closed gate at `gate`, and then opens that gate.
fn put_record<D: Disk>(alloc: Global, disk: &mut D, gate: u64, body: &[u8]) -> Result<(), PutFault>
    requires within { Within (gate + 1) (D.model.content disk.old) }
    requires fits { length body.now < 2 ^ 32 }
    requires room { gate + length body.now + 6 < 2 ^ 64 }
    requires settled { Settled D.model disk.old }
    ensures put { OnOk result (PutsBehind D.model gate body.now disk.old disk.new) }
    ensures longer { OnOk result (ContentGoes D.model (λ f g. gate + need_of body.now < length g) disk.old disk.new) }
    ensures settled { OnOk result (Settled D.model disk.new) }
    ensures told { StaysTold D.model disk.old disk.new }
    ensures images { CrashLeavesBehind D.model gate body.now disk.old disk.new }
    ensures memory { IsErrOf result PutFault.Memory → disk.new ≡ disk.old }
    ensures cause { HasPutCause (D.model.faults disk.old) (D.model.faults disk.new) result }
{
    put_closed(alloc, disk, gate, body)?;
    lift_gate(disk, gate)?;
    Ok(())
}

impl<D: Disk + Drop> Journal<D> {
    ghost use Rattle.mta_journal.specs.Appending.{Appends};

    /// Appends a body, in the only area or in the first of two. At `Ok` it is on the disk, and each crash from then on
    /// leaves it there.
    ///
    /// # Errors
    /// `Ended` exactly where an earlier call answered `Disk`, `Full` exactly where the record would pass
    /// `JOURNAL_LIMIT`, `Disk` only where the disk failed. After all but `Disk` the journal is as it was.
    pub fn append(&mut self, body: &[u8]) -> Result<(), AppendFault>
        requires plain { IsPlain self.old.first }
        requires short { IsShortEnough self.old.first self.old.size body.now }
        ensures { Appends D.model body.now self.old self.new result }
    {
        if self.ended {
            return Err(AppendFault::Ended);
        }
        let need = body.len() as u64 + 5;
        if need > JOURNAL_LIMIT.saturating_sub(self.size) {
            return Err(AppendFault::Full {
                size: self.size,
                need,
            });
        }
        match put_record(self.alloc, &mut self.disk, self.size - 1, body) {
            Ok(()) => {
                self.size += need;
                Ok(())
            }
            Err(PutFault::Memory) => Err(AppendFault::Memory),
            Err(PutFault::Disk) => {
                self.ended = true;
                Err(AppendFault::Disk)
            }
        }
    }
}

impl<D: Disk + Drop> Journal<D> {
    ghost use Rattle.mta_journal.specs.Compacting.{Compacts, Settles};

    /// Moves the record of the second area into the first, where the second is current, as a stop in `compact` can
    /// leave it. Where another area is current nothing is done.
    ///
    /// # Errors
    /// `Ended` exactly where an earlier call answered `Disk`, `Disk` only where the disk failed. No memory is taken.
    pub fn settle(&mut self) -> Result<(), AppendFault>
        ensures { Settles D.model self.old self.new result }
    {
        if self.ended {
            return Err(AppendFault::Ended);
        }
        match mem::replace(&mut self.frame, None) {
            None => Ok(()),
            Some(frame) => match move_down(&mut self.disk, frame.as_slice()) {
                Ok(()) => {
                    self.first = 23;
                    self.size = 24 + frame.len() as u64;
                    Ok(())
                }
                Err(_) => {
                    self.ended = true;
                    Err(AppendFault::Disk)
                }
            },
        }
    }

    /// Puts this body in the place of all that the journal holds, where the first of two areas is current.
    ///
    /// # Errors
    /// `Ended` exactly where an earlier call answered `Disk`, `Disk` only where the disk failed. `Memory` comes before
    /// the disk is called, and the journal is as it was.
    pub fn compact(&mut self, body: &[u8]) -> Result<(), AppendFault>
        requires first { self.old.first ≡ 23 }
        requires bound { self.old.size < 2 ^ 63 }
        requires shorter { 2 * (24 + need_of body.now) ≤ self.old.size }
        requires limit { 2 * (24 + need_of body.now) ≤ journal_limit }
        ensures { Compacts D.model body.now self.old self.new result }
    {
        if self.ended {
            return Err(AppendFault::Ended);
        }
        let frame = match frame_of(self.alloc, body) {
            Ok(frame) => frame,
            Err(_) => return Err(AppendFault::Memory),
        };
        match replace(&mut self.disk, self.size, frame.as_slice()) {
            Ok(()) => {
                self.size = 24 + frame.len() as u64;
                Ok(())
            }
            Err(_) => {
                self.ended = true;
                Err(AppendFault::Disk)
            }
        }
    }

    /// The octets used, up to the closed gate and with it: the offset behind that gate.
    pub fn size(&self) -> u64
        ensures { result ≡ self.now.size }
    {
        self.size
    }

    /// The offset of the first gate of the current area.
    pub fn first(&self) -> u64
        ensures { result ≡ self.now.first }
    {
        self.first
    }

    /// The disk as it is, for clauses alone.
    pub fn disk_now(&self) -> Snapshot<D>
        ensures { result.value ≡ self.now.disk }
    {
        Snapshot::of(&self.disk)
    }

    /// Whether a call answered that the disk failed.
    pub fn is_ended(&self) -> bool
        ensures { result ≡ self.now.ended }
    {
        self.ended
    }

    /// The disk.
    pub fn end(self) -> D
        ensures { result ≡ self.disk }
    {
        let Journal {
            alloc: _,
            disk,
            first: _,
            size: _,
            ended: _,
            frame: _,
        } = self;
        disk
    }
}

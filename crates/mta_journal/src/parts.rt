//! How a journal of two areas is replaced by one record, in six parts, each of which ends with a sync.
//!
//! 1. Where the second area begins is written, and a closed gate there. 2. The record is put into the second area.
//! 3. The second area is chosen. 4. The record is put into the first area. 5. The first is chosen. 6. The disk is cut.
//! A crash at any moment leaves the bodies as they were or the one record: until part 3 the first area stays as it is,
//! in part 4 the second does, and in parts 5 and 6 both have the record.

ghost use Rattle.std.specs.Prelude.{◌≡◌, ◌+◌, ◌≤◌, ◌<◌, ◌^◌, length, OnOk};
ghost use Rattle.mta_edge.specs.Causes.{HasCause};
ghost use Rattle.mta_edge.specs.Crashes.{CrashLeaves, Settled};
ghost use Rattle.mta_edge.specs.Outside.{ContentGoes, Within};
ghost use Rattle.mta_edge.specs.Views.{StaysTold};
ghost use Rattle.mta_journal.specs.Stages.{KeepsBoth, KeepsEither, KeepsFirst, KeepsOne, KeepsSecond};
ghost use Rattle.mta_journal.specs.Stages.{LeavesFirst, MovesOne, PutsFirst, PutsSecond, Replaces};

use mta_disk::{choose, cut_to, lift_gate, point_high, put_frame, shut};
use mta_edge::{Disk, Failed};

// Parts 1 and 2: the frame's record is put into the second area, which is to begin at `e`.
fn put_second<D: Disk>(disk: &mut D, e: u64, frame: &[u8]) -> Result<(), Failed>
    requires behind { 23 < e }
    requires room { e + 1 < 2 ^ 64 }
    requires within { Within e (D.model.content disk.old) }
    requires settled { Settled D.model disk.old }
    ensures put { OnOk result (ContentGoes D.model (PutsSecond e frame.now) disk.old disk.new) }
    ensures longer { OnOk result (Within e (D.model.content disk.new)) }
    ensures settled { OnOk result (Settled D.model disk.new) }
    ensures told { StaysTold D.model disk.old disk.new }
    ensures images { CrashLeaves D.model (KeepsFirst e) disk.old disk.new }
    ensures cause { HasCause (D.model.faults disk.old) (D.model.faults disk.new) result }
{
    point_high(disk, e)?;
    put_frame(disk, e, frame)?;
    lift_gate(disk, e)?;
    Ok(())
}

// Part 4: the frame's record is put into the first area.
fn put_first<D: Disk>(disk: &mut D, frame: &[u8]) -> Result<(), Failed>
    requires within { Within 24 (D.model.content disk.old) }
    requires settled { Settled D.model disk.old }
    ensures put { OnOk result (ContentGoes D.model (PutsFirst frame.now) disk.old disk.new) }
    ensures longer { OnOk result (Within (24 + length frame.now) (D.model.content disk.new)) }
    ensures settled { OnOk result (Settled D.model disk.new) }
    ensures told { StaysTold D.model disk.old disk.new }
    ensures images { CrashLeaves D.model (KeepsSecond frame.now) disk.old disk.new }
    ensures cause { HasCause (D.model.faults disk.old) (D.model.faults disk.new) result }
{
    shut(disk, 23)?;
    put_frame(disk, 23, frame)?;
    lift_gate(disk, 23)?;
    Ok(())
}

// Parts 5 and 6: the first area is chosen, and the disk is cut behind the frame's record in it.
fn leave_first<D: Disk>(disk: &mut D, frame: &[u8]) -> Result<(), Failed>
    requires room { 24 + length frame.now < 2 ^ 64 }
    requires within { Within (24 + length frame.now) (D.model.content disk.old) }
    requires settled { Settled D.model disk.old }
    ensures left { OnOk result (ContentGoes D.model (LeavesFirst frame.now) disk.old disk.new) }
    ensures longer { OnOk result (Within (24 + length frame.now) (D.model.content disk.new)) }
    ensures settled { OnOk result (Settled D.model disk.new) }
    ensures told { StaysTold D.model disk.old disk.new }
    ensures images { CrashLeaves D.model (KeepsBoth frame.now) disk.old disk.new }
    ensures cause { HasCause (D.model.faults disk.old) (D.model.faults disk.new) result }
{
    choose(disk, 0)?;
    cut_to(disk, 24 + frame.len() as u64)?;
    Ok(())
}

/// Parts 4 to 6: where the second area is current, its record, of which this is the frame, is moved into the first.
pub(crate) fn move_down<D: Disk>(disk: &mut D, frame: &[u8]) -> Result<(), Failed>
    requires room { 24 + length frame.now < 2 ^ 64 }
    requires within { Within 24 (D.model.content disk.old) }
    requires settled { Settled D.model disk.old }
    ensures moved { OnOk result (ContentGoes D.model (MovesOne frame.now) disk.old disk.new) }
    ensures longer { OnOk result (Within (24 + length frame.now) (D.model.content disk.new)) }
    ensures settled { OnOk result (Settled D.model disk.new) }
    ensures told { StaysTold D.model disk.old disk.new }
    ensures images { CrashLeaves D.model (KeepsOne frame.now) disk.old disk.new }
    ensures cause { HasCause (D.model.faults disk.old) (D.model.faults disk.new) result }
{
    put_first(disk, frame)?;
    leave_first(disk, frame)?;
    Ok(())
}

/// Parts 1 to 6: where the first area is current and ends at `e`, the record of this frame takes the place of its
/// records.
pub(crate) fn replace<D: Disk>(disk: &mut D, e: u64, frame: &[u8]) -> Result<(), Failed>
    requires behind { 24 ≤ e }
    requires room { e + 1 < 2 ^ 64 }
    requires frame_room { 24 + length frame.now < 2 ^ 64 }
    requires within { Within e (D.model.content disk.old) }
    requires settled { Settled D.model disk.old }
    ensures replaced { OnOk result (ContentGoes D.model (Replaces e frame.now) disk.old disk.new) }
    ensures longer { OnOk result (Within (24 + length frame.now) (D.model.content disk.new)) }
    ensures settled { OnOk result (Settled D.model disk.new) }
    ensures told { StaysTold D.model disk.old disk.new }
    ensures images { CrashLeaves D.model (KeepsEither e frame.now) disk.old disk.new }
    ensures cause { HasCause (D.model.faults disk.old) (D.model.faults disk.new) result }
{
    put_second(disk, e, frame)?;
    choose(disk, 1)?;
    move_down(disk, frame)?;
    Ok(())
}

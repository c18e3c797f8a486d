//! What is written of two areas, besides records: where the second one begins, which one is current, and a gate that is
//! closed again.
//!
//! Each call takes a disk with nothing pending, makes at most three calls of it, of which a sync is the last, and takes
//! no memory. A crash at any moment of one leaves all octets but those that it names.

ghost use Rattle.std.specs.Prelude.{◌≡◌, [], ◌∷◌, ◌+◌, ◌<◌, ◌^◌, OnOk};
ghost use Rattle.mta_edge.specs.Causes.{HasCause};
ghost use Rattle.mta_edge.specs.Crashes.{CrashLeaves, Settled};
ghost use Rattle.mta_edge.specs.Outside.{ContentGoes, Torn, Within};
ghost use Rattle.mta_edge.specs.Views.{StaysTold};
ghost use Rattle.mta_disk.specs.Records.{IsChosen, IsPointedAt, IsShutAt, IsTornAt};

use crate::gate::write_synced;
use mta_edge::{Disk, Failed};

/// Writes where the second area begins, with a closed gate there, and syncs. Until then a crash may leave any octets in
/// both places.
///
/// # Errors
/// The disk failed.
pub fn point_high<D: Disk>(disk: &mut D, e: u64) -> Result<(), Failed>
    requires begun { Within 15 (D.model.content disk.old) }
    requires within { Within e (D.model.content disk.old) }
    requires settled { Settled D.model disk.old }
    ensures pointed { OnOk result (ContentGoes D.model (IsPointedAt e) disk.old disk.new) }
    ensures settled { OnOk result (Settled D.model disk.new) }
    ensures told { StaysTold D.model disk.old disk.new }
    ensures images { CrashLeaves D.model (IsTornAt e) disk.old disk.new }
    ensures cause { HasCause (D.model.faults disk.old) (D.model.faults disk.new) result }
{
    disk.write_at(15, &e.to_be_bytes())?;
    disk.write_at(e, &[0])?;
    disk.sync()?;
    Ok(())
}

/// Writes the selector of the areas, and syncs.
///
/// # Errors
/// The disk failed.
pub fn choose<D: Disk>(disk: &mut D, selector: u8) -> Result<(), Failed>
    requires within { Within 14 (D.model.content disk.old) }
    requires settled { Settled D.model disk.old }
    ensures chosen { OnOk result (ContentGoes D.model (IsChosen selector) disk.old disk.new) }
    ensures settled { OnOk result (Settled D.model disk.new) }
    ensures told { StaysTold D.model disk.old disk.new }
    ensures images { CrashLeaves D.model (Torn 14 1) disk.old disk.new }
    ensures cause { HasCause (D.model.faults disk.old) (D.model.faults disk.new) result }
{
    write_synced(disk, 14, &[selector])
}

/// Closes the gate at `gate`, and syncs.
///
/// # Errors
/// The disk failed.
pub fn shut<D: Disk>(disk: &mut D, gate: u64) -> Result<(), Failed>
    requires within { Within gate (D.model.content disk.old) }
    requires settled { Settled D.model disk.old }
    ensures shut { OnOk result (ContentGoes D.model (IsShutAt gate) disk.old disk.new) }
    ensures settled { OnOk result (Settled D.model disk.new) }
    ensures told { StaysTold D.model disk.old disk.new }
    ensures images { CrashLeaves D.model (Torn gate 1) disk.old disk.new }
    ensures cause { HasCause (D.model.faults disk.old) (D.model.faults disk.new) result }
{
    write_synced(disk, gate, &[0])
}

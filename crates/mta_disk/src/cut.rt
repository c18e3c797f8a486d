//! Cutting a disk.

ghost use Rattle.std.specs.Prelude.{◌≡◌, OnOk};
ghost use Rattle.mta_edge.specs.Causes.{HasCause};
ghost use Rattle.mta_edge.specs.Crashes.{CrashLeaves, CutShort, Settled};
ghost use Rattle.mta_edge.specs.Outside.{ContentGoes, Within};
ghost use Rattle.mta_edge.specs.Views.{StaysTold};
ghost use Rattle.mta_disk.specs.Records.{IsCutTo};

use mta_edge::{Disk, Failed};

/// Cuts the disk to this size, and syncs. Until then a crash may leave a size between.
///
/// # Errors
/// The disk failed.
pub fn cut_to<D: Disk>(disk: &mut D, size: u64) -> Result<(), Failed>
    requires within { Within size (D.model.content disk.old) }
    requires settled { Settled D.model disk.old }
    ensures cut { OnOk result (ContentGoes D.model (IsCutTo size) disk.old disk.new) }
    ensures settled { OnOk result (Settled D.model disk.new) }
    ensures told { StaysTold D.model disk.old disk.new }
    ensures images { CrashLeaves D.model (CutShort size) disk.old disk.new }
    ensures cause { HasCause (D.model.faults disk.old) (D.model.faults disk.new) result }
{
    disk.cut(size)?;
    disk.sync()?;
    Ok(())
}

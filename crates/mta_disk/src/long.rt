//! A long body, which is written where it stands: it is not copied behind its length.
//!
//! `put_long` writes length, body and a closed gate behind the gate at `gate`, each in a write of its own, and syncs.
//! It takes no memory. A crash at any moment of it leaves that gate and all before it as they were.

ghost use Rattle.std.specs.Prelude.{◌≡◌, ◌+◌, ◌<◌, ◌^◌, length, OnOk};
ghost use Rattle.mta_edge.specs.Causes.{HasCause};
ghost use Rattle.mta_edge.specs.Crashes.{CrashLeaves, Settled};
ghost use Rattle.mta_edge.specs.Outside.{ContentGoes, Torn, Within};
ghost use Rattle.mta_edge.specs.Views.{StaysTold};
ghost use Rattle.mta_disk.specs.Records.{IsPutAt};

use mta_edge::{Disk, Failed};

/// Writes the length, the body and a closed gate behind the gate at `gate`, one behind the other, and syncs. The octet
/// at `gate` and all before it stand in every image that a crash leaves.
///
/// # Errors
/// The disk failed.
pub(crate) fn put_long<D: Disk>(disk: &mut D, gate: u64, body: &[u8]) -> Result<(), Failed>
    requires within { Within (gate + 1) (D.model.content disk.old) }
    requires fits { length body.now < 2 ^ 32 }
    requires room { gate + length body.now + 6 < 2 ^ 64 }
    requires settled { Settled D.model disk.old }
    ensures put { OnOk result (ContentGoes D.model (IsPutAt gate body.now) disk.old disk.new) }
    ensures settled { OnOk result (Settled D.model disk.new) }
    ensures told { StaysTold D.model disk.old disk.new }
    ensures images { CrashLeaves D.model (Torn (gate + 1) (length body.now + 5)) disk.old disk.new }
    ensures cause { HasCause (D.model.faults disk.old) (D.model.faults disk.new) result }
{
    let count = body.len();
    disk.write_at(gate + 1, &(count as u32).to_be_bytes())?;
    disk.write_at(gate + 5, body)?;
    disk.write_at(gate + 5 + count as u64, &[0])?;
    disk.sync()?;
    Ok(())
}

//! Writing behind a closed gate, and lifting it: the two halves of an append.
//!
//! `put_closed` writes length, body and a closed gate behind the gate at `gate`, and syncs; `lift_gate`
//! writes 1 on that gate, and syncs. Each takes octets from the journal and gives Ok with all of it
//! durable, or `Disk`; want of memory comes before the first call. A body of more than `LONGEST_COPIED`
//! octets is not copied behind its length, but written where it stands (`long.rt`).
//!
//! A crash at any moment of the first leaves that gate and all before it as they were; one in the
//! second leaves all but that one octet.

ghost use Rattle.std.specs.Prelude.{◌≡◌, ◌++◌, [], ◌∷◌, ◌+◌, ◌<◌, ◌^◌, length, IfOk, OnOk, IsErrOf};
ghost use Rattle.mta_edge.specs.Causes.{HasCause};
ghost use Rattle.mta_edge.specs.Crashes.{CrashLeaves, Settled};
ghost use Rattle.mta_edge.specs.Outside.{ContentGoes, Torn, Within, written};
ghost use Rattle.mta_edge.specs.Views.{StaysTold};
ghost use Rattle.mta_disk.specs.Answers.{HasPutCause};
ghost use Rattle.mta_disk.specs.Records.{IsFramedAt, IsLiftedAt, IsPutAt, frame_of};

use crate::long::put_long;
use mta_edge::{Disk, Failed, Memory, Octets};
use std::alloc::Global;
use thiserror::Error;

// The most octets of a body that is copied behind its length, so that one write puts the record. To copy as many costs
// about what the two calls of the system do that a longer one takes more.
const LONGEST_COPIED: usize = 16_384;

/// Why a record was not put.
#[derive(Clone, Copy, Debug, PartialEq, Eq, Error)]
pub enum PutFault {
    #[error("the disk failed")]
    Disk,
    #[error("out of memory")]
    Memory,
}

impl From<Failed> for PutFault {
    ghost use Rattle.std.specs.Prelude.{◌≡◌};
    ghost use Rattle.mta_disk.specs.declared.gate.PutFault.TheVariants.{Disk as disk_fault};

    ghost from_gives = { λ _ e. e ≡ disk_fault };

    fn from(_: Failed) -> PutFault {
        PutFault::Disk
    }
}

impl From<Memory> for PutFault {
    ghost use Rattle.std.specs.Prelude.{◌≡◌};
    ghost use Rattle.mta_disk.specs.declared.gate.PutFault.TheVariants.{Memory as memory_fault};

    ghost from_gives = { λ _ e. e ≡ memory_fault };

    fn from(_: Memory) -> PutFault {
        PutFault::Memory
    }
}

/// Writes octets at an offset, and syncs. Until the sync has succeeded a crash may leave any octets in their range.
///
/// # Errors
/// The disk failed.
pub fn write_synced<D: Disk>(disk: &mut D, at: u64, bytes: &[u8]) -> Result<(), Failed>
    requires within { Within at (D.model.content disk.old) }
    requires settled { Settled D.model disk.old }
    ensures written { OnOk result (ContentGoes D.model (λ f g. g ≡ written at bytes.now f) disk.old disk.new) }
    ensures settled { OnOk result (Settled D.model disk.new) }
    ensures told { StaysTold D.model disk.old disk.new }
    ensures images { CrashLeaves D.model (Torn at (length bytes.now)) disk.old disk.new }
    ensures cause { HasCause (D.model.faults disk.old) (D.model.faults disk.new) result }
{
    disk.write_at(at, bytes)?;
    disk.sync()?;
    Ok(())
}

/// What is written of a body behind its gate: its length, the body and a closed gate.
#[tactic(auto, unfolding(crate::specs::Records::counted))]
pub fn frame_of(alloc: Global, body: &[u8]) -> Result<Octets, Memory>
    requires { length body.now < 2 ^ 32 }
    ensures { IfOk result (λ o. o ≡ frame_of body.now) }
{
    let mut record = Octets::from_slice(alloc, &(body.len() as u32).to_be_bytes())?;
    record.extend(body)?;
    record.extend(&[0])?;
    Ok(record)
}

/// Writes a frame behind the gate at `gate`, and syncs. The octet at `gate` and all before it stand in every image that
/// a crash leaves.
///
/// # Errors
/// The disk failed.
pub fn put_frame<D: Disk>(disk: &mut D, gate: u64, frame: &[u8]) -> Result<(), Failed>
    requires within { Within (gate + 1) (D.model.content disk.old) }
    requires room { gate + 1 < 2 ^ 64 }
    requires settled { Settled D.model disk.old }
    ensures put { OnOk result (ContentGoes D.model (IsFramedAt gate frame.now) disk.old disk.new) }
    ensures settled { OnOk result (Settled D.model disk.new) }
    ensures told { StaysTold D.model disk.old disk.new }
    ensures images { CrashLeaves D.model (Torn (gate + 1) (length frame.now)) disk.old disk.new }
    ensures cause { HasCause (D.model.faults disk.old) (D.model.faults disk.new) result }
{
    write_synced(disk, gate + 1, frame)
}

/// Writes the body's length, the body and the next gate, which is closed, behind the gate at `gate`, and syncs. The
/// octet at `gate` and all before it stand in every image that a crash leaves. A body of more than `LONGEST_COPIED`
/// octets takes no memory.
///
/// # Errors
/// `Disk` where it failed, `Memory` before it is called.
pub fn put_closed<D: Disk>(
    alloc: Global,
    disk: &mut D,
    gate: u64,
    body: &[u8],
) -> Result<(), PutFault>
    requires within { Within (gate + 1) (D.model.content disk.old) }
    requires fits { length body.now < 2 ^ 32 }
    requires room { gate + length body.now + 6 < 2 ^ 64 }
    requires settled { Settled D.model disk.old }
    ensures put { OnOk result (ContentGoes D.model (IsPutAt gate body.now) disk.old disk.new) }
    ensures settled { OnOk result (Settled D.model disk.new) }
    ensures told { StaysTold D.model disk.old disk.new }
    ensures images { CrashLeaves D.model (Torn (gate + 1) (length body.now + 5)) disk.old disk.new }
    ensures memory { IsErrOf result PutFault.Memory → disk.new ≡ disk.old }
    ensures cause { HasPutCause (D.model.faults disk.old) (D.model.faults disk.new) result }
{
    if body.len() > LONGEST_COPIED {
        put_long(disk, gate, body)?;
        return Ok(());
    }
    let frame = frame_of(alloc, body)?;
    put_frame(disk, gate, frame.as_slice())?;
    Ok(())
}

/// Opens the gate at `gate`, and syncs. An image that a crash leaves differs from what stood there at that one octet.
///
/// # Errors
/// The disk failed.
pub fn lift_gate<D: Disk>(disk: &mut D, gate: u64) -> Result<(), Failed>
    requires within { Within (gate + 1) (D.model.content disk.old) }
    requires settled { Settled D.model disk.old }
    ensures lifted { OnOk result (ContentGoes D.model (IsLiftedAt gate) disk.old disk.new) }
    ensures settled { OnOk result (Settled D.model disk.new) }
    ensures told { StaysTold D.model disk.old disk.new }
    ensures images { CrashLeaves D.model (Torn gate 1) disk.old disk.new }
    ensures cause { HasCause (D.model.faults disk.old) (D.model.faults disk.new) result }
{
    write_synced(disk, gate, &[1])
}

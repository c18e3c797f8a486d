//! One agent of a drill: a spool on a disk in memory, whose clock stands at 0.

ghost use Rattle.std.specs.Prelude.{◌≡◌, ◌↔◌, [], IsTrue, OnOk};
ghost use Rattle.mta_drill_answer_laws.specs.Answers.{IsShort, WantsMemory};

use mta_ber::Memory;
use mta_edge::{MemClock, SafeDisk};
use mta_spool::Spool;
use mta_stations::Halt;
use std::alloc::Global;

/// A spool of a drill.
pub(crate) type Agent = Spool<SafeDisk, MemClock>;

/// A clock that answers 0.
pub(crate) fn clock(alloc: Global) -> MemClock
    ensures { result ≡ [] }
{
    MemClock::new(Vec::new(alloc))
}

// Whether an agent stopped for want of memory: a disk in memory fails for that alone, and has no room for a journal
// that passes its limit.
fn wants_memory(halt: Halt) -> bool
    ensures { IsTrue result ↔ WantsMemory halt }
{
    matches!(halt, Halt::Memory | Halt::Disk | Halt::Full { .. })
}

/// Refuses where an agent would end for want of memory.
pub(crate) fn check(halt: Option<Halt>) -> Result<(), Memory>
    ensures { OnOk result (IsShort halt → ⊥) }
{
    match halt {
        Some(halt) => {
            if wants_memory(halt) {
                Err(Memory)
            } else {
                Ok(())
            }
        }
        None => Ok(()),
    }
}

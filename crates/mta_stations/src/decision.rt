//! Which of several workers' ends decides how their run ends.

ghost use Rattle.std.specs.Prelude.{◌≡◌, IfSome, IfNone};
ghost use Rattle.mta_stations.specs.Deciding.{Decides, IsUndecided, deciding, first_of, halts_of, status_of};

use crate::end::{Halt, WorkerEnd};

// The status of a run that ends for it.
fn status_of(halt: Halt) -> Option<u8>
    ensures { result ≡ status_of halt }
{
    match halt {
        Halt::Limit | Halt::StationEnded | Halt::StationFailed => None,
        Halt::Disk => Some(4),
        Halt::Full { .. } | Halt::Spent { .. } => Some(5),
        Halt::NoPeer | Halt::Memory => Some(7),
    }
}

// The first that a run ends for with this status.
fn first_of(status: u8, ends: &[WorkerEnd]) -> Option<Halt>
    ensures { result ≡ first_of status (halts_of ends.now) }
{
    ends.iter()
        .map(|end| end.halt)
        .find(|halt| status_of(*halt) == Some(status))
}

/// Why the run of these workers ends; nothing where each gave its links back, or its station ended or failed. A fault
/// of the disk is before want of room or of numbers, and that before want of memory, with which a peer stands that is
/// not named; of several alike the one of the lowest station decides.
pub fn deciding(ends: &[WorkerEnd]) -> Option<Halt>
    ensures found { IfSome result (Decides (halts_of ends.now)) }
    ensures none { IfNone result (IsUndecided (halts_of ends.now)) }

    // The same as a function.
    ensures exact { result ≡ deciding (halts_of ends.now) }
{
    first_of(4, ends)
        .or(first_of(5, ends))
        .or(first_of(7, ends))
}

//! What a worker came to.

ghost use Rattle.std.specs.Prelude.{◌≡◌};
ghost use Rattle.mta_stations.specs.Halting.{halt_of};

use mta_records::StepFault;

/// Why a worker ended.
#[derive(Clone, Copy, Debug, Drop, PartialEq, Eq)]
pub enum Halt {
    /// It gave as many links back as it may.
    Limit,
    /// The station has no more links.
    StationEnded,
    /// The station failed.
    StationFailed,
    /// The tables recorded last do not name the peer that the station calls.
    NoPeer,
    /// The disk failed, now or before.
    Disk,
    /// The journal has `size` octets, and with the `need` octets of a record it would pass its limit.
    Full { size: u64, need: u64 },
    /// The numbers left above `last` are fewer than a step needs.
    Spent { last: u64 },
    /// No memory was left.
    Memory,
}

/// How many links a worker gave back, how many of their sessions ended with the lane closed, and why it ended.
#[derive(Clone, Copy, Debug, Drop, PartialEq, Eq)]
pub struct WorkerEnd {
    pub sessions: u32,
    pub closed: u32,
    pub halt: Halt,
}

/// Why a worker ends whose step was refused so; none where it goes on.
pub fn halt_of(fault: StepFault) -> Option<Halt>
    ensures { result ≡ halt_of fault }
{
    match fault {
        StepFault::Full { size, need } => Some(Halt::Full { size, need }),
        StepFault::Disk | StepFault::Ended => Some(Halt::Disk),
        StepFault::Spent { last } => Some(Halt::Spent { last }),
        StepFault::Memory => Some(Halt::Memory),
        StepFault::Fenced { .. }
        | StepFault::NoLane { .. }
        | StepFault::BusyLanes { .. }
        | StepFault::Unexpected => None,
    }
}

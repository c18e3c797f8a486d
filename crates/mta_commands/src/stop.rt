//! Why a command ended without its result.

ghost use Rattle.std.specs.Prelude.{◌≡◌, ◌≢◌, None, Some};
ghost use Rattle.mta_spool.specs.Stands.{IsOfNoLane};
ghost use Rattle.mta_commands.specs.Inputs.{stop_of_read};
ghost use Rattle.mta_commands.specs.Shows.{stop_of_open};
ghost use Rattle.mta_commands.specs.Serving.{stop_of_halt};
ghost use Rattle.mta_commands.specs.Submit.{stop_of_step};
ghost use Rattle.mta_stations.specs.Deciding.{status_of};

use mta_ber::{Kind, ReadFault, Word};
use mta_spool::{OpenWhy, StepFault};
use mta_stations::Halt;
use mta_tables::LineKind;

/// Each with its status and its line.
#[derive(Drop)]
pub enum Stop {
    /// The words are outside the grammar.
    Usage,
    /// The text of the tables has this first bad line, from 1.
    Tables { line: u32, kind: LineKind },
    /// The disk holds no spool from this offset on.
    NotSpool { at: u64 },
    /// The disk failed.
    Disk,
    /// The journal has `size` octets, and with the `need` octets of the next record it would pass its limit.
    Full { size: u64, need: u64 },
    /// The numbers left above `last` are fewer than the next step needs.
    Spent { last: u64 },
    /// No memory was left.
    Memory,
    /// The tables' file or the input failed.
    Source,
    /// The output failed.
    Sink,
    /// The tables recorded last do not name this mailbox, or none are recorded.
    NoMailbox(Word),
    /// The tables do not name this peer, whom a station calls.
    NoPeer(Word),
    /// The input is no APDU, for this first fault at this offset.
    BadApdu { at: u32, kind: Kind },
}

/// Why octets were not read as an APDU.
pub fn stop_of_read(fault: ReadFault) -> Stop
    ensures { result ≡ stop_of_read fault }
{
    match fault {
        ReadFault::Bad(fault) => Stop::BadApdu {
            at: fault.at,
            kind: fault.kind,
        },
        ReadFault::Memory => Stop::Memory,
    }
}

/// Why a disk was not opened.
pub fn stop_of_open(why: OpenWhy) -> Stop
    ensures { result ≡ stop_of_open why }
{
    match why {
        OpenWhy::NotSpool { at } => Stop::NotSpool { at },
        OpenWhy::Full { size, need } => Stop::Full { size, need },
        OpenWhy::Disk => Stop::Disk,
        OpenWhy::Memory => Stop::Memory,
    }
}

/// Why a step of no lane was refused.
pub fn stop_of_step(fault: StepFault) -> Stop
    requires { IsOfNoLane (Some fault) }
    ensures { result ≡ stop_of_step fault }
{
    match fault {
        StepFault::Full { size, need } => Stop::Full { size, need },
        StepFault::Disk | StepFault::Ended => Stop::Disk,
        StepFault::Spent { last } => Stop::Spent { last },
        StepFault::Memory => Stop::Memory,
        StepFault::Fenced { .. } => unreachable!(),
        StepFault::NoLane { .. } => unreachable!(),
        StepFault::BusyLanes { .. } => unreachable!(),
        StepFault::Unexpected => unreachable!(),
    }
}

/// Why a run ends for which a worker's end decides. Its last turns went well then, so the disk has not failed, and the
/// tables name each peer that is called: an end that says otherwise is told as want of memory.
pub fn stop_of_halt(halt: Halt) -> Stop
    requires { status_of halt ≢ None }
    ensures { result ≡ stop_of_halt halt }
{
    match halt {
        Halt::Disk => Stop::Memory,
        Halt::Full { size, need } => Stop::Full { size, need },
        Halt::Spent { last } => Stop::Spent { last },
        Halt::NoPeer | Halt::Memory => Stop::Memory,
        Halt::Limit => unreachable!(),
        Halt::StationEnded => unreachable!(),
        Halt::StationFailed => unreachable!(),
    }
}

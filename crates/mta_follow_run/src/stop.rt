//! Why a standby does not hold all records.

ghost use Rattle.std.specs.Prelude.{◌≡◌};
ghost use Rattle.mta_follow_run.specs.Stops.{stop_of_append, stop_of_journal, stop_of_spool};

use mta_journal::{AppendFault, OpenWhy as JournalWhy};
use mta_spool::OpenWhy;

/// Each with its status and its line.
#[derive(Clone, Copy)]
pub enum Stop {
    /// The words are others than those of the program.
    Usage,
    /// The disk holds no spool, or the standby's no journal, from this offset on.
    NotSpool { at: u64 },
    /// The disk failed.
    Disk,
    /// The spool has so many octets, and the next record needs so many more.
    Full { size: u64, need: u64 },
    /// No memory was left.
    Memory,
    /// There was no link, or it failed, or its input ended before the last unit.
    Broken,
    /// The record of this number is another than the one kept, or the last one, and more are kept.
    Diverged { number: u64 },
    /// The unit at this offset of the input is none that was due.
    BadUnit { at: u64 },
}

/// Why a record was not appended.
pub fn stop_of_append(fault: AppendFault) -> Stop
    ensures { result ≡ stop_of_append fault }
{
    match fault {
        AppendFault::Full { size, need } => Stop::Full { size, need },
        AppendFault::Disk => Stop::Disk,
        AppendFault::Ended => Stop::Memory,
        AppendFault::Memory => Stop::Memory,
    }
}

/// Why a journal was not opened.
pub fn stop_of_journal(why: JournalWhy) -> Stop
    ensures { result ≡ stop_of_journal why }
{
    match why {
        JournalWhy::NotSpool { at } => Stop::NotSpool { at },
        JournalWhy::Disk => Stop::Disk,
        JournalWhy::Memory => Stop::Memory,
    }
}

/// Why a spool was not opened.
pub fn stop_of_spool(why: OpenWhy) -> Stop
    ensures { result ≡ stop_of_spool why }
{
    match why {
        OpenWhy::NotSpool { at } => Stop::NotSpool { at },
        OpenWhy::Full { size, need } => Stop::Full { size, need },
        OpenWhy::Disk => Stop::Disk,
        OpenWhy::Memory => Stop::Memory,
    }
}

//! Why a spool is not opened.

ghost use Rattle.std.specs.Prelude.{◌≡◌};
ghost use Rattle.mta_spool.specs.GoingOn.{why_of_append, why_of_journal, why_of_step};

use mta_ber::Memory;
use mta_journal::{AppendFault, OpenWhy as JournalWhy};
use mta_records::StepFault;
use thiserror::Error;

/// Why a spool was not opened.
#[derive(Clone, Copy, Debug, PartialEq, Eq, Error)]
pub enum OpenWhy {
    /// The disk holds no spool from this offset on.
    #[error("the disk is no spool at {at}")]
    NotSpool { at: u64 },
    /// The format does not fit behind the history: so many octets are used, and its record needs so many more.
    #[error("the spool has {size} octets and the format needs {need}")]
    Full { size: u64, need: u64 },
    /// The disk failed.
    #[error("the disk failed")]
    Disk,
    /// Memory was refused.
    #[error("out of memory")]
    Memory,
}

impl From<Memory> for OpenWhy {
    ghost use Rattle.std.specs.Prelude.{◌≡◌};
    ghost use Rattle.mta_spool.specs.declared.why.OpenWhy.TheVariants.{Memory as memory_fault};

    ghost from_gives = { λ _ e. e ≡ memory_fault };

    fn from(_: Memory) -> OpenWhy {
        OpenWhy::Memory
    }
}

/// Why a journal was not opened.
pub fn why_of_journal(why: JournalWhy) -> OpenWhy
    ensures { result ≡ why_of_journal why }
{
    match why {
        JournalWhy::NotSpool { at } => OpenWhy::NotSpool { at },
        JournalWhy::Disk => OpenWhy::Disk,
        JournalWhy::Memory => OpenWhy::Memory,
    }
}

/// Why a journal was not written anew: the other two faults never come.
pub fn why_of_append(fault: AppendFault) -> OpenWhy
    ensures { result ≡ why_of_append fault }
{
    match fault {
        AppendFault::Disk => OpenWhy::Disk,
        AppendFault::Full { .. } | AppendFault::Ended | AppendFault::Memory => OpenWhy::Memory,
    }
}

/// Why the format was not set: of the other faults none comes.
pub fn why_of_step(fault: StepFault) -> OpenWhy
    ensures { result ≡ why_of_step fault }
{
    match fault {
        StepFault::Full { size, need } => OpenWhy::Full { size, need },
        StepFault::Disk => OpenWhy::Disk,
        StepFault::Ended
        | StepFault::Fenced { .. }
        | StepFault::NoLane { .. }
        | StepFault::BusyLanes { .. }
        | StepFault::Unexpected
        | StepFault::Spent { .. }
        | StepFault::Memory => OpenWhy::Memory,
    }
}

//! Why a disk is not opened.

use mta_edge::{Failed, Memory};
use thiserror::Error;

/// Why a disk was not opened.
#[derive(Clone, Copy, Debug, PartialEq, Eq, Error)]
pub enum OpenWhy {
    /// The disk has more than nine octets and is no journal: the first octet of the eight that differs, or the first
    /// open gate whose record passes the disk's end or is too long.
    #[error("the disk is no journal at {at}")]
    NotSpool { at: u64 },
    /// The disk failed.
    #[error("the disk failed")]
    Disk,
    /// Memory was refused.
    #[error("out of memory")]
    Memory,
}

impl From<Failed> for OpenWhy {
    ghost use Rattle.std.specs.Prelude.{◌≡◌};
    ghost use Rattle.mta_journal.specs.declared.why.OpenWhy.TheVariants.{Disk as disk_fault};

    ghost from_gives = { λ _ e. e ≡ disk_fault };

    fn from(_: Failed) -> OpenWhy {
        OpenWhy::Disk
    }
}

impl From<Memory> for OpenWhy {
    ghost use Rattle.std.specs.Prelude.{◌≡◌};
    ghost use Rattle.mta_journal.specs.declared.why.OpenWhy.TheVariants.{Memory as memory_fault};

    ghost from_gives = { λ _ e. e ≡ memory_fault };

    fn from(_: Memory) -> OpenWhy {
        OpenWhy::Memory
    }
}

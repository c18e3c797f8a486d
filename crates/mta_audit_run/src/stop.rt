//! Why there is no audit to print.

ghost use Rattle.std.specs.Prelude.{◌≡◌};
ghost use Rattle.mta_audit_run.specs.Stops.{stop_of_open};

use mta_ber::Memory;
use mta_journal::OpenWhy;

/// One of the two spools.
#[derive(Clone, Copy)]
pub enum Spool {
    First,
    Second,
}

/// Each with its status and its line.
#[derive(Clone, Copy)]
pub enum Stop {
    /// The words are not two.
    Usage,
    /// A disk holds no spool from this offset on.
    NotSpool { spool: Spool, at: u64 },
    /// A disk failed.
    Disk,
    /// No memory was left.
    Memory,
}

impl From<Memory> for Stop {
    ghost use Rattle.std.specs.Prelude.{◌≡◌};
    ghost use Rattle.mta_audit_run.specs.declared.stop.Stop.TheVariants as Stops;

    ghost from_gives = { λ _ e. e ≡ Stops.Memory };

    fn from(_: Memory) -> Stop {
        Stop::Memory
    }
}

/// Why the disk of a spool was not opened.
pub fn stop_of_open(spool: Spool, why: OpenWhy) -> Stop
    ensures { result ≡ stop_of_open spool why }
{
    match why {
        OpenWhy::NotSpool { at } => Stop::NotSpool { spool, at },
        OpenWhy::Disk => Stop::Disk,
        OpenWhy::Memory => Stop::Memory,
    }
}

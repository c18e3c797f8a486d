//! Why a command ended without its result.

ghost use Rattle.std.specs.Prelude.{◌≡◌};
ghost use Rattle.mta_store_run.specs.Stops.{stop_of_add, stop_of_marks};

use mta_ber::Memory;
use mta_commands::Stop as AgentStop;
use mta_journal::{AppendFault, OpenWhy as MarksWhy};

/// Each with its status and its line.
#[derive(Drop)]
pub enum Stop {
    /// The words are outside the grammar.
    Usage,
    /// As the agent tells it, with its status and line.
    Agent(AgentStop),
    /// The mailbox has no entry of this number, or it was deleted.
    NoEntry { number: u32 },
    /// The entry of this number is new, so it is not deleted.
    NotFetched { number: u32 },
    /// The disk of the marks holds none from this offset on.
    NotMarks { at: u64 },
}

impl From<Memory> for Stop {
    ghost use Rattle.std.specs.Prelude.{◌≡◌};
    ghost use Rattle.mta_store_run.specs.declared.stop.Stop.TheVariants as Stops;
    ghost use Rattle.mta_commands.specs.declared.stop.Stop.TheVariants as AgentStops;

    ghost from_gives = { λ _ e. e ≡ Stops.Agent AgentStops.Memory };

    fn from(_: Memory) -> Stop {
        Stop::Agent(AgentStop::Memory)
    }
}

/// Why the disk of the marks was not opened.
pub(crate) fn stop_of_marks(why: MarksWhy) -> Stop
    ensures { result ≡ stop_of_marks why }
{
    match why {
        MarksWhy::NotSpool { at } => Stop::NotMarks { at },
        MarksWhy::Disk => Stop::Agent(AgentStop::Disk),
        MarksWhy::Memory => Stop::Agent(AgentStop::Memory),
    }
}

/// Why a mark was not appended: none is appended behind a disk fault.
pub(crate) fn stop_of_add(fault: AppendFault) -> Stop
    ensures { result ≡ stop_of_add fault }
{
    match fault {
        AppendFault::Full { size, need } => Stop::Agent(AgentStop::Full { size, need }),
        AppendFault::Disk | AppendFault::Ended => Stop::Agent(AgentStop::Disk),
        AppendFault::Memory => Stop::Agent(AgentStop::Memory),
    }
}

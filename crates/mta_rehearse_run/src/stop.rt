//! Why there is no walk to print.

use mta_ber::{Memory, Octets};
use mta_tables::LineKind;

/// Each with its status and its line.
#[derive(Drop)]
pub enum Stop {
    /// The words are outside the grammar.
    Usage,
    /// The texts have this first bad line, from 1 in all of them.
    Tables { line: u64, kind: LineKind },
    /// No memory was left.
    Memory,
    /// The file of the texts failed.
    Source,
    /// The text of this number, from 1, is the first that has the name or the domain of an earlier one.
    Twice(u32),
    /// No text has this name, which is the first word.
    NoAgent(Octets),
}

impl From<Memory> for Stop {
    ghost use Rattle.std.specs.Prelude.{◌≡◌};
    ghost use Rattle.mta_rehearse_run.specs.declared.stop.Stop.TheVariants as Stops;

    ghost from_gives = { λ _ e. e ≡ Stops.Memory };

    fn from(_: Memory) -> Stop {
        Stop::Memory
    }
}

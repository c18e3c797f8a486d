//! Why a text is no text of tables.

use mta_ber::Memory;
use thiserror::Error;

/// What is wrong with a line, in the order in which it is looked for.
#[derive(Clone, Copy, Debug, PartialEq, Eq)]
pub enum LineKind {
    /// The text has more than 1,048,576 octets, which counts as a fault of line 1.
    TooLong,
    /// The first word, the count or the form of the words, or a last line without a line feed.
    Word,
    /// A number is out of its form or range.
    Number,
    /// A name, a pattern, or the text of the domain.
    Name,
    /// A peer or a list that no earlier line has made known.
    Unknown,
    /// What stands in an earlier line: the domain, the agent's name, a peer's, mailbox's or list's word, a mailbox's
    /// or list's name, an equal pattern of a route, or the hold time of a grade.
    Twice,
    /// More than 64 peers, 4,096 mailboxes, 256 lists, 100 patterns or 1,000 members of a list, or 4,096 routes.
    TooMany,
    /// No line has the domain, or none has the agent's name. The line is the one behind the last.
    Missing,
}

/// Why no tables were read.
#[derive(Clone, Copy, Debug, PartialEq, Eq, Error)]
pub enum TablesFault {
    /// The first bad line, from 1, and what is wrong with it.
    #[error("bad line {line}")]
    BadLine { line: u32, kind: LineKind },
    /// No memory was left for what the tables keep.
    #[error("out of memory")]
    Memory,
}

impl From<Memory> for TablesFault {
    ghost use Rattle.std.specs.Prelude.{◌≡◌};
    ghost use Rattle.mta_tables.specs.declared.fault.TablesFault.TheVariants as Faults;

    ghost from_gives = { λ _ e. e ≡ Faults.Memory };

    fn from(_: Memory) -> TablesFault {
        TablesFault::Memory
    }
}

/// Why a line was not taken.
#[derive(Clone, Copy)]
pub enum LineFault {
    Bad(LineKind),
    Memory,
}

impl From<Memory> for LineFault {
    ghost use Rattle.std.specs.Prelude.{◌≡◌};
    ghost use Rattle.mta_tables.specs.declared.fault.LineFault.TheVariants as LineFaults;

    ghost from_gives = { λ _ e. e ≡ LineFaults.Memory };

    fn from(_: Memory) -> LineFault {
        LineFault::Memory
    }
}

//! Priorities.

ghost use Rattle.std.specs.Prelude.{◌≡◌, OnOk, pos, OnErr};
ghost use Rattle.mta_ber.specs.Canon.{appended};
ghost use Rattle.mta_ber.specs.Parts.{Reads};
ghost use Rattle.mta_ber.specs.Seen.{view};
ghost use Rattle.mta_envelope.specs.Priorities.{priority_number, priority_in, canonical_priority};

use mta_ber::{Memory, ReadFault, View, Writer, put_int};
use mta_names::{primitive, read_number};

/// The priority of a message (X.411, Priority).
#[derive(Clone, Copy, PartialEq, Eq)]
pub enum Priority {
    Normal,
    NonUrgent,
    Urgent,
}

pub fn number_of(priority: Priority) -> i64
    ensures { result ≡ pos (priority_number priority) }
{
    match priority {
        Priority::Normal => 0,
        Priority::NonUrgent => 1,
        Priority::Urgent => 2,
    }
}

/// The priority that an element spells, whatever its tag. BadInt where the number is none of the three.
pub fn read_priority(part: &View) -> Result<Priority, ReadFault>
    ensures { Reads result (priority_in (view part.now)) }
{
    let number = read_number(part, 0, 2)?;
    if number == 0 {
        Ok(Priority::Normal)
    } else if number == 1 {
        Ok(Priority::NonUrgent)
    } else {
        Ok(Priority::Urgent)
    }
}

/// Appends a priority under `[APPLICATION 7]`, and nothing where it is normal.
#[tactic(auto, using(crate::proofs::Written::appended_none))]
pub fn put_priority(w: &mut Writer, priority: Priority) -> Result<(), Memory>
    ensures ok { OnOk result (w.new ≡ appended w.old (canonical_priority priority)) }
    ensures err { OnErr result (w.new ≡ w.old) }
{
    match priority {
        Priority::Normal => Ok(()),
        Priority::NonUrgent | Priority::Urgent => {
            put_int(w, primitive(1, 7), number_of(priority))
        }
    }
}

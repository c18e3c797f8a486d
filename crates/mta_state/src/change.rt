//! What a step changes of the state.

use crate::kept::Kept;
use crate::parts::Made;
use mta_ber::Octets;
use mta_lanes::{Lane, LaneChange};
use mta_machine::{Item, MailboxLine, Status};

/// How a recipient of an activity is discharged: the status, and the report that is made, where one is made.
#[derive(Drop)]
pub struct Settlement {
    pub recipient: u32,
    pub status: Status,
    pub made: Option<Item>,
}

/// What a step changes of the state. Items, recipients and lanes are numbered from 1. Moments are seconds since
/// 1950-01-01 00:00:00 UTC.
#[derive(Drop)]
pub enum Change {
    /// The state is this one, which a snapshot has.
    Begin {
        kept: Kept,
    },
    /// The format is 2 from now on.
    Format,
    /// These tables are recorded last.
    Tables {
        text: Octets,
    },
    /// The item is the next one.
    Accept {
        item: Item,
        moment: u64,
    },
    /// A recipient of an item is discharged.
    Settle {
        item: u32,
        recipient: u32,
        status: Status,
        made: Made,
        line: Option<MailboxLine>,
        moment: u64,
    },
    /// The next lane is opened.
    Open {
        lane: Lane,
        moment: u64,
    },
    /// A change of an open lane.
    OnLane {
        lane: u32,
        change: LaneChange,
        moment: Option<u64>,
    },
    /// What has come on a lane is the next item.
    Complete {
        lane: u32,
        activity: u32,
        item: Item,
        moment: u64,
    },
    /// A change of an open lane by which recipients of its item are discharged, the last of these first.
    Discharge {
        lane: u32,
        change: LaneChange,
        item: u32,
        settlements: Vec<Settlement>,
        moment: u64,
    },
    /// A lane is closed.
    Close {
        lane: u32,
    },
}

//! The parts of the state in memory, and how a step's change is made in them.
//!
//! `reserve` finds room for a change, and is where memory is refused. `commit` makes the change in that room, and
//! cannot fail.

ghost use Rattle.std.specs.Prelude.{◌≡◌, ◌+◌, ◌≤◌, ◌<◌, ◌^◌, ◌++◌, ◌∷◌, [], length};
ghost use Rattle.std.specs.Prelude.{OnOk, option_to_list, vec_len, vec_capacity};
ghost use Rattle.mta_histories.specs.Lanes.{empty, lane_at};
ghost use Rattle.mta_histories.specs.History.{later};
ghost use Rattle.mta_state.specs.Parts.{machine_of, HasRoom, made_items, settled_machine};
ghost use Rattle.mta_lanes.specs.Changes.{MayChangeAt};
ghost use Rattle.mta_lanes.specs.Finds.{lanes_of};
ghost use Rattle.mta_lanes.specs.declared.change.LaneChange.TheVariants as LaneChanges;
ghost use Rattle.mta_state.specs.Kept.{state_of, with_item, settled_one, settled_in_turn, made_by_all, lanes_changed};
ghost use Rattle.mta_state.specs.Kept.{changed_state, CanChange, HasRoomFor};

use crate::change::{Change, Settlement};
use crate::parts::{Made, Parts};
use mta_ber::Memory;
use mta_lanes::{LaneChange, Lanes};
use std::alloc::Global;

/// The parts of a state.
pub struct Kept {
    /// Tables, items and deliveries.
    pub parts: Parts,
    /// The lanes.
    pub lanes: Lanes,
    /// The last moment, in seconds since 1950-01-01 00:00:00 UTC.
    pub moment: u64,
    /// Whether a step was made.
    pub begun: bool,
}

// Written out, since a derived one is opened anew, field by field, at each place where a value is let go.
impl Drop for Kept {
    fn drop(self) {
        let Kept {
            parts: _,
            lanes: _,
            moment: _,
            begun: _,
        } = self;
    }
}

// How many items it makes.
fn made_by(settlement: &Settlement) -> usize
    ensures exact { result ≡ length (option_to_list settlement.now.made) }
    ensures most { result ≤ 1 }
{
    usize::from(settlement.made.is_some())
}

// How many items these make.
#[tactic(auto, using(crate::proofs::Turns::made_more))]
fn made_by_all(settlements: &[Settlement]) -> usize
    ensures { result ≡ made_by_all settlements.now }
{
    let mut count: usize = 0;
    for settlement in settlements {
        count += made_by(settlement);
    }
    count
}

// A recipient of an activity's item is discharged.
fn settle_one(parts: &mut Parts, item: u32, settlement: Settlement, moment: u64)
    requires { HasRoom parts.old 0 (length (option_to_list settlement.made)) 0 }
    ensures state { machine_of parts.new ≡ settled_one (machine_of parts.old) item settlement moment }
    ensures items { vec_len parts.new.items ≡ vec_len parts.old.items + length (option_to_list settlement.made) }
    ensures items_capacity { vec_capacity parts.new.items ≡ vec_capacity parts.old.items }
    ensures lines { vec_len parts.new.mailboxes ≡ vec_len parts.old.mailboxes }
    ensures lines_capacity { vec_capacity parts.new.mailboxes ≡ vec_capacity parts.old.mailboxes }
    ensures texts { parts.new.texts ≡ parts.old.texts }
{
    let Settlement {
        recipient,
        status,
        made,
    } = settlement;
    let made = Made {
        first: made,
        second: None,
    };
    parts.discharge(item, recipient, status, made, None, moment);
}

// Recipients of an activity's item are discharged, the last of these first.
#[tactic(auto, using(crate::proofs::Turns::last_first, crate::proofs::Turns::made_behind))]
fn settle_in_turn(parts: &mut Parts, item: u32, settlements: Vec<Settlement>, moment: u64)
    requires { HasRoom parts.old 0 (made_by_all settlements.items) 0 }
    ensures { machine_of parts.new ≡ settled_in_turn (machine_of parts.old) item settlements.items moment }
{
    let mut rest = settlements;
    while let Some(settlement) = rest.pop() {
        settle_one(parts, item, settlement, moment);
    }
}

impl Kept {
    /// The parts of the state after no step, which takes no memory.
    pub fn new(alloc: Global) -> Kept
        ensures { state_of result ≡ empty }
    {
        Kept {
            parts: Parts::new(alloc),
            lanes: Lanes::new(alloc),
            moment: 0,
            begun: false,
        }
    }

    /// Finds room for a change.
    pub fn reserve(&mut self, change: &Change) -> Result<(), Memory>
        ensures same { state_of self.new ≡ state_of self.old }
        ensures room { OnOk result (HasRoomFor self.new change.now) }
    {
        match change {
            Change::Begin { .. } => Ok(()),
            Change::Format => Ok(()),
            Change::Tables { .. } => self.parts.reserve(1, 0, 0),
            Change::Accept { .. } => self.parts.reserve(0, 1, 0),
            Change::Settle { made, line, .. } => {
                self.parts
                    .reserve(0, made.count(), usize::from(line.is_some()))
            }
            Change::Open { .. } => self.lanes.reserve(),
            Change::OnLane { .. } => Ok(()),
            Change::Complete { .. } => self.parts.reserve(0, 1, 0),
            Change::Discharge { settlements, .. } => {
                self.parts
                    .reserve(0, made_by_all(settlements.as_slice()), 0)
            }
            Change::Close { .. } => Ok(()),
        }
    }

    /// Makes a change, in room that was found for it.
    pub fn commit(&mut self, change: Change)
        requires room { HasRoomFor self.old change }
        requires can { CanChange (state_of self.old) change }
        ensures { state_of self.new ≡ changed_state (state_of self.old) change }
    {
        self.begun = true;
        match change {
            Change::Begin { kept } => *self = kept,
            Change::Format => self.parts.set_format(),
            Change::Tables { text } => self.parts.record_tables(text),
            Change::Accept { item, moment } => {
                self.parts.add_item(item, moment);
                self.moment = moment;
            }
            Change::Settle {
                item,
                recipient,
                status,
                made,
                line,
                moment,
            } => {
                self.parts
                    .discharge(item, recipient, status, made, line, moment);
                self.moment = moment;
            }
            Change::Open { lane, moment } => {
                self.lanes.open(lane);
                self.moment = moment;
            }
            Change::OnLane {
                lane,
                change,
                moment,
            } => {
                self.lanes.change(lane, change);
                self.moment = moment.unwrap_or(self.moment);
            }
            Change::Complete {
                lane,
                activity,
                item,
                moment,
            } => {
                self.lanes.change(lane, LaneChange::Complete { activity });
                self.parts.add_item(item, moment);
                self.moment = moment;
            }
            Change::Discharge {
                lane,
                change,
                item,
                settlements,
                moment,
            } => {
                self.lanes.change(lane, change);
                settle_in_turn(&mut self.parts, item, settlements, moment);
                self.moment = moment;
            }
            Change::Close { lane } => self.lanes.close(lane),
        }
    }
}

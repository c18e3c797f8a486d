//! Of which recipients a change says whether they wait.

ghost use Rattle.std.specs.Prelude.{◌≡◌};
ghost use Rattle.std.specs.Option.{option_copied};
ghost use Rattle.mta_histories.specs.Lanes.{lane_at};
ghost use Rattle.mta_replay.specs.Touched.{all_of, also, item_by, item_in, item_on, touched_by};

use mta_lanes::{Lane, LaneChange, Lanes, Transfer};
use mta_state::Change;

/// The recipients of earlier items who may wait after a change and did not before, or the other way round.
#[derive(Clone, Copy)]
pub enum Touched {
    /// Nobody.
    Nothing,
    /// A recipient of an item.
    One { item: u32, recipient: u32 },
    /// Those of an item.
    All { item: u32 },
    /// Those of two items.
    Both { item: u32, other: u32 },
}

fn item_in(transfer: Option<&Transfer>) -> Option<u32>
    ensures { result ≡ item_in (option_copied transfer.entry) }
{
    match transfer {
        None => None,
        Some(transfer) => Some(transfer.item()),
    }
}

fn item_on(lane: Option<&Lane>) -> Option<u32>
    ensures { result ≡ item_on (option_copied lane.entry) }
{
    match lane {
        None => None,
        Some(lane) => item_in(lane.transfer()),
    }
}

// The item of whose recipients an activity begins or ends by a change of a lane.
fn item_by(lane: Option<&Lane>, change: &LaneChange) -> Option<u32>
    ensures { result ≡ item_by (option_copied lane.entry) change.now }
{
    match change {
        LaneChange::Start(transfer) => Some(transfer.item()),
        LaneChange::Settle => item_on(lane),
        LaneChange::Abandon { .. } => item_on(lane),
        _ => None,
    }
}

fn all_of(item: Option<u32>) -> Touched
    ensures { result ≡ all_of item }
{
    match item {
        None => Touched::Nothing,
        Some(item) => Touched::All { item },
    }
}

fn also(item: Option<u32>, other: u32) -> Touched
    ensures { result ≡ also item other }
{
    match item {
        None => Touched::All { item: other },
        Some(item) => Touched::Both { item, other },
    }
}

/// Whose recipients a change touches in a state with these lanes, where a history goes on by it. Those of items that it
/// makes are touched besides.
pub(crate) fn touched_by(lanes: &Lanes, change: &Change) -> Touched
    ensures { result ≡ touched_by lanes.now.open_lanes.items change.now }
{
    match change {
        Change::Begin { .. } => Touched::Nothing,
        Change::Format => Touched::Nothing,
        Change::Tables { .. } => Touched::Nothing,
        Change::Accept { .. } => Touched::Nothing,
        Change::Settle {
            item,
            recipient,
            ..
        } => Touched::One {
            item: *item,
            recipient: *recipient,
        },
        Change::Open { lane, .. } => all_of(item_in(lane.transfer())),
        Change::OnLane { lane, change, .. } => all_of(item_by(lanes.get(*lane), change)),
        Change::Complete { .. } => Touched::Nothing,
        Change::Discharge {
            lane,
            change,
            item,
            ..
        } => also(item_by(lanes.get(*lane), change), *item),
        Change::Close { lane } => all_of(item_on(lanes.get(*lane))),
    }
}

//! The steps that are due: how many numbers they need, and how they are told.

ghost use Rattle.std.specs.Prelude.{◌≡◌, ◌≤◌, ◌<◌, ◌^◌, ℕ, IfSome};
ghost use Rattle.mta_ber.specs.Times.{last_moment};
ghost use Rattle.mta_records.specs.Body.{HasFields};
ghost use Rattle.mta_histories.specs.Classes.{abandon, class_of, moment_of, settle, was_denied, was_refused};
ghost use Rattle.mta_histories.specs.Lanes.{lane_at};
ghost use Rattle.mta_histories.specs.Numbers.{numbers_needed, numbers_on, recipient_count};
ghost use Rattle.mta_state.specs.Kept.{state_of};
ghost use Rattle.mta_spool.specs.Due.{IsDueStep};

use mta_lanes::{Lane, Lanes};
use mta_records::Step;
use mta_state::Kept;

// How many recipients the activity of a lane has.
fn recipient_count(lane: &Lane) -> usize
    ensures { result ≡ recipient_count lane.now.transfer }
{
    match lane.transfer() {
        Some(transfer) => transfer.recipients().len(),
        None => 0,
    }
}

/// How many numbers of items the failure of the activity of a lane needs.
pub(crate) fn needed_to_fail(lanes: &Lanes, lane: u32) -> usize
    ensures given_up { (k : ℕ) → result ≡ numbers_on (lane_at lane lanes.now.open_lanes.items) (abandon k) }
    ensures refused { (kind k : ℕ)
        → result ≡ numbers_on (lane_at lane lanes.now.open_lanes.items) (settle (was_refused kind) k) }
    ensures denied { (k : ℕ) → result ≡ numbers_on (lane_at lane lanes.now.open_lanes.items) (settle was_denied k) }
{
    match lanes.get(lane) {
        Some(open) => recipient_count(open).max(2),
        None => 0,
    }
}

/// How many numbers of items a due step needs.
pub fn numbers_needed(kept: &Kept, step: &Step) -> usize
    requires { IsDueStep step.now }
    ensures { result ≡ numbers_needed (state_of kept.now) (class_of step.now) }
{
    match step {
        Step::Discard { .. } => 0,
        Step::Abandon { lane, .. } => needed_to_fail(&kept.lanes, *lane),
        _ => 2,
    }
}

fn numbers_fit(first: u32, second: u32)
    ensures first { first < 2 ^ 32 }
    ensures second { second < 2 ^ 32 }
{}

/// A due step once more. Its fields are in their types.
pub fn same(step: &Step) -> Step
    requires due { IsDueStep step.now }
    requires fits { IfSome (moment_of step.now) (λ m. m ≤ last_moment) }
    ensures same { result ≡ step.now }
    ensures fields { HasFields step.now }
{
    match step {
        Step::Deliver {
            item,
            recipient,
            moment,
        } => {
            numbers_fit(*item, *recipient);
            Step::Deliver {
                item: *item,
                recipient: *recipient,
                moment: *moment,
            }
        }
        Step::Expand {
            item,
            recipient,
            moment,
        } => {
            numbers_fit(*item, *recipient);
            Step::Expand {
                item: *item,
                recipient: *recipient,
                moment: *moment,
            }
        }
        Step::Report {
            item,
            recipient,
            moment,
        } => {
            numbers_fit(*item, *recipient);
            Step::Report {
                item: *item,
                recipient: *recipient,
                moment: *moment,
            }
        }
        Step::Affirm {
            item,
            recipient,
            moment,
        } => {
            numbers_fit(*item, *recipient);
            Step::Affirm {
                item: *item,
                recipient: *recipient,
                moment: *moment,
            }
        }
        Step::Discard {
            item,
            recipient,
            moment,
        } => {
            numbers_fit(*item, *recipient);
            Step::Discard {
                item: *item,
                recipient: *recipient,
                moment: *moment,
            }
        }
        Step::Back {
            item,
            recipient,
            moment,
        } => {
            numbers_fit(*item, *recipient);
            Step::Back {
                item: *item,
                recipient: *recipient,
                moment: *moment,
            }
        }
        Step::Abandon {
            lane,
            activity,
            moment,
        } => {
            numbers_fit(*lane, *activity);
            Step::Abandon {
                lane: *lane,
                activity: *activity,
                moment: *moment,
            }
        }
        _ => unreachable!(),
    }
}

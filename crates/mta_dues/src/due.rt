//! What is due of one recipient.

ghost use Rattle.std.specs.Prelude.{◌≡◌, ◌≢◌, ◌≤◌, IfOk, Some, true};
ghost use Rattle.std.specs.Option.{option_copied};
ghost use Rattle.std.specs.List.{find};
ghost use Rattle.mta_ber.specs.Times.{last_moment};
ghost use Rattle.mta_machine.specs.Items.{is_pending_at, numbered};
ghost use Rattle.mta_histories.specs.Lanes.{activities_of};
ghost use Rattle.mta_histories.specs.Kept.{IsKept};
ghost use Rattle.mta_state.specs.Parts.{machine_of};
ghost use Rattle.mta_state.specs.Kept.{state_of};
ghost use Rattle.mta_state.specs.Asked.{IsTextOf};
ghost use Rattle.mta_state.specs.Readings.{IsReadingOf};
ghost use Rattle.mta_dues.specs.Answers.{IsDueOf, is_sending_for, step_by};

use mta_ber::Memory;
use mta_lanes::{Lane, Lanes};
use mta_machine::Item;
use mta_procedures::Verdict;
use mta_records::Step;
use mta_state::{Kept, Reading, Rules, verdict_on};
use std::alloc::Global;

// The step that a verdict calls for at once.
fn step_by(verdict: Option<Verdict>, item: u32, recipient: u32, moment: u64) -> Option<Step>
    ensures { result ≡ step_by verdict item recipient moment }
{
    match verdict {
        None => None,
        Some(Verdict::Deliver(_)) => Some(Step::Deliver {
            item,
            recipient,
            moment,
        }),
        Some(Verdict::Expand(_)) => Some(Step::Expand {
            item,
            recipient,
            moment,
        }),
        Some(Verdict::Relay(_)) => None,
        Some(Verdict::Affirm) => Some(Step::Affirm {
            item,
            recipient,
            moment,
        }),
        Some(Verdict::NonDeliver { .. }) => Some(Step::Report {
            item,
            recipient,
            moment,
        }),
        Some(Verdict::Hold(_)) => None,
        Some(Verdict::Back) => Some(Step::Back {
            item,
            recipient,
            moment,
        }),
        Some(Verdict::Discard) => Some(Step::Discard {
            item,
            recipient,
            moment,
        }),
    }
}

// The open lane whose activity is in Sending and is for this recipient.
fn sending_for(lanes: &Lanes, item: u32, recipient: u32) -> Option<&Lane>
    ensures { option_copied result ≡ find (is_sending_for item recipient) lanes.now.open_lanes.items }
{
    lanes
        .open_lanes
        .iter()
        .find(|lane| lane.is_sending_for(item, recipient))
}

// What is due of a recipient who is in an activity.
#[tactic(auto, using(crate::proofs::Recipients::in_activity_laws))]
fn due_in_activity<R: Rules>(
    rules: &R,
    kept: &Kept,
    number: u32,
    item: &Item,
    reading: &Reading<'_>,
    recipient: u32,
    moment: u64,
) -> Option<Step>
    requires text { IsTextOf kept.now (R.text rules.now) }
    requires format { R.format rules.now ≡ kept.now.parts.format }
    requires kept { IsKept (state_of kept.now) }
    requires item { numbered kept.now.parts.items.items number ≡ Some item.now }
    requires arrived { item.now.arrival ≤ last_moment }
    requires reading { IsReadingOf item.now.octets reading.now }
    requires busy { activities_of kept.now.lanes.open_lanes.items number recipient ≢ 0 }
    ensures { IsDueOf (state_of kept.now) number recipient moment result }
{
    match sending_for(&kept.lanes, number, recipient) {
        None => None,
        Some(lane) => {
            if rules.has_expired(item, reading, moment) {
                Some(Step::Abandon {
                    lane: lane.number(),
                    activity: lane.activity(),
                    moment,
                })
            } else {
                None
            }
        }
    }
}

// What is due of a recipient who is pending and in no activity.
#[tactic(auto, using(crate::proofs::Recipients::by_verdict))]
fn due_while_free<R: Rules>(
    alloc: Global,
    rules: &R,
    kept: &Kept,
    number: u32,
    item: &Item,
    reading: &Reading<'_>,
    recipient: u32,
    moment: u64,
) -> Result<Option<Step>, Memory>
    requires text { IsTextOf kept.now (R.text rules.now) }
    requires format { R.format rules.now ≡ kept.now.parts.format }
    requires item { numbered kept.now.parts.items.items number ≡ Some item.now }
    requires arrived { item.now.arrival ≤ last_moment }
    requires reading { IsReadingOf item.now.octets reading.now }
    requires pending { is_pending_at (machine_of kept.now.parts) number recipient ≡ true }
    requires free { activities_of kept.now.lanes.open_lanes.items number recipient ≡ 0 }
    ensures { IfOk result (IsDueOf (state_of kept.now) number recipient moment) }
{
    let items = kept.parts.items.as_slice();
    let verdict = verdict_on(alloc, rules, items, item, reading, recipient, moment)?;
    Ok(step_by(verdict, number, recipient, moment))
}

/// What is due of a recipient of an item at a moment: none where nothing is.
#[tactic(auto, using(crate::proofs::Recipients::not_pending))]
pub fn due_of<R: Rules>(
    alloc: Global,
    rules: &R,
    kept: &Kept,
    number: u32,
    item: &Item,
    reading: &Reading<'_>,
    recipient: u32,
    moment: u64,
) -> Result<Option<Step>, Memory>
    requires text { IsTextOf kept.now (R.text rules.now) }
    requires format { R.format rules.now ≡ kept.now.parts.format }
    requires kept { IsKept (state_of kept.now) }
    requires item { numbered kept.now.parts.items.items number ≡ Some item.now }
    requires arrived { item.now.arrival ≤ last_moment }
    requires reading { IsReadingOf item.now.octets reading.now }
    ensures { IfOk result (IsDueOf (state_of kept.now) number recipient moment) }
{
    let pending = kept.parts.is_pending(number, recipient);
    if !pending {
        return Ok(None);
    }
    if kept.lanes.is_free(number, recipient) {
        due_while_free(alloc, rules, kept, number, item, reading, recipient, moment)
    } else {
        Ok(due_in_activity(rules, kept, number, item, reading, recipient, moment))
    }
}

//! The open lanes on which activities end.

ghost use Rattle.std.specs.Prelude.{◌≡◌, ◌↔◌, IfOk, IsTrue, Some, None};
ghost use Rattle.std.specs.Option.{option_copied};
ghost use Rattle.std.specs.List.{All};
ghost use Rattle.mta_histories.specs.Classes.{abandon, settle, was_denied, was_sent};
ghost use Rattle.mta_histories.specs.History.{HasExpired};
ghost use Rattle.mta_state.specs.Parts.{machine_of};
ghost use Rattle.mta_state.specs.Asked.{IsStored, IsTextOf};
ghost use Rattle.mta_state.specs.Kept.{state_of};
ghost use Rattle.mta_replay.specs.Changes.{OpenFor};

use mta_ber::Memory;
use mta_lanes::Lane;
use mta_state::{Kept, Reading, Rules};
use std::alloc::Global;

/// The open lane whose activity is in Ending.
#[tactic(auto, using(crate::proofs::Finding::ending_laws))]
pub(crate) fn ending_lane(
    kept: &Kept,
    lane: u32,
    generation: u64,
    activity: u32,
    moment: u64,
) -> Option<&Lane>
    ensures { OpenFor (state_of kept.now) lane (Some generation) (settle was_sent activity) moment
        (option_copied result) }
{
    let Some(opened) = kept.lanes.get(lane) else {
        return None;
    };
    if moment < kept.moment || !opened.is_of(generation) || !opened.may_be_sent(activity) {
        return None;
    }
    Some(opened)
}

/// The open lane whose activity is not settled.
#[tactic(auto, using(crate::proofs::Finding::live_laws))]
pub(crate) fn live_lane(
    kept: &Kept,
    lane: u32,
    generation: u64,
    activity: u32,
    moment: u64,
) -> Option<&Lane>
    ensures { OpenFor (state_of kept.now) lane (Some generation) (settle was_denied activity) moment
        (option_copied result) }
{
    let Some(opened) = kept.lanes.get(lane) else {
        return None;
    };
    if moment < kept.moment || !opened.is_of(generation) || !opened.may_settle(activity) {
        return None;
    }
    Some(opened)
}

// Whether the item of the activity under way has expired.
#[tactic(auto, using(crate::proofs::Finding::expiry_laws))]
fn has_expired<R: Rules>(
    alloc: Global,
    rules: &R,
    kept: &Kept,
    opened: &Lane,
    moment: u64,
) -> Result<bool, Memory>
    requires text { IsTextOf kept.now (R.text rules.now) }
    requires format { R.format rules.now ≡ kept.now.parts.format }
    requires stored { All IsStored kept.now.parts.items.items }
    ensures { IfOk result (λ b. IsTrue b
        ↔ HasExpired (machine_of kept.now.parts) opened.now.transfer moment) }
{
    let Some(transfer) = opened.transfer() else {
        return Ok(false);
    };
    match kept.parts.item(transfer.item()) {
        Some(item) => {
            let reading = Reading::read(alloc, item)?;
            Ok(rules.has_expired(item, &reading, moment))
        }
        None => Ok(false),
    }
}

/// The open lane whose activity is in Sending, and is for an item that has expired.
#[tactic(auto, using(crate::proofs::Finding::expired_laws))]
pub(crate) fn expired_lane<'a, R: Rules>(
    alloc: Global,
    rules: &R,
    kept: &'a Kept,
    lane: u32,
    activity: u32,
    moment: u64,
) -> Result<Option<&'a Lane>, Memory>
    requires text { IsTextOf kept.now (R.text rules.now) }
    requires format { R.format rules.now ≡ kept.now.parts.format }
    requires stored { All IsStored kept.now.parts.items.items }
    ensures { IfOk result (λ found.
        OpenFor (state_of kept.now) lane None (abandon activity) moment (option_copied found)) }
{
    let Some(opened) = kept.lanes.get(lane) else {
        return Ok(None);
    };
    if moment < kept.moment || !opened.may_abandon(activity) {
        return Ok(None);
    }
    if has_expired(alloc, rules, kept, opened, moment)? {
        Ok(Some(opened))
    } else {
        Ok(None)
    }
}

//! Steps for which the rules are made anew: one that records tables, one that sets the format, and one that begins the
//! history with the state of a snapshot.

ghost use Rattle.std.specs.Prelude.{◌≡◌, ◌<◌, ◌^◌, ℕ, IfOk, IfSome, IfNone, length};
ghost use Rattle.mta_records.specs.Body.{HasFields};
ghost use Rattle.mta_records.specs.declared.step.Step.TheVariants as Steps;
ghost use Rattle.mta_histories.specs.History.{IsPossible};
ghost use Rattle.mta_histories.specs.Kept.{IsKept};
ghost use Rattle.mta_state.specs.Kept.{state_of};
ghost use Rattle.mta_state.specs.Parts.{machine_of};
ghost use Rattle.mta_replay.specs.Expected.{AreQueuedUnder};
ghost use Rattle.mta_replay.specs.Ready.{AreFresh, IsReady};
ghost use Rattle.mta_replay.specs.Sound.{AreLast, ReadsLast};

use crate::accept::prepare_tables;
use crate::replay::{InForce, Ready};
use mta_ber::{Memory, Octets};
use mta_records::Snapshot;
use mta_snapshots::begun;
use mta_state::{Change, Kept, Rules};
use std::alloc::Global;

/// What recording a text of tables changes; none exactly where it is not possible.
pub(crate) fn ready_tables<R: Rules + Drop>(
    alloc: Global,
    kept: &Kept,
    text: Octets,
) -> Result<Option<Ready<R>>, Memory>
    requires numbers { length kept.now.parts.items.items < 2 ^ 32 }
    ensures ready { IfOk result (λ found. IfSome found (λ ready.
        IsReady R.format R.text (state_of kept.now) (Steps.Tables text) ready.change ready.rules)) }
    ensures none { IfOk result (λ found. IfNone found (IsPossible (state_of kept.now) (Steps.Tables text) → ⊥)) }
{
    let Some(rules) = R::under(alloc, kept.parts.format, text.as_slice())? else {
        return Ok(None);
    };
    let force = InForce::new(alloc, rules, kept)?;
    match prepare_tables(text, true) {
        None => Ok(None),
        Some(change) => Ok(Some(Ready {
            change,
            rules: Some(force),
        })),
    }
}

// The rules in a format and under the text of tables recorded last in a state, under which nothing is known of any item
// yet, and its queues; none where no tables were recorded.
fn rules_in<R: Rules + Drop>(
    alloc: Global,
    kept: &Kept,
    format: u32,
) -> Result<Option<InForce<R>>, Memory>
    requires reads { ReadsLast (machine_of kept.now.parts) }
    requires numbers { length kept.now.parts.items.items < 2 ^ 32 }
    ensures rules { IfOk result (AreLast R.format R.text (record (machine_of kept.now.parts) { format = format })) }
    ensures fresh { IfOk result AreFresh }
    ensures queued { IfOk result (AreQueuedUnder R.text (state_of kept.now)) }
{
    let Some(text) = kept.parts.last_text() else {
        return Ok(None);
    };
    match R::under(alloc, format, text)? {
        None => unreachable!(),
        Some(rules) => Ok(Some(InForce::new(alloc, rules, kept)?)),
    }
}

/// What setting the format changes; none exactly where it is not possible.
pub(crate) fn ready_format<R: Rules + Drop>(
    alloc: Global,
    kept: &Kept,
) -> Result<Option<Ready<R>>, Memory>
    requires reads { ReadsLast (machine_of kept.now.parts) }
    requires numbers { length kept.now.parts.items.items < 2 ^ 32 }
    ensures ready { IfOk result (λ found. IfSome found (λ ready. (version : ℕ)
        → IsReady R.format R.text (state_of kept.now) (Steps.Format version) ready.change ready.rules)) }
    ensures none { IfOk result (λ found. IfNone found ((version : ℕ)
        → IsPossible (state_of kept.now) (Steps.Format version) → ⊥)) }
{
    if kept.parts.format != 1 {
        return Ok(None);
    }
    let rules = rules_in(alloc, kept, 2)?;
    Ok(Some(Ready {
        change: Change::Format,
        rules,
    }))
}

/// What beginning with the state of a snapshot changes; none exactly where it is not possible.
pub(crate) fn ready_snapshot<R: Rules + Drop>(
    alloc: Global,
    kept: &Kept,
    state: Snapshot,
) -> Result<Option<Ready<R>>, Memory>
    requires of_history { IsKept (state_of kept.now) }
    requires fields { HasFields (Steps.Snapshot state) }
    ensures ready { IfOk result (λ found. IfSome found (λ ready.
        IsReady R.format R.text (state_of kept.now) (Steps.Snapshot state) ready.change ready.rules)) }
    ensures none { IfOk result (λ found. IfNone found (IsPossible (state_of kept.now) (Steps.Snapshot state) → ⊥)) }
{
    if kept.begun {
        return Ok(None);
    }
    let Some(begun) = begun::<R>(alloc, state)? else {
        return Ok(None);
    };
    let rules = rules_in(alloc, &begun, begun.parts.format)?;
    Ok(Some(Ready {
        change: Change::Begin { kept: begun },
        rules,
    }))
}

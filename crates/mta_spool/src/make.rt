//! Making a step: its record on the disk, and then the state in memory.
//!
//! In comes a step that is possible, and with `make_ready` what it changes. Its record is written down, what it
//! changes is found (`ready`), and room for that (`reserve`); the journal appends the record (two syncs), and `commit`
//! makes the change, which cannot fail.
//!
//! Whatever is refused, the state in memory is as it was: want of memory comes before the disk is called, and a record
//! that is not written is not shown. A crash at any moment leaves the history with the step or without it (`Makes` in
//! `specs/Stands.antt`).

ghost use Rattle.std.specs.Prelude.{◌≡◌, ◌≤◌, ◌++◌, ◌∷◌, [], length, false};
ghost use Rattle.mta_records.specs.declared.step.Step.{Step};
ghost use Rattle.mta_records.specs.Body.{HasFields, body_of};
ghost use Rattle.mta_journal.specs.Bodies.{longest_body};
ghost use Rattle.mta_journal.specs.Shown.{IsPlain};
ghost use Rattle.mta_histories.specs.History.{IsPossible};
ghost use Rattle.mta_state.specs.Kept.{CanChange, state_of};
ghost use Rattle.mta_table_rules.specs.Text.{format_of, text_of};
ghost use Rattle.mta_replay.specs.Ready.{IsReady};
ghost use Rattle.mta_replay.specs.Sound.{IsSound};
ghost use Rattle.mta_spool.specs.Making.{step_fault};
ghost use Rattle.mta_spool.specs.Stands.{fault_of, IsSpent, Makes};

use crate::entries::Entries;
use mta_edge::Disk;
use mta_journal::{AppendFault, Journal};
use mta_records::{Step, StepFault, write_record};
use mta_replay::{Ready, Replay};
use mta_table_rules::TableRules;
use std::alloc::Global;

fn step_fault(fault: AppendFault) -> StepFault
    ensures { result ≡ step_fault fault }
{
    match fault {
        AppendFault::Full { size, need } => StepFault::Full { size, need },
        AppendFault::Disk => StepFault::Disk,
        AppendFault::Ended => StepFault::Ended,
        AppendFault::Memory => StepFault::Memory,
    }
}

// Writes the body of a record down, and makes what its step changes, in room that is found for it.
fn keep<D: Disk + Drop>(
    alloc: Global,
    journal: &mut Journal<D>,
    replay: &mut Replay<TableRules>,
    entries: &mut Entries,
    body: &[u8],
    longer: Entries,
    ready: Ready<TableRules>,
) -> Result<(), StepFault>
    requires going { journal.old.ended ≡ false }
    requires plain { IsPlain journal.old.first }
    requires short { length body.now ≤ longest_body }
    requires sound { IsSound format_of text_of replay.old.kept replay.old.rules }
    requires can { CanChange (state_of replay.old.kept) ready.change }
    ensures made { (step : Step) → HasFields step → body.now ≡ body_of step
        → longer.steps ≡ entries.old.steps ++ step ∷ []
        → IsReady format_of text_of (state_of replay.old.kept) step ready.change ready.rules
        → (IsSpent (state_of replay.old.kept) step → ⊥)
        → Makes D.model step journal.old (state_of replay.old.kept) entries.old.steps journal.new
        (state_of replay.new.kept) entries.new.steps (fault_of result) }
    ensures sound { (step : Step) → HasFields step
        → IsReady format_of text_of (state_of replay.old.kept) step ready.change ready.rules
        → IsSound format_of text_of replay.new.kept replay.new.rules }
{
    let Ok(()) = replay.reserve(alloc, &ready) else {
        ready.discard();
        return Err(StepFault::Memory);
    };
    match journal.append(body) {
        Ok(()) => {
            replay.commit(ready);
            *entries = longer;
            Ok(())
        }
        Err(fault) => {
            ready.discard();
            Err(step_fault(fault))
        }
    }
}

/// Makes a step of which it was found what it changes. Whatever is refused, the state in memory is as it was.
pub fn make_ready<D: Disk + Drop>(
    alloc: Global,
    journal: &mut Journal<D>,
    replay: &mut Replay<TableRules>,
    entries: &mut Entries,
    step: &Step,
    ready: Ready<TableRules>,
) -> Result<(), StepFault>
    requires going { journal.old.ended ≡ false }
    requires plain { IsPlain journal.old.first }
    requires fields { HasFields step.now }
    requires short { length (body_of step.now) ≤ longest_body }
    requires sound { IsSound format_of text_of replay.old.kept replay.old.rules }
    requires ready { IsReady format_of text_of (state_of replay.old.kept) step.now ready.change ready.rules }
    requires numbers { IsSpent (state_of replay.old.kept) step.now → ⊥ }
    ensures made { Makes D.model step.now journal.old (state_of replay.old.kept) entries.old.steps journal.new
        (state_of replay.new.kept) entries.new.steps (fault_of result) }
    ensures sound { IsSound format_of text_of replay.new.kept replay.new.rules }
{
    let Ok(record) = write_record(alloc, step) else {
        ready.discard();
        return Err(StepFault::Memory);
    };
    let longer = entries.with(step);
    keep(
        alloc,
        journal,
        replay,
        entries,
        record.as_slice(),
        longer,
        ready,
    )
}

/// Makes a step that is possible. Whatever is refused, the state in memory is as it was.
pub fn make<D: Disk + Drop>(
    alloc: Global,
    journal: &mut Journal<D>,
    replay: &mut Replay<TableRules>,
    entries: &mut Entries,
    step: Step,
) -> Result<(), StepFault>
    requires going { journal.old.ended ≡ false }
    requires plain { IsPlain journal.old.first }
    requires fields { HasFields step }
    requires short { length (body_of step) ≤ longest_body }
    requires sound { IsSound format_of text_of replay.old.kept replay.old.rules }
    requires possible { IsPossible (state_of replay.old.kept) step }
    requires numbers { IsSpent (state_of replay.old.kept) step → ⊥ }
    ensures made { Makes D.model step journal.old (state_of replay.old.kept) entries.old.steps journal.new
        (state_of replay.new.kept) entries.new.steps (fault_of result) }
    ensures sound { IsSound format_of text_of replay.new.kept replay.new.rules }
{
    let Ok(record) = write_record(alloc, &step) else {
        return Err(StepFault::Memory);
    };
    let longer = entries.with(&step);
    let Ok(ready) = replay.ready(alloc, step) else {
        return Err(StepFault::Memory);
    };
    keep(
        alloc,
        journal,
        replay,
        entries,
        record.as_slice(),
        longer,
        ready,
    )
}

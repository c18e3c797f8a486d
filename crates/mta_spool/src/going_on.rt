//! Going on from the history that was found on a disk.
//!
//! In come the journal and the state in memory after its steps. `settle` moves the record of a second area into the
//! first, as a stop in an earlier compaction can leave it; `compact` puts one snapshot in the place of all records
//! where the first of two areas is current and that at least halves a journal of a mebibyte or more; `set_format`
//! appends the format where the history has an older one. Out go the journal and the state with which the spool goes
//! on, or why it does not.
//!
//! A crash at any moment leaves the history as it was, the compacted one, or that with the format behind it. What
//! compaction holds is the state, which shares its contents with the snapshot, and one buffer of the snapshot's size.

ghost use Rattle.std.specs.Prelude.{◌≡◌, ◌⊎◌, ◌==◌, ◌+◌, ◌∷◌, [], IfOk, OnOk, Some, false, length, not, true, ℕ};
ghost use Rattle.mta_journal.specs.Shown.{IsPlain};
ghost use Rattle.mta_records.specs.Body.{HasFields, body_of};
ghost use Rattle.mta_records.specs.Sizes.{capped};
ghost use Rattle.mta_records.specs.declared.step.Step.TheVariants as Steps;
ghost use Rattle.mta_histories.specs.Compact.{base, shrinks};
ghost use Rattle.mta_histories.specs.History.{IsPossible, after_step};
ghost use Rattle.mta_histories.specs.Lanes.{State, empty};
ghost use Rattle.mta_state.specs.Kept.{state_of};
ghost use Rattle.mta_table_rules.specs.Text.{format_of, text_of};
ghost use Rattle.mta_replay.specs.Sound.{IsSound};
ghost use Rattle.mta_spool.specs.GoingOn.{EachBecomes, GoesOn, IsDone, IsFullOnlyThere, IsOfHistory, NeverFull};
ghost use Rattle.mta_spool.specs.GoingOn.{Shows, in_format};

use crate::entries::Entries;
use crate::make::make;
use crate::why::{OpenWhy, why_of_append, why_of_step};
use mta_ber::{Memory, Octets};
use mta_edge::Disk;
use mta_journal::{JOURNAL_LIMIT, Journal};
use mta_records::{Snapshot, Step, write_record};
use mta_replay::{Replay, snapshot_of};
use mta_table_rules::TableRules;
use std::alloc::Global;
use std::mem;
use std::snapshot::Snapshot as Kept;

// A journal of fewer octets is not compacted, nor one of so many.
const FEWEST_OCTETS: u64 = 1_048_576;

const TOO_MANY_OCTETS: u64 = 9_223_372_036_854_775_808;

/// The format that is set.
const FORMAT: u32 = 2;

/// What was done with the history that was found, for clauses alone: the body of the snapshot to which it was
/// compacted, if it was, and whether the format was set.
#[derive(Drop)]
pub(crate) struct Done {
    pub snapshot: Kept<Option<Octets>>,
    pub sets_format: Kept<bool>,
}

// Moves the record of a second area into the first. Where another area is current there is none to move.
fn settle<D: Disk + Drop>(journal: &mut Journal<D>) -> Result<(), OpenWhy>
    ensures settled { (state : State) → EachBecomes D.model (λ steps. steps) journal.old state journal.new state
        result }
    ensures still { IsPlain journal.old.first → journal.new ≡ journal.old }
    ensures moved { IsPlain journal.old.first ⊎ OnOk result (journal.new.first ≡ 23) }
    ensures calm { NeverFull result }
{
    let first = journal.first();
    if first == 8 || first == 23 {
        return Ok(());
    }
    match journal.settle() {
        Ok(()) => Ok(()),
        Err(fault) => Err(why_of_append(fault)),
    }
}

// How many octets the record of a snapshot needs, or 2^64 - 1 where it needs more.
fn octets_needed(state: &Snapshot) -> u64
    ensures { result ≡ capped (length (body_of (Steps.Snapshot state.now)) + 5) }
{
    state.size().saturating_add(6)
}

// Whether a journal of so many octets, whose first area is current, is replaced by a record that needs so many.
fn does_shrink(size: u64, need: u64) -> bool
    ensures { (n : ℕ) → need ≡ capped n → result ≡ shrinks true size n }
{
    let both = need.saturating_add(24).saturating_mul(2);
    FEWEST_OCTETS <= size && size < TOO_MANY_OCTETS && both <= size && both <= JOURNAL_LIMIT
}

// Nothing but this snapshot is taken up.
fn begin_again(alloc: Global, replay: &mut Replay<TableRules>, step: Step) -> Result<(), Memory>
    requires fields { HasFields step }
    requires possible { IsPossible empty step }
    ensures begun { OnOk result (state_of replay.new.kept ≡ after_step empty step) }
    ensures sound { OnOk result (IsSound format_of text_of replay.new.kept replay.new.rules) }
{
    let before = mem::replace(replay, Replay::new(alloc));
    before.discard();
    match replay.add(alloc, step) {
        Ok(()) => Ok(()),
        Err(_) => Err(Memory),
    }
}

// Puts the record of a snapshot in the place of all records, and takes nothing but it up.
fn rewrite<D: Disk + Drop>(
    alloc: Global,
    journal: &mut Journal<D>,
    replay: &mut Replay<TableRules>,
    state: Snapshot,
) -> Result<Kept<Option<Octets>>, OpenWhy>
    requires first { journal.old.first ≡ 23 }
    requires going { journal.old.ended ≡ false }
    requires fields { HasFields (Steps.Snapshot state) }
    requires possible { IsPossible empty (Steps.Snapshot state) }
    requires shrinks { shrinks true journal.old.size (length (body_of (Steps.Snapshot state)) + 5) ≡ true }
    ensures written { EachBecomes D.model (λ steps. Steps.Snapshot state ∷ []) journal.old (state_of replay.old.kept)
        journal.new (state_of replay.new.kept) result }
    ensures sound { OnOk result (IsSound format_of text_of replay.new.kept replay.new.rules) }
    ensures place { OnOk result (journal.new.first ≡ 23) }
    ensures shown { IfOk result (λ o. o.value ≡ Some (body_of (Steps.Snapshot state))) }
    ensures calm { NeverFull result }
{
    let step = Step::Snapshot { state };
    let body = write_record(alloc, &step)?;
    begin_again(alloc, replay, step)?;
    match journal.compact(body.as_slice()) {
        Ok(()) => {
            let body = Some(body);
            Ok(Kept::of(&body))
        }
        Err(fault) => Err(why_of_append(fault)),
    }
}

// Puts the snapshot of the state in the place of all records, where the first of two areas was current and the journal
// has grown past its use.
fn compact<D: Disk + Drop>(
    alloc: Global,
    journal: &mut Journal<D>,
    replay: &mut Replay<TableRules>,
    first_of_two: bool,
) -> Result<Kept<Option<Octets>>, OpenWhy>
    requires first { first_of_two ≡ true → journal.old.first ≡ 23 }
    requires of_history { IsOfHistory D.model journal.old (state_of replay.old.kept) }
    requires sound { IsSound format_of text_of replay.old.kept replay.old.rules }
    ensures compacted { EachBecomes D.model (base first_of_two journal.old.size) journal.old
        (state_of replay.old.kept) journal.new (state_of replay.new.kept) result }
    ensures sound { OnOk result (IsSound format_of text_of replay.new.kept replay.new.rules) }
    ensures place { OnOk result (journal.new.first ≡ journal.old.first) }
    ensures shown { IfOk result (λ o. Shows journal.old (state_of replay.old.kept) first_of_two o.value) }
    ensures calm { NeverFull result }
{
    let none: Option<Octets> = None;
    if !first_of_two || journal.size() < FEWEST_OCTETS {
        return Ok(Kept::of(&none));
    }
    let state = snapshot_of(alloc, &replay.kept)?;
    if !does_shrink(journal.size(), octets_needed(&state)) {
        return Ok(Kept::of(&none));
    }
    rewrite(alloc, journal, replay, state)
}

// Appends the format where the history has an older one.
#[tactic(auto, unfolding(mta_records::specs::Form::number_octets))]
fn set_format<D: Disk + Drop>(
    alloc: Global,
    journal: &mut Journal<D>,
    replay: &mut Replay<TableRules>,
) -> Result<Kept<bool>, OpenWhy>
    requires plain { IsPlain journal.old.first }
    requires of_history { IsOfHistory D.model journal.old (state_of replay.old.kept) }
    requires sound { IsSound format_of text_of replay.old.kept replay.old.rules }
    ensures formatted { EachBecomes D.model in_format journal.old (state_of replay.old.kept) journal.new
        (state_of replay.new.kept) result }
    ensures sound { OnOk result (IsSound format_of text_of replay.new.kept replay.new.rules) }
    ensures place { OnOk result (journal.new.first ≡ journal.old.first) }
    ensures shown { IfOk result (λ b. b.value ≡ not ((state_of replay.old.kept).machine.format == 2)) }
    ensures full { IsFullOnlyThere journal.old (state_of replay.old.kept) result }
{
    let older = replay.kept.parts.format != FORMAT;
    if !older {
        return Ok(Kept::of(&older));
    }
    let mut entries = Entries::new();
    let step = Step::Format { version: FORMAT };
    match make(alloc, journal, replay, &mut entries, step) {
        Ok(()) => Ok(Kept::of(&older)),
        Err(fault) => Err(why_of_step(fault)),
    }
}

/// Goes on from the history that was found.
pub(crate) fn go_on<D: Disk + Drop>(
    alloc: Global,
    journal: &mut Journal<D>,
    replay: &mut Replay<TableRules>,
) -> Result<Done, OpenWhy>
    requires of_history { IsOfHistory D.model journal.old (state_of replay.old.kept) }
    requires sound { IsSound format_of text_of replay.old.kept replay.old.rules }
    ensures goes_on { GoesOn D.model journal.old (state_of replay.old.kept) journal.new (state_of replay.new.kept)
        result }
    ensures shown { IfOk result (λ d. IsDone journal.old (state_of replay.old.kept) d.snapshot.value
        d.sets_format.value) }
    ensures sound { OnOk result (IsSound format_of text_of replay.new.kept replay.new.rules) }
{
    let first_of_two = journal.first() == 23;
    settle(journal)?;
    let snapshot = compact(alloc, journal, replay, first_of_two)?;
    let sets_format = set_format(alloc, journal, replay)?;
    Ok(Done {
        snapshot,
        sets_format,
    })
}

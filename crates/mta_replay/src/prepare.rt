//! What each kind of step changes.

ghost use Rattle.std.specs.Prelude.{◌≡◌, ◌<◌, ◌^◌, ℕ, List, IfOk, IfSome, IfNone, Some, length, false};
ghost use Rattle.std.specs.List.{All};
ghost use Rattle.mta_records.specs.Body.{HasFields};
ghost use Rattle.mta_histories.specs.Classes.{class_of};
ghost use Rattle.mta_histories.specs.History.{IsPossible};
ghost use Rattle.mta_histories.specs.Kept.{IsKept};
ghost use Rattle.mta_state.specs.Asked.{IsStored, IsTextOf};
ghost use Rattle.mta_state.specs.Kept.{state_of};
ghost use Rattle.mta_state.specs.Prepared.{Prepares};
ghost use Rattle.mta_machine.specs.Items.{ItemValue, numbered};
ghost use Rattle.mta_dues.specs.Index.{IsIndexed, IsOfHand};
ghost use Rattle.mta_state.specs.Readings.{IsReadingOf};
ghost use Rattle.mta_replay.specs.Ready.{IsReadAt, IsReady, sets_rules, settled_by};
ghost use Rattle.mta_replay.specs.Sound.{IsSound};

use crate::accept::prepare_accept;
use crate::anew::{ready_format, ready_snapshot, ready_tables};
use crate::complete::prepare_complete;
use crate::deliver::{prepare_affirm, prepare_deliver, prepare_expand};
use crate::open::prepare_open;
use crate::outcome::{prepare_abandon, prepare_denied, prepare_refused, prepare_sent};
use crate::replay::{InForce, Ready, Replay};
use crate::report::{prepare_back, prepare_discard, prepare_report};
use crate::start::prepare_start;
use mta_ber::Memory;
use mta_dues::Index;
use mta_machine::Item;
use mta_records::Step;
use mta_state::{Change, Kept, Reading, Rules};
use std::alloc::Global;

// The number of the item of which a step settles a recipient; 0 where it settles none.
fn settled_by(step: &Step) -> u32
    ensures { result ≡ settled_by (class_of step.now) }
{
    match step {
        Step::Deliver { item, .. }
        | Step::Expand { item, .. }
        | Step::Report { item, .. }
        | Step::Affirm { item, .. }
        | Step::Discard { item, .. }
        | Step::Back { item, .. } => *item,
        _ => 0,
    }
}

// The reading of the item of a number, where there is one.
fn read_at(alloc: Global, kept: &Kept, number: u32) -> Result<Reading<'_>, Memory>
    ensures { IfOk result (IsReadAt kept.now.parts.items.items number) }
{
    match kept.parts.item(number) {
        None => Ok(Reading::nothing()),
        Some(item) => Reading::read(alloc, item),
    }
}

// The reading of the item of a number, where there is one: what is at hand, or of its octets.
fn take_at<'a>(
    alloc: Global,
    kept: &'a Kept,
    index: &mut Index,
    number: u32,
) -> Result<Reading<'a>, Memory>
    requires { (item : ItemValue) → numbered kept.now.parts.items.items number ≡ Some item
        → IsOfHand item number index.old.hand }
    ensures reading { IfOk result (IsReadAt kept.now.parts.items.items number) }
    ensures indexed { (format : ℕ) (text : List ℕ) (items : List ItemValue) → IsIndexed format text items index.old
        → IsIndexed format text items index.new }
{
    match kept.parts.item(number) {
        None => Ok(Reading::nothing()),
        Some(item) => index.take(alloc, number, item),
    }
}

// The reading of this item is at hand.
fn keep_of(index: &mut Index, number: u32, item: &Item, reading: Reading<'_>)
    requires { IsReadingOf item.now.octets reading }
    ensures { (format : ℕ) (text : List ℕ) (items : List ItemValue) → numbered items number ≡ Some item.now
        → IsIndexed format text items index.old → IsIndexed format text items index.new }
{
    index.keep(number, reading);
}

// The reading of the item of a number, where there is one, is at hand.
fn keep_at(kept: &Kept, index: &mut Index, number: u32, reading: Reading<'_>)
    requires { IsReadAt kept.now.parts.items.items number reading }
    ensures { (format : ℕ) (text : List ℕ) → IsIndexed format text kept.now.parts.items.items index.old
        → IsIndexed format text kept.now.parts.items.items index.new }
{
    match kept.parts.item(number) {
        None => reading.discard(),
        Some(item) => keep_of(index, number, item, reading),
    }
}

// What a step changes for which no rules are made, under the rules in force.
fn prepare_under<R: Rules>(
    alloc: Global,
    rules: &R,
    kept: &Kept,
    reading: &Reading<'_>,
    step: Step,
) -> Result<Option<Change>, Memory>
    requires text { IsTextOf kept.now (R.text rules.now) }
    requires format { R.format rules.now ≡ kept.now.parts.format }
    requires of_history { IsKept (state_of kept.now) }
    requires stored { All IsStored kept.now.parts.items.items }
    requires numbers { length kept.now.parts.items.items < 2 ^ 32 }
    requires fields { HasFields step }
    requires other { sets_rules (class_of step) ≡ false }
    requires reading { IsReadAt kept.now.parts.items.items (settled_by (class_of step)) reading.now }
    ensures { IfOk result (Prepares (state_of kept.now) step) }
{
    match step {
        Step::Tables { .. } => unreachable!(),
        Step::Snapshot { .. } => unreachable!(),
        Step::Format { .. } => unreachable!(),
        Step::Accept { moment, apdu } => prepare_accept(alloc, kept, moment, apdu),
        Step::Deliver {
            item,
            recipient,
            moment,
        } => prepare_deliver(alloc, rules, kept, item, reading, recipient, moment),
        Step::Expand {
            item,
            recipient,
            moment,
        } => prepare_expand(alloc, rules, kept, item, reading, recipient, moment),
        Step::Report {
            item,
            recipient,
            moment,
        } => prepare_report(alloc, rules, kept, item, reading, recipient, moment),
        Step::Affirm {
            item,
            recipient,
            moment,
        } => prepare_affirm(alloc, rules, kept, item, reading, recipient, moment),
        Step::Discard {
            item,
            recipient,
            moment,
        } => prepare_discard(alloc, rules, kept, item, reading, recipient, moment),
        Step::Back {
            item,
            recipient,
            moment,
        } => prepare_back(alloc, rules, kept, item, reading, recipient, moment),
        Step::LaneOpen {
            role,
            peer,
            reference,
            twa,
            checkpoint,
            window,
            moment,
        } => prepare_open(
            alloc, rules, kept, role, &peer, &reference, twa, checkpoint, window, moment,
        ),
        Step::LaneAgree {
            lane,
            generation,
            checkpoint,
            window,
        } => Ok(kept.prepare_agree(lane, generation, checkpoint, window)),
        Step::Bind { lane, generation } => Ok(kept.prepare_bind(lane, generation)),
        Step::Start {
            lane,
            generation,
            activity,
            item,
            recipients,
            moment,
        } => prepare_start(
            alloc,
            rules,
            kept,
            lane,
            generation,
            activity,
            item,
            &recipients,
            moment,
        ),
        Step::Confirm {
            lane,
            generation,
            activity,
            checkpoint,
        } => Ok(kept.prepare_confirm(lane, generation, activity, checkpoint)),
        Step::Ending {
            lane,
            generation,
            activity,
        } => Ok(kept.prepare_end(lane, generation, activity)),
        Step::Sent {
            lane,
            generation,
            activity,
            moment,
        } => prepare_sent(alloc, kept, lane, generation, activity, moment),
        Step::Refused {
            lane,
            generation,
            activity,
            kind,
            moment,
        } => prepare_refused(alloc, rules, kept, lane, generation, activity, kind, moment),
        Step::Denied {
            lane,
            generation,
            activity,
            moment,
        } => prepare_denied(alloc, rules, kept, lane, generation, activity, moment),
        Step::Dropped {
            lane,
            generation,
            activity,
        } => Ok(kept.prepare_drop(lane, generation, activity)),
        Step::Abandon {
            lane,
            activity,
            moment,
        } => prepare_abandon(alloc, rules, kept, lane, activity, moment),
        Step::Secure {
            lane,
            generation,
            activity,
            number,
            piece,
        } => kept.prepare_secure(alloc, lane, generation, activity, number, piece),
        Step::Complete {
            lane,
            generation,
            activity,
            number,
            piece,
            moment,
        } => prepare_complete(
            alloc,
            kept,
            lane,
            generation,
            activity,
            number,
            piece.as_slice(),
            moment,
        ),
        Step::Drop {
            lane,
            generation,
            activity,
        } => Ok(kept.prepare_give_up(lane, generation, activity)),
        Step::CloseLane { lane, generation } => Ok(kept.prepare_close(lane, generation)),
    }
}

// What a step changes for which no rules are made. The item of which it settles a recipient is not read where its
// reading is at hand, and its reading is at hand then.
fn change_at_hand<R: Rules + Drop>(
    alloc: Global,
    kept: &Kept,
    force: &mut InForce<R>,
    step: Step,
) -> Result<Option<Change>, Memory>
    requires text { IsTextOf kept.now (R.text force.old.rules) }
    requires format { R.format force.old.rules ≡ kept.now.parts.format }
    requires of_history { IsKept (state_of kept.now) }
    requires stored { All IsStored kept.now.parts.items.items }
    requires numbers { length kept.now.parts.items.items < 2 ^ 32 }
    requires fields { HasFields step }
    requires other { sets_rules (class_of step) ≡ false }
    requires indexed { let format = R.format force.old.rules in
        IsIndexed format (R.text force.old.rules) kept.now.parts.items.items force.old.index }
    ensures change { IfOk result (Prepares (state_of kept.now) step) }
    ensures rules { force.new.rules ≡ force.old.rules }
    ensures queues { force.new.queues ≡ force.old.queues }
    ensures indexed { let format = R.format force.old.rules in
        IsIndexed format (R.text force.old.rules) kept.now.parts.items.items force.new.index }
{
    let number = settled_by(&step);
    let reading = take_at(alloc, kept, &mut force.index, number)?;
    let change = prepare_under(alloc, &force.rules, kept, &reading, step);
    keep_at(kept, &mut force.index, number, reading);
    change
}

// The same, as it is ready.
#[tactic(auto, using(crate::proofs::Readiness::ready_alone))]
fn ready_with<R: Rules + Drop>(
    alloc: Global,
    kept: &Kept,
    force: &mut InForce<R>,
    step: Step,
) -> Result<Option<Ready<R>>, Memory>
    requires text { IsTextOf kept.now (R.text force.old.rules) }
    requires format { R.format force.old.rules ≡ kept.now.parts.format }
    requires of_history { IsKept (state_of kept.now) }
    requires stored { All IsStored kept.now.parts.items.items }
    requires numbers { length kept.now.parts.items.items < 2 ^ 32 }
    requires fields { HasFields step }
    requires other { sets_rules (class_of step) ≡ false }
    requires indexed { let format = R.format force.old.rules in
        IsIndexed format (R.text force.old.rules) kept.now.parts.items.items force.old.index }
    ensures ready { IfOk result (λ found. IfSome found (λ ready.
        IsReady R.format R.text (state_of kept.now) step ready.change ready.rules)) }
    ensures none { IfOk result (λ found. IfNone found (IsPossible (state_of kept.now) step → ⊥)) }
    ensures rules { force.new.rules ≡ force.old.rules }
    ensures queues { force.new.queues ≡ force.old.queues }
    ensures indexed { let format = R.format force.old.rules in
        IsIndexed format (R.text force.old.rules) kept.now.parts.items.items force.new.index }
{
    match change_at_hand(alloc, kept, force, step)? {
        None => Ok(None),
        Some(change) => Ok(Some(Ready {
            change,
            rules: None,
        })),
    }
}

impl<R: Rules + Drop> Replay<R> {
    // What a step changes for which no rules are made, with what is at hand.
    #[tactic(auto, using(crate::proofs::Sounds::sound_with))]
    fn ready_at_hand(&mut self, alloc: Global, step: Step) -> Result<Option<Ready<R>>, Memory>
        requires sound { IsSound R.format R.text self.old.kept self.old.rules }
        requires fields { HasFields step }
        requires other { sets_rules (class_of step) ≡ false }
        ensures same { self.new.kept ≡ self.old.kept }
        ensures sound { IsSound R.format R.text self.new.kept self.new.rules }
        ensures ready { IfOk result (λ found. IfSome found (λ ready.
            IsReady R.format R.text (state_of self.old.kept) step ready.change ready.rules)) }
        ensures none { IfOk result (λ found. IfNone found (IsPossible (state_of self.old.kept) step → ⊥)) }
    {
        match &mut self.rules {
            None => Ok(None),
            Some(force) => ready_with(alloc, &self.kept, force, step),
        }
    }

    /// What a step changes; none exactly where it is not possible. It is `prepare`, but the item of which the step
    /// settles a recipient is not read again where it was looked at last, and its reading is kept for the next step.
    pub fn prepare_at_hand(&mut self, alloc: Global, step: Step) -> Result<Option<Ready<R>>, Memory>
        requires sound { IsSound R.format R.text self.old.kept self.old.rules }
        requires fields { HasFields step }
        ensures same { self.new.kept ≡ self.old.kept }
        ensures sound { IsSound R.format R.text self.new.kept self.new.rules }
        ensures ready { IfOk result (λ found. IfSome found (λ ready.
            IsReady R.format R.text (state_of self.old.kept) step ready.change ready.rules)) }
        ensures none { IfOk result (λ found. IfNone found (IsPossible (state_of self.old.kept) step → ⊥)) }
    {
        match step {
            Step::Tables { text } => ready_tables(alloc, &self.kept, text),
            Step::Snapshot { state } => ready_snapshot(alloc, &self.kept, state),
            Step::Format { .. } => ready_format(alloc, &self.kept),
            step => self.ready_at_hand(alloc, step),
        }
    }

    // What a step changes for which no rules are made.
    #[tactic(auto, using(crate::proofs::Nothing::nothing_but_tables, crate::proofs::Readiness::ready_alone))]
    fn ready_under(&self, alloc: Global, step: Step) -> Result<Option<Ready<R>>, Memory>
        requires sound { IsSound R.format R.text self.now.kept self.now.rules }
        requires fields { HasFields step }
        requires other { sets_rules (class_of step) ≡ false }
        ensures ready { IfOk result (λ found. IfSome found (λ ready.
            IsReady R.format R.text (state_of self.now.kept) step ready.change ready.rules)) }
        ensures none { IfOk result (λ found. IfNone found (IsPossible (state_of self.now.kept) step → ⊥)) }
    {
        let Some(force) = &self.rules else {
            return Ok(None);
        };
        let number = settled_by(&step);
        let reading = read_at(alloc, &self.kept, number)?;
        match prepare_under(alloc, &force.rules, &self.kept, &reading, step)? {
            None => Ok(None),
            Some(change) => Ok(Some(Ready {
                change,
                rules: None,
            })),
        }
    }

    /// What a step changes; none exactly where it is not possible.
    pub fn prepare(&self, alloc: Global, step: Step) -> Result<Option<Ready<R>>, Memory>
        requires sound { IsSound R.format R.text self.now.kept self.now.rules }
        requires fields { HasFields step }
        ensures ready { IfOk result (λ found. IfSome found (λ ready.
            IsReady R.format R.text (state_of self.now.kept) step ready.change ready.rules)) }
        ensures none { IfOk result (λ found. IfNone found (IsPossible (state_of self.now.kept) step → ⊥)) }
    {
        match step {
            Step::Tables { text } => ready_tables(alloc, &self.kept, text),
            Step::Snapshot { state } => ready_snapshot(alloc, &self.kept, state),
            Step::Format { .. } => ready_format(alloc, &self.kept),
            step => self.ready_under(alloc, step),
        }
    }

    /// What a step changes that is possible.
    pub fn ready(&mut self, alloc: Global, step: Step) -> Result<Ready<R>, Memory>
        requires sound { IsSound R.format R.text self.old.kept self.old.rules }
        requires fields { HasFields step }
        requires possible { IsPossible (state_of self.old.kept) step }
        ensures same { self.new.kept ≡ self.old.kept }
        ensures sound { IsSound R.format R.text self.new.kept self.new.rules }
        ensures ready { IfOk result (λ ready.
            IsReady R.format R.text (state_of self.old.kept) step ready.change ready.rules) }
    {
        match self.prepare_at_hand(alloc, step)? {
            Some(ready) => Ok(ready),
            None => unreachable!(),
        }
    }
}

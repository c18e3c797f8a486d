//! The state as a value, and how a step is taken up.
//!
//! `prepare` finds what a step changes, where it is possible; `reserve` finds room for it, and is the last place where
//! memory is refused; `commit` makes the change and cannot fail. Between the last two the spool writes the step's
//! record down; replaying a history does not.

ghost use Rattle.std.specs.Prelude.{◌≡◌, ◌≤◌, ◌<◌, ◌+◌, ◌^◌, ℕ, List, IfOk, IfSome, IfNone, None, OnErr, OnOk, Some};
ghost use Rattle.std.specs.Prelude.{[], false, length};
ghost use Rattle.std.specs.Option.{option_map};
ghost use Rattle.mta_ber.specs.Times.{last_moment};
ghost use Rattle.mta_records.specs.declared.state.Origin.TheVariants as Origins;
ghost use Rattle.mta_machine.specs.Items.{ItemValue, numbered};
ghost use Rattle.mta_machine.specs.Machine.{accepted_item};
ghost use Rattle.mta_records.specs.declared.step.Step.{Step};
ghost use Rattle.mta_records.specs.declared.step.Step.TheVariants as Steps;
ghost use Rattle.mta_records.specs.Body.{HasFields};
ghost use Rattle.mta_histories.specs.Classes.{class_of};
ghost use Rattle.mta_histories.specs.Lanes.{State, empty};
ghost use Rattle.mta_histories.specs.History.{after_step};
ghost use Rattle.mta_state.specs.Asked.{IsRestOf};
ghost use Rattle.mta_state.specs.Kept.{state_of, CanChange, HasRoomFor};
ghost use Rattle.mta_state.specs.Prepared.{IsChangeOf, Prepares};
ghost use Rattle.mta_state.specs.Readings.{IsDecodedOf, IsReadingOf};
ghost use Rattle.mta_state.specs.declared.change.Change.TheVariants as Changes;
ghost use Rattle.mta_dues.specs.Index.{IsIndexed};
ghost use Rattle.mta_queue.specs.Queues.{HasRoom};
ghost use Rattle.mta_replay.specs.Expected.{AreAlike, AreQueuedUnder, IsExpected, IsExpectedUnder, IsReadOfLast};
ghost use Rattle.mta_replay.specs.Expected.{IsReadUnder, MayFollow};
ghost use Rattle.mta_replay.specs.Found.{IsDecodedItem, IsFound, IsFoundLast, accept_change};
ghost use Rattle.mta_replay.specs.Queued.{AreComing, AreQueued, IsQueuedUpTo};
ghost use Rattle.mta_replay.specs.Ready.{IsReady, TakesUp, sets_rules};
ghost use Rattle.mta_replay.specs.Sound.{IsSound};
ghost use Rattle.mta_replay.specs.Touched.{IsTouched};

use crate::accept::{Arrival, prepare_arrival};
use crate::queued::{coming_of, follow, queues_of, rows_read};
use crate::touched::{Touched, touched_by};
use mta_ber::{Memory, Octets};
use mta_dues::{Index, note};
use mta_lanes::Lanes;
use mta_machine::Item;
use mta_queue::{Marks, Queues};
use mta_records::Step;
use mta_state::{Change, Decoded, Kept, Reading, Rest, Rules};
use std::alloc::Global;
use std::mem;

/// Why a step was not taken up.
#[derive(Clone, Copy)]
pub enum NotMade {
    /// The step is not possible.
    Impossible,
    /// No memory was left.
    Memory,
}

impl From<Memory> for NotMade {
    ghost use Rattle.std.specs.Prelude.{◌≡◌};
    ghost use Rattle.mta_replay.specs.declared.replay.NotMade.TheVariants.{Memory as memory_fault};

    ghost from_gives = { λ _ e. e ≡ memory_fault };

    fn from(_: Memory) -> NotMade {
        NotMade::Memory
    }
}

/// The rules in the format and under the tables recorded last, what is known of items under them, and who waits for
/// whom.
#[derive(Drop)]
pub struct InForce<R: Rules + Drop> {
    alloc: Global,
    pub rules: R,
    /// Which items need not be looked at, and when items may be relayed.
    pub index: Index,
    /// The queues of the peers that the tables name.
    pub queues: Queues,
    /// The recipients of the items that a change makes, found before it is made.
    pub coming: Vec<Marks>,
    /// What the one item that a change makes was read as for that.
    pub read: Option<Decoded>,
}

impl<R: Rules + Drop> InForce<R> {
    /// These rules in a state, under which nothing is known of any item yet. Each item is read once.
    pub fn new(alloc: Global, rules: R, kept: &Kept) -> Result<InForce<R>, Memory>
        requires numbers { length kept.now.parts.items.items < 2 ^ 32 }
        ensures rules { IfOk result (λ f. f.rules ≡ rules) }
        ensures known { IfOk result (λ f. f.index.agenda.known ≡ 0) }
        ensures spans { IfOk result (λ f. f.index.spans ≡ []) }
        ensures hand { IfOk result (λ f. f.index.hand ≡ None) }
        ensures looked { IfOk result (λ f. f.index.looked ≡ None) }
        ensures queued { IfOk result (λ f. AreQueued (R.text rules) (state_of kept.now) f.queues) }
    {
        let queues = queues_of(alloc, &rules, kept)?;
        Ok(InForce {
            alloc,
            rules,
            index: Index::new(alloc),
            queues,
            coming: Vec::new(alloc),
            read: None,
        })
    }

    // Finds the recipients of the items that a change makes, and room for them.
    #[tactic(auto, using(crate::proofs::Expecting::expected, crate::proofs::PutDown::queued_same))]
    fn expect(&mut self, alloc: Global, change: &Change) -> Result<(), Memory>
        ensures rules { self.new.rules ≡ self.old.rules }
        ensures index { self.new.index ≡ self.old.index }
        ensures queued { (s : State) → AreQueued (R.text self.old.rules) s self.old.queues
            → AreQueued (R.text self.old.rules) s self.new.queues }
        ensures expected { OnOk result (IsExpected R.text self.new change.now) }
    {
        let found = coming_of(alloc, &self.rules, &self.queues, change)?;
        self.queues.reserve(found.rows.len() + 2, found.rows.len())?;
        self.coming = found.rows;
        self.read = found.read;
        Ok(())
    }

    // The same of an item that was read and comes next.
    #[tactic(auto, using(crate::proofs::PutDown::queued_same))]
    fn expect_read(
        &mut self,
        alloc: Global,
        item: &Item,
        reading: &Reading<'_>,
    ) -> Result<(), Memory>
        requires { IsReadingOf item.now.octets reading.now }
        ensures rules { self.new.rules ≡ self.old.rules }
        ensures index { self.new.index ≡ self.old.index }
        ensures queued { (s : State) → AreQueued (R.text self.old.rules) s self.old.queues
            → AreQueued (R.text self.old.rules) s self.new.queues }
        ensures expected { OnOk result ((moment : ℕ)
            → IsExpected R.text self.new (Changes.Accept item.now moment)) }
    {
        let rows = rows_read(alloc, &self.rules, &self.queues, item, reading)?;
        self.queues.reserve(rows.len() + 2, rows.len())?;
        self.coming = rows;
        self.read = None;
        Ok(())
    }

    // What the item that came last was read as is at hand, where it was read. An item with more recipients who are not
    // all settled stays at hand, since to read that again would cost more.
    fn keep_read(&mut self, kept: &Kept)
        requires numbers { length kept.now.parts.items.items < 2 ^ 32 }
        ensures rules { self.new.rules ≡ self.old.rules }
        ensures queues { self.new.queues ≡ self.old.queues }
        ensures indexed { (format : ℕ) (text : List ℕ)
            → IfSome self.old.read (IsReadOfLast kept.now.parts.items.items)
            → IsIndexed format text kept.now.parts.items.items self.old.index
            → IsIndexed format text kept.now.parts.items.items self.new.index }
    {
        let number = kept.parts.items.len() as u32;
        match self.read.take() {
            None => {}
            Some(decoded) => {
                if is_worth_more(kept, &self.index, number) {
                    decoded.discard();
                } else {
                    self.index.keep_decoded(number, decoded);
                }
            }
        }
    }

    // The queues follow a change that was made.
    fn follow(&mut self, kept: &Kept, touched: Touched)
        requires numbers { length kept.now.parts.items.items < 2 ^ 32 }
        requires queued { IsQueuedUpTo (R.text self.old.rules) (state_of kept.now) self.old.queues
            (length self.old.queues.rows) (IsTouched touched) }
        requires coming { AreComing (R.text self.old.rules) self.old.queues.words kept.now.parts.items.items
            (length self.old.queues.rows) self.old.coming.items }
        requires room { length self.old.coming.items ≤ self.old.queues.room }
        requires places { HasRoom self.old.queues.queues (length self.old.coming.items + 2) }
        ensures rules { self.new.rules ≡ self.old.rules }
        ensures index { self.new.index ≡ self.old.index }
        ensures read { self.new.read ≡ self.old.read }
        ensures queued { AreQueued (R.text self.old.rules) (state_of kept.now) self.new.queues }
    {
        let rows = mem::replace(&mut self.coming, Vec::new(self.alloc));
        follow(&self.rules, &mut self.queues, kept, touched, rows);
    }
}

// Whether the item whose reading is at hand has more recipients than the one of a number, and not all are settled.
fn is_worth_more(kept: &Kept, index: &Index, number: u32) -> bool {
    let Some(hand) = &index.hand else {
        return false;
    };
    match (kept.parts.item(hand.number), kept.parts.item(number)) {
        (Some(held), Some(item)) => {
            let count = held.statuses().len();
            count > item.statuses().len() && held.settled() < count
        }
        _ => false,
    }
}

// The item of which a change discharges recipients is to be looked at again.
fn recall_changed(index: &mut Index, change: &Change) -> Result<(), Memory>
    ensures { (format : ℕ) (text : List ℕ) (items : List ItemValue) → IsIndexed format text items index.old
        → IsIndexed format text items index.new }
{
    match change {
        Change::Begin { .. } => Ok(()),
        Change::Format => Ok(()),
        Change::Tables { .. } => Ok(()),
        Change::Accept { .. } => Ok(()),
        Change::Settle { item, .. } => index.recall(*item),
        Change::Open { .. } => Ok(()),
        Change::OnLane { .. } => Ok(()),
        Change::Complete { .. } => Ok(()),
        Change::Discharge { item, .. } => index.recall(*item),
        Change::Close { .. } => Ok(()),
    }
}

// What was found of the item of this number is noted, where something was and there is memory for it, and its reading
// is at hand.
fn note_in(index: &mut Index, number: u32, moment: u64, rest: Option<Rest>, decoded: Decoded)
    requires later { IfSome rest (λ found. moment < found.until) }
    ensures { (format : ℕ) (text : List ℕ) (items : List ItemValue) (item : ItemValue)
        → numbered items number ≡ Some item → IsRestOf format text item moment rest
        → IsDecodedOf item.octets decoded
        → IsIndexed format text items index.old → IsIndexed format text items index.new }
{
    index.keep_decoded(number, decoded);
    match rest {
        None => {}
        Some(found) => match note(index, number, moment, &found) {
            Ok(()) => {}
            Err(_) => {}
        },
    }
}

// The queues follow a change that was made, where there are any. No history has more items than there are numbers.
fn follow_in<R: Rules + Drop>(rules: &mut Option<InForce<R>>, kept: &Kept, touched: Touched)
    requires follows { MayFollow R.text (state_of kept.now) touched rules.old }
    ensures same { AreAlike rules.old rules.new }
    ensures queued { length kept.now.parts.items.items < 2 ^ 32
        → AreQueuedUnder R.text (state_of kept.now) rules.new }
{
    if kept.parts.items.len() > u32::MAX as usize {
        return;
    }
    match rules {
        None => {}
        Some(force) => force.follow(kept, touched),
    }
}

// What the item that came last was read as is at hand.
#[tactic(auto, using(crate::proofs::Sounds::sound_with))]
fn keep_in<R: Rules + Drop>(rules: &mut Option<InForce<R>>, kept: &Kept)
    ensures { IsReadUnder kept.now.parts.items.items rules.old → IsSound R.format R.text kept.now rules.old
        → IsSound R.format R.text kept.now rules.new }
{
    if kept.parts.items.len() > u32::MAX as usize {
        return;
    }
    match rules {
        None => {}
        Some(force) => force.keep_read(kept),
    }
}

/// The state that a history leads to, and the rules in its format and under the tables recorded last, where some were.
/// Its fields are plain, since room for a change has to be seen by whoever commits it.
pub struct Replay<R: Rules + Drop> {
    pub kept: Kept,
    pub rules: Option<InForce<R>>,
}

// Written out, since a derived one is opened anew, field by field, at each place where a value is let go.
impl<R: Rules + Drop> Drop for Replay<R> {
    fn drop(self) {
        let Replay { kept: _, rules: _ } = self;
    }
}

/// What a step changes, with the rules that are made for it.
#[derive(Drop)]
pub struct Ready<R: Rules + Drop> {
    pub change: Change,
    pub rules: Option<InForce<R>>,
}

impl<R: Rules + Drop> Ready<R> {
    /// What a step changes for which no rules are made.
    #[tactic(auto, using(crate::proofs::Readiness::ready_alone))]
    pub fn of_change(change: Change) -> Ready<R>
        ensures { (s : State) (step : Step) → sets_rules (class_of step) ≡ false → IsChangeOf s step change
            → IsReady R.format R.text s step result.change result.rules }
    {
        Ready {
            change,
            rules: None,
        }
    }

    /// Lets it go.
    pub fn discard(self) {}
}

impl<R: Rules + Drop> Replay<R> {
    /// Lets it go.
    pub fn discard(self) {}

    /// The state after no step, which takes no memory.
    #[tactic(auto, using(crate::proofs::Sounds::sound_at_first))]
    pub fn new(alloc: Global) -> Replay<R>
        ensures state { state_of result.kept ≡ empty }
        ensures sound { IsSound R.format R.text result.kept result.rules }
    {
        Replay {
            kept: Kept::new(alloc),
            rules: None,
        }
    }

    // The item of which a change discharges recipients is to be looked at again.
    #[tactic(auto, using(crate::proofs::Sounds::sound_with))]
    fn recall(&mut self, change: &Change) -> Result<(), Memory>
        requires sound { IsSound R.format R.text self.old.kept self.old.rules }
        ensures same { self.new.kept ≡ self.old.kept }
        ensures sound { IsSound R.format R.text self.new.kept self.new.rules }
    {
        match &mut self.rules {
            None => Ok(()),
            Some(force) => recall_changed(&mut force.index, change),
        }
    }

    // Finds the recipients of the items that a change makes, and room for them.
    fn expect(&mut self, alloc: Global, change: &Change) -> Result<(), Memory>
        requires sound { IsSound R.format R.text self.old.kept self.old.rules }
        ensures same { self.new.kept ≡ self.old.kept }
        ensures sound { IsSound R.format R.text self.new.kept self.new.rules }
        ensures expected { OnOk result (IsExpectedUnder R.text self.new.rules change.now) }
    {
        match &mut self.rules {
            None => Ok(()),
            Some(force) => force.expect(alloc, change),
        }
    }

    /// Finds room for a change, and what is to be known of the items that it makes.
    #[tactic(auto, using(crate::proofs::Sounds::sound_still))]
    pub fn reserve(&mut self, alloc: Global, ready: &Ready<R>) -> Result<(), Memory>
        requires sound { IsSound R.format R.text self.old.kept self.old.rules }
        ensures same { state_of self.new.kept ≡ state_of self.old.kept }
        ensures sound { IsSound R.format R.text self.new.kept self.new.rules }
        ensures room { OnOk result (HasRoomFor self.new.kept ready.now.change) }
        ensures expected { OnOk result (IsExpectedUnder R.text self.new.rules ready.now.change) }
    {
        self.recall(&ready.change)?;
        self.expect(alloc, &ready.change)?;
        self.kept.reserve(&ready.change)
    }

    // Finds the recipients of an item that was read and comes next, and room for them.
    fn expect_read(
        &mut self,
        alloc: Global,
        item: &Item,
        reading: &Reading<'_>,
    ) -> Result<(), Memory>
        requires sound { IsSound R.format R.text self.old.kept self.old.rules }
        requires reading { IsReadingOf item.now.octets reading.now }
        ensures same { self.new.kept ≡ self.old.kept }
        ensures sound { IsSound R.format R.text self.new.kept self.new.rules }
        ensures expected { OnOk result ((moment : ℕ)
            → IsExpectedUnder R.text self.new.rules (Changes.Accept item.now moment)) }
    {
        match &mut self.rules {
            None => Ok(()),
            Some(force) => force.expect_read(alloc, item, reading),
        }
    }

    // The same of an item that was decoded, which is handed back.
    fn expect_decoded(
        &mut self,
        alloc: Global,
        item: &Item,
        decoded: Decoded,
    ) -> Result<Decoded, Memory>
        requires sound { IsSound R.format R.text self.old.kept self.old.rules }
        requires decoded { IsDecodedOf item.now.octets decoded }
        ensures same { self.new.kept ≡ self.old.kept }
        ensures sound { IsSound R.format R.text self.new.kept self.new.rules }
        ensures decoded { IfOk result (IsDecodedOf item.now.octets) }
        ensures expected { OnOk result ((moment : ℕ)
            → IsExpectedUnder R.text self.new.rules (Changes.Accept item.now moment)) }
    {
        let reading = decoded.over(item);
        let expected = self.expect_read(alloc, item, &reading);
        let decoded = reading.detach();
        match expected {
            Ok(()) => Ok(decoded),
            Err(_) => {
                decoded.discard();
                Err(Memory)
            }
        }
    }

    // Finds room for an item that was decoded and comes next at a moment. Its change and what it was decoded as are
    // handed back.
    #[tactic(auto, using(crate::proofs::Sounds::sound_still))]
    fn reserve_item(
        &mut self,
        alloc: Global,
        item: Item,
        decoded: Decoded,
        moment: u64,
    ) -> Result<(Change, Decoded), Memory>
        requires sound { IsSound R.format R.text self.old.kept self.old.rules }
        requires decoded { IsDecodedOf item.octets decoded }
        ensures same { state_of self.new.kept ≡ state_of self.old.kept }
        ensures sound { IsSound R.format R.text self.new.kept self.new.rules }
        ensures change { IfOk result (λ found. found.0 ≡ Changes.Accept item moment) }
        ensures decoded { IfOk result (λ found. IsDecodedOf item.octets found.1) }
        ensures room { IfOk result (λ found. HasRoomFor self.new.kept found.0) }
        ensures expected { IfOk result (λ found. IsExpectedUnder R.text self.new.rules found.0) }
    {
        let decoded = self.expect_decoded(alloc, &item, decoded)?;
        let change = Change::Accept { item, moment };
        match self.kept.reserve(&change) {
            Ok(()) => Ok((change, decoded)),
            Err(_) => {
                decoded.discard();
                Err(Memory)
            }
        }
    }

    /// Makes the change of a step that is possible, in room that was found for it.
    pub fn commit(&mut self, ready: Ready<R>)
        requires sound { IsSound R.format R.text self.old.kept self.old.rules }
        requires room { HasRoomFor self.old.kept ready.change }
        requires can { CanChange (state_of self.old.kept) ready.change }
        requires expected { IsExpectedUnder R.text self.old.rules ready.change }
        ensures made { (step : Step) → IsReady R.format R.text (state_of self.old.kept) step ready.change ready.rules
            → state_of self.new.kept ≡ after_step (state_of self.old.kept) step }
        ensures sound { (step : Step) → HasFields step
            → IsReady R.format R.text (state_of self.old.kept) step ready.change ready.rules
            → IsSound R.format R.text self.new.kept self.new.rules }
    {
        let Ready { change, rules } = ready;
        let touched = touched_by(&self.kept.lanes, &change);
        self.kept.commit(change);
        match rules {
            None => {
                follow_in(&mut self.rules, &self.kept, touched);
                keep_in(&mut self.rules, &self.kept);
            }
            Some(force) => self.rules = Some(force),
        }
    }

    // The item that an Accept makes, and what is found of it then; none exactly where it is not possible.
    #[tactic(auto, using(crate::proofs::Founds::found_under))]
    fn arrival(&self, alloc: Global, moment: u64, apdu: Octets) -> Result<Option<Arrival>, Memory>
        requires sound { IsSound R.format R.text self.now.kept self.now.rules }
        requires fits { moment ≤ last_moment }
        ensures prepares { IfOk result (λ found.
            Prepares (state_of self.now.kept) (Steps.Accept moment apdu) (option_map (accept_change moment) found)) }
        ensures decoded { IfOk result (λ found. IfSome found (λ a. IsDecodedItem apdu a.item a.decoded)) }
        ensures rest { IfOk result (λ found. IfSome found (λ a.
            IsFound self.now.kept (accepted_item apdu Origins.Submitted moment) moment a.rest)) }
    {
        let Some(force) = &self.rules else {
            return Ok(None);
        };
        prepare_arrival(alloc, &force.rules, &self.kept, moment, apdu)
    }

    // What was found of the last item is noted, and its reading is at hand.
    #[tactic(auto, using(crate::proofs::Founds::found_later))]
    fn note(&mut self, moment: u64, rest: Option<Rest>, decoded: Decoded)
        requires sound { IsSound R.format R.text self.old.kept self.old.rules }
        requires found { IsFoundLast self.old.kept moment rest decoded }
        ensures same { self.new.kept ≡ self.old.kept }
        ensures sound { IsSound R.format R.text self.new.kept self.new.rules }
    {
        let count = self.kept.parts.items.len() as u32;
        match &mut self.rules {
            None => decoded.discard(),
            Some(force) => note_in(&mut force.index, count, moment, rest, decoded),
        }
    }

    // Takes up an Accept where it is possible, and notes what is found of its item.
    #[tactic(auto, using(crate::proofs::Founds::found_last))]
    fn take_in(&mut self, alloc: Global, moment: u64, apdu: Octets) -> Result<(), NotMade>
        requires sound { IsSound R.format R.text self.old.kept self.old.rules }
        requires fields { HasFields (Steps.Accept moment apdu) }
        ensures taken { TakesUp (Steps.Accept moment apdu) (state_of self.old.kept) (state_of self.new.kept) result }
        ensures kept { OnErr result (state_of self.new.kept ≡ state_of self.old.kept) }
        ensures sound { IsSound R.format R.text self.new.kept self.new.rules }
    {
        let Some(arrival) = self.arrival(alloc, moment, apdu)? else {
            return Err(NotMade::Impossible);
        };
        let Arrival {
            item,
            decoded,
            rest,
        } = arrival;
        let (change, decoded) = self.reserve_item(alloc, item, decoded, moment)?;
        self.commit(Ready {
            change,
            rules: None,
        });
        self.note(moment, rest, decoded);
        Ok(())
    }

    // Takes up a step where it is possible.
    fn take_up(&mut self, alloc: Global, step: Step) -> Result<(), NotMade>
        requires sound { IsSound R.format R.text self.old.kept self.old.rules }
        requires fields { HasFields step }
        ensures taken { TakesUp step (state_of self.old.kept) (state_of self.new.kept) result }
        ensures kept { OnErr result (state_of self.new.kept ≡ state_of self.old.kept) }
        ensures sound { IsSound R.format R.text self.new.kept self.new.rules }
    {
        let Some(ready) = self.prepare_at_hand(alloc, step)? else {
            return Err(NotMade::Impossible);
        };
        self.reserve(alloc, &ready)?;
        self.commit(ready);
        Ok(())
    }

    /// Takes up a step where it is possible. What is accepted is read once: what is found of it then is noted, and its
    /// reading is at hand for the step that follows.
    ///
    /// # Errors
    /// `Impossible` exactly where it is not; `Memory`. After either the state is as it was.
    pub fn add(&mut self, alloc: Global, step: Step) -> Result<(), NotMade>
        requires sound { IsSound R.format R.text self.old.kept self.old.rules }
        requires fields { HasFields step }
        ensures taken { TakesUp step (state_of self.old.kept) (state_of self.new.kept) result }
        ensures kept { OnErr result (state_of self.new.kept ≡ state_of self.old.kept) }
        ensures sound { IsSound R.format R.text self.new.kept self.new.rules }
    {
        match step {
            Step::Accept { moment, apdu } => self.take_in(alloc, moment, apdu),
            step => self.take_up(alloc, step),
        }
    }

    /// The lanes after the steps that were taken up, lent.
    pub fn lanes(&self) -> &Lanes
        ensures { result.now ≡ self.now.kept.lanes }
    {
        &self.kept.lanes
    }
}

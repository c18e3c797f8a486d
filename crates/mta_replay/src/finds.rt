//! What is due in the state, what waits in it, and what an activity of it would transfer.

ghost use Rattle.std.specs.Prelude.{◌≡◌, ◌≤◌, IfOk};
ghost use Rattle.std.specs.List.{All};
ghost use Rattle.std.specs.Option.{option_copied};
ghost use Rattle.mta_ber.specs.Times.{last_moment};
ghost use Rattle.mta_histories.specs.Due.{HasQueue};
ghost use Rattle.mta_dues.specs.Answers.{IsBatchOf, IsNextOf};
ghost use Rattle.mta_dues.specs.Index.{IsIndexed};
ghost use Rattle.mta_state.specs.Asked.{IsStored, IsTextOf};
ghost use Rattle.mta_state.specs.Kept.{state_of};
ghost use Rattle.mta_replay.specs.Queued.{AreQueued};
ghost use Rattle.mta_replay.specs.Sound.{IsSound};
ghost use Rattle.mta_replay.specs.Starting.{TransfersNext};

use crate::replay::{InForce, Replay};
use crate::start::transfer_next;
use mta_ber::{Memory, Word};
use mta_dues::{batch_for, due_step};
use mta_lanes::Transfer;
use mta_records::{Batch, Recipients, Step};
use mta_state::{Kept, Rules};
use std::alloc::Global;

impl<R: Rules + Drop> InForce<R> {
    // The lowest item with recipients to relay to the peer, and all those; none where there is no such item, as where
    // no tables name the peer.
    fn batch_for(
        &mut self,
        alloc: Global,
        kept: &Kept,
        peer: &Word,
        moment: u64,
    ) -> Result<Option<Batch>, Memory>
        requires text { IsTextOf kept.now (R.text self.old.rules) }
        requires format { R.format self.old.rules ≡ kept.now.parts.format }
        requires stored { All IsStored kept.now.parts.items.items }
        requires queued { AreQueued (R.text self.old.rules) (state_of kept.now) self.old.queues }
        requires indexed { IsIndexed (R.format self.old.rules) (R.text self.old.rules) kept.now.parts.items.items
            self.old.index }
        ensures batch { IfOk result (IsBatchOf (state_of kept.now) peer.now moment) }
        ensures rules { self.new.rules ≡ self.old.rules }
        ensures queues { self.new.queues ≡ self.old.queues }
        ensures indexed { IsIndexed (R.format self.old.rules) (R.text self.old.rules) kept.now.parts.items.items
            self.new.index }
    {
        match self.queues.get(peer.as_slice()) {
            None => Ok(None),
            Some(queue) => {
                let index = &mut self.index;
                batch_for(alloc, &self.rules, kept, index, queue, peer, moment)
            }
        }
    }
}

impl<R: Rules + Drop> Replay<R> {
    /// The due step of the lowest item and recipient at a moment, in seconds since 1950-01-01 00:00:00 UTC: none where
    /// nothing is due. What is found out of items is kept for the next call.
    #[tactic(auto, using(crate::proofs::Nothing::nothing_is_due, crate::proofs::Sounds::sound_with))]
    pub fn due_step(&mut self, alloc: Global, moment: u64) -> Result<Option<Step>, Memory>
        requires sound { IsSound R.format R.text self.old.kept self.old.rules }
        ensures next { IfOk result (IsNextOf (state_of self.old.kept) moment) }
        ensures same { state_of self.new.kept ≡ state_of self.old.kept }
        ensures sound { IsSound R.format R.text self.new.kept self.new.rules }
    {
        match &mut self.rules {
            None => Ok(None),
            Some(force) => due_step(alloc, &force.rules, &self.kept, &mut force.index, moment),
        }
    }

    /// The lowest item with recipients to relay to the peer, and all those; none where there is no such item.
    #[tactic(auto, using(crate::proofs::Nothing::nothing_is_relayed, crate::proofs::Sounds::sound_with))]
    pub fn batch_for(
        &mut self,
        alloc: Global,
        peer: &Word,
        moment: u64,
    ) -> Result<Option<Batch>, Memory>
        requires sound { IsSound R.format R.text self.old.kept self.old.rules }
        ensures batch { IfOk result (IsBatchOf (state_of self.old.kept) peer.now moment) }
        ensures same { state_of self.new.kept ≡ state_of self.old.kept }
        ensures sound { IsSound R.format R.text self.new.kept self.new.rules }
    {
        match &mut self.rules {
            None => Ok(None),
            Some(force) => force.batch_for(alloc, &self.kept, peer, moment),
        }
    }

    /// The items of which a recipient waits for the peer, by ascending numbers, lent; none where no tables name the
    /// peer. It takes no memory.
    #[tactic(auto, using(crate::proofs::Nothing::nothing_waits, crate::proofs::Waiting::has_queue))]
    pub fn waiting(&self, peer: &Word) -> Option<&[u32]>
        requires sound { IsSound R.format R.text self.now.kept self.now.rules }
        ensures { HasQueue (state_of self.now.kept) peer.now (option_copied result) }
    {
        match &self.rules {
            None => None,
            Some(force) => force.queues.get(peer.as_slice()),
        }
    }

    /// What the next activity of a lane transfers, at a moment in seconds since 1950-01-01 00:00:00 UTC: the copy of
    /// the item for these recipients. None exactly where it may not be started, whatever its number.
    #[tactic(auto, using(crate::proofs::Nothing::nothing_transfers))]
    pub fn transfer_next(
        &self,
        alloc: Global,
        lane: u32,
        generation: u64,
        item: u32,
        recipients: &Recipients,
        moment: u64,
    ) -> Result<Option<Transfer>, Memory>
        requires sound { IsSound R.format R.text self.now.kept self.now.rules }
        requires fits { moment ≤ last_moment }
        ensures { IfOk result
            (TransfersNext (state_of self.now.kept) lane generation item recipients.now moment) }
    {
        match &self.rules {
            None => Ok(None),
            Some(force) => transfer_next(
                alloc,
                &force.rules,
                &self.kept,
                lane,
                generation,
                item,
                recipients,
                moment,
            ),
        }
    }
}

//! An activity is started, or goes on after a break (X.228, activity management): its number and its octets.
//!
//! `start` takes what `batch_for` answered. It finds what the Start transfers before it makes the step, and shares it,
//! so that nothing can be refused afterwards. `resumed` lends nothing: a session holds the octets while the spool goes
//! on.

ghost use Rattle.std.specs.Prelude.{◌≡◌, ◌≤◌, ◌<◌, ◌+◌, ◌^◌, IfOk, IfSome, IfNone, Some, None};
ghost use Rattle.std.specs.Prelude.{false, length};
ghost use Rattle.std.specs.List.{AllByRecursion};
ghost use Rattle.mta_ber.specs.Times.{last_moment};
ghost use Rattle.mta_journal.specs.Bodies.{longest_body};
ghost use Rattle.mta_histories.specs.Kept.{IsFilled};
ghost use Rattle.mta_histories.specs.Lanes.{lane_at};
ghost use Rattle.mta_records.specs.Body.{HasFields, body_of};
ghost use Rattle.mta_records.specs.declared.step.Step.TheVariants as Steps;
ghost use Rattle.mta_replay.specs.Starting.{IsNextOn, TransfersNext};
ghost use Rattle.mta_spool.specs.Starting.{IsResumed, next_activity, StartsPastLast};

use crate::lanes::refusal_on;
use crate::spool::Spool;
use mta_ber::Memory;
use mta_edge::{Clock, Disk};
use mta_lanes::{Lane, Transfer};
use mta_records::{Batch, Outgoing, Step, StepFault};
use mta_replay::{Ready, start_change};
use std::alloc::Global;

// The most recipients of an activity, whose record holds no more. No APDU has as many, so this is never met.
const MOST_RECIPIENTS: usize = 1_000_000;

// The activity of the sending half of a lane; none where none is under way.
fn resumed_on(alloc: Global, opened: &Lane) -> Result<Option<Outgoing>, Memory>
    requires { IsFilled opened.now }
    ensures { IfOk result (IsResumed (Some opened.now)) }
{
    if opened.may_close() {
        return Ok(None);
    }
    let Some(transfer) = opened.transfer() else {
        return Ok(None);
    };
    let outgoing = transfer.share(alloc, opened.activity())?;
    Ok(Some(outgoing))
}

// Numbers in memory fit the fields of a record.
fn numbers_fit(item: u32, recipients: &[u32])
    ensures item { item < 2 ^ 32 }
    ensures recipients { AllByRecursion (λ n. n < 2 ^ 32) recipients.now }
{}

// The Start of the batch, as an activity of this number. Memory is said to be wanted where the batch has more
// recipients than an activity may have.
fn start_step(
    alloc: Global,
    lane: u32,
    generation: u64,
    activity: u32,
    batch: &Batch,
    moment: u64,
) -> Result<Step, Memory>
    requires { moment ≤ last_moment }
    ensures step { IfOk result
        (λ s. s ≡ Steps.Start lane generation activity batch.now.item batch.now.recipients moment) }
    ensures fields { IfOk result HasFields }
    ensures short { IfOk result (λ s. length (body_of s) ≤ longest_body) }
{
    let numbers = batch.recipients.as_slice();
    if numbers.len() > MOST_RECIPIENTS {
        return Err(Memory);
    }
    numbers_fit(batch.item, numbers);
    let recipients = batch.recipients.copy(alloc)?;
    Ok(Step::Start {
        lane,
        generation,
        activity,
        item: batch.item,
        recipients,
        moment,
    })
}

impl<D: Disk + Drop, C: Clock + Drop> Spool<D, C> {
    ghost use Rattle.mta_spool.specs.Bases.{KeepsOn};
    ghost use Rattle.mta_spool.specs.Stands.{Appends, AtMoment, fault_of, TellsFewer};

    /// The number and the octets of the activity of the lane's sending half; none exactly where the lane is not open,
    /// or where that half is idle.
    pub fn resumed(&self, lane: u32) -> Result<Option<Outgoing>, Memory>
        ensures { IfOk result (IsResumed (lane_at lane self.now.current.lanes.open_lanes)) }
    {
        match self.replay.kept.lanes.get(lane) {
            Some(opened) => resumed_on(self.alloc, opened),
            None => Ok(None),
        }
    }

    // The number of the last activity that was started on a lane; none where it is not open.
    fn last_activity(&self, lane: u32) -> Option<u32>
        ensures next { IfSome result
            (λ k. next_activity (lane_at lane self.now.current.lanes.open_lanes) ≡ k + 1) }
        ensures none { IfNone result (lane_at lane self.now.current.lanes.open_lanes ≡ None) }
        ensures first { IfNone result (next_activity (lane_at lane self.now.current.lanes.open_lanes) ≡ 1) }
    {
        match self.replay.kept.lanes.get(lane) {
            Some(opened) => Some(opened.activity()),
            None => None,
        }
    }

    // Starts an activity of a number that is the next one of its lane, at a moment. It transfers this.
    fn start_as(
        &mut self,
        moment: u64,
        lane: u32,
        generation: u64,
        activity: u32,
        batch: &Batch,
        transfer: Transfer,
    ) -> Result<Outgoing, StepFault>
        requires going { self.old.journal.ended ≡ false }
        requires fits { moment ≤ last_moment }
        requires next { IsNextOn (lane_at lane self.old.current.lanes.open_lanes) activity }
        requires transfers { TransfersNext self.old.current lane generation batch.now.item batch.now.recipients moment
            (Some transfer) }
        ensures made { Appends D.model
            (Steps.Start lane generation activity batch.now.item batch.now.recipients moment) self.old self.new
            (fault_of result) }
        ensures outgoing { IfOk result
            (λ o. IsResumed (lane_at lane self.new.current.lanes.open_lanes) (Some o)) }
        ensures clock { self.new.clock ≡ self.old.clock }
        ensures opened { self.new.opened ≡ self.old.opened }
        ensures keeps { KeepsOn D.model C.model self.old self.new }
    {
        let outgoing = transfer.share(self.alloc, activity)?;
        let step = start_step(self.alloc, lane, generation, activity, batch, moment)?;
        let ready = Ready::of_change(start_change(lane, transfer, moment));
        self.make_ready(&step, ready)?;
        Ok(outgoing)
    }

    // Starts the next activity of a lane at a moment.
    #[tactic(auto, using(crate::proofs::Started::start_along))]
    fn start_next(
        &mut self,
        moment: u64,
        lane: u32,
        generation: u64,
        batch: &Batch,
    ) -> Result<Outgoing, StepFault>
        requires timely { self.old.current.moment ≤ moment }
        requires fits { moment ≤ last_moment }
        ensures made { let next = next_activity (lane_at lane self.old.current.lanes.open_lanes) in
            next < 2 ^ 32 → Appends D.model
            (Steps.Start lane generation next batch.now.item batch.now.recipients moment) self.old self.new
            (fault_of result) }
        ensures past_last { 2 ^ 32 ≤ next_activity (lane_at lane self.old.current.lanes.open_lanes)
            → StartsPastLast lane generation batch.now.item batch.now.recipients moment self.old self.new result }
        ensures outgoing { IfOk result
            (λ o. IsResumed (lane_at lane self.new.current.lanes.open_lanes) (Some o)) }
        ensures clock { self.new.clock ≡ self.old.clock }
        ensures opened { self.new.opened ≡ self.old.opened }
        ensures keeps { KeepsOn D.model C.model self.old self.new }
    {
        if self.journal.is_ended() {
            return Err(StepFault::Ended);
        }
        let Some(last) = self.last_activity(lane) else {
            return Err(StepFault::NoLane { lane });
        };
        let recipients = &batch.recipients;
        let found = self.replay.transfer_next(
            self.alloc, lane, generation, batch.item, recipients, moment,
        )?;
        let Some(transfer) = found else {
            return Err(refusal_on(&self.replay.kept.lanes, lane, generation));
        };
        let Some(activity) = last.checked_add(1) else {
            return Err(StepFault::Spent {
                last: u64::from(u32::MAX),
            });
        };
        self.start_as(moment, lane, generation, activity, batch, transfer)
    }

    /// Starts the next activity of a lane, which transfers a copy of the item to these recipients, and answers it.
    ///
    /// # Errors
    /// As the steps of `lanes.rt`: `Unexpected` also where a recipient is no longer pending, is in an activity, or goes
    /// elsewhere by now, or where one stands twice; `Spent` where the activity may be started, and no number is left
    /// for it on the lane.
    pub fn start(
        &mut self,
        lane: u32,
        generation: u64,
        batch: &Batch,
    ) -> Result<Outgoing, StepFault>
        ensures appends { let next = next_activity (lane_at lane self.old.current.lanes.open_lanes) in
            next < 2 ^ 32 → AtMoment C.model self.old.clock self.old.current.moment
            (λ m. Appends D.model (Steps.Start lane generation next batch.now.item batch.now.recipients m) self.old
            self.new (fault_of result)) }
        ensures past_last { 2 ^ 32 ≤ next_activity (lane_at lane self.old.current.lanes.open_lanes)
            → AtMoment C.model self.old.clock self.old.current.moment
            (λ m. StartsPastLast lane generation batch.now.item batch.now.recipients m self.old self.new result) }
        ensures outgoing { IfOk result
            (λ o. IsResumed (lane_at lane self.new.current.lanes.open_lanes) (Some o)) }
        ensures clock { TellsFewer C.model self.old.clock self.new.clock }
        ensures opened { self.new.opened ≡ self.old.opened }
        ensures keeps { KeepsOn D.model C.model self.old self.new }
    {
        let moment = self.step_moment();
        self.start_next(moment, lane, generation, batch)
    }
}

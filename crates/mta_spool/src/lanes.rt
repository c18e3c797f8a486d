//! The steps on an open lane that look at the lane alone (X.228, association and activity management).
//!
//! In comes the number of a lane, the generation of which the caller believes it to be, and what the step tells. Each
//! call makes its step where the lane allows it (`make_on_lane`), and answers as `spool.rt` says.
//!
//! # Errors
//! In the order of `specs/Order.antt`: `Ended` where an earlier step answered `Disk`; `NoLane` where no lane of this
//! number is open; `Fenced` where it was bound again since; `Unexpected` where it does not allow the step; `Spent`,
//! `Memory`, `Full`, `Disk`.

ghost use Rattle.std.specs.Prelude.{◌≡◌, ◌≤◌, Some, IsTrue, ◌↔◌};
ghost use Rattle.mta_records.specs.Body.{HasFields};
ghost use Rattle.mta_histories.specs.Lanes.{lane_at};
ghost use Rattle.mta_spool.specs.OnLanes.{refusal_on};

use crate::spool::Spool;
use mta_edge::{Clock, Disk};
use mta_lanes::{Lane, Lanes};
use mta_records::{Step, StepFault};
use mta_replay::Ready;
use mta_state::Change;

// Why a step of this generation is refused that the lane of this number does not allow.
fn refusal_of(opened: &Lane, lane: u32, generation: u64) -> StepFault
    ensures { result ≡ refusal_on (Some opened.now) lane generation }
{
    if generation < opened.generation() {
        StepFault::Fenced {
            generation: opened.generation(),
        }
    } else {
        StepFault::Unexpected
    }
}

// Why a step on the lane of this number is refused that no open lane allows.
pub(crate) fn refusal_on(lanes: &Lanes, lane: u32, generation: u64) -> StepFault
    ensures { result ≡ refusal_on (lane_at lane lanes.now.open_lanes.items) lane generation }
{
    match lanes.get(lane) {
        Some(opened) => refusal_of(opened, lane, generation),
        None => StepFault::NoLane { lane },
    }
}

impl<D: Disk + Drop, C: Clock + Drop> Spool<D, C> {
    ghost use Rattle.mta_spool.specs.Bases.{KeepsOn};
    ghost use Rattle.mta_records.specs.declared.step.Step.TheVariants as Steps;
    ghost use Rattle.mta_histories.specs.Classes.{class_of};
    ghost use Rattle.mta_histories.specs.History.{StepNeeds, when};
    ghost use Rattle.mta_histories.specs.Numbers.{numbers_needed};
    ghost use Rattle.mta_state.specs.Prepared.{Prepares};
    ghost use Rattle.mta_spool.specs.OnLanes.{IsBrief, IsPlainOn, IsQuietOn};
    ghost use Rattle.mta_spool.specs.Stands.{Appends, fault_of};

    // Makes a step on a lane where the lane allows it and enough numbers of items are left.
    pub(crate) fn make_on_lane(
        &mut self,
        lane: u32,
        generation: u64,
        allowed: bool,
        needed: usize,
        step: Step,
    ) -> Result<(), StepFault>
        requires plain { IsPlainOn lane generation (class_of step) }
        requires fields { HasFields step }
        requires brief { IsBrief step }
        requires timely { self.old.current.moment ≤ when self.old.current step }
        requires exact { IsTrue allowed ↔ StepNeeds self.old.current (class_of step) (when self.old.current step) }
        requires needed { needed ≡ numbers_needed self.old.current (class_of step) }
        ensures made { Appends D.model step self.old self.new (fault_of result) }
        ensures clock { self.new.clock ≡ self.old.clock }
        ensures opened { self.new.opened ≡ self.old.opened }
        ensures keeps { KeepsOn D.model C.model self.old self.new }
    {
        if self.journal.is_ended() {
            return Err(StepFault::Ended);
        }
        if !allowed {
            return Err(refusal_on(&self.replay.kept.lanes, lane, generation));
        }
        self.check_numbers(needed)?;
        self.make(step)
    }

    // Makes a step on a lane that makes no items, where the lane allows it: `change` is what it changes then.
    pub(crate) fn make_quietly(
        &mut self,
        lane: u32,
        generation: u64,
        change: Option<Change>,
        step: &Step,
    ) -> Result<(), StepFault>
        requires quiet { IsQuietOn lane generation (class_of step.now) }
        requires brief { IsBrief step.now }
        requires fields { HasFields step.now }
        requires timely { self.old.current.moment ≤ when self.old.current step.now }
        requires prepared { Prepares self.old.current step.now change }
        ensures made { Appends D.model step.now self.old self.new (fault_of result) }
        ensures clock { self.new.clock ≡ self.old.clock }
        ensures opened { self.new.opened ≡ self.old.opened }
        ensures keeps { KeepsOn D.model C.model self.old self.new }
    {
        if self.journal.is_ended() {
            return Err(StepFault::Ended);
        }
        match change {
            None => Err(refusal_on(&self.replay.kept.lanes, lane, generation)),
            Some(change) => self.make_ready(step, Ready::of_change(change)),
        }
    }

    /// Both ends of an initiator's lane hold to these values from now on: `checkpoint` in units of 1,024 octets, up to
    /// the lane's, and `window` in pieces, 1 up to the lane's.
    pub fn lane_agree(
        &mut self,
        lane: u32,
        generation: u64,
        checkpoint: u32,
        window: u32,
    ) -> Result<(), StepFault>
        ensures appends { Appends D.model (Steps.LaneAgree lane generation checkpoint window) self.old self.new
            (fault_of result) }
        ensures clock { self.new.clock ≡ self.old.clock }
        ensures opened { self.new.opened ≡ self.old.opened }
        ensures keeps { KeepsOn D.model C.model self.old self.new }
    {
        let change = self
            .replay
            .kept
            .prepare_agree(lane, generation, checkpoint, window);
        let step = Step::LaneAgree {
            lane,
            generation,
            checkpoint,
            window,
        };
        self.make_quietly(lane, generation, change, &step)
    }

    /// The peer has confirmed the pieces of an activity up to this one, from 1.
    pub fn confirm(
        &mut self,
        lane: u32,
        generation: u64,
        activity: u32,
        number: u32,
    ) -> Result<(), StepFault>
        ensures appends { Appends D.model (Steps.Confirm lane generation activity number) self.old self.new
            (fault_of result) }
        ensures clock { self.new.clock ≡ self.old.clock }
        ensures opened { self.new.opened ≡ self.old.opened }
        ensures keeps { KeepsOn D.model C.model self.old self.new }
    {
        let change = self
            .replay
            .kept
            .prepare_confirm(lane, generation, activity, number);
        let step = Step::Confirm {
            lane,
            generation,
            activity,
            checkpoint: number,
        };
        self.make_quietly(lane, generation, change, &step)
    }

    /// From now on the peer may complete the activity.
    pub fn ending(&mut self, lane: u32, generation: u64, activity: u32) -> Result<(), StepFault>
        ensures appends { Appends D.model (Steps.Ending lane generation activity) self.old self.new
            (fault_of result) }
        ensures clock { self.new.clock ≡ self.old.clock }
        ensures opened { self.new.opened ≡ self.old.opened }
        ensures keeps { KeepsOn D.model C.model self.old self.new }
    {
        let change = self.replay.kept.prepare_end(lane, generation, activity);
        let step = Step::Ending {
            lane,
            generation,
            activity,
        };
        self.make_quietly(lane, generation, change, &step)
    }

    /// The peer has discarded the activity, whose recipients are free again.
    pub fn dropped(&mut self, lane: u32, generation: u64, activity: u32) -> Result<(), StepFault>
        ensures appends { Appends D.model (Steps.Dropped lane generation activity) self.old self.new
            (fault_of result) }
        ensures clock { self.new.clock ≡ self.old.clock }
        ensures opened { self.new.opened ≡ self.old.opened }
        ensures keeps { KeepsOn D.model C.model self.old self.new }
    {
        let change = self.replay.kept.prepare_drop(lane, generation, activity);
        let step = Step::Dropped {
            lane,
            generation,
            activity,
        };
        self.make_quietly(lane, generation, change, &step)
    }

    /// The pieces that came of an activity of the peer are given up.
    pub fn drop_activity(
        &mut self,
        lane: u32,
        generation: u64,
        activity: u32,
    ) -> Result<(), StepFault>
        ensures appends { Appends D.model (Steps.Drop lane generation activity) self.old self.new (fault_of result) }
        ensures clock { self.new.clock ≡ self.old.clock }
        ensures opened { self.new.opened ≡ self.old.opened }
        ensures keeps { KeepsOn D.model C.model self.old self.new }
    {
        let change = self.replay.kept.prepare_give_up(lane, generation, activity);
        let step = Step::Drop {
            lane,
            generation,
            activity,
        };
        self.make_quietly(lane, generation, change, &step)
    }

    /// The lane is closed, where no activity of this end is under way.
    pub fn close_lane(&mut self, lane: u32, generation: u64) -> Result<(), StepFault>
        ensures appends { Appends D.model (Steps.CloseLane lane generation) self.old self.new (fault_of result) }
        ensures clock { self.new.clock ≡ self.old.clock }
        ensures opened { self.new.opened ≡ self.old.opened }
        ensures keeps { KeepsOn D.model C.model self.old self.new }
    {
        let change = self.replay.kept.prepare_close(lane, generation);
        let step = Step::CloseLane { lane, generation };
        self.make_quietly(lane, generation, change, &step)
    }
}

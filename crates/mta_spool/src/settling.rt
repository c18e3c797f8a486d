//! The steps on an open lane that settle an activity of this end: the peer has got it, has refused it, or knows nothing
//! of it (X.228, activity management).
//!
//! They are made, and refused, as the steps of `lanes.rt` are. The failure of an activity may make a report for each of
//! its recipients, and needs numbers of items for them.

ghost use Rattle.std.specs.Prelude.{◌≡◌, ◌≤◌, ℕ, Some, IsTrue, ◌↔◌};
ghost use Rattle.mta_ber.specs.Times.{last_moment};
ghost use Rattle.mta_histories.specs.Classes.{settle, was_denied, was_refused};
ghost use Rattle.mta_histories.specs.History.{IsOnLane};
ghost use Rattle.mta_histories.specs.Lanes.{lane_at};
ghost use Rattle.mta_histories.specs.Numbers.{numbers_on};
ghost use Rattle.mta_state.specs.Kept.{state_of};
ghost use Rattle.mta_state.specs.Prepared.{Allows};

use crate::due::needed_to_fail;
use crate::spool::Spool;
use mta_edge::{Clock, Disk};
use mta_lanes::Lane;
use mta_records::{Step, StepFault};
use mta_replay::prepare_sent;
use mta_state::Kept;

fn allows_failure(opened: &Lane, generation: u64, activity: u32) -> bool
    ensures refused { (kind : ℕ)
        → IsTrue result ↔ Allows opened.now (Some generation) (settle (was_refused kind) activity) }
    ensures denied { IsTrue result ↔ Allows opened.now (Some generation) (settle was_denied activity) }
{
    opened.is_of(generation) && opened.may_settle(activity)
}

// Whether a Refused or a Denied may be made, at whatever moment.
fn may_fail(kept: &Kept, lane: u32, generation: u64, activity: u32) -> bool
    ensures refused { (kind moment : ℕ) → IsTrue result
        ↔ IsOnLane (state_of kept.now) lane (Some generation) (settle (was_refused kind) activity) moment }
    ensures denied { (moment : ℕ) → IsTrue result
        ↔ IsOnLane (state_of kept.now) lane (Some generation) (settle was_denied activity) moment }
{
    match kept.lanes.get(lane) {
        Some(opened) => allows_failure(opened, generation, activity),
        None => false,
    }
}

impl<D: Disk + Drop, C: Clock + Drop> Spool<D, C> {
    ghost use Rattle.mta_spool.specs.Bases.{KeepsOn};
    ghost use Rattle.mta_records.specs.declared.step.Step.TheVariants as Steps;
    ghost use Rattle.mta_spool.specs.Stands.{Appends, AtMoment, fault_of, TellsFewer};

    // The peer has completed the activity, at a moment.
    fn sent_at(
        &mut self,
        moment: u64,
        lane: u32,
        generation: u64,
        activity: u32,
    ) -> Result<(), StepFault>
        requires timely { self.old.current.moment ≤ moment }
        requires fits { moment ≤ last_moment }
        ensures appends { Appends D.model (Steps.Sent lane generation activity moment) self.old self.new
            (fault_of result) }
        ensures clock { self.new.clock ≡ self.old.clock }
        ensures opened { self.new.opened ≡ self.old.opened }
        ensures keeps { KeepsOn D.model C.model self.old self.new }
    {
        if self.journal.is_ended() {
            return Err(StepFault::Ended);
        }
        let kept = &self.replay.kept;
        let change = prepare_sent(self.alloc, kept, lane, generation, activity, moment)?;
        let step = Step::Sent {
            lane,
            generation,
            activity,
            moment,
        };
        self.make_quietly(lane, generation, change, &step)
    }

    /// The peer has completed the activity in Ending, and its recipients are Sent.
    pub fn sent(&mut self, lane: u32, generation: u64, activity: u32) -> Result<(), StepFault>
        ensures appends { AtMoment C.model self.old.clock self.old.current.moment
            (λ m. Appends D.model (Steps.Sent lane generation activity m) self.old self.new (fault_of result)) }
        ensures clock { TellsFewer C.model self.old.clock self.new.clock }
        ensures opened { self.new.opened ≡ self.old.opened }
        ensures keeps { KeepsOn D.model C.model self.old self.new }
    {
        let moment = self.step_moment();
        self.sent_at(moment, lane, generation, activity)
    }

    // The peer refused the octets of the activity, at a moment.
    fn refused_at(
        &mut self,
        moment: u64,
        lane: u32,
        generation: u64,
        activity: u32,
        kind: u8,
    ) -> Result<(), StepFault>
        requires kind { (1 ≤ kind) × (kind ≤ 12) }
        requires timely { self.old.current.moment ≤ moment }
        requires fits { moment ≤ last_moment }
        ensures appends { Appends D.model (Steps.Refused lane generation activity kind moment) self.old self.new
            (fault_of result) }
        ensures clock { self.new.clock ≡ self.old.clock }
        ensures opened { self.new.opened ≡ self.old.opened }
        ensures keeps { KeepsOn D.model C.model self.old self.new }
    {
        let allowed = may_fail(&self.replay.kept, lane, generation, activity);
        let needed = needed_to_fail(&self.replay.kept.lanes, lane);
        let step = Step::Refused {
            lane,
            generation,
            activity,
            kind,
            moment,
        };
        self.make_on_lane(lane, generation, allowed, needed, step)
    }

    /// The peer refused the octets of the activity, for a fault of this kind: 1 to 12, of which 11 says that there are
    /// too many. Its recipients are reported, unless it was given up before. `Spent` comes where fewer numbers of items
    /// are left than two, and than it has recipients.
    pub fn refused(
        &mut self,
        lane: u32,
        generation: u64,
        activity: u32,
        kind: u8,
    ) -> Result<(), StepFault>
        requires kind { (1 ≤ kind) × (kind ≤ 12) }
        ensures appends { AtMoment C.model self.old.clock self.old.current.moment
            (λ m. Appends D.model (Steps.Refused lane generation activity kind m) self.old self.new
            (fault_of result)) }
        ensures clock { TellsFewer C.model self.old.clock self.new.clock }
        ensures opened { self.new.opened ≡ self.old.opened }
        ensures keeps { KeepsOn D.model C.model self.old self.new }
    {
        let moment = self.step_moment();
        self.refused_at(moment, lane, generation, activity, kind)
    }

    // The peer knows nothing of the activity, at a moment.
    fn denied_at(
        &mut self,
        moment: u64,
        lane: u32,
        generation: u64,
        activity: u32,
    ) -> Result<(), StepFault>
        requires timely { self.old.current.moment ≤ moment }
        requires fits { moment ≤ last_moment }
        ensures appends { Appends D.model (Steps.Denied lane generation activity moment) self.old self.new
            (fault_of result) }
        ensures clock { self.new.clock ≡ self.old.clock }
        ensures opened { self.new.opened ≡ self.old.opened }
        ensures keeps { KeepsOn D.model C.model self.old self.new }
    {
        let allowed = may_fail(&self.replay.kept, lane, generation, activity);
        let needed = needed_to_fail(&self.replay.kept.lanes, lane);
        let step = Step::Denied {
            lane,
            generation,
            activity,
            moment,
        };
        self.make_on_lane(lane, generation, allowed, needed, step)
    }

    /// The peer knows nothing of the activity. In Ending its recipients are reported, since nobody can tell whether it
    /// got it; before that they are free again. `Spent` comes as at `refused`.
    pub fn denied(&mut self, lane: u32, generation: u64, activity: u32) -> Result<(), StepFault>
        ensures appends { AtMoment C.model self.old.clock self.old.current.moment
            (λ m. Appends D.model (Steps.Denied lane generation activity m) self.old self.new (fault_of result)) }
        ensures clock { TellsFewer C.model self.old.clock self.new.clock }
        ensures opened { self.new.opened ≡ self.old.opened }
        ensures keeps { KeepsOn D.model C.model self.old self.new }
    {
        let moment = self.step_moment();
        self.denied_at(moment, lane, generation, activity)
    }
}

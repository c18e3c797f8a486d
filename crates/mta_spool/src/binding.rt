//! An open lane is bound to a new association (X.228, association recovery).

ghost use Rattle.std.specs.Prelude.{◌≡◌, ◌≤◌, ◌<◌, ◌+◌, ◌^◌, IfOk, IfSome, IfNone, None, false, length};
ghost use Rattle.mta_histories.specs.Lanes.{lane_at};
ghost use Rattle.mta_spool.specs.OnLanes.{next_generation};

use crate::spool::Spool;
use mta_edge::{Clock, Disk};
use mta_records::{Step, StepFault};

impl<D: Disk + Drop, C: Clock + Drop> Spool<D, C> {
    ghost use Rattle.mta_spool.specs.Bases.{KeepsOn};
    ghost use Rattle.mta_records.specs.declared.step.Step.TheVariants as Steps;
    ghost use Rattle.mta_spool.specs.OnLanes.{BindsPastLast, IsNext};
    ghost use Rattle.mta_spool.specs.Stands.{Appends, fault_of};

    // The generation of a lane; none where it is not open.
    fn last_generation(&self, lane: u32) -> Option<u64>
        ensures open { IfSome result (λ g. IsNext (lane_at lane self.now.current.lanes.open_lanes) (g + 1)) }
        ensures next { IfSome result
            (λ g. next_generation (lane_at lane self.now.current.lanes.open_lanes) ≡ g + 1) }
        ensures none { IfNone result (lane_at lane self.now.current.lanes.open_lanes ≡ None) }
        ensures first { IfNone result (next_generation (lane_at lane self.now.current.lanes.open_lanes) ≡ 1) }
    {
        match self.replay.kept.lanes.get(lane) {
            Some(opened) => Some(opened.generation()),
            None => None,
        }
    }

    // Binds an open lane, whose next generation this is.
    fn bind_open(&mut self, lane: u32, generation: u64) -> Result<(), StepFault>
        requires going { self.old.journal.ended ≡ false }
        requires few { length self.old.current.machine.items < 2 ^ 32 }
        requires next { IsNext (lane_at lane self.old.current.lanes.open_lanes) generation }
        ensures made { Appends D.model (Steps.Bind lane generation) self.old self.new (fault_of result) }
        ensures clock { self.new.clock ≡ self.old.clock }
        ensures opened { self.new.opened ≡ self.old.opened }
        ensures keeps { KeepsOn D.model C.model self.old self.new }
    {
        self.make(Step::Bind { lane, generation })
    }

    /// Binds an open lane to a new association, and answers its new generation.
    ///
    /// # Errors
    /// As the steps of `lanes.rt`; `Spent` where the lane is of the last generation that there may be.
    #[tactic(auto, using(crate::proofs::OnLanes::bind_along))]
    pub fn bind(&mut self, lane: u32) -> Result<u64, StepFault>
        ensures appends { let next = next_generation (lane_at lane self.old.current.lanes.open_lanes) in
            next < 2 ^ 64 → Appends D.model (Steps.Bind lane next) self.old self.new (fault_of result) }
        ensures past_last { 2 ^ 64 ≤ next_generation (lane_at lane self.old.current.lanes.open_lanes)
            → BindsPastLast self.old self.new result }
        ensures generation { IfOk result
            (λ g. g ≡ next_generation (lane_at lane self.old.current.lanes.open_lanes)) }
        ensures clock { self.new.clock ≡ self.old.clock }
        ensures opened { self.new.opened ≡ self.old.opened }
        ensures keeps { KeepsOn D.model C.model self.old self.new }
    {
        if self.journal.is_ended() {
            return Err(StepFault::Ended);
        }
        let Some(last) = self.last_generation(lane) else {
            return Err(StepFault::NoLane { lane });
        };
        let Some(generation) = last.checked_add(1) else {
            return Err(StepFault::Spent { last });
        };
        self.bind_open(lane, generation)?;
        Ok(generation)
    }
}

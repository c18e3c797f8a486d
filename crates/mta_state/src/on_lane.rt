//! What the steps change that look at their lane alone.

ghost use Rattle.std.specs.Prelude.{◌≡◌, ◌≤◌, ◌<◌, ◌^◌, ◌↔◌, IsTrue, length, Some, None};
ghost use Rattle.std.specs.Prelude.{IfOk};
ghost use Rattle.mta_histories.specs.Classes.{agree, bind, confirm, to_end, settle, was_dropped, secure, drop_pieces};
ghost use Rattle.mta_histories.specs.Classes.{close};
ghost use Rattle.mta_histories.specs.History.{IsOnLane};
ghost use Rattle.mta_records.specs.declared.step.Step.TheVariants as Steps;
ghost use Rattle.mta_state.specs.Kept.{state_of};
ghost use Rattle.mta_state.specs.Prepared.{Prepares, Allows};

use crate::change::Change;
use crate::kept::Kept;
use mta_lanes::{Lane, LaneChange};

fn allows_agree(lane: &Lane, generation: u64, checkpoint: u32, window: u32) -> bool
    ensures exact { IsTrue result ↔ Allows lane.now (Some generation) (agree checkpoint window) }
    ensures fits { IsTrue result → checkpoint ≤ 64 }
{
    lane.is_of(generation) && lane.may_agree(checkpoint, window)
}

fn allows_bind(lane: &Lane, generation: u64) -> bool
    ensures { IsTrue result ↔ Allows lane.now (Some generation) bind }
{
    lane.is_before(generation)
}

fn allows_confirm(lane: &Lane, generation: u64, activity: u32, checkpoint: u32) -> bool
    ensures { IsTrue result ↔ Allows lane.now (Some generation) (confirm activity checkpoint) }
{
    lane.is_of(generation) && lane.may_confirm(activity, checkpoint)
}

fn allows_end(lane: &Lane, generation: u64, activity: u32) -> bool
    ensures { IsTrue result ↔ Allows lane.now (Some generation) (to_end activity) }
{
    lane.is_of(generation) && lane.may_end(activity)
}

fn allows_drop(lane: &Lane, generation: u64, activity: u32) -> bool
    ensures { IsTrue result ↔ Allows lane.now (Some generation) (settle was_dropped activity) }
{
    lane.is_of(generation) && lane.may_settle(activity)
}

fn allows_give_up(lane: &Lane, generation: u64, activity: u32) -> bool
    ensures { IsTrue result ↔ Allows lane.now (Some generation) (drop_pieces activity) }
{
    lane.is_of(generation) && lane.may_drop(activity)
}

fn allows_close(lane: &Lane, generation: u64) -> bool
    ensures { IsTrue result ↔ Allows lane.now (Some generation) close }
{
    lane.is_of(generation) && lane.may_close()
}

impl Kept {
    // Whether a LaneAgree may be made.
    fn may_agree(&self, lane: u32, generation: u64, checkpoint: u32, window: u32) -> bool
        ensures exact { IsTrue result
            ↔ IsOnLane (state_of self.now) lane (Some generation) (agree checkpoint window) self.now.moment }
        ensures fits { IsTrue result → checkpoint ≤ 64 }
    {
        match self.lanes.get(lane) {
            Some(open) => allows_agree(open, generation, checkpoint, window),
            None => false,
        }
    }

    /// What a LaneAgree changes; none exactly where it is not possible.
    #[tactic(auto, using(crate::proofs::Steps::agree_changes, crate::proofs::Steps::no_agree))]
    pub fn prepare_agree(
        &self,
        lane: u32,
        generation: u64,
        checkpoint: u32,
        window: u32,
    ) -> Option<Change>
        requires { length self.now.parts.items.items < 2 ^ 32 }
        ensures { Prepares (state_of self.now) (Steps.LaneAgree lane generation checkpoint window) result }
    {
        if !self.may_agree(lane, generation, checkpoint, window) {
            return None;
        }
        Some(Change::OnLane {
            lane,
            change: LaneChange::Agree { checkpoint, window },
            moment: None,
        })
    }

    // Whether a Bind may be made.
    fn may_bind(&self, lane: u32, generation: u64) -> bool
        ensures { IsTrue result
            ↔ IsOnLane (state_of self.now) lane (Some generation) bind self.now.moment }
    {
        match self.lanes.get(lane) {
            Some(open) => allows_bind(open, generation),
            None => false,
        }
    }

    /// What a Bind changes; none exactly where it is not possible.
    #[tactic(auto, using(crate::proofs::Steps::bind_changes, crate::proofs::Steps::no_bind))]
    pub fn prepare_bind(&self, lane: u32, generation: u64) -> Option<Change>
        requires { length self.now.parts.items.items < 2 ^ 32 }
        ensures { Prepares (state_of self.now) (Steps.Bind lane generation) result }
    {
        if !self.may_bind(lane, generation) {
            return None;
        }
        Some(Change::OnLane {
            lane,
            change: LaneChange::Bind,
            moment: None,
        })
    }

    // Whether a Confirm may be made.
    fn may_confirm(&self, lane: u32, generation: u64, activity: u32, checkpoint: u32) -> bool
        ensures { IsTrue result
            ↔ IsOnLane (state_of self.now) lane (Some generation) (confirm activity checkpoint) self.now.moment }
    {
        match self.lanes.get(lane) {
            Some(open) => allows_confirm(open, generation, activity, checkpoint),
            None => false,
        }
    }

    /// What a Confirm changes; none exactly where it is not possible.
    #[tactic(auto, using(crate::proofs::Steps::confirm_changes, crate::proofs::Steps::no_confirm))]
    pub fn prepare_confirm(
        &self,
        lane: u32,
        generation: u64,
        activity: u32,
        checkpoint: u32,
    ) -> Option<Change>
        requires { length self.now.parts.items.items < 2 ^ 32 }
        ensures { Prepares (state_of self.now) (Steps.Confirm lane generation activity checkpoint) result }
    {
        if !self.may_confirm(lane, generation, activity, checkpoint) {
            return None;
        }
        Some(Change::OnLane {
            lane,
            change: LaneChange::Confirm {
                activity,
                number: checkpoint,
            },
            moment: None,
        })
    }

    // Whether a Ending may be made.
    fn may_end(&self, lane: u32, generation: u64, activity: u32) -> bool
        ensures { IsTrue result
            ↔ IsOnLane (state_of self.now) lane (Some generation) (to_end activity) self.now.moment }
    {
        match self.lanes.get(lane) {
            Some(open) => allows_end(open, generation, activity),
            None => false,
        }
    }

    /// What a Ending changes; none exactly where it is not possible.
    #[tactic(auto, using(crate::proofs::Steps::end_changes, crate::proofs::Steps::no_end))]
    pub fn prepare_end(&self, lane: u32, generation: u64, activity: u32) -> Option<Change>
        requires { length self.now.parts.items.items < 2 ^ 32 }
        ensures { Prepares (state_of self.now) (Steps.Ending lane generation activity) result }
    {
        if !self.may_end(lane, generation, activity) {
            return None;
        }
        Some(Change::OnLane {
            lane,
            change: LaneChange::ToEnd { activity },
            moment: None,
        })
    }

    // Whether a Dropped may be made.
    fn may_drop(&self, lane: u32, generation: u64, activity: u32) -> bool
        ensures { IsTrue result
            ↔ IsOnLane (state_of self.now) lane (Some generation) (settle was_dropped activity) self.now.moment }
    {
        match self.lanes.get(lane) {
            Some(open) => allows_drop(open, generation, activity),
            None => false,
        }
    }

    /// What a Dropped changes; none exactly where it is not possible.
    #[tactic(auto, using(crate::proofs::Steps::drop_changes, crate::proofs::Steps::no_drop))]
    pub fn prepare_drop(&self, lane: u32, generation: u64, activity: u32) -> Option<Change>
        requires { length self.now.parts.items.items < 2 ^ 32 }
        ensures { Prepares (state_of self.now) (Steps.Dropped lane generation activity) result }
    {
        if !self.may_drop(lane, generation, activity) {
            return None;
        }
        Some(Change::OnLane {
            lane,
            change: LaneChange::Settle,
            moment: None,
        })
    }

    // Whether a Drop may be made.
    fn may_give_up(&self, lane: u32, generation: u64, activity: u32) -> bool
        ensures { IsTrue result
            ↔ IsOnLane (state_of self.now) lane (Some generation) (drop_pieces activity) self.now.moment }
    {
        match self.lanes.get(lane) {
            Some(open) => allows_give_up(open, generation, activity),
            None => false,
        }
    }

    /// What a Drop changes; none exactly where it is not possible.
    #[tactic(auto, using(crate::proofs::Steps::give_up_changes, crate::proofs::Steps::no_give_up))]
    pub fn prepare_give_up(&self, lane: u32, generation: u64, activity: u32) -> Option<Change>
        requires { length self.now.parts.items.items < 2 ^ 32 }
        ensures { Prepares (state_of self.now) (Steps.Drop lane generation activity) result }
    {
        if !self.may_give_up(lane, generation, activity) {
            return None;
        }
        Some(Change::OnLane {
            lane,
            change: LaneChange::DropPieces,
            moment: None,
        })
    }

    // Whether a CloseLane may be made.
    fn may_close(&self, lane: u32, generation: u64) -> bool
        ensures { IsTrue result
            ↔ IsOnLane (state_of self.now) lane (Some generation) close self.now.moment }
    {
        match self.lanes.get(lane) {
            Some(open) => allows_close(open, generation),
            None => false,
        }
    }

    /// What a CloseLane changes; none exactly where it is not possible.
    #[tactic(auto, using(crate::proofs::Steps::close_changes, crate::proofs::Steps::no_close))]
    pub fn prepare_close(&self, lane: u32, generation: u64) -> Option<Change>
        requires { length self.now.parts.items.items < 2 ^ 32 }
        ensures { Prepares (state_of self.now) (Steps.CloseLane lane generation) result }
    {
        if !self.may_close(lane, generation) {
            return None;
        }
        Some(Change::Close { lane })
    }
}

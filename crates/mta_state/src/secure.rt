//! What a piece that comes changes.

ghost use Rattle.std.specs.Prelude.{◌≡◌, ◌<◌, ◌^◌, ◌↔◌, IsTrue, length, Some, IfOk};
ghost use Rattle.mta_histories.specs.Classes.{secure};
ghost use Rattle.mta_histories.specs.History.{IsOnLane};
ghost use Rattle.mta_records.specs.declared.step.Step.TheVariants as Steps;
ghost use Rattle.mta_state.specs.Kept.{state_of};
ghost use Rattle.mta_state.specs.Prepared.{Prepares, Allows};

use crate::change::Change;
use crate::kept::Kept;
use mta_ber::{Memory, Octets};
use mta_lanes::{Lane, LaneChange};
use std::alloc::Global;

fn allows_secure(lane: &Lane, generation: u64, activity: u32, number: u32, piece: &[u8]) -> bool
    ensures { IsTrue result ↔ Allows lane.now (Some generation) (secure activity number piece.now) }
{
    lane.is_of(generation) && lane.may_secure(activity, number, piece)
}

impl Kept {
    /// Whether a Secure may be made.
    pub fn may_secure(
        &self,
        lane: u32,
        generation: u64,
        activity: u32,
        number: u32,
        piece: &[u8],
    ) -> bool
        ensures { IsTrue result
            ↔ IsOnLane (state_of self.now) lane (Some generation) (secure activity number piece.now) self.now.moment }
    {
        match self.lanes.get(lane) {
            Some(open) => allows_secure(open, generation, activity, number, piece),
            None => false,
        }
    }

    /// What a Secure changes; none exactly where it is not possible.
    #[tactic(auto, using(crate::proofs::Received::secure_laws))]
    pub fn prepare_secure(
        &self,
        alloc: Global,
        lane: u32,
        generation: u64,
        activity: u32,
        number: u32,
        piece: Octets,
    ) -> Result<Option<Change>, Memory>
        requires { length self.now.parts.items.items < 2 ^ 32 }
        ensures { IfOk result (Prepares (state_of self.now) (Steps.Secure lane generation activity number piece)) }
    {
        let Some(open) = self.lanes.get(lane) else {
            return Ok(None);
        };
        if !allows_secure(open, generation, activity, number, piece.as_slice()) {
            return Ok(None);
        }
        let places = open.places(alloc, number, piece.as_slice())?;
        Ok(Some(Change::OnLane {
            lane,
            change: LaneChange::Secure {
                activity,
                number,
                piece,
                places,
            },
            moment: None,
        }))
    }
}

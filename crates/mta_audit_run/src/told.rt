//! What a step tells of a lane's activities.

ghost use Rattle.std.specs.Prelude.{◌≡◌, IfOk};
ghost use Rattle.std.specs.Option.{option_copied};
ghost use Rattle.mta_histories.specs.Classes.{class_of};
ghost use Rattle.mta_histories.specs.Lanes.{lane_at};
ghost use Rattle.mta_audit_run.specs.Accounts.{is_begun, told_by, transferred_on};
ghost use Rattle.mta_audit_run.specs.declared.told.Told.TheVariants as Tolds;

use crate::activity::Activity;
use mta_ber::{Memory, Octets, Word};
use mta_lanes::{Lane, Lanes};
use mta_records::{LaneRole, Reference, Step};
use std::alloc::Global;

/// What a step tells of a lane's activities.
#[derive(Drop)]
pub enum Told {
    /// Nothing.
    Nothing,
    /// The history begins with a snapshot, which has the lanes that are open then.
    Begun,
    /// The next lane is opened, by this name.
    Opened {
        role: LaneRole,
        peer: Word,
        reference: Reference,
    },
    /// The activity of these octets was sent on the lane of this number.
    Sent {
        lane: u32,
        activity: Activity,
    },
    /// An activity was completed on the lane of this number; its octets are those of the last item then.
    Completed {
        lane: u32,
    },
}

impl Told {
    /// Whether it tells of a snapshot.
    pub fn is_begun(&self) -> bool
        ensures { result ≡ is_begun self.now }
    {
        match self {
            Told::Nothing => false,
            Told::Begun => true,
            Told::Opened { .. } => false,
            Told::Sent { .. } => false,
            Told::Completed { .. } => false,
        }
    }
}

/// What a lane transfers; no octets where it transfers nothing.
pub fn transferred_on(alloc: Global, lane: Option<&Lane>) -> Result<Activity, Memory>
    ensures { IfOk result (λ a. a ≡ transferred_on (option_copied lane.entry)) }
{
    let Some(lane) = lane else {
        return Activity::new(alloc, Octets::new(alloc));
    };
    match lane.transfer() {
        Some(transfer) => Activity::of_transfer(alloc, transfer),
        None => Activity::new(alloc, Octets::new(alloc)),
    }
}

// An activity is sent on the lane of this number.
fn sent_on(alloc: Global, lanes: &Lanes, lane: u32) -> Result<Told, Memory>
    ensures { IfOk result (λ t. t ≡ Tolds.Sent lane (transferred_on (lane_at lane lanes.now.open_lanes.items))) }
{
    let activity = transferred_on(alloc, lanes.get(lane))?;
    Ok(Told::Sent { lane, activity })
}

/// What a step tells of a lane's activities, where these are the lanes before it.
pub fn told_by(alloc: Global, lanes: &Lanes, step: &Step) -> Result<Told, Memory>
    ensures { IfOk result (λ t. t ≡ told_by lanes.now.open_lanes.items (class_of step.now)) }
{
    match step {
        Step::Snapshot { .. } => Ok(Told::Begun),
        Step::LaneOpen {
            role,
            peer,
            reference,
            ..
        } => {
            let peer = peer.share()?;
            let reference = reference.copy(alloc)?;
            Ok(Told::Opened {
                role: *role,
                peer,
                reference,
            })
        }
        Step::Sent { lane, .. } => sent_on(alloc, lanes, *lane),
        Step::Complete { lane, .. } => Ok(Told::Completed { lane: *lane }),
        _ => Ok(Told::Nothing),
    }
}

//! What a session asks the spool, and what it is told.

use crate::peer::Peer;
use mta_ber::{Memory, Octets, Word};
use mta_lane_recv::Last;
use mta_lane_send::SendState;
use mta_records::{Batch, CompleteFault, LaneRole, LaneValues, Outgoing, Reference, StepFault};

/// A call of the spool.
#[derive(Drop)]
pub enum Ask {
    /// The lowest item with recipients that are due to this peer, and all those recipients.
    BatchFor {
        peer: Word,
    },
    /// A step: a new lane. The checkpoint size is in units of 1,024 octets, 0 to 64, the window 1 to 8.
    LaneOpen {
        role: LaneRole,
        peer: Word,
        reference: Reference,
        twa: bool,
        checkpoint: u32,
        window: u32,
    },
    /// A step: the values that the peer answered.
    LaneAgree {
        lane: u32,
        generation: u64,
        checkpoint: u32,
        window: u32,
    },
    /// A step: the lane is recovered, in a new generation.
    Bind {
        lane: u32,
    },
    /// A step: an activity for this batch begins.
    Start {
        lane: u32,
        generation: u64,
        batch: Batch,
    },
    /// A step: the peer holds so many pieces.
    Confirm {
        lane: u32,
        generation: u64,
        activity: u32,
        number: u32,
    },
    /// A step: End may be put, and the activity is not given up any more.
    Ending {
        lane: u32,
        generation: u64,
        activity: u32,
    },
    /// A step: the peer has the activity.
    Sent {
        lane: u32,
        generation: u64,
        activity: u32,
    },
    /// A step: the peer has discarded the activity, which was given up.
    Dropped {
        lane: u32,
        generation: u64,
        activity: u32,
    },
    /// A step: the peer does not know the activity or the lane.
    Denied {
        lane: u32,
        generation: u64,
        activity: u32,
    },
    /// A step: the peer found the octets faulty; `kind` is the kind of the fault.
    Refused {
        lane: u32,
        generation: u64,
        activity: u32,
        kind: u8,
    },
    /// A step: a piece of the peer's activity is durable.
    Secure {
        lane: u32,
        generation: u64,
        activity: u32,
        number: u32,
        piece: Octets,
    },
    /// A step: the last piece of the peer's activity is durable, and the message is taken.
    Complete {
        lane: u32,
        generation: u64,
        activity: u32,
        number: u32,
        piece: Octets,
    },
    /// A step: what stands of the peer's activity is dropped.
    DropActivity {
        lane: u32,
        generation: u64,
        activity: u32,
    },
    /// A step: the lane is closed.
    CloseLane {
        lane: u32,
        generation: u64,
    },
    /// The activity that is under way on the lane.
    Resumed {
        lane: u32,
    },
    /// The lowest open lane of this role, peer and reference.
    LaneOf {
        role: LaneRole,
        peer: Word,
        reference: Option<Reference>,
    },
    /// The state of the lane's sending half.
    Recovery {
        lane: u32,
    },
    /// The state of the lane's receiving half, with the highest activity that it began.
    Receiving {
        lane: u32,
    },
    /// The values of the lane.
    Values {
        lane: u32,
    },
    /// The lowest open lane of this role and peer that sends nothing, and its generation.
    SpareLane {
        role: LaneRole,
        peer: Word,
    },
    /// The line of this name in the recorded tables.
    Peer(Word),
}

/// Its result. A variant holds what the call of the same name answers.
#[derive(Drop)]
pub enum Reply {
    BatchFor(Result<Option<Batch>, Memory>),
    LaneOpen(Result<u32, StepFault>),
    LaneAgree(Result<(), StepFault>),
    Bind(Result<u64, StepFault>),
    Start(Result<Outgoing, StepFault>),
    Confirm(Result<(), StepFault>),
    Ending(Result<(), StepFault>),
    Sent(Result<(), StepFault>),
    Dropped(Result<(), StepFault>),
    Denied(Result<(), StepFault>),
    Refused(Result<(), StepFault>),
    Secure(Result<(), CompleteFault>),
    Complete(Result<u32, CompleteFault>),
    DropActivity(Result<(), StepFault>),
    CloseLane(Result<(), StepFault>),
    Resumed(Result<Option<Outgoing>, Memory>),
    LaneOf(Option<u32>),
    Recovery(Option<SendState>),
    Receiving(Option<(u32, Last)>),
    Values(Option<LaneValues>),
    SpareLane(Option<(u32, u64)>),
    Peer(Result<Option<Peer>, Memory>),
}

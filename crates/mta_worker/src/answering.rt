//! The call of the spool that a question of a session names.

ghost use Rattle.std.specs.Prelude.{◌≡◌};
ghost use Rattle.mta_shared.specs.Rule.{Grows};
ghost use Rattle.mta_spool.specs.Bases.{KeepsOn};
ghost use Rattle.mta_spool.specs.Stands.{TellsFewer};
ghost use Rattle.mta_session.specs.declared.event.Event.TheVariants as events;
ghost use Rattle.mta_worker.specs.Told.{TellsLine};
ghost use Rattle.mta_worker.specs.Answers.{Answered, Refuses};

use crate::line::line_of;
use mta_edge::{Clock, Disk};
use mta_records::StepFault;
use mta_session::{Ask, Reply};
use mta_spool::Spool;
use std::alloc::Global;

// The peer refused an activity; a kind of fault that there is not is none of a step.
fn refused<D: Disk + Drop, C: Clock + Drop>(
    spool: &mut Spool<D, C>,
    lane: u32,
    generation: u64,
    activity: u32,
    kind: u8,
) -> Result<(), StepFault>
    ensures refuses { Refuses D.model C.model lane generation activity kind spool.old result spool.new }
    ensures keeps { KeepsOn D.model C.model spool.old spool.new }
    ensures clock { TellsFewer C.model spool.old.clock spool.new.clock }
{
    if kind < 1 || kind > 12 {
        return Err(StepFault::Unexpected);
    }
    spool.refused(lane, generation, activity, kind)
}

/// Makes the one call that a question names, and gives its result. Want of memory stands inside the answer.
pub fn answer<D: Disk + Drop, C: Clock + Drop>(
    alloc: Global,
    spool: &mut Spool<D, C>,
    ask: Ask,
) -> Reply
    ensures answered { Answered D.model C.model ask spool.old result spool.new }
    ensures line { TellsLine (events.Reply result) }
    ensures keeps { KeepsOn D.model C.model spool.old spool.new }
    ensures grows { Grows spool.old.entries spool.new.entries }
    ensures clock { TellsFewer C.model spool.old.clock spool.new.clock }
{
    match ask {
        Ask::BatchFor { peer } => Reply::BatchFor(spool.batch_for(&peer)),
        Ask::LaneOpen {
            role,
            peer,
            reference,
            twa,
            checkpoint,
            window,
        } => Reply::LaneOpen(spool.lane_open(role, &peer, reference, twa, checkpoint, window)),
        Ask::LaneAgree {
            lane,
            generation,
            checkpoint,
            window,
        } => Reply::LaneAgree(spool.lane_agree(lane, generation, checkpoint, window)),
        Ask::Bind { lane } => Reply::Bind(spool.bind(lane)),
        Ask::Start {
            lane,
            generation,
            batch,
        } => Reply::Start(spool.start(lane, generation, &batch)),
        Ask::Confirm {
            lane,
            generation,
            activity,
            number,
        } => Reply::Confirm(spool.confirm(lane, generation, activity, number)),
        Ask::Ending {
            lane,
            generation,
            activity,
        } => Reply::Ending(spool.ending(lane, generation, activity)),
        Ask::Sent {
            lane,
            generation,
            activity,
        } => Reply::Sent(spool.sent(lane, generation, activity)),
        Ask::Dropped {
            lane,
            generation,
            activity,
        } => Reply::Dropped(spool.dropped(lane, generation, activity)),
        Ask::Denied {
            lane,
            generation,
            activity,
        } => Reply::Denied(spool.denied(lane, generation, activity)),
        Ask::Refused {
            lane,
            generation,
            activity,
            kind,
        } => Reply::Refused(refused(spool, lane, generation, activity, kind)),
        Ask::Secure {
            lane,
            generation,
            activity,
            number,
            piece,
        } => Reply::Secure(spool.secure_octets(lane, generation, activity, number, piece)),
        Ask::Complete {
            lane,
            generation,
            activity,
            number,
            piece,
        } => Reply::Complete(spool.complete_octets(lane, generation, activity, number, piece)),
        Ask::DropActivity {
            lane,
            generation,
            activity,
        } => Reply::DropActivity(spool.drop_activity(lane, generation, activity)),
        Ask::CloseLane { lane, generation } => Reply::CloseLane(spool.close_lane(lane, generation)),
        Ask::Resumed { lane } => Reply::Resumed(spool.resumed(lane)),
        Ask::LaneOf {
            role,
            peer,
            reference,
        } => Reply::LaneOf(spool.lane_of(role, &peer, reference.as_ref())),
        Ask::Recovery { lane } => Reply::Recovery(spool.recovery(lane)),
        Ask::Receiving { lane } => Reply::Receiving(spool.receiving(lane)),
        Ask::Values { lane } => Reply::Values(spool.values(lane)),
        Ask::SpareLane { role, peer } => Reply::SpareLane(spool.spare_lane(role, &peer)),
        Ask::Peer(name) => Reply::Peer(line_of(alloc, spool, name.as_slice())),
    }
}

//! What the spool answers: as it holds it, that there is none, or that a step is refused.

use crate::sessions::held::Held;
use crate::sessions::made::{batch, outgoing, word};
use crate::sessions::row::Row;
use mta_ber::{Fault, Kind, Memory, Octets};
use mta_records::{CompleteFault, LaneValues, StepFault};
use mta_session::{Ask, Peer, Reply};
use std::alloc::Global;

fn values(held: Held) -> LaneValues {
    LaneValues {
        checkpoint: 4,
        window: held.window,
        twa: held.twa,
        agreed: true,
    }
}

fn line(alloc: Global, held: Held) -> Result<Peer, Memory> {
    Ok(Peer {
        name: word(alloc, b"EAST")?,
        send_password: Octets::from_slice(alloc, b"pw")?,
        expected_password: Octets::from_slice(alloc, b"pq")?,
        twa: held.twa,
        checkpoint: 4,
        window: 3,
    })
}

/// What a look tells.
fn looked(alloc: Global, held: Held, ask: &Ask) -> Result<Reply, Memory> {
    Ok(match ask {
        Ask::LaneOf { .. } => Reply::LaneOf(Some(1)),
        Ask::SpareLane { .. } => Reply::SpareLane(Some((9, 3))),
        Ask::Recovery { .. } => Reply::Recovery(Some(held.state)),
        Ask::Receiving { .. } => Reply::Receiving(Some(held.received)),
        Ask::Values { .. } => Reply::Values(Some(values(held))),
        Ask::Resumed { .. } => Reply::Resumed(Ok(Some(outgoing(alloc, 1, held.octets)?))),
        Ask::BatchFor { .. } => Reply::BatchFor(Ok(Some(batch(alloc)?))),
        _ => Reply::Peer(Ok(Some(line(alloc, held)?))),
    })
}

/// A step of the receiving half, or one that closes the lane, is made.
fn received(alloc: Global, held: Held, ask: &Ask) -> Result<Reply, Memory> {
    Ok(match ask {
        Ask::Secure { .. } => Reply::Secure(Ok(())),
        Ask::Complete { .. } => Reply::Complete(Ok(1)),
        Ask::DropActivity { .. } => Reply::DropActivity(Ok(())),
        Ask::CloseLane { .. } => Reply::CloseLane(Ok(())),
        other => looked(alloc, held, other)?,
    })
}

/// A step of the sending half is made.
fn sent(alloc: Global, held: Held, ask: &Ask) -> Result<Reply, Memory> {
    Ok(match ask {
        Ask::Start { .. } => Reply::Start(Ok(outgoing(alloc, held.next, held.octets)?)),
        Ask::Confirm { .. } => Reply::Confirm(Ok(())),
        Ask::Ending { .. } => Reply::Ending(Ok(())),
        Ask::Sent { .. } => Reply::Sent(Ok(())),
        Ask::Dropped { .. } => Reply::Dropped(Ok(())),
        Ask::Denied { .. } => Reply::Denied(Ok(())),
        Ask::Refused { .. } => Reply::Refused(Ok(())),
        other => received(alloc, held, other)?,
    })
}

/// A step that opens the lane is made.
fn told(alloc: Global, held: Held, ask: &Ask) -> Result<Reply, Memory> {
    Ok(match ask {
        Ask::LaneOpen { .. } => Reply::LaneOpen(Ok(1)),
        Ask::LaneAgree { .. } => Reply::LaneAgree(Ok(())),
        Ask::Bind { .. } => Reply::Bind(Ok(2)),
        other => sent(alloc, held, other)?,
    })
}

/// There is none.
fn none(ask: &Ask) -> Reply {
    match ask {
        Ask::LaneOf { .. } => Reply::LaneOf(None),
        Ask::SpareLane { .. } => Reply::SpareLane(None),
        Ask::Recovery { .. } => Reply::Recovery(None),
        Ask::BatchFor { .. } => Reply::BatchFor(Ok(None)),
        _ => Reply::Peer(Ok(None)),
    }
}

fn fault(row: Row<'_>) -> StepFault {
    match row.first {
        "Full" => StepFault::Full { size: 9, need: 9 },
        "Fenced" => StepFault::Fenced { generation: 2 },
        "NoLane" => StepFault::NoLane { lane: 1 },
        "BusyLanes" => StepFault::BusyLanes { count: 64 },
        _ => StepFault::Unexpected,
    }
}

/// The step is refused.
fn refused(ask: &Ask, fault: StepFault) -> Reply {
    match ask {
        Ask::LaneOpen { .. } => Reply::LaneOpen(Err(fault)),
        Ask::Bind { .. } => Reply::Bind(Err(fault)),
        Ask::Start { .. } => Reply::Start(Err(fault)),
        Ask::Confirm { .. } => Reply::Confirm(Err(fault)),
        Ask::Secure { .. } => Reply::Secure(Err(CompleteFault::Step(fault))),
        Ask::Complete { .. } => Reply::Complete(Err(CompleteFault::Step(fault))),
        _ => Reply::CloseLane(Err(fault)),
    }
}

/// The octets are those of no APDU.
fn faulty(ask: &Ask, row: Row<'_>) -> Reply {
    let kind = if row.first == "TooLong" {
        Kind::TooLong
    } else {
        Kind::BadTag
    };
    let fault = CompleteFault::Bad(Fault { at: row.b, kind });
    match ask {
        Ask::Secure { .. } => Reply::Secure(Err(fault)),
        _ => Reply::Complete(Err(fault)),
    }
}

/// The answer to this question that the row names.
pub fn answer(alloc: Global, held: Held, ask: &Ask, row: Row<'_>) -> Result<Reply, Memory> {
    match row.word {
        "none" => Ok(none(ask)),
        "refused" => Ok(refused(ask, fault(row))),
        "faulty" => Ok(faulty(ask, row)),
        _ => told(alloc, held, ask),
    }
}

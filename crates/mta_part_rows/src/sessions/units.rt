//! Units that come, by their names.

use crate::sessions::held::Held;
use crate::sessions::made::{octets, reference, word};
use crate::sessions::row::Row;
use mta_ber::{Memory, Octets};
use mta_units::{Answer, OpenUnit, Request, Unit};
use std::alloc::Global;

/// The peer is EAST, and has to show the password pq.
fn bind(alloc: Global, password: &[u8]) -> Result<Request, Memory> {
    Ok(Request::Bind {
        name: word(alloc, b"EAST")?,
        password: Octets::from_slice(alloc, password)?,
    })
}

fn request(alloc: Global, name: &str) -> Result<Request, Memory> {
    match name {
        "Bind" => bind(alloc, b"pq"),
        "BadBind" => bind(alloc, b"px"),
        "Recover" => Ok(Request::Recover(reference(alloc)?)),
        _ => Ok(Request::Null),
    }
}

/// Two-way alternate dialogue is asked for where that is said, or the lane has it.
fn open(alloc: Global, held: Held, row: Row<'_>) -> Result<Unit, Memory> {
    Ok(Unit::Open(OpenUnit {
        name: word(alloc, b"EAST")?,
        reference: reference(alloc)?,
        checkpoint: 4,
        window: held.window,
        twa: row.second == "two-way",
        request: request(alloc, row.first)?,
    }))
}

/// The peer of an initiator is GOLD-1, and has to show the password pw.
fn accept(alloc: Global, row: Row<'_>) -> Result<Unit, Memory> {
    Ok(Unit::Accept {
        checkpoint: row.a,
        window: row.b,
        answer: Answer::Bind {
            name: word(alloc, b"GOLD-1")?,
            password: Octets::from_slice(alloc, b"pw")?,
        },
    })
}

fn accept_again(alloc: Global, row: Row<'_>) -> Result<Unit, Memory> {
    Ok(Unit::Accept {
        checkpoint: row.a,
        window: row.b,
        answer: Answer::Recover(reference(alloc)?),
    })
}

/// A unit of a transfer.
fn transferred(alloc: Global, row: Row<'_>) -> Result<Option<Unit>, Memory> {
    Ok(Some(match row.word {
        "Piece" => Unit::Piece(octets(alloc, row.a)?),
        "Start" => Unit::Start { activity: row.a },
        "Sync" => Unit::Sync { number: row.a },
        "End" => Unit::End { activity: row.a },
        "Resume" => Unit::Resume {
            activity: row.a,
            number: row.b,
        },
        "Discard" => Unit::Discard { activity: row.a },
        _ => return Ok(None),
    }))
}

/// A unit that answers one.
fn answering(row: Row<'_>) -> Option<Unit> {
    Some(match row.word {
        "SyncAck" => Unit::SyncAck { number: row.a },
        "EndAck" => Unit::EndAck { activity: row.a },
        "ResumeAck" => Unit::ResumeAck {
            activity: row.a,
            number: row.b,
        },
        "DiscardAck" => Unit::DiscardAck { activity: row.a },
        "Exception" => Unit::Exception { kind: 3, at: row.b },
        "Reject" => Unit::Reject { reason: row.a },
        "Abort" => Unit::Abort { reason: row.a },
        _ => return None,
    })
}

/// A unit of the turn or of the closing.
fn turning(row: Row<'_>) -> Option<Unit> {
    Some(match row.word {
        "Please" => Unit::Please { priority: 0 },
        "Give" => Unit::Give,
        "Close" => Unit::Close,
        "CloseAck" => Unit::CloseAck,
        _ => return None,
    })
}

fn further(alloc: Global, row: Row<'_>) -> Result<Option<Unit>, Memory> {
    if let Some(unit) = transferred(alloc, row)? {
        return Ok(Some(unit));
    }
    if let Some(unit) = answering(row) {
        return Ok(Some(unit));
    }
    Ok(turning(row))
}

/// The unit that the row names.
pub fn unit(alloc: Global, held: Held, row: Row<'_>) -> Result<Option<Unit>, Memory> {
    match row.word {
        "Open" => Ok(Some(open(alloc, held, row)?)),
        "Accept" => Ok(Some(accept(alloc, row)?)),
        "AcceptAgain" => Ok(Some(accept_again(alloc, row)?)),
        _ => further(alloc, row),
    }
}

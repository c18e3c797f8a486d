//! Units as texts.

use mta_units::{Answer, Reference, Request, Unit};
use std::alloc::{AllocError, Global};

/// A unit as its name and its numbers; of octets and names their counts.
pub fn told(alloc: Global, unit: &Unit) -> Result<String, AllocError> {
    match unit {
        Unit::Open(o) => {
            let name = o.name.as_slice().len();
            let calling = o.reference.calling().len();
            let common = o.reference.common();
            let more = match o.reference.additional() {
                None => 0,
                Some(octets) => octets.len() % 1_000_000 + 1,
            };
            let (checkpoint, window, twa) = (o.checkpoint, o.window, o.twa);
            let request = asked(alloc, &o.request)?;
            let request = request.as_str();
            format!(in alloc;
                "open {name} {calling} {common} {more} {checkpoint} {window} {twa} {request}"
            )
        }
        Unit::Accept {
            checkpoint,
            window,
            answer,
        } => {
            let answer = answered(alloc, answer)?;
            let answer = answer.as_str();
            format!(in alloc; "accept {checkpoint} {window} {answer}")
        }
        Unit::Reject { reason } => format!(in alloc; "reject {reason}"),
        Unit::Start { activity } => format!(in alloc; "start {activity}"),
        Unit::Piece(octets) => {
            let octets = octets.as_slice();
            format!(in alloc; "piece {octets:?}")
        }
        Unit::Sync { number } => format!(in alloc; "sync {number}"),
        Unit::SyncAck { number } => format!(in alloc; "sync-ack {number}"),
        Unit::End { activity } => format!(in alloc; "end {activity}"),
        Unit::EndAck { activity } => format!(in alloc; "end-ack {activity}"),
        _ => told_more(alloc, unit),
    }
}

fn told_more(alloc: Global, unit: &Unit) -> Result<String, AllocError> {
    match unit {
        Unit::Resume { activity, number } => format!(in alloc; "resume {activity} {number}"),
        Unit::ResumeAck { activity, number } => format!(in alloc; "resume-ack {activity} {number}"),
        Unit::Discard { activity } => format!(in alloc; "discard {activity}"),
        Unit::DiscardAck { activity } => format!(in alloc; "discard-ack {activity}"),
        Unit::Please { priority } => format!(in alloc; "please {priority}"),
        Unit::Give => format!(in alloc; "give"),
        Unit::Exception { kind, at } => format!(in alloc; "exception {kind} {at}"),
        Unit::Abort { reason } => format!(in alloc; "abort {reason}"),
        Unit::Close => format!(in alloc; "close"),
        _ => format!(in alloc; "close-ack"),
    }
}

fn named(alloc: Global, name: &[u8], password: &[u8]) -> Result<String, AllocError> {
    format!(in alloc; "bind {name:?} {password:?}")
}

fn recovered(alloc: Global, reference: &Reference) -> Result<String, AllocError> {
    let calling = reference.calling();
    let common = reference.common();
    format!(in alloc; "recover {calling:?} {common}")
}

fn asked(alloc: Global, request: &Request) -> Result<String, AllocError> {
    match request {
        Request::Null => format!(in alloc; "null"),
        Request::Bind { name, password } => named(alloc, name.as_slice(), password.as_slice()),
        Request::Recover(reference) => recovered(alloc, reference),
    }
}

fn answered(alloc: Global, answer: &Answer) -> Result<String, AllocError> {
    match answer {
        Answer::Bind { name, password } => named(alloc, name.as_slice(), password.as_slice()),
        Answer::Recover(reference) => recovered(alloc, reference),
    }
}

//! Questions to the spool, as texts.

use mta_ber::Octets;
use mta_session::Ask;
use std::alloc::{AllocError, Global};

/// Values, and whether two-way alternate dialogue is among them.
fn values_text(
    alloc: Global,
    checkpoint: u32,
    window: u32,
    twa: bool,
) -> Result<String, AllocError> {
    format!(in alloc; ": LaneOpen {checkpoint} {window} {twa}?")
}

/// A name with one number, or with two.
fn one(alloc: Global, name: &str, a: u32) -> Result<String, AllocError> {
    format!(in alloc; ": {name} {a}?")
}

fn two(alloc: Global, name: &str, a: u32, b: u64) -> Result<String, AllocError> {
    format!(in alloc; ": {name} {a} {b}?")
}

/// An activity, a number and the count of octets.
fn piece_text(
    alloc: Global,
    name: &str,
    activity: u32,
    number: u32,
    piece: &Octets,
) -> Result<String, AllocError> {
    let count = piece.len();
    format!(in alloc; ": {name} {activity} {number} {count}?")
}

fn look_text(alloc: Global, ask: &Ask) -> Result<String, AllocError> {
    match ask {
        Ask::BatchFor { .. } => String::from_str(alloc, ": BatchFor?"),
        Ask::Resumed { .. } => String::from_str(alloc, ": Resumed?"),
        Ask::LaneOf { .. } => String::from_str(alloc, ": LaneOf?"),
        Ask::Recovery { .. } => String::from_str(alloc, ": Recovery?"),
        Ask::Receiving { .. } => String::from_str(alloc, ": Receiving?"),
        Ask::Values { .. } => String::from_str(alloc, ": Values?"),
        Ask::SpareLane { .. } => String::from_str(alloc, ": SpareLane?"),
        _ => String::from_str(alloc, ": Peer?"),
    }
}

/// A step of the receiving half.
fn received_text(alloc: Global, ask: &Ask) -> Result<String, AllocError> {
    match ask {
        Ask::Secure {
            activity,
            number,
            piece,
            ..
        } => piece_text(alloc, "Secure", *activity, *number, piece),
        Ask::Complete {
            activity,
            number,
            piece,
            ..
        } => piece_text(alloc, "Complete", *activity, *number, piece),
        Ask::DropActivity { activity, .. } => one(alloc, "DropActivity", *activity),
        _ => look_text(alloc, ask),
    }
}

/// A step of the sending half.
fn sent_text(alloc: Global, ask: &Ask) -> Result<String, AllocError> {
    match ask {
        Ask::Start { .. } => String::from_str(alloc, ": Start?"),
        Ask::Confirm {
            activity,
            number,
            ..
        } => two(alloc, "Confirm", *activity, u64::from(*number)),
        Ask::Ending { activity, .. } => one(alloc, "Ending", *activity),
        Ask::Sent { activity, .. } => one(alloc, "Sent", *activity),
        Ask::Dropped { activity, .. } => one(alloc, "Dropped", *activity),
        Ask::Denied { activity, .. } => one(alloc, "Denied", *activity),
        Ask::Refused { activity, kind, .. } => two(alloc, "Refused", *activity, u64::from(*kind)),
        _ => received_text(alloc, ask),
    }
}

/// A question as the name of its call and its numbers, without lane and generation but where it is about nothing else.
pub fn ask_text(alloc: Global, ask: &Ask) -> Result<String, AllocError> {
    match ask {
        Ask::LaneOpen {
            twa,
            checkpoint,
            window,
            ..
        } => values_text(alloc, *checkpoint, *window, *twa),
        Ask::LaneAgree {
            checkpoint,
            window,
            ..
        } => two(alloc, "LaneAgree", *checkpoint, u64::from(*window)),
        Ask::CloseLane { lane, generation } => two(alloc, "CloseLane", *lane, *generation),
        Ask::Bind { lane } => one(alloc, "Bind", *lane),
        _ => sent_text(alloc, ask),
    }
}

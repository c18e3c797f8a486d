//! What a session wants done, as texts.

use crate::sessions::asks::ask_text;
use mta_session::Action;
use mta_units::{Answer, OpenUnit, Request, Unit};
use std::alloc::{AllocError, Global};

fn request_text(request: &Request) -> &'static str {
    match request {
        Request::Null => "null",
        Request::Bind { .. } => "bind",
        Request::Recover(_) => "recover",
    }
}

fn answer_text(answer: &Answer) -> &'static str {
    match answer {
        Answer::Bind { .. } => "bind",
        Answer::Recover(_) => "recover",
    }
}

fn open_text(alloc: Global, open: &OpenUnit) -> Result<String, AllocError> {
    let (checkpoint, window, twa) = (open.checkpoint, open.window, open.twa);
    let request = request_text(&open.request);
    format!(in alloc; ": Open {checkpoint} {window} {twa} {request}")
}

/// A name with one number, or with two.
fn one(alloc: Global, name: &str, a: u32) -> Result<String, AllocError> {
    format!(in alloc; ": {name} {a}")
}

fn two(alloc: Global, name: &str, a: u32, b: u32) -> Result<String, AllocError> {
    format!(in alloc; ": {name} {a} {b}")
}

/// A unit of the own transfer.
fn transferred_text(alloc: Global, unit: &Unit) -> Result<String, AllocError> {
    match unit {
        Unit::Piece(octets) => one(alloc, "Piece", (octets.len() % 10_000_000) as u32),
        Unit::Start { activity } => one(alloc, "Start", *activity),
        Unit::Sync { number } => one(alloc, "Sync", *number),
        Unit::End { activity } => one(alloc, "End", *activity),
        Unit::Resume { activity, number } => two(alloc, "Resume", *activity, *number),
        Unit::Discard { activity } => one(alloc, "Discard", *activity),
        _ => turning_text(alloc, unit),
    }
}

fn turning_text(alloc: Global, unit: &Unit) -> Result<String, AllocError> {
    match unit {
        Unit::Please { priority } => one(alloc, "Please", *priority),
        Unit::Give => String::from_str(alloc, ": Give"),
        Unit::Close => String::from_str(alloc, ": Close"),
        _ => String::from_str(alloc, ": CloseAck"),
    }
}

/// A unit that answers one.
fn answering_text(alloc: Global, unit: &Unit) -> Result<String, AllocError> {
    match unit {
        Unit::SyncAck { number } => one(alloc, "SyncAck", *number),
        Unit::EndAck { activity } => one(alloc, "EndAck", *activity),
        Unit::ResumeAck { activity, number } => two(alloc, "ResumeAck", *activity, *number),
        Unit::DiscardAck { activity } => one(alloc, "DiscardAck", *activity),
        Unit::Exception { kind, at } => two(alloc, "Exception", u32::from(*kind), *at),
        Unit::Abort { reason } => one(alloc, "Abort", *reason),
        Unit::Reject { reason } => one(alloc, "Reject", *reason),
        _ => transferred_text(alloc, unit),
    }
}

/// A unit as its name and its numbers; of a piece the count of its octets.
fn unit_text(alloc: Global, unit: &Unit) -> Result<String, AllocError> {
    match unit {
        Unit::Open(open) => open_text(alloc, open),
        Unit::Accept {
            checkpoint,
            window,
            answer,
        } => {
            let (checkpoint, window, answer) = (*checkpoint, *window, answer_text(answer));
            format!(in alloc; ": Accept {checkpoint} {window} {answer}")
        }
        _ => answering_text(alloc, unit),
    }
}

/// An action as a text.
pub fn action_text(alloc: Global, action: &Action) -> Result<String, AllocError> {
    match action {
        Action::Put(unit) => unit_text(alloc, unit),
        Action::Ask(ask) => ask_text(alloc, ask),
        Action::Read => String::from_str(alloc, ": read"),
        Action::Finish(end) => format!(in alloc; ": {end:?}"),
    }
}

//! A unit that may be written is one that is read again once it is written.
//!
//! Its numbers are in the ranges of their types, and each of its references is one.

ghost use Rattle.std.specs.Prelude.{◌<◌, ◌^◌};
ghost use Rattle.mta_rtse.specs.Canon.{IsReadAgain, IsWritableRequest};
ghost use Rattle.mta_rtse.specs.Spelling.{request_of};
ghost use Rattle.mta_units.specs.Canon.{IsOpenUnit, IsUnit, IsWritable, IsWritableOpen};

use mta_units::{Answer, OpenUnit, Request, Unit};

// What an initiator asks for.
fn request(request: &Request)
    requires { IsWritableRequest request.now }
    ensures { IsReadAgain request.now }
{
    match request {
        Request::Null | Request::Bind { .. } => {}
        Request::Recover(reference) => {
            let _common = reference.common();
        }
    }
}

// What a responder answers.
fn answer(answer: &Answer)
    requires { IsWritableRequest (request_of answer.now) }
    ensures { IsReadAgain (request_of answer.now) }
{
    match answer {
        Answer::Bind { .. } => {}
        Answer::Recover(reference) => {
            let _common = reference.common();
        }
    }
}

// What opens a link.
fn opening(opening: &OpenUnit)
    requires { IsWritableOpen opening.now }
    ensures { IsOpenUnit opening.now }
{
    let _common = opening.reference.common();
    let _checkpoint = opening.checkpoint;
    let _window = opening.window;
    request(&opening.request);
}

// A number is in the range of its type.
fn number(number: &u32)
    ensures { number.now < 2 ^ 32 }
{
    let _number = *number;
}

/// A unit that may be written is one that is read again.
pub(crate) fn is_read_again(unit: &Unit)
    requires { IsWritable unit.now }
    ensures { IsUnit unit.now }
{
    match unit {
        Unit::Open(open) => opening(open),
        Unit::Accept {
            checkpoint,
            window,
            answer: given,
        } => {
            number(checkpoint);
            number(window);
            answer(given);
        }
        Unit::Reject { reason } | Unit::Abort { reason } => number(reason),
        Unit::Start { activity }
        | Unit::End { activity }
        | Unit::EndAck { activity }
        | Unit::Discard { activity }
        | Unit::DiscardAck { activity } => number(activity),
        Unit::Sync { number: of } | Unit::SyncAck { number: of } => number(of),
        Unit::Resume {
            activity,
            number: of,
        }
        | Unit::ResumeAck {
            activity,
            number: of,
        } => {
            number(activity);
            number(of);
        }
        Unit::Please { priority } => number(priority),
        Unit::Exception { at, .. } => number(at),
        Unit::Piece(_) | Unit::Give | Unit::Close | Unit::CloseAck => {}
    }
}

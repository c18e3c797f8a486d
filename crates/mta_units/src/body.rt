//! Bodies of units.

ghost use Rattle.std.specs.Prelude.{◌≡◌, ◌<◌, ◌^◌, true, length};
ghost use Rattle.mta_ber.specs.Parts.{Reads};
ghost use Rattle.mta_ber.specs.Seen.{view};
ghost use Rattle.mta_units.specs.Kind.{is_fixed};
ghost use Rattle.mta_units.specs.Body.{tagged, ended, only_in, name_in, tagged_reference_in, open_in};
ghost use Rattle.mta_units.specs.Body.{accept_in, reject_in, rttr_in, piece_in, rttp_in, please_in};
ghost use Rattle.mta_units.specs.Body.{abort_in, fixed_in, other_in, body_in, TookNone};
ghost use Rattle.mta_rtse.specs.Request.{rtorq_in};

use crate::fixed::{bad_size, read_exception, read_nothing, read_number, read_pair};
use crate::kind::UnitKind;
use crate::unit::{OpenUnit, Unit};
use mta_ber::{Fault, Kind, Octets, ReadFault, View, Word, is_tag_of};
use mta_records::Reference;
use mta_rtse as rtse;
use mta_rtse::OpenRequest;
use std::alloc::Global;

/// That an element has this tag, whatever its form.
fn check_tag(element: &View, class: u8, number: u32) -> Result<(), Fault>
    ensures { result ≡ tagged class number (view element.now) }
{
    if is_tag_of(element.tag, class, number) {
        Ok(())
    } else {
        Err(Fault {
            at: element.at,
            kind: Kind::BadTag,
        })
    }
}

/// That nothing follows an element.
fn check_end(element: &View) -> Result<(), Fault>
    ensures { result ≡ ended (view element.now) }
{
    if element.rest.is_empty() {
        Ok(())
    } else {
        Err(Fault {
            at: element.at,
            kind: Kind::Trailing,
        })
    }
}

#[tactic(auto, unfolding(crate::specs::Body::name_in))]
fn read_name(alloc: Global, element: &View) -> Result<Word, ReadFault>
    ensures { Reads result (name_in (view element.now)) }
{
    check_tag(element, 0, 22)?;
    rtse::read_word(alloc, element)
}

#[tactic(auto, unfolding(crate::specs::Body::tagged_reference_in))]
fn read_tagged_reference(alloc: Global, element: &View) -> Result<Reference, ReadFault>
    ensures { Reads result (tagged_reference_in (view element.now)) }
{
    check_tag(element, 0, 16)?;
    rtse::read_reference(alloc, element)
}

fn read_only_request(alloc: Global, body: &[u8]) -> Result<OpenRequest, ReadFault>
    requires { length body.now < 2 ^ 32 }
    ensures { Reads result (only_in rtorq_in body.now) }
{
    let element = View::first(body, 0)?;
    let request = rtse::read_request(alloc, &element)?;
    check_end(&element)?;
    Ok(request)
}

/// A name, a reference and RTORQ, one behind the other.
#[tactic(auto, unfolding(crate::specs::Body::open_in))]
fn read_open(alloc: Global, body: &[u8]) -> Result<Unit, ReadFault>
    requires { length body.now < 2 ^ 32 }
    ensures { Reads result (open_in body.now) }
{
    let first = View::first(body, 0)?;
    let name = read_name(alloc, &first)?;
    let second = View::first(first.rest, 0)?;
    let reference = read_tagged_reference(alloc, &second)?;
    let request = read_only_request(alloc, second.rest)?;
    let OpenRequest {
        checkpoint,
        window,
        twa,
        request,
    } = request;
    Ok(Unit::Open(OpenUnit {
        name,
        reference,
        checkpoint,
        window,
        twa,
        request,
    }))
}

#[tactic(auto, unfolding(crate::specs::Body::accept_in))]
fn read_accept(alloc: Global, body: &[u8]) -> Result<Unit, ReadFault>
    requires { length body.now < 2 ^ 32 }
    ensures { Reads result (accept_in body.now) }
{
    let element = View::first(body, 0)?;
    let answer = rtse::read_answer(alloc, &element)?;
    check_end(&element)?;
    Ok(Unit::Accept {
        checkpoint: answer.checkpoint,
        window: answer.window,
        answer: answer.answer,
    })
}

#[tactic(auto, unfolding(crate::specs::Body::reject_in))]
fn read_reject(alloc: Global, body: &[u8]) -> Result<Unit, ReadFault>
    requires { length body.now < 2 ^ 32 }
    ensures { Reads result (reject_in body.now) }
{
    let element = View::first(body, 0)?;
    let reason = rtse::read_refusal(alloc, &element)?;
    check_end(&element)?;
    Ok(Unit::Reject { reason })
}

/// RTTR, OCTET STRING.
#[tactic(auto, unfolding(crate::specs::Body::rttr_in))]
fn read_octets(alloc: Global, element: &View) -> Result<Octets, ReadFault>
    ensures { Reads result (rttr_in (view element.now)) }
{
    check_tag(element, 0, 4)?;
    element.joined(alloc)
}

#[tactic(auto, unfolding(crate::specs::Body::piece_in))]
fn read_piece(alloc: Global, body: &[u8]) -> Result<Unit, ReadFault>
    requires { length body.now < 2 ^ 32 }
    ensures { Reads result (piece_in body.now) }
{
    let element = View::first(body, 0)?;
    let octets = read_octets(alloc, &element)?;
    check_end(&element)?;
    Ok(Unit::Piece(octets))
}

/// RTTP, INTEGER.
#[tactic(auto, unfolding(crate::specs::Body::rttp_in))]
fn read_priority(element: &View) -> Result<u32, Fault>
    ensures { result ≡ rttp_in (view element.now) }
{
    check_tag(element, 0, 2)?;
    rtse::read_number(element)
}

#[tactic(auto, unfolding(crate::specs::Body::please_in))]
fn read_please(body: &[u8]) -> Result<Unit, Fault>
    requires { length body.now < 2 ^ 32 }
    ensures { result ≡ please_in body.now }
{
    let element = View::first(body, 0)?;
    let priority = read_priority(&element)?;
    check_end(&element)?;
    Ok(Unit::Please { priority })
}

#[tactic(auto, unfolding(crate::specs::Body::abort_in))]
fn read_abort(alloc: Global, body: &[u8]) -> Result<Unit, ReadFault>
    requires { length body.now < 2 ^ 32 }
    ensures { Reads result (abort_in body.now) }
{
    let element = View::first(body, 0)?;
    let reason = rtse::read_abort(alloc, &element)?;
    check_end(&element)?;
    Ok(Unit::Abort { reason })
}

/// A body of two numbers, of a fault, or of nothing.
#[tactic(auto, unfolding(crate::specs::Body::other_in))]
fn read_other(kind: UnitKind, body: &[u8]) -> Result<Unit, Fault>
    ensures { result ≡ other_in kind body.now }
{
    match kind {
        UnitKind::Resume => {
            let (activity, number) = read_pair(body)?;
            Ok(Unit::Resume { activity, number })
        }
        UnitKind::ResumeAck => {
            let (activity, number) = read_pair(body)?;
            Ok(Unit::ResumeAck { activity, number })
        }
        UnitKind::Exception => {
            let (kind, at) = read_exception(body)?;
            Ok(Unit::Exception { kind, at })
        }
        UnitKind::Give => {
            read_nothing(body)?;
            Ok(Unit::Give)
        }
        UnitKind::Close => {
            read_nothing(body)?;
            Ok(Unit::Close)
        }
        UnitKind::CloseAck => {
            read_nothing(body)?;
            Ok(Unit::CloseAck)
        }
        _ => bad_size(),
    }
}

/// A body of one size.
#[tactic(auto, unfolding(crate::specs::Body::fixed_in))]
fn read_fixed(kind: UnitKind, body: &[u8]) -> Result<Unit, Fault>
    ensures { result ≡ fixed_in kind body.now }
{
    match kind {
        UnitKind::Start => {
            let activity = read_number(body)?;
            Ok(Unit::Start { activity })
        }
        UnitKind::Sync => {
            let number = read_number(body)?;
            Ok(Unit::Sync { number })
        }
        UnitKind::SyncAck => {
            let number = read_number(body)?;
            Ok(Unit::SyncAck { number })
        }
        UnitKind::End => {
            let activity = read_number(body)?;
            Ok(Unit::End { activity })
        }
        UnitKind::EndAck => {
            let activity = read_number(body)?;
            Ok(Unit::EndAck { activity })
        }
        UnitKind::Discard => {
            let activity = read_number(body)?;
            Ok(Unit::Discard { activity })
        }
        UnitKind::DiscardAck => {
            let activity = read_number(body)?;
            Ok(Unit::DiscardAck { activity })
        }
        _ => read_other(kind, body),
    }
}

/// The unit of a kind with this body. A body of one size takes no memory.
#[tactic(auto, unfolding(crate::specs::Body::body_in))]
pub fn read_body(alloc: Global, kind: UnitKind, body: &[u8]) -> Result<Unit, ReadFault>
    requires { length body.now < 2 ^ 32 }
    ensures exact { Reads result (body_in kind body.now) }
    ensures fixed { is_fixed kind ≡ true → TookNone result }
{
    match kind {
        UnitKind::Open => read_open(alloc, body),
        UnitKind::Accept => read_accept(alloc, body),
        UnitKind::Reject => read_reject(alloc, body),
        UnitKind::Piece => read_piece(alloc, body),
        UnitKind::Please => Ok(read_please(body)?),
        UnitKind::Abort => read_abort(alloc, body),
        _ => Ok(read_fixed(kind, body)?),
    }
}

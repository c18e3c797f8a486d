//! Reading connection data.

ghost use Rattle.std.specs.Prelude.{◌≡◌};
ghost use Rattle.mta_ber.specs.Parts.{Reads};
ghost use Rattle.mta_ber.specs.Seen.{view};
ghost use Rattle.mta_rtse.specs.Connection.{explicit_open_in, recover_in, connection_in};
ghost use Rattle.mta_rtse.specs.Connection.{request_in, answer_of, answer_in};

use crate::bind::read_open;
use crate::identifier::read_reference;
use crate::types::{Answer, Request};
use mta_ber::{Kind, ReadFault, View, bad, is_tag_of};
use std::alloc::Global;

#[tactic(auto, unfolding(crate::specs::Connection::explicit_open_in))]
fn read_explicit_open(alloc: Global, part: &View) -> Result<Request, ReadFault>
    ensures { Reads result (explicit_open_in (view part.now)) }
{
    let inside = part.inner()?;
    let request = read_open(alloc, &inside)?;
    inside.alone()?;
    Ok(request)
}

#[tactic(auto, unfolding(crate::specs::Connection::recover_in))]
fn read_recover(alloc: Global, part: &View) -> Result<Request, ReadFault>
    ensures { Reads result (recover_in (view part.now)) }
{
    let reference = read_reference(alloc, part)?;
    Ok(Request::Recover(reference))
}

/// Connection data (X.228): `[0]` around what an association is opened with, or under `[1]` the reference of one to
/// recover.
#[tactic(auto, unfolding(crate::specs::Connection::connection_in))]
fn read_connection(alloc: Global, part: &View) -> Result<Request, ReadFault>
    ensures { Reads result (connection_in (view part.now)) }
{
    if is_tag_of(part.tag, 2, 0) {
        read_explicit_open(alloc, part)
    } else if is_tag_of(part.tag, 2, 1) {
        read_recover(alloc, part)
    } else {
        bad(part.at, Kind::BadTag)
    }
}

/// Connection data of a request, inside an explicit tag.
#[tactic(auto, unfolding(crate::specs::Connection::request_in))]
pub fn read_request_data(alloc: Global, part: &View) -> Result<Request, ReadFault>
    ensures { Reads result (request_in (view part.now)) }
{
    let inside = part.inner()?;
    let request = read_connection(alloc, &inside)?;
    inside.alone()?;
    Ok(request)
}

/// What is said in an answer, which is not NULL.
fn answer_from(request: Request, at: u32) -> Result<Answer, ReadFault>
    ensures { Reads result (answer_of at request) }
{
    match request {
        Request::Null => bad(at, Kind::BadTag),
        Request::Bind { name, password } => Ok(Answer::Bind { name, password }),
        Request::Recover(reference) => Ok(Answer::Recover(reference)),
    }
}

/// Connection data of an answer, inside an explicit tag.
#[tactic(auto, unfolding(crate::specs::Connection::answer_in))]
pub fn read_answer_data(alloc: Global, part: &View) -> Result<Answer, ReadFault>
    ensures { Reads result (answer_in (view part.now)) }
{
    let request = read_request_data(alloc, part)?;
    answer_from(request, part.at)
}

//! Reading the bind of message transfer agents.

ghost use Rattle.std.specs.Prelude.{◌≡◌, Ok};
ghost use Rattle.mta_ber.specs.Parts.{Leaves, Reads};
ghost use Rattle.mta_ber.specs.Seen.{view};
ghost use Rattle.mta_rtse.specs.Bind.{password_in, explicit_password_in, bind_step, bind_in, null_in, open_in};

use crate::types::Request;
use crate::values::{read_octets, read_word};
use mta_ber::{
    Components, Fault, Kind, Octets, ReadFault, TextClass, View, Word, bad, is_constructed_tag,
    is_tag_of, take_parts, take_required,
};
use std::alloc::Global;

/// The most octets of a password.
const LONGEST_PASSWORD: usize = 62;

/// The components so far; `context` says whether a security context was passed over.
#[derive(Drop)]
pub struct BindParts {
    pub name: Option<Word>,
    pub password: Option<Octets>,
    pub context: bool,
}

/// A password, IA5String or OCTET STRING of at most 62 octets.
#[tactic(auto, unfolding(crate::specs::Bind::password_in))]
fn read_password(alloc: Global, part: &View) -> Result<Octets, ReadFault>
    ensures { Reads result (password_in (view part.now)) }
{
    if is_tag_of(part.tag, 0, 22) {
        let text = part.text(alloc, TextClass::Ia5, 0, LONGEST_PASSWORD as u32)?;
        Ok(text.into_octets())
    } else if is_tag_of(part.tag, 0, 4) {
        read_octets(alloc, part, LONGEST_PASSWORD)
    } else {
        bad(part.at, Kind::BadTag)
    }
}

/// A password inside an explicit tag.
#[tactic(auto, unfolding(crate::specs::Bind::explicit_password_in))]
fn read_credentials(alloc: Global, part: &View) -> Result<Octets, ReadFault>
    ensures { Reads result (explicit_password_in (view part.now)) }
{
    let inside = part.inner()?;
    let password = read_password(alloc, &inside)?;
    inside.alone()?;
    Ok(password)
}

impl Components for BindParts {
    ghost step = { bind_step };

    #[tactic(auto, unfolding(crate::specs::Bind::bind_step))]
    fn take(&mut self, alloc: Global, part: &View) -> Result<(), ReadFault> {
        if is_tag_of(part.tag, 2, 0) {
            if self.name.is_some() {
                return bad(part.at, Kind::Twice);
            }
            self.name = Some(read_word(alloc, part)?);
        } else if is_constructed_tag(part.tag, 2, 1) {
            if self.password.is_some() {
                return bad(part.at, Kind::Twice);
            }
            self.password = Some(read_credentials(alloc, part)?);
        } else if is_tag_of(part.tag, 2, 2) {
            if self.context {
                return bad(part.at, Kind::Twice);
            }
            self.context = true;
        } else {
            return bad(part.at, Kind::BadTag);
        }
        Ok(())
    }
}

/// A bind, SET of a name and credentials.
#[tactic(auto, unfolding(crate::specs::Bind::bind_in))]
fn read_bind(alloc: Global, whole: &View) -> Result<Request, ReadFault>
    ensures { Reads result (bind_in (view whole.now)) }
{
    if !whole.tag.constructed {
        return bad(whole.at, Kind::BadTag);
    }
    let mut parts = BindParts {
        name: None,
        password: None,
        context: false,
    };
    take_parts(alloc, whole, &mut parts)?;
    let BindParts {
        name,
        password,
        context: _,
    } = parts;
    let name = take_required(name, whole.at)?;
    let password = take_required(password, whole.at)?;
    Ok(Request::Bind { name, password })
}

/// NULL (X.690, 8.8).
#[tactic(auto, unfolding(crate::specs::Bind::null_in))]
fn read_null(part: &View) -> Result<Request, ReadFault>
    ensures { Reads result (null_in (view part.now)) }
{
    if part.tag.constructed {
        return bad(part.at, Kind::BadTag);
    }
    if !part.content.is_empty() {
        return bad(part.at, Kind::BadSize);
    }
    Ok(Request::Null)
}

/// What an association is opened with: NULL, or a bind under `[1]`.
#[tactic(auto, unfolding(crate::specs::Bind::open_in))]
pub fn read_open(alloc: Global, part: &View) -> Result<Request, ReadFault>
    ensures { Reads result (open_in (view part.now)) }
{
    if is_tag_of(part.tag, 0, 5) {
        read_null(part)
    } else if is_tag_of(part.tag, 2, 1) {
        read_bind(alloc, part)
    } else {
        bad(part.at, Kind::BadTag)
    }
}

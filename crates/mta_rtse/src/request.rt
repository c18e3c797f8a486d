//! Reading RTORQ.

ghost use Rattle.std.specs.Prelude.{◌≡◌, ℕ, IfOk};
ghost use Rattle.mta_ber.specs.Parts.{Leaves, Reads, IsReadAs};
ghost use Rattle.mta_rtse.specs.declared.types.OpenRequest.{OpenRequest as TheOpenRequest};
ghost use Rattle.mta_rtse.specs.Spelling.{SpellsRtorq};
ghost use Rattle.mta_ber.specs.Seen.{view};
ghost use Rattle.mta_rtse.specs.Request.{rtorq_step, rtorq_parts_in, rtorq_in};

use crate::connection::read_request_data;
use crate::types::{OpenRequest, Request};
use crate::values::{read_flag, read_number};
use mta_ber::{
    Components, Kind, ReadFault, View, bad, is_constructed_tag, is_primitive_tag, is_tag_of,
    take_parts, take_required,
};
use std::alloc::Global;

/// The window where none is given.
pub const DEFAULT_WINDOW: u32 = 3;

/// The components so far; `protocol` says whether an application protocol was passed over.
#[derive(Drop)]
pub struct RequestParts {
    pub checkpoint: Option<u32>,
    pub window: Option<u32>,
    pub twa: Option<bool>,
    pub request: Option<Request>,
    pub protocol: bool,
}

impl Components for RequestParts {
    ghost step = { rtorq_step };

    #[tactic(auto, unfolding(crate::specs::Request::rtorq_step))]
    fn take(&mut self, alloc: Global, part: &View) -> Result<(), ReadFault> {
        if is_primitive_tag(part.tag, 2, 0) {
            if self.checkpoint.is_some() {
                return bad(part.at, Kind::Twice);
            }
            self.checkpoint = Some(read_number(part)?);
        } else if is_primitive_tag(part.tag, 2, 1) {
            if self.window.is_some() {
                return bad(part.at, Kind::Twice);
            }
            self.window = Some(read_number(part)?);
        } else if is_primitive_tag(part.tag, 2, 2) {
            if self.twa.is_some() {
                return bad(part.at, Kind::Twice);
            }
            self.twa = Some(read_flag(part)?);
        } else if is_constructed_tag(part.tag, 2, 3) {
            if self.request.is_some() {
                return bad(part.at, Kind::Twice);
            }
            self.request = Some(read_request_data(alloc, part)?);
        } else if is_tag_of(part.tag, 2, 4) {
            if self.protocol {
                return bad(part.at, Kind::Twice);
            }
            self.protocol = true;
        } else {
            return bad(part.at, Kind::BadTag);
        }
        Ok(())
    }
}

/// RTORQ, `[16]` SET.
pub fn read_request(alloc: Global, whole: &View) -> Result<OpenRequest, ReadFault>
    ensures exact { Reads result (rtorq_in (view whole.now)) }

    // What is answered is spelled by the element, and what the element spells is answered.
    ensures found { IfOk result (SpellsRtorq whole.now.depth whole.now.tag whole.now.content.now whole.now.octets.now) }
    ensures only { (v : TheOpenRequest)
        → SpellsRtorq whole.now.depth whole.now.tag whole.now.content.now whole.now.octets.now v → IsReadAs result v }
{
    request_from(alloc, whole)
}

#[tactic(auto, unfolding(crate::specs::Request::rtorq_in))]
fn request_from(alloc: Global, whole: &View) -> Result<OpenRequest, ReadFault>
    ensures { Reads result (rtorq_in (view whole.now)) }
{
    if !is_tag_of(whole.tag, 2, 16) {
        return bad(whole.at, Kind::BadTag);
    }
    read_request_parts(alloc, whole)
}

#[tactic(auto, unfolding(crate::specs::Request::rtorq_parts_in))]
fn read_request_parts(alloc: Global, whole: &View) -> Result<OpenRequest, ReadFault>
    ensures { Reads result (rtorq_parts_in (view whole.now)) }
{
    if !whole.tag.constructed {
        return bad(whole.at, Kind::BadTag);
    }
    let mut parts = RequestParts {
        checkpoint: None,
        window: None,
        twa: None,
        request: None,
        protocol: false,
    };
    take_parts(alloc, whole, &mut parts)?;
    let RequestParts {
        checkpoint,
        window,
        twa,
        request,
        protocol: _,
    } = parts;
    let request = take_required(request, whole.at)?;
    Ok(OpenRequest {
        checkpoint: checkpoint.unwrap_or(0),
        window: window.unwrap_or(DEFAULT_WINDOW),
        twa: twa.unwrap_or(false),
        request,
    })
}

//! Reading RTORJ and RTAB, of which only the reason is looked at.

ghost use Rattle.std.specs.Prelude.{◌≡◌, ℕ, IfOk};
ghost use Rattle.mta_ber.specs.Parts.{Leaves, Reads, IsReadAs};
ghost use Rattle.mta_rtse.specs.Spelling.{SpellsRtorj, SpellsRtab};
ghost use Rattle.mta_ber.specs.Seen.{view};
ghost use Rattle.mta_rtse.specs.Reason.{reason_step, reason_in, rtorj_in, rtab_in};

use crate::values::read_number;
use mta_ber::{Components, Kind, ReadFault, View, bad, is_primitive_tag, is_tag_of, take_parts};
use std::alloc::Global;

/// The components so far: the reason, and whether components `[1]` and `[2]` were passed over. Only where `aborts` may
/// `[2]` stand.
#[derive(Drop)]
pub struct ReasonParts {
    pub aborts: bool,
    pub reason: Option<u32>,
    pub first: bool,
    pub second: bool,
}

impl Components for ReasonParts {
    ghost step = { reason_step };

    #[tactic(auto, unfolding(crate::specs::Reason::reason_step))]
    fn take(&mut self, _alloc: Global, part: &View) -> Result<(), ReadFault> {
        if is_primitive_tag(part.tag, 2, 0) {
            if self.reason.is_some() {
                return bad(part.at, Kind::Twice);
            }
            self.reason = Some(read_number(part)?);
        } else if is_tag_of(part.tag, 2, 1) {
            if self.first {
                return bad(part.at, Kind::Twice);
            }
            self.first = true;
        } else if self.aborts && is_tag_of(part.tag, 2, 2) {
            if self.second {
                return bad(part.at, Kind::Twice);
            }
            self.second = true;
        } else {
            return bad(part.at, Kind::BadTag);
        }
        Ok(())
    }
}

#[tactic(auto, unfolding(crate::specs::Reason::reason_in))]
fn read_reason(alloc: Global, whole: &View, aborts: bool) -> Result<u32, ReadFault>
    ensures { Reads result (reason_in aborts (view whole.now)) }
{
    if !whole.tag.constructed {
        return bad(whole.at, Kind::BadTag);
    }
    let mut parts = ReasonParts {
        aborts,
        reason: None,
        first: false,
        second: false,
    };
    take_parts(alloc, whole, &mut parts)?;
    Ok(parts.reason.unwrap_or(0))
}

/// The reason of RTORJ, `[18]` SET; 0 where it is absent.
pub fn read_refusal(alloc: Global, whole: &View) -> Result<u32, ReadFault>
    ensures exact { Reads result (rtorj_in (view whole.now)) }

    // What is answered is spelled by the element, and what the element spells is answered.
    ensures found { IfOk result (SpellsRtorj whole.now.depth whole.now.tag whole.now.content.now whole.now.octets.now) }
    ensures only { (v : ℕ) → SpellsRtorj whole.now.depth whole.now.tag whole.now.content.now whole.now.octets.now v
        → IsReadAs result v }
{
    refusal_from(alloc, whole)
}

#[tactic(auto, unfolding(crate::specs::Reason::rtorj_in))]
fn refusal_from(alloc: Global, whole: &View) -> Result<u32, ReadFault>
    ensures { Reads result (rtorj_in (view whole.now)) }
{
    if !is_tag_of(whole.tag, 2, 18) {
        return bad(whole.at, Kind::BadTag);
    }
    read_reason(alloc, whole, false)
}

/// The reason of RTAB, `[22]` SET; 0 where it is absent.
pub fn read_abort(alloc: Global, whole: &View) -> Result<u32, ReadFault>
    ensures exact { Reads result (rtab_in (view whole.now)) }

    // What is answered is spelled by the element, and what the element spells is answered.
    ensures found { IfOk result (SpellsRtab whole.now.depth whole.now.tag whole.now.content.now whole.now.octets.now) }
    ensures only { (v : ℕ) → SpellsRtab whole.now.depth whole.now.tag whole.now.content.now whole.now.octets.now v
        → IsReadAs result v }
{
    abort_from(alloc, whole)
}

#[tactic(auto, unfolding(crate::specs::Reason::rtab_in))]
fn abort_from(alloc: Global, whole: &View) -> Result<u32, ReadFault>
    ensures { Reads result (rtab_in (view whole.now)) }
{
    if !is_tag_of(whole.tag, 2, 22) {
        return bad(whole.at, Kind::BadTag);
    }
    read_reason(alloc, whole, true)
}

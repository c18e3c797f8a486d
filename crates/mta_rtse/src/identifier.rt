//! Reading session connection identifiers.

ghost use Rattle.std.specs.Prelude.{◌≡◌, ℕ, IfOk};
ghost use Rattle.mta_ber.specs.Parts.{Leaves, Reads, IsReadAs};
ghost use Rattle.mta_records.specs.Reference.{Identifier};
ghost use Rattle.mta_rtse.specs.Spelling.{SpellsReference};
ghost use Rattle.mta_ber.specs.Seen.{view};
ghost use Rattle.mta_rtse.specs.Identifier.{reference_step, reference_in};

use crate::values::read_octets;
use mta_ber::{
    Components, Kind, Octets, ReadFault, View, bad, check_order, is_tag_of, take_parts,
    take_required,
};
use mta_records::Reference;
use std::alloc::Global;

/// The most octets of the calling and of the additional reference.
const LONGEST_REFERENCE: usize = 1024;

/// The components so far, and the place of the last one.
#[derive(Drop)]
pub struct ReferenceParts {
    pub last: u8,
    pub calling: Option<Octets>,
    pub common: Option<u64>,
    pub additional: Option<Octets>,
}

impl Components for ReferenceParts {
    ghost step = { reference_step };

    #[tactic(auto, unfolding(crate::specs::Identifier::reference_step))]
    fn take(&mut self, alloc: Global, part: &View) -> Result<(), ReadFault> {
        if is_tag_of(part.tag, 0, 4) {
            check_order(self.last, 0, 1, part.at)?;
            self.calling = Some(read_octets(alloc, part, LONGEST_REFERENCE)?);
            self.last = 1;
        } else if is_tag_of(part.tag, 0, 23) {
            check_order(self.last, 1, 2, part.at)?;
            self.common = Some(part.utc()?);
            self.last = 2;
        } else if is_tag_of(part.tag, 2, 0) {
            check_order(self.last, 2, 3, part.at)?;
            self.additional = Some(read_octets(alloc, part, LONGEST_REFERENCE)?);
            self.last = 3;
        } else {
            return bad(part.at, Kind::BadTag);
        }
        Ok(())
    }
}

/// The reference of a SEQUENCE of a calling reference, OCTET STRING, a common reference, UTCTime, and an additional
/// reference, `[0]`, which may be absent (X.228, SessionConnectionIdentifier).
pub fn read_reference(alloc: Global, whole: &View) -> Result<Reference, ReadFault>
    ensures exact { Reads result (reference_in (view whole.now)) }

    // What is answered is spelled by the element, and what the element spells is answered.
    ensures found { IfOk result (SpellsReference whole.now.depth whole.now.tag whole.now.content.now
        whole.now.octets.now) }
    ensures only { (v : Identifier)
        → SpellsReference whole.now.depth whole.now.tag whole.now.content.now whole.now.octets.now v
        → IsReadAs result v }
{
    reference_from(alloc, whole)
}

#[tactic(auto, unfolding(crate::specs::Identifier::reference_in))]
fn reference_from(alloc: Global, whole: &View) -> Result<Reference, ReadFault>
    ensures { Reads result (reference_in (view whole.now)) }
{
    if !whole.tag.constructed {
        return bad(whole.at, Kind::BadTag);
    }
    let mut parts = ReferenceParts {
        last: 0,
        calling: None,
        common: None,
        additional: None,
    };
    take_parts(alloc, whole, &mut parts)?;
    let ReferenceParts {
        last: _,
        calling,
        common,
        additional,
    } = parts;
    let calling = take_required(calling, whole.at)?;
    let common = take_required(common, whole.at)?;
    Ok(Reference::new(calling, common, additional))
}

//! Reading names.

ghost use Rattle.std.specs.Prelude.{◌≡◌};
ghost use Rattle.mta_ber.specs.Parts.{Leaves, Reads};
ghost use Rattle.mta_ber.specs.Seen.{view};
ghost use Rattle.mta_names.specs.Names.{name_part_of, name_place, name_needed, name_part_in, name_step, name_in};

use crate::attributes::Attributes;
use crate::extension::{ExtensionParts, read_extensions};
use crate::pair::read_pairs;
use crate::standard::{nothing, read_standard};
use mta_ber::{
    Components, Kind, Octets, ReadFault, Tag, View, bad, check_order, is_tag_of, take_parts,
};
use std::alloc::Global;

/// The components of a name.
#[derive(Clone, Copy)]
pub enum NamePart {
    Standard,
    Pairs,
    Extensions,
    Directory,
}

/// The place of the last component that was read, 0 where there is none, and the attributes so far.
#[derive(Drop)]
pub struct NameParts {
    pub last: u8,
    pub attributes: Attributes,
}

fn part_of(last: u8, tag: Tag) -> Option<NamePart>
    ensures { result ≡ name_part_of last tag }
{
    if is_tag_of(tag, 0, 16) {
        if last == 0 {
            Some(NamePart::Standard)
        } else {
            Some(NamePart::Pairs)
        }
    } else if is_tag_of(tag, 0, 17) {
        Some(NamePart::Extensions)
    } else if is_tag_of(tag, 2, 0) {
        Some(NamePart::Directory)
    } else {
        None
    }
}

fn place_of(part: NamePart) -> u8
    ensures { result ≡ name_place part }
{
    match part {
        NamePart::Standard => 1,
        NamePart::Pairs => 2,
        NamePart::Extensions => 3,
        NamePart::Directory => 4,
    }
}

fn needed_of(part: NamePart) -> u8
    ensures { result ≡ name_needed part }
{
    match part {
        NamePart::Standard => 0,
        NamePart::Pairs | NamePart::Extensions | NamePart::Directory => 1,
    }
}

impl NameParts {
    fn put(&mut self, alloc: Global, place: NamePart, part: &View) -> Result<(), ReadFault>
        ensures { Leaves result self.new (name_part_in place self.old.attributes (view part.now)) }
    {
        match place {
            NamePart::Standard => {
                self.attributes = read_standard(alloc, part)?;
            }
            NamePart::Pairs => {
                self.attributes.pairs = read_pairs(alloc, part)?;
            }
            NamePart::Extensions => {
                let ExtensionParts { common, extras } = read_extensions(alloc, part)?;
                self.attributes.common = common;
                self.attributes.extras = extras;
            }
            NamePart::Directory => {
                self.attributes.directory = Some(Octets::from_slice(alloc, part.octets)?);
            }
        }
        self.last = place_of(place);
        Ok(())
    }
}

impl Components for NameParts {
    ghost step = { name_step };

    #[tactic(auto, unfolding(crate::specs::Names::name_step))]
    fn take(&mut self, alloc: Global, part: &View) -> Result<(), ReadFault> {
        match part_of(self.last, part.tag) {
            None => bad(part.at, Kind::BadTag),
            Some(place) => {
                check_order(self.last, needed_of(place), place_of(place), part.at)?;
                self.put(alloc, place, part)
            }
        }
    }
}

/// The attributes of a name, whatever its tag.
#[tactic(auto, unfolding(crate::specs::Names::name_in))]
pub fn read_attributes(alloc: Global, whole: &View) -> Result<Attributes, ReadFault>
    ensures { Reads result (name_in (view whole.now)) }
{
    if !whole.tag.constructed {
        return bad(whole.at, Kind::BadTag);
    }
    let mut parts = NameParts {
        last: 0,
        attributes: nothing(alloc),
    };
    take_parts(alloc, whole, &mut parts)?;
    if parts.last == 0 {
        return bad(whole.at, Kind::Missing);
    }
    Ok(parts.attributes)
}

//! Standard attributes.

ghost use Rattle.std.specs.Prelude.{◌≡◌};
ghost use Rattle.mta_ber.specs.Parts.{Leaves, Reads};
ghost use Rattle.mta_ber.specs.Seen.{view};
ghost use Rattle.mta_names.specs.Standard.{standard_part_of, standard_place, standard_part_in};
ghost use Rattle.mta_names.specs.Standard.{standard_step, standard_in};
ghost use Rattle.mta_names.specs.Values.{nothing};

use crate::attributes::Attributes;
use crate::label::{read_country, read_label};
use crate::person::read_person;
use crate::row::Row;
use crate::unit::read_units;
use mta_ber::{
    Components, Kind, ReadFault, Tag, TextClass, View, bad, check_order, is_tag_of, take_parts,
};
use std::alloc::Global;

/// The standard attributes.
#[derive(Clone, Copy)]
pub enum StandardPart {
    Country,
    Admd,
    Network,
    Terminal,
    Prmd,
    Organization,
    User,
    Name,
    Units,
}

/// The place of the last attribute that was read, 0 where there is none, and the attributes so far.
#[derive(Drop)]
pub struct StandardParts {
    pub last: u8,
    pub attributes: Attributes,
}

/// No attributes.
pub fn nothing(alloc: Global) -> Attributes
    ensures { result ≡ nothing }
{
    Attributes {
        country: None,
        admd: None,
        network: None,
        terminal: None,
        prmd: None,
        organization: None,
        user: None,
        person: None,
        units: Row::new(alloc),
        pairs: Row::new(alloc),
        common: None,
        extras: Row::new(alloc),
        directory: None,
    }
}

fn part_of(tag: Tag) -> Option<StandardPart>
    ensures { result ≡ standard_part_of tag }
{
    if is_tag_of(tag, 1, 1) {
        Some(StandardPart::Country)
    } else if is_tag_of(tag, 1, 2) {
        Some(StandardPart::Admd)
    } else if is_tag_of(tag, 2, 0) {
        Some(StandardPart::Network)
    } else if is_tag_of(tag, 2, 1) {
        Some(StandardPart::Terminal)
    } else if is_tag_of(tag, 2, 2) {
        Some(StandardPart::Prmd)
    } else if is_tag_of(tag, 2, 3) {
        Some(StandardPart::Organization)
    } else if is_tag_of(tag, 2, 4) {
        Some(StandardPart::User)
    } else if is_tag_of(tag, 2, 5) {
        Some(StandardPart::Name)
    } else if is_tag_of(tag, 2, 6) {
        Some(StandardPart::Units)
    } else {
        None
    }
}

fn place_of(part: StandardPart) -> u8
    ensures { result ≡ standard_place part }
{
    match part {
        StandardPart::Country => 1,
        StandardPart::Admd => 2,
        StandardPart::Network => 3,
        StandardPart::Terminal => 4,
        StandardPart::Prmd => 5,
        StandardPart::Organization => 6,
        StandardPart::User => 7,
        StandardPart::Name => 8,
        StandardPart::Units => 9,
    }
}

impl StandardParts {
    fn put(&mut self, alloc: Global, place: StandardPart, part: &View) -> Result<(), ReadFault>
        ensures { Leaves result self.new (standard_part_in place self.old.attributes (view part.now)) }
    {
        match place {
            StandardPart::Country => {
                self.attributes.country = Some(read_country(alloc, part)?);
            }
            StandardPart::Admd => {
                self.attributes.admd = Some(read_label(alloc, part, 0, 16)?);
            }
            StandardPart::Network => {
                self.attributes.network = Some(part.text(alloc, TextClass::Numeric, 1, 16)?);
            }
            StandardPart::Terminal => {
                self.attributes.terminal = Some(part.text(alloc, TextClass::Printable, 1, 24)?);
            }
            StandardPart::Prmd => {
                self.attributes.prmd = Some(read_label(alloc, part, 1, 16)?);
            }
            StandardPart::Organization => {
                self.attributes.organization = Some(part.text(alloc, TextClass::Printable, 1, 64)?);
            }
            StandardPart::User => {
                self.attributes.user = Some(part.text(alloc, TextClass::Numeric, 1, 32)?);
            }
            StandardPart::Name => {
                self.attributes.person = Some(read_person(alloc, part)?);
            }
            StandardPart::Units => {
                self.attributes.units = read_units(alloc, part)?;
            }
        }
        self.last = place_of(place);
        Ok(())
    }
}

impl Components for StandardParts {
    ghost step = { standard_step };

    #[tactic(auto, unfolding(crate::specs::Standard::standard_step))]
    fn take(&mut self, alloc: Global, part: &View) -> Result<(), ReadFault> {
        match part_of(part.tag) {
            None => bad(part.at, Kind::BadTag),
            Some(place) => {
                check_order(self.last, 0, place_of(place), part.at)?;
                self.put(alloc, place, part)
            }
        }
    }
}

/// The standard attributes of a name.
#[tactic(auto, unfolding(crate::specs::Standard::standard_in))]
pub fn read_standard(alloc: Global, whole: &View) -> Result<Attributes, ReadFault>
    ensures { Reads result (standard_in (view whole.now)) }
{
    if !whole.tag.constructed {
        return bad(whole.at, Kind::BadTag);
    }
    let mut parts = StandardParts {
        last: 0,
        attributes: nothing(alloc),
    };
    take_parts(alloc, whole, &mut parts)?;
    Ok(parts.attributes)
}

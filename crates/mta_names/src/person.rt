//! Personal names.

ghost use Rattle.std.specs.Prelude.{◌≡◌};
ghost use Rattle.mta_ber.specs.Parts.{Leaves, Reads, once};
ghost use Rattle.mta_ber.specs.Strings.{text_in};
ghost use Rattle.mta_ber.specs.declared.text.TextClass.TheVariants.{Printable};
ghost use Rattle.mta_ber.specs.Seen.{view};
ghost use Rattle.mta_names.specs.Persons.{person_part_of, person_part_in, person_step, person_in};

use crate::attributes::{Person, PersonFields};
use mta_ber::{
    Components, Kind, ReadFault, Tag, Text, TextClass, View, bad, is_tag_of, take_parts,
    take_required,
};
use std::alloc::Global;

/// The components of a personal name.
#[derive(Clone, Copy)]
pub enum PersonPart {
    Surname,
    Given,
    Initials,
    Generation,
}

/// The components so far.
#[derive(Drop)]
pub struct PersonParts {
    pub surname: Option<Text>,
    pub given: Option<Text>,
    pub initials: Option<Text>,
    pub generation: Option<Text>,
}

fn part_of(tag: Tag) -> Option<PersonPart>
    ensures { result ≡ person_part_of tag }
{
    if is_tag_of(tag, 2, 0) {
        Some(PersonPart::Surname)
    } else if is_tag_of(tag, 2, 1) {
        Some(PersonPart::Given)
    } else if is_tag_of(tag, 2, 2) {
        Some(PersonPart::Initials)
    } else if is_tag_of(tag, 2, 3) {
        Some(PersonPart::Generation)
    } else {
        None
    }
}

/// A text of at most `high` characters for a place that is empty. Twice where it is not.
fn read_once(alloc: Global, held: &Option<Text>, high: u32, part: &View) -> Result<Text, ReadFault>
    ensures { Reads result (once held.now part.now.at (text_in Printable 1 high (view part.now))) }
{
    if held.is_some() {
        return bad(part.at, Kind::Twice);
    }
    part.text(alloc, TextClass::Printable, 1, high)
}

impl PersonParts {
    fn put(&mut self, alloc: Global, place: PersonPart, part: &View) -> Result<(), ReadFault>
        ensures { Leaves result self.new (person_part_in place self.old (view part.now)) }
    {
        match place {
            PersonPart::Surname => {
                self.surname = Some(read_once(alloc, &self.surname, 40, part)?);
            }
            PersonPart::Given => {
                self.given = Some(read_once(alloc, &self.given, 16, part)?);
            }
            PersonPart::Initials => {
                self.initials = Some(read_once(alloc, &self.initials, 5, part)?);
            }
            PersonPart::Generation => {
                self.generation = Some(read_once(alloc, &self.generation, 3, part)?);
            }
        }
        Ok(())
    }
}

impl Components for PersonParts {
    ghost step = { person_step };

    #[tactic(auto, unfolding(crate::specs::Persons::person_step))]
    fn take(&mut self, alloc: Global, part: &View) -> Result<(), ReadFault> {
        match part_of(part.tag) {
            None => bad(part.at, Kind::BadTag),
            Some(place) => self.put(alloc, place, part),
        }
    }
}

#[tactic(auto, unfolding(crate::specs::Persons::person_in))]
fn read_fields(alloc: Global, whole: &View) -> Result<PersonFields, ReadFault>
    ensures { Reads result (person_in (view whole.now)) }
{
    if !whole.tag.constructed {
        return bad(whole.at, Kind::BadTag);
    }
    let mut parts = PersonParts {
        surname: None,
        given: None,
        initials: None,
        generation: None,
    };
    take_parts(alloc, whole, &mut parts)?;
    let PersonParts {
        surname,
        given,
        initials,
        generation,
    } = parts;
    let surname = take_required(surname, whole.at)?;
    Ok(PersonFields {
        surname,
        given,
        initials,
        generation,
    })
}

/// A personal name, its components in any order.
pub fn read_person(alloc: Global, whole: &View) -> Result<Person, ReadFault>
    ensures { Reads result (person_in (view whole.now)) }
{
    let fields = read_fields(alloc, whole)?;
    Ok(Person::from_fields(fields))
}

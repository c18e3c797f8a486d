//! Expansions of lists.

ghost use Rattle.std.specs.Prelude.{◌≡◌};
ghost use Rattle.mta_ber.specs.Parts.{Leaves, Reads};
ghost use Rattle.mta_ber.specs.Seen.{view};
ghost use Rattle.mta_fields.specs.Expansions.{expansion_part_of, expansion_place, expansion_needed};
ghost use Rattle.mta_fields.specs.Expansions.{expansion_part_in, expansion_step, expansion_in};

use mta_ber::{
    Components, Kind, Memory, ReadFault, Tag, View, Writer, bad, check_order, element_length,
    is_constructed_tag, is_tag_of, length_of_both, put_utc, take_parts, take_required, utc_length,
};
use mta_names::{OrName, constructed, primitive, put_around};
use std::alloc::Global;
use std::marker::Model;

/// What an expansion has.
pub struct ExpansionFields {
    /// The name of the list.
    pub name: OrName,
    /// When it was expanded, in seconds from 1950-01-01 00:00:00 UTC, at most the last second of 2049.
    pub moment: u64,
}

// Written out, since a derived one is opened anew, field by field, at each place where a value is let go.
impl Drop for ExpansionFields {
    fn drop(self) {
        let ExpansionFields { name: _, moment: _ } = self;
    }
}

/// An expansion of a distribution list (X.411, DLExpansion).
pub struct Expansion {
    fields: ExpansionFields,
}

// Written out, since a derived one is opened anew, field by field, at each place where a value is let go.
impl Drop for Expansion {
    fn drop(self) {
        let Expansion { fields: _ } = self;
    }
}

impl Model for Expansion {
    ghost use Rattle.mta_fields.specs.declared.expansion.ExpansionFields.{ExpansionFields};
    ghost use Rattle.mta_fields.specs.Expansions.{IsExpansion};

    ghost Value = { ExpansionFields };

    ghost view = { λ e. e.fields };

    ghost invariant = { λ e. IsExpansion e.fields };
}

/// The components of an expansion.
#[derive(Clone, Copy)]
pub enum ExpansionPart {
    Name,
    Time,
}

/// The place of the last component that was read, 0 where there is none, and the components so far.
#[derive(Drop)]
pub struct ExpansionParts {
    pub last: u8,
    pub name: Option<OrName>,
    pub moment: Option<u64>,
}

fn part_of(tag: Tag) -> Option<ExpansionPart>
    ensures { result ≡ expansion_part_of tag }
{
    if is_tag_of(tag, 1, 0) {
        Some(ExpansionPart::Name)
    } else if is_tag_of(tag, 0, 23) {
        Some(ExpansionPart::Time)
    } else {
        None
    }
}

fn place_of(part: ExpansionPart) -> u8
    ensures { result ≡ expansion_place part }
{
    match part {
        ExpansionPart::Name => 1,
        ExpansionPart::Time => 2,
    }
}

fn needed_of(part: ExpansionPart) -> u8
    ensures { result ≡ expansion_needed part }
{
    match part {
        ExpansionPart::Name => 0,
        ExpansionPart::Time => 1,
    }
}

impl ExpansionParts {
    fn put(&mut self, alloc: Global, place: ExpansionPart, part: &View) -> Result<(), ReadFault>
        ensures { Leaves result self.new (expansion_part_in place self.old (view part.now)) }
    {
        match place {
            ExpansionPart::Name => {
                self.name = Some(OrName::read(alloc, part)?);
            }
            ExpansionPart::Time => {
                self.moment = Some(part.utc()?);
            }
        }
        self.last = place_of(place);
        Ok(())
    }
}

impl Components for ExpansionParts {
    ghost step = { expansion_step };

    #[tactic(auto, unfolding(crate::specs::Expansions::expansion_step))]
    fn take(&mut self, alloc: Global, part: &View) -> Result<(), ReadFault> {
        match part_of(part.tag) {
            None => bad(part.at, Kind::BadTag),
            Some(place) => {
                check_order(self.last, needed_of(place), place_of(place), part.at)?;
                self.put(alloc, place, part)
            }
        }
    }
}

#[tactic(auto, unfolding(crate::specs::Expansions::expansion_in))]
fn read_fields(alloc: Global, whole: &View) -> Result<ExpansionFields, ReadFault>
    ensures { Reads result (expansion_in (view whole.now)) }
{
    if !is_constructed_tag(whole.tag, 0, 16) {
        return bad(whole.at, Kind::BadTag);
    }
    let mut parts = ExpansionParts {
        last: 0,
        name: None,
        moment: None,
    };
    take_parts(alloc, whole, &mut parts)?;
    let ExpansionParts {
        last: _,
        name,
        moment,
    } = parts;
    let name = take_required(name, whole.at)?;
    let moment = take_required(moment, whole.at)?;
    Ok(ExpansionFields { name, moment })
}

impl Expansion {
    ghost use Rattle.std.specs.Prelude.{◌≡◌, IfOk, OnOk, OnErr};
    ghost use Rattle.mta_ber.specs.Canon.{appended};
    ghost use Rattle.mta_ber.specs.Lengths.{octet_length};
    ghost use Rattle.mta_ber.specs.Parts.{Reads, IsReadAs};
    ghost use Rattle.mta_ber.specs.Seen.{view};
    ghost use Rattle.mta_fields.specs.declared.expansion.ExpansionFields.{ExpansionFields};
    ghost use Rattle.mta_fields.specs.Expansions.{expansion_in, IsExpansion, SpellsExpansion, canonical_expansion};

    /// The expansion that an element spells, a SEQUENCE. BadTag at an element of any other tag.
    pub fn read(alloc: Global, whole: &View) -> Result<Expansion, ReadFault>
        // Which expansion it is, or which fault comes first.
        ensures exact { Reads result (expansion_in (view whole.now)) }

        // What is answered is spelled by the element, and what the element spells is answered.
        ensures found { IfOk result (SpellsExpansion whole.now.depth whole.now.tag whole.now.content.now) }
        ensures only { (v : ExpansionFields) → SpellsExpansion whole.now.depth whole.now.tag whole.now.content.now v
            → IsReadAs result v }
    {
        match read_fields(alloc, whole) {
            Ok(fields) => Ok(Expansion { fields }),
            Err(fault) => Err(fault),
        }
    }

    /// Appends the expansion in its canonical octets.
    #[tactic(auto, unfolding(crate::specs::Expansions::canonical_expansion))]
    pub fn write(&self, w: &mut Writer) -> Result<(), Memory>
        ensures ok { OnOk result (w.new ≡ appended w.old (canonical_expansion self.now)) }
        ensures err { OnErr result (w.new ≡ w.old) }
    {
        let mut inside = Writer::new(w.alloc());
        self.fields.name.write(&mut inside, constructed(1, 0))?;
        put_utc(&mut inside, primitive(0, 23), self.fields.moment)?;
        put_around(w, constructed(0, 16), &inside)
    }

    /// How many octets `write` appends, told without memory; 2^64 - 1 where there are as many or more.
    #[tactic(auto, unfolding(crate::specs::Expansions::canonical_expansion))]
    pub fn length(&self) -> u64
        ensures { result ≡ octet_length (canonical_expansion self.now) }
    {
        let name = self.fields.name.length(constructed(1, 0));
        let moment = utc_length(primitive(0, 23), self.fields.moment);
        element_length(constructed(0, 16), length_of_both(name, moment))
    }

    /// An expansion of these parts, which takes no memory.
    pub fn from_fields(fields: ExpansionFields) -> Expansion
        requires { IsExpansion fields }
        ensures { result ≡ fields }
    {
        Expansion { fields }
    }

    /// The parts, lent.
    pub fn fields(&self) -> &ExpansionFields
        ensures exact { result.now ≡ self.now }
        ensures expansion { IsExpansion self.now }
    {
        &self.fields
    }
}

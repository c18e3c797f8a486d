//! MTS identifiers.

ghost use Rattle.std.specs.Prelude.{◌≡◌};
ghost use Rattle.mta_ber.specs.Parts.{Leaves, Reads};
ghost use Rattle.mta_ber.specs.Seen.{view};
ghost use Rattle.mta_fields.specs.Identifiers.{id_part_of, id_place, id_needed, id_part_in, id_step, id_in, is_same_id};

use crate::domain::{Domain, is_same};
use mta_ber::{
    Components, Kind, Memory, ReadFault, Tag, Text, TextClass, View, Writer, bad, check_order,
    element_length, is_constructed_tag, is_tag_of, length_of_both, slice_length, take_parts,
    take_required,
};
use mta_names::{constructed, primitive, put_around};
use std::alloc::Global;
use std::marker::Model;

/// What an MTS identifier has.
pub struct MtsIdFields {
    pub domain: Domain,
    /// 1 to 32 characters of IA5String.
    pub local: Text,
}

// Written out, since a derived one is opened anew, field by field, at each place where a value is let go.
impl Drop for MtsIdFields {
    fn drop(self) {
        let MtsIdFields {
            domain: _,
            local: _,
        } = self;
    }
}

/// An MTS identifier (X.411): the domain that gave it, and an identifier of that domain's own.
pub struct MtsId {
    fields: MtsIdFields,
}

// Written out, since a derived one is opened anew, field by field, at each place where a value is let go.
impl Drop for MtsId {
    fn drop(self) {
        let MtsId { fields: _ } = self;
    }
}

impl Model for MtsId {
    ghost use Rattle.mta_fields.specs.declared.identifier.MtsIdFields.{MtsIdFields};
    ghost use Rattle.mta_fields.specs.Identifiers.{IsMtsId};

    ghost Value = { MtsIdFields };

    ghost view = { λ i. i.fields };

    ghost invariant = { λ i. IsMtsId i.fields };
}

/// The components of an identifier.
#[derive(Clone, Copy)]
pub enum MtsIdPart {
    Issuer,
    Local,
}

/// The place of the last component that was read, 0 where there is none, and the components so far.
#[derive(Drop)]
pub struct MtsIdParts {
    pub last: u8,
    pub domain: Option<Domain>,
    pub local: Option<Text>,
}

fn part_of(tag: Tag) -> Option<MtsIdPart>
    ensures { result ≡ id_part_of tag }
{
    if is_tag_of(tag, 1, 3) {
        Some(MtsIdPart::Issuer)
    } else if is_tag_of(tag, 0, 22) {
        Some(MtsIdPart::Local)
    } else {
        None
    }
}

fn place_of(part: MtsIdPart) -> u8
    ensures { result ≡ id_place part }
{
    match part {
        MtsIdPart::Issuer => 1,
        MtsIdPart::Local => 2,
    }
}

fn needed_of(part: MtsIdPart) -> u8
    ensures { result ≡ id_needed part }
{
    match part {
        MtsIdPart::Issuer => 0,
        MtsIdPart::Local => 1,
    }
}

impl MtsIdParts {
    fn put(&mut self, alloc: Global, place: MtsIdPart, part: &View) -> Result<(), ReadFault>
        ensures { Leaves result self.new (id_part_in place self.old (view part.now)) }
    {
        match place {
            MtsIdPart::Issuer => {
                self.domain = Some(Domain::read(alloc, part)?);
            }
            MtsIdPart::Local => {
                self.local = Some(part.text(alloc, TextClass::Ia5, 1, 32)?);
            }
        }
        self.last = place_of(place);
        Ok(())
    }
}

impl Components for MtsIdParts {
    ghost step = { id_step };

    #[tactic(auto, unfolding(crate::specs::Identifiers::id_step))]
    fn take(&mut self, alloc: Global, part: &View) -> Result<(), ReadFault> {
        match part_of(part.tag) {
            None => bad(part.at, Kind::BadTag),
            Some(place) => {
                check_order(self.last, needed_of(place), place_of(place), part.at)?;
                self.put(alloc, place, part)
            }
        }
    }
}

#[tactic(auto, unfolding(crate::specs::Identifiers::id_in))]
fn read_fields(alloc: Global, whole: &View) -> Result<MtsIdFields, ReadFault>
    ensures { Reads result (id_in (view whole.now)) }
{
    if !is_constructed_tag(whole.tag, 1, 4) {
        return bad(whole.at, Kind::BadTag);
    }
    let mut parts = MtsIdParts {
        last: 0,
        domain: None,
        local: None,
    };
    take_parts(alloc, whole, &mut parts)?;
    let MtsIdParts {
        last: _,
        domain,
        local,
    } = parts;
    let domain = take_required(domain, whole.at)?;
    let local = take_required(local, whole.at)?;
    Ok(MtsIdFields { domain, local })
}

fn are_same(first: &MtsIdFields, second: &MtsIdFields) -> bool
    ensures { result ≡ is_same_id first.now second.now }
{
    is_same(first.domain.fields(), second.domain.fields())
        && first.local.as_slice() == second.local.as_slice()
}

impl MtsId {
    ghost use Rattle.std.specs.Prelude.{◌≡◌, ◌↔◌, IfOk, OnOk, OnErr, IsTrue};
    ghost use Rattle.mta_ber.specs.Canon.{appended};
    ghost use Rattle.mta_ber.specs.Lengths.{octet_length};
    ghost use Rattle.mta_ber.specs.Parts.{Reads, IsReadAs};
    ghost use Rattle.mta_ber.specs.Seen.{view};
    ghost use Rattle.mta_fields.specs.declared.identifier.MtsIdFields.{MtsIdFields};
    ghost use Rattle.mta_fields.specs.Identifiers.{id_in, IsMtsId, SpellsMtsId, canonical_id, IsSameId};

    /// The identifier that an element spells, under `[APPLICATION 4]`. BadTag at an element of any other tag.
    pub fn read(alloc: Global, whole: &View) -> Result<MtsId, ReadFault>
        // Which identifier it is, or which fault comes first.
        ensures exact { Reads result (id_in (view whole.now)) }

        // What is answered is spelled by the element, and what the element spells is answered.
        ensures found { IfOk result (SpellsMtsId whole.now.depth whole.now.tag whole.now.content.now) }
        ensures only { (v : MtsIdFields) → SpellsMtsId whole.now.depth whole.now.tag whole.now.content.now v
            → IsReadAs result v }
    {
        match read_fields(alloc, whole) {
            Ok(fields) => Ok(MtsId { fields }),
            Err(fault) => Err(fault),
        }
    }

    /// Appends the identifier in its canonical octets, under `[APPLICATION 4]`.
    #[tactic(auto, unfolding(crate::specs::Identifiers::canonical_id))]
    pub fn write(&self, w: &mut Writer) -> Result<(), Memory>
        ensures ok { OnOk result (w.new ≡ appended w.old (canonical_id self.now)) }
        ensures err { OnErr result (w.new ≡ w.old) }
    {
        let mut inside = Writer::new(w.alloc());
        self.fields.domain.write(&mut inside)?;
        inside.put(primitive(0, 22), self.fields.local.as_slice())?;
        put_around(w, constructed(1, 4), &inside)
    }

    /// How many octets `write` appends, told without memory; 2^64 - 1 where there are as many or more.
    #[tactic(auto, unfolding(crate::specs::Identifiers::canonical_id))]
    pub fn length(&self) -> u64
        ensures { result ≡ octet_length (canonical_id self.now) }
    {
        let local = element_length(primitive(0, 22), slice_length(self.fields.local.as_slice()));
        element_length(
            constructed(1, 4),
            length_of_both(self.fields.domain.length(), local),
        )
    }

    /// Whether the two identifiers are the same: their domains are, whatever they have of capital letters and spaces,
    /// and their local identifiers are equal octet by octet.
    pub fn same(&self, other: &MtsId) -> bool
        ensures { IsTrue result ↔ IsSameId self.now other.now }
    {
        are_same(&self.fields, &other.fields)
    }

    /// An identifier of these parts, which takes no memory.
    pub fn from_fields(fields: MtsIdFields) -> MtsId
        requires { IsMtsId fields }
        ensures { result ≡ fields }
    {
        MtsId { fields }
    }

    /// The parts, lent.
    pub fn fields(&self) -> &MtsIdFields
        ensures exact { result.now ≡ self.now }
        ensures identifier { IsMtsId self.now }
    {
        &self.fields
    }
}

//! Domains.

ghost use Rattle.std.specs.Prelude.{◌≡◌, IfOk};
ghost use Rattle.mta_ber.specs.Parts.{Leaves, Reads};
ghost use Rattle.mta_ber.specs.Seen.{view};
ghost use Rattle.mta_fields.specs.Domains.{domain_part_of, domain_place, domain_needed, domain_part_in};
ghost use Rattle.mta_fields.specs.Domains.{domain_step, domain_in, domain_content, is_same_domain};

use crate::length::domain_length;
use mta_ber::{
    Components, Kind, Memory, ReadFault, Tag, View, Writer, bad, check_order, is_constructed_tag,
    is_tag_of, take_parts, take_required,
};
use mta_names::{
    Label, constructed, put_around, put_label, put_label_choice, read_country, read_label,
    read_label_choice, same_label, same_text,
};
use std::alloc::Global;
use std::marker::Model;

/// What a domain has.
pub struct DomainFields {
    /// Two letters, or three digits.
    pub country: Label,
    /// The administration domain: at most 16 characters.
    pub admd: Label,
    /// The private domain: 1 to 16 characters.
    pub prmd: Option<Label>,
}

// Written out, since a derived one is opened anew, field by field, at each place where a value is let go.
impl Drop for DomainFields {
    fn drop(self) {
        let DomainFields {
            country: _,
            admd: _,
            prmd: _,
        } = self;
    }
}

/// A global domain identifier (X.411): each label is such as it may be.
pub struct Domain {
    fields: DomainFields,
}

// Written out, since a derived one is opened anew, field by field, at each place where a value is let go.
impl Drop for Domain {
    fn drop(self) {
        let Domain { fields: _ } = self;
    }
}

impl Model for Domain {
    ghost use Rattle.mta_fields.specs.declared.domain.DomainFields.{DomainFields};
    ghost use Rattle.mta_fields.specs.Domains.{IsDomain};

    ghost Value = { DomainFields };

    ghost view = { λ d. d.fields };

    ghost invariant = { λ d. IsDomain d.fields };
}

/// The components of a domain.
#[derive(Clone, Copy)]
pub enum DomainPart {
    Country,
    Admd,
    Prmd,
}

/// The place of the last component that was read, 0 where there is none, and the components so far.
#[derive(Drop)]
pub struct DomainParts {
    pub last: u8,
    pub country: Option<Label>,
    pub admd: Option<Label>,
    pub prmd: Option<Label>,
}

fn part_of(tag: Tag) -> Option<DomainPart>
    ensures { result ≡ domain_part_of tag }
{
    if is_tag_of(tag, 1, 1) {
        Some(DomainPart::Country)
    } else if is_tag_of(tag, 1, 2) {
        Some(DomainPart::Admd)
    } else if is_tag_of(tag, 0, 18) || is_tag_of(tag, 0, 19) {
        Some(DomainPart::Prmd)
    } else {
        None
    }
}

fn place_of(part: DomainPart) -> u8
    ensures { result ≡ domain_place part }
{
    match part {
        DomainPart::Country => 1,
        DomainPart::Admd => 2,
        DomainPart::Prmd => 3,
    }
}

fn needed_of(part: DomainPart) -> u8
    ensures { result ≡ domain_needed part }
{
    match part {
        DomainPart::Country => 0,
        DomainPart::Admd => 1,
        DomainPart::Prmd => 2,
    }
}

impl DomainParts {
    fn put(&mut self, alloc: Global, place: DomainPart, part: &View) -> Result<(), ReadFault>
        ensures { Leaves result self.new (domain_part_in place self.old (view part.now)) }
    {
        match place {
            DomainPart::Country => {
                self.country = Some(read_country(alloc, part)?);
            }
            DomainPart::Admd => {
                self.admd = Some(read_label(alloc, part, 0, 16)?);
            }
            DomainPart::Prmd => {
                self.prmd = Some(read_label_choice(alloc, part, 1, 16)?);
            }
        }
        self.last = place_of(place);
        Ok(())
    }
}

impl Components for DomainParts {
    ghost step = { domain_step };

    #[tactic(auto, unfolding(crate::specs::Domains::domain_step))]
    fn take(&mut self, alloc: Global, part: &View) -> Result<(), ReadFault> {
        match part_of(part.tag) {
            None => bad(part.at, Kind::BadTag),
            Some(place) => {
                check_order(self.last, needed_of(place), place_of(place), part.at)?;
                self.put(alloc, place, part)
            }
        }
    }
}

#[tactic(auto, unfolding(crate::specs::Domains::domain_in))]
fn read_fields(alloc: Global, whole: &View) -> Result<DomainFields, ReadFault>
    ensures { Reads result (domain_in (view whole.now)) }
{
    if !is_constructed_tag(whole.tag, 1, 3) {
        return bad(whole.at, Kind::BadTag);
    }
    let mut parts = DomainParts {
        last: 0,
        country: None,
        admd: None,
        prmd: None,
    };
    take_parts(alloc, whole, &mut parts)?;
    let DomainParts {
        last: _,
        country,
        admd,
        prmd,
    } = parts;
    let country = take_required(country, whole.at)?;
    let admd = take_required(admd, whole.at)?;
    Ok(DomainFields {
        country,
        admd,
        prmd,
    })
}

/// Appends the components of a domain, in a writer of their own.
#[tactic(auto, using(crate::proofs::Written::appended_none))]
fn put_fields(alloc: Global, domain: &DomainFields) -> Result<Writer, Memory>
    ensures { IfOk result (λ w. w.octets ≡ domain_content domain.now) }
{
    let mut inside = Writer::new(alloc);
    put_label(&mut inside, 1, 1, &domain.country)?;
    put_label(&mut inside, 1, 2, &domain.admd)?;
    if let Some(prmd) = &domain.prmd {
        put_label_choice(&mut inside, prmd)?;
    }
    Ok(inside)
}

/// Whether two domains have equal normal texts.
pub fn is_same(first: &DomainFields, second: &DomainFields) -> bool
    ensures { result ≡ is_same_domain first.now second.now }
{
    same_text(
        first.country.text.as_slice(),
        second.country.text.as_slice(),
    ) && same_text(first.admd.text.as_slice(), second.admd.text.as_slice())
        && same_label(&first.prmd, &second.prmd)
}

impl Domain {
    ghost use Rattle.std.specs.Prelude.{◌≡◌, ◌↔◌, IfOk, OnOk, OnErr, IsTrue};
    ghost use Rattle.mta_ber.specs.Canon.{appended};
    ghost use Rattle.mta_ber.specs.Lengths.{octet_length};
    ghost use Rattle.mta_ber.specs.Parts.{Reads, IsReadAs};
    ghost use Rattle.mta_ber.specs.Seen.{view};
    ghost use Rattle.mta_fields.specs.declared.domain.DomainFields.{DomainFields};
    ghost use Rattle.mta_fields.specs.Domains.{domain_in, IsDomain, SpellsDomain, canonical_domain, IsSameDomain};

    /// The domain that an element spells, under `[APPLICATION 3]`. BadTag at an element of any other tag.
    pub fn read(alloc: Global, whole: &View) -> Result<Domain, ReadFault>
        // Which domain it is, or which fault comes first.
        ensures exact { Reads result (domain_in (view whole.now)) }

        // What is answered is spelled by the element, and what the element spells is answered.
        ensures found { IfOk result (SpellsDomain whole.now.depth whole.now.tag whole.now.content.now) }
        ensures only { (v : DomainFields) → SpellsDomain whole.now.depth whole.now.tag whole.now.content.now v
            → IsReadAs result v }
    {
        match read_fields(alloc, whole) {
            Ok(fields) => Ok(Domain { fields }),
            Err(fault) => Err(fault),
        }
    }

    /// Appends the domain in its canonical octets, under `[APPLICATION 3]`.
    #[tactic(auto, unfolding(crate::specs::Domains::canonical_domain))]
    pub fn write(&self, w: &mut Writer) -> Result<(), Memory>
        ensures ok { OnOk result (w.new ≡ appended w.old (canonical_domain self.now)) }
        ensures err { OnErr result (w.new ≡ w.old) }
    {
        let inside = put_fields(w.alloc(), &self.fields)?;
        put_around(w, constructed(1, 3), &inside)
    }

    /// A domain of these labels, which takes no memory.
    pub fn from_fields(fields: DomainFields) -> Domain
        requires { IsDomain fields }
        ensures { result ≡ fields }
    {
        Domain { fields }
    }

    /// The labels, lent.
    pub fn fields(&self) -> &DomainFields
        ensures exact { result.now ≡ self.now }
        ensures domain { IsDomain self.now }
    {
        &self.fields
    }

    /// How many octets `write` appends, told without memory; 2^64 - 1 where there are as many or more.
    pub fn length(&self) -> u64
        ensures { result ≡ octet_length (canonical_domain self.now) }
    {
        domain_length(&self.fields)
    }

    /// Whether the two domains are the same, whatever they have of capital letters and spaces: their normal texts are
    /// equal.
    pub fn same(&self, other: &Domain) -> bool
        ensures { IsTrue result ↔ IsSameDomain self.now other.now }
    {
        is_same(&self.fields, &other.fields)
    }
}

//! When two names are the same, and copies.

ghost use Rattle.std.specs.Prelude.{◌≡◌, ◌↔◌, IsTrue, IfOk, List, ℕ, Option};
ghost use Rattle.mta_names.specs.Normal.{is_same_name, IsSameName};

use crate::attributes::{
    Attributes, Extra, ExtraFields, Label, Pair, PairFields, Person, PersonFields,
};
use crate::name::OrName;
use crate::normal::{same_label, same_pairs, same_persons, same_texts, same_value};
use crate::row::Row;
use crate::standard::nothing;
use mta_ber::{Memory, Octets, Text};
use std::alloc::Global;

impl Attributes {
    /// Whether the attributes are the same, whatever they have of capital letters and spaces (X.402, clause 18). A
    /// numeric and a printable label of the same characters are equal, and what is kept unread is not compared.
    #[tactic(auto, unfolding(crate::specs::Normal::is_same_name))]
    fn is_same(&self, other: &Attributes) -> bool
        ensures { result ≡ is_same_name self.now other.now }
    {
        same_label(&self.country, &other.country)
            && same_label(&self.admd, &other.admd)
            && same_label(&self.prmd, &other.prmd)
            && same_value(&self.organization, &other.organization)
            && same_texts(self.units.as_slice(), other.units.as_slice())
            && same_persons(&self.person, &other.person)
            && same_value(&self.common, &other.common)
            && same_value(&self.network, &other.network)
            && same_value(&self.terminal, &other.terminal)
            && same_value(&self.user, &other.user)
            && same_pairs(self.pairs.as_slice(), other.pairs.as_slice())
    }
}

impl OrName {
    /// Whether the two names are the same, whatever they have of capital letters and spaces (X.402, clause 18): their
    /// normal lists are equal. A numeric and a printable label of the same characters are equal, and what is kept
    /// unread is not compared.
    pub fn same(&self, other: &OrName) -> bool
        ensures { IsTrue result ↔ IsSameName self.now other.now }
    {
        self.attributes.is_same(&other.attributes)
    }
}

fn copied(alloc: Global, text: &Option<Text>) -> Result<Option<Text>, Memory>
    ensures { IfOk result (λ t. t ≡ text.now) }
{
    match text {
        None => Ok(None),
        Some(text) => Ok(Some(text.copy(alloc)?)),
    }
}

/// An equal label, where it is there.
pub fn copied_label(alloc: Global, label: &Option<Label>) -> Result<Option<Label>, Memory>
    ensures { IfOk result (λ l. l ≡ label.now) }
{
    match label {
        None => Ok(None),
        Some(label) => {
            let text = label.text.copy(alloc)?;
            Ok(Some(Label {
                numeric: label.numeric,
                text,
            }))
        }
    }
}

fn copied_person(alloc: Global, person: &Option<Person>) -> Result<Option<Person>, Memory>
    ensures { IfOk result (λ p. p ≡ person.now) }
{
    match person {
        None => Ok(None),
        Some(person) => {
            let fields = person.fields();
            let surname = fields.surname.copy(alloc)?;
            let given = copied(alloc, &fields.given)?;
            let initials = copied(alloc, &fields.initials)?;
            let generation = copied(alloc, &fields.generation)?;
            Ok(Some(Person::from_fields(PersonFields {
                surname,
                given,
                initials,
                generation,
            })))
        }
    }
}

/// Equal octets, where they are there.
pub fn copied_raw(alloc: Global, raw: &Option<Octets>) -> Result<Option<Octets>, Memory>
    ensures { IfOk result (λ o. o ≡ raw.now) }
{
    match raw {
        None => Ok(None),
        Some(raw) => Ok(Some(raw.copy(alloc)?)),
    }
}

fn copied_units(alloc: Global, units: &[Text]) -> Result<Row<Text>, Memory>
    ensures { IfOk result (λ r. r ≡ units.now) }
{
    let mut row: Row<Text> = Row::new(alloc);
    for unit in units {
        row.push(unit.copy(alloc)?)?;
    }
    Ok(row)
}

fn copied_pair(alloc: Global, pair: &Pair) -> Result<Pair, Memory>
    ensures { IfOk result (λ p. p ≡ pair.now) }
{
    let fields = pair.fields();
    let kind = fields.kind.copy(alloc)?;
    let value = fields.value.copy(alloc)?;
    Ok(Pair::from_fields(PairFields { kind, value }))
}

fn copied_pairs(alloc: Global, pairs: &[Pair]) -> Result<Row<Pair>, Memory>
    ensures { IfOk result (λ r. r ≡ pairs.now) }
{
    let mut row: Row<Pair> = Row::new(alloc);
    for pair in pairs {
        row.push(copied_pair(alloc, pair)?)?;
    }
    Ok(row)
}

fn copied_extra(alloc: Global, extra: &Extra) -> Result<Extra, Memory>
    ensures { IfOk result (λ e. e ≡ extra.now) }
{
    let fields = extra.fields();
    let raw = fields.raw.copy(alloc)?;
    Ok(Extra::from_fields(ExtraFields {
        number: fields.number,
        raw,
    }))
}

fn copied_extras(alloc: Global, extras: &[Extra]) -> Result<Row<Extra>, Memory>
    ensures { IfOk result (λ r. r ≡ extras.now) }
{
    let mut row: Row<Extra> = Row::new(alloc);
    for extra in extras {
        row.push(copied_extra(alloc, extra)?)?;
    }
    Ok(row)
}

impl Attributes {
    /// Equal attributes.
    pub fn copy(&self, alloc: Global) -> Result<Attributes, Memory>
        ensures { IfOk result (λ n. n ≡ self.now) }
    {
        let mut copy = nothing(alloc);
        copy.country = copied_label(alloc, &self.country)?;
        copy.admd = copied_label(alloc, &self.admd)?;
        copy.network = copied(alloc, &self.network)?;
        copy.terminal = copied(alloc, &self.terminal)?;
        copy.prmd = copied_label(alloc, &self.prmd)?;
        copy.organization = copied(alloc, &self.organization)?;
        copy.user = copied(alloc, &self.user)?;
        copy.person = copied_person(alloc, &self.person)?;
        copy.units = copied_units(alloc, self.units.as_slice())?;
        copy.pairs = copied_pairs(alloc, self.pairs.as_slice())?;
        copy.common = copied(alloc, &self.common)?;
        copy.extras = copied_extras(alloc, self.extras.as_slice())?;
        copy.directory = copied_raw(alloc, &self.directory)?;
        Ok(copy)
    }
}

impl OrName {
    /// An equal name.
    pub fn copy(&self, alloc: Global) -> Result<OrName, Memory>
        ensures { IfOk result (λ n. n ≡ self.now) }
    {
        let attributes = self.attributes.copy(alloc)?;
        Ok(OrName { attributes })
    }
}

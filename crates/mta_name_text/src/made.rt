//! The name, and the values of a pattern, that the parts of a text form make.

ghost use Rattle.std.specs.Prelude.{◌≡◌, OnOk, IfOk, IfSome};
ghost use Rattle.mta_names.specs.Values.{Each, IsName, IsPair, IsPerson};
ghost use Rattle.mta_name_text.specs.Made.{with_given, with_initials, with_generation, put, name_of, values_of};

use crate::key::Key;
use crate::part::Part;
use mta_ber::{Memory, Text};
use mta_names::{Attributes, Label, OrName, Pair, PairFields, Person, PersonFields, Row, nothing};
use std::alloc::Global;
use std::marker::Model;

/// The attributes so far of a name that is made of its parts. A personal name and domain-defined attributes are such as
/// they may be only once all parts are in, so they are held apart from the others.
#[derive(Drop)]
pub struct NameDraft {
    others: Attributes,
    person: Option<PersonFields>,
    pairs: Row<PairFields>,
}

impl Model for NameDraft {
    ghost use Rattle.mta_names.specs.declared.attributes.Attributes.{Attributes};

    ghost Value = { Attributes };

    ghost view = { λ d. record d.others { person = d.person; pairs = d.pairs } };
}

fn put_given(person: &mut Option<PersonFields>, value: Text)
    ensures { person.new ≡ with_given value person.old }
{
    if let Some(person) = person {
        person.given = Some(value);
    }
}

fn put_initials(person: &mut Option<PersonFields>, value: Text)
    ensures { person.new ≡ with_initials value person.old }
{
    if let Some(person) = person {
        person.initials = Some(value);
    }
}

fn put_generation(person: &mut Option<PersonFields>, value: Text)
    ensures { person.new ≡ with_generation value person.old }
{
    if let Some(person) = person {
        person.generation = Some(value);
    }
}

/// Adds the attribute of one part.
fn put(n: &mut NameDraft, part: Part) -> Result<(), Memory>
    ensures { OnOk result (n.new ≡ put n.old part) }
{
    let Part { key, kind, value } = part;
    match key {
        Key::Country => {
            let numeric = value.len() == 3;
            n.others.country = Some(Label {
                numeric,
                text: value,
            });
        }
        Key::Admd => {
            n.others.admd = Some(Label {
                numeric: false,
                text: value,
            });
        }
        Key::Prmd => {
            n.others.prmd = Some(Label {
                numeric: false,
                text: value,
            });
        }
        Key::Organization => n.others.organization = Some(value),
        Key::Unit => n.others.units.push(value)?,
        Key::Surname => {
            n.person = Some(PersonFields {
                surname: value,
                given: None,
                initials: None,
                generation: None,
            });
        }
        Key::Given => put_given(&mut n.person, value),
        Key::Initials => put_initials(&mut n.person, value),
        Key::Generation => put_generation(&mut n.person, value),
        Key::Common => n.others.common = Some(value),
        Key::Network => n.others.network = Some(value),
        Key::Terminal => n.others.terminal = Some(value),
        Key::User => n.others.user = Some(value),
        Key::Pair => n.pairs.push(PairFields { kind, value })?,
    }
    Ok(())
}

/// The attributes that the parts make.
pub fn name_of(alloc: Global, parts: Row<Part>) -> Result<NameDraft, Memory>
    ensures { IfOk result (λ n. n ≡ name_of parts) }
{
    let mut n = NameDraft {
        others: nothing(alloc),
        person: None,
        pairs: Row::new(alloc),
    };
    for part in parts.into_vec() {
        put(&mut n, part)?;
    }
    Ok(n)
}

fn person_of(person: Option<PersonFields>) -> Option<Person>
    requires { IfSome person IsPerson }
    ensures { result ≡ person }
{
    match person {
        None => None,
        Some(fields) => Some(Person::from_fields(fields)),
    }
}

fn pairs_of(alloc: Global, pairs: Row<PairFields>) -> Result<Row<Pair>, Memory>
    requires { Each IsPair pairs }
    ensures { IfOk result (λ r. r ≡ pairs) }
{
    let mut row = Row::new(alloc);
    for fields in pairs.into_vec() {
        row.push(Pair::from_fields(fields))?;
    }
    Ok(row)
}

/// The name of these attributes.
pub fn finished(alloc: Global, draft: NameDraft) -> Result<OrName, Memory>
    requires { IsName draft }
    ensures { IfOk result (λ n. n ≡ draft) }
{
    let NameDraft {
        others,
        person,
        pairs,
    } = draft;
    let mut attributes = others;
    attributes.person = person_of(person);
    attributes.pairs = pairs_of(alloc, pairs)?;
    Ok(OrName::from_attributes(attributes))
}

/// The values of the parts.
pub fn values_of(alloc: Global, parts: Row<Part>) -> Result<Row<Text>, Memory>
    ensures { IfOk result (λ r. r ≡ values_of parts) }
{
    let mut row = Row::new(alloc);
    for part in parts.into_vec() {
        let Part { value, .. } = part;
        row.push(value)?;
    }
    Ok(row)
}

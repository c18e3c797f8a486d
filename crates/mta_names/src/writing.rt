//! Writing names in their one canonical spelling (X.690, clause 10).

ghost use Rattle.std.specs.Prelude.{◌≡◌, ◌<◌, ◌^◌, OnOk, OnErr, IfOk, List, ℕ, [], ◌++◌};
ghost use Rattle.std.specs.List.{flat_map};
ghost use Rattle.mta_ber.specs.Canon.{IsTag, appended, element, constructed, primitive, optional};
ghost use Rattle.mta_names.specs.Labels.{canonical_choice, canonical_label};
ghost use Rattle.mta_names.specs.Lists.{canonical_printable, canonical_units, canonical_pair, canonical_pairs, listed};
ghost use Rattle.mta_names.specs.Persons.{canonical_person};
ghost use Rattle.mta_names.specs.Standard.{canonical_text, canonical_named, canonical_standard};
ghost use Rattle.mta_names.specs.Extensions.{canonical_attribute, canonical_common};
ghost use Rattle.mta_names.specs.Extensions.{canonical_extra, canonical_extensions};
ghost use Rattle.mta_names.specs.Names.{kept, name_content, extensions_of};

use crate::attributes::{Attributes, Extra, Label, Pair, Person};
use crate::row::Row;
use mta_ber::{Memory, Octets, Tag, Text, Writer, put_int};
use std::alloc::Global;

/// The tag of a constructed element.
pub fn constructed(class: u8, number: u32) -> Tag
    ensures { result ≡ constructed class number }
{
    Tag {
        class,
        constructed: true,
        number,
    }
}

/// The tag of a primitive element.
pub fn primitive(class: u8, number: u32) -> Tag
    ensures { result ≡ primitive class number }
{
    Tag {
        class,
        constructed: false,
        number,
    }
}

/// Appends the string `[number]`, where it is there.
#[tactic(auto, using(crate::proofs::Written::appended_none))]
fn put_text(w: &mut Writer, number: u32, text: &Option<Text>) -> Result<(), Memory>
    requires { number < 2 ^ 28 }
    ensures ok { OnOk result (w.new ≡ appended w.old (optional (canonical_text number) text.now)) }
    ensures err { OnErr result (w.new ≡ w.old) }
{
    match text {
        None => Ok(()),
        Some(text) => w.put(primitive(2, number), text.as_slice()),
    }
}

/// Appends an element around what `inside` holds.
pub fn put_around(w: &mut Writer, tag: Tag, inside: &Writer) -> Result<(), Memory>
    requires { IsTag tag }
    ensures ok { OnOk result (w.new ≡ appended w.old (element tag inside.now.octets)) }
    ensures err { OnErr result (w.new ≡ w.old) }
{
    w.put(tag, inside.as_slice())
}

/// Appends a label with no tag around it.
pub fn put_label_choice(w: &mut Writer, label: &Label) -> Result<(), Memory>
    ensures ok { OnOk result (w.new ≡ appended w.old (canonical_choice label.now)) }
    ensures err { OnErr result (w.new ≡ w.old) }
{
    let number = if label.numeric { 18 } else { 19 };
    w.put(primitive(0, number), label.text.as_slice())
}

/// Appends a label inside an explicit tag.
pub fn put_label(w: &mut Writer, class: u8, number: u32, label: &Label) -> Result<(), Memory>
    requires { IsTag (constructed class number) }
    ensures ok { OnOk result (w.new ≡ appended w.old (canonical_label class number label.now)) }
    ensures err { OnErr result (w.new ≡ w.old) }
{
    let mut inside = Writer::new(w.alloc());
    put_label_choice(&mut inside, label)?;
    put_around(w, constructed(class, number), &inside)
}

/// Appends a label inside an explicit tag, where it is there.
#[tactic(auto, using(crate::proofs::Written::appended_none))]
fn put_label_if(w: &mut Writer, class: u8, number: u32, label: &Option<Label>) -> Result<(), Memory>
    requires { IsTag (constructed class number) }
    ensures ok { OnOk result (w.new ≡ appended w.old (optional (canonical_label class number) label.now)) }
    ensures err { OnErr result (w.new ≡ w.old) }
{
    match label {
        None => Ok(()),
        Some(label) => put_label(w, class, number, label),
    }
}

/// Appends a personal name, where it is there.
#[tactic(auto, using(crate::proofs::Written::appended_none))]
fn put_person(w: &mut Writer, person: &Option<Person>) -> Result<(), Memory>
    ensures ok { OnOk result (w.new ≡ appended w.old (optional canonical_named person.now)) }
    ensures err { OnErr result (w.new ≡ w.old) }
{
    match person {
        None => Ok(()),
        Some(person) => {
            let fields = person.fields();
            let mut inside = Writer::new(w.alloc());
            inside.put(primitive(2, 0), fields.surname.as_slice())?;
            put_text(&mut inside, 1, &fields.given)?;
            put_text(&mut inside, 2, &fields.initials)?;
            put_text(&mut inside, 3, &fields.generation)?;
            put_around(w, constructed(2, 5), &inside)
        }
    }
}

fn put_printables(w: &mut Writer, texts: &[Text]) -> Result<(), Memory>
    ensures ok { OnOk result (w.new ≡ appended w.old (flat_map canonical_printable texts.now)) }
{
    for text in texts {
        w.put(primitive(0, 19), text.as_slice())?;
    }
    Ok(())
}

/// Appends the unit names, where there are any.
#[tactic(auto, using(crate::proofs::Written::appended_none))]
fn put_units(w: &mut Writer, units: &Row<Text>) -> Result<(), Memory>
    ensures ok { OnOk result (w.new ≡ appended w.old (listed canonical_units units.now)) }
    ensures err { OnErr result (w.new ≡ w.old) }
{
    match units.as_slice() {
        [] => Ok(()),
        units => {
            let mut inside = Writer::new(w.alloc());
            put_printables(&mut inside, units)?;
            put_around(w, constructed(2, 6), &inside)
        }
    }
}

fn put_pair(w: &mut Writer, pair: &Pair) -> Result<(), Memory>
    ensures ok { OnOk result (w.new ≡ appended w.old (canonical_pair pair.now)) }
    ensures err { OnErr result (w.new ≡ w.old) }
{
    let fields = pair.fields();
    let mut inside = Writer::new(w.alloc());
    inside.put(primitive(0, 19), fields.kind.as_slice())?;
    inside.put(primitive(0, 19), fields.value.as_slice())?;
    put_around(w, constructed(0, 16), &inside)
}

fn put_all_pairs(w: &mut Writer, pairs: &[Pair]) -> Result<(), Memory>
    ensures ok { OnOk result (w.new ≡ appended w.old (flat_map canonical_pair pairs.now)) }
{
    for pair in pairs {
        put_pair(w, pair)?;
    }
    Ok(())
}

/// Appends the domain-defined attributes, where there are any.
#[tactic(auto, using(crate::proofs::Written::appended_none))]
fn put_pairs(w: &mut Writer, pairs: &Row<Pair>) -> Result<(), Memory>
    ensures ok { OnOk result (w.new ≡ appended w.old (listed canonical_pairs pairs.now)) }
    ensures err { OnErr result (w.new ≡ w.old) }
{
    match pairs.as_slice() {
        [] => Ok(()),
        pairs => {
            let mut inside = Writer::new(w.alloc());
            put_all_pairs(&mut inside, pairs)?;
            put_around(w, constructed(0, 16), &inside)
        }
    }
}

/// Appends an extension attribute, whose value is the whole element `value`.
fn put_attribute(w: &mut Writer, number: u32, value: &[u8]) -> Result<(), Memory>
    ensures ok { OnOk result (w.new ≡ appended w.old (canonical_attribute number value.now)) }
    ensures err { OnErr result (w.new ≡ w.old) }
{
    let mut inside = Writer::new(w.alloc());
    put_int(&mut inside, primitive(2, 0), number as i64)?;
    inside.put_raw(value)?;
    put_around(w, constructed(0, 16), &inside)
}

#[tactic(auto, using(crate::proofs::Written::appended_none))]
fn put_common(w: &mut Writer, common: &Option<Text>) -> Result<(), Memory>
    ensures ok { OnOk result (w.new ≡ appended w.old (optional canonical_common common.now)) }
    ensures err { OnErr result (w.new ≡ w.old) }
{
    match common {
        None => Ok(()),
        Some(common) => {
            let mut string = Writer::new(w.alloc());
            string.put(primitive(0, 19), common.as_slice())?;
            let mut value = Writer::new(w.alloc());
            put_around(&mut value, constructed(2, 1), &string)?;
            put_attribute(w, 1, value.as_slice())
        }
    }
}

fn put_extras(w: &mut Writer, extras: &[Extra]) -> Result<(), Memory>
    ensures ok { OnOk result (w.new ≡ appended w.old (flat_map canonical_extra extras.now)) }
{
    for extra in extras {
        let fields = extra.fields();
        put_attribute(w, fields.number, fields.raw.as_slice())?;
    }
    Ok(())
}

/// Appends the extension attributes, where there are any: the common name first.
#[tactic(auto, using(crate::proofs::Written::appended_none))]
fn put_extensions(w: &mut Writer, n: &Attributes) -> Result<(), Memory>
    ensures ok { OnOk result (w.new ≡ appended w.old (canonical_extensions (extensions_of n.now))) }
    ensures err { OnErr result (w.new ≡ w.old) }
{
    if n.common.is_none() && n.extras.len() == 0 {
        return Ok(());
    }
    let mut inside = Writer::new(w.alloc());
    put_common(&mut inside, &n.common)?;
    put_extras(&mut inside, n.extras.as_slice())?;
    put_around(w, constructed(0, 17), &inside)
}

fn put_standard(w: &mut Writer, n: &Attributes) -> Result<(), Memory>
    ensures ok { OnOk result (w.new ≡ appended w.old (canonical_standard n.now)) }
    ensures err { OnErr result (w.new ≡ w.old) }
{
    let mut inside = Writer::new(w.alloc());
    put_label_if(&mut inside, 1, 1, &n.country)?;
    put_label_if(&mut inside, 1, 2, &n.admd)?;
    put_text(&mut inside, 0, &n.network)?;
    put_text(&mut inside, 1, &n.terminal)?;
    put_label_if(&mut inside, 2, 2, &n.prmd)?;
    put_text(&mut inside, 3, &n.organization)?;
    put_text(&mut inside, 4, &n.user)?;
    put_person(&mut inside, &n.person)?;
    put_units(&mut inside, &n.units)?;
    put_around(w, constructed(0, 16), &inside)
}

/// Appends octets that are kept, where they are there.
#[tactic(auto, using(crate::proofs::Written::appended_none))]
pub fn put_raw_if(w: &mut Writer, raw: &Option<Octets>) -> Result<(), Memory>
    ensures ok { OnOk result (w.new ≡ appended w.old (optional kept raw.now)) }
    ensures err { OnErr result (w.new ≡ w.old) }
{
    match raw {
        None => Ok(()),
        Some(raw) => w.put_raw(raw.as_slice()),
    }
}

/// The components of a name, in a writer of their own.
pub fn put_components(alloc: Global, n: &Attributes) -> Result<Writer, Memory>
    ensures { IfOk result (λ w. w.octets ≡ name_content n.now) }
{
    let mut inside = Writer::new(alloc);
    put_standard(&mut inside, n)?;
    put_pairs(&mut inside, &n.pairs)?;
    put_extensions(&mut inside, n)?;
    put_raw_if(&mut inside, &n.directory)?;
    Ok(inside)
}

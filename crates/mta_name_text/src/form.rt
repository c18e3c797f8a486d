//! Writing a name's text form.

ghost use Rattle.std.specs.Prelude.{◌≡◌, OnOk, IfOk};
ghost use Rattle.mta_name_text.specs.Forms.{followed, followed_all, keyed_if, labelled_if, units_keyed};
ghost use Rattle.mta_name_text.specs.Forms.{person_keyed, pairs_keyed, text_form};

use crate::key::Key;
use mta_ber::{Memory, Octets, Text};
use mta_names::{Label, OrName, Pair, Person};
use std::alloc::Global;

/// Appends a part, behind a semicolon where something stands before it.
#[tactic(auto, using(crate::proofs::Texts::part_written))]
fn put_part(out: &mut Octets, key: Key, kind: &[u8], value: &[u8]) -> Result<(), Memory>
    ensures { OnOk result (out.new ≡ followed out.old (record { key = key; kind = kind.now; value = value.now })) }
{
    if !out.is_empty() {
        out.extend(b";")?;
    }
    out.extend(key.text())?;
    out.extend(kind)?;
    out.extend(b"=")?;
    out.extend(value)?;
    Ok(())
}

fn put_text(out: &mut Octets, key: Key, text: &Option<Text>) -> Result<(), Memory>
    ensures { OnOk result (out.new ≡ followed_all out.old (keyed_if key text.now)) }
{
    match text {
        None => Ok(()),
        Some(text) => put_part(out, key, b"", text.as_slice()),
    }
}

fn put_label(out: &mut Octets, key: Key, label: &Option<Label>) -> Result<(), Memory>
    ensures { OnOk result (out.new ≡ followed_all out.old (labelled_if key label.now)) }
{
    match label {
        None => Ok(()),
        Some(label) => put_part(out, key, b"", label.text.as_slice()),
    }
}

fn put_units(out: &mut Octets, units: &[Text]) -> Result<(), Memory>
    ensures { OnOk result (out.new ≡ followed_all out.old (units_keyed units.now)) }
{
    for unit in units {
        put_part(out, Key::Unit, b"", unit.as_slice())?;
    }
    Ok(())
}

#[tactic(auto, using(crate::proofs::Texts::followed_twice))]
fn put_person(out: &mut Octets, person: &Option<Person>) -> Result<(), Memory>
    ensures { OnOk result (out.new ≡ followed_all out.old (person_keyed person.now)) }
{
    match person {
        None => Ok(()),
        Some(person) => {
            let fields = person.fields();
            put_part(out, Key::Surname, b"", fields.surname.as_slice())?;
            put_text(out, Key::Given, &fields.given)?;
            put_text(out, Key::Initials, &fields.initials)?;
            put_text(out, Key::Generation, &fields.generation)
        }
    }
}

fn put_pairs(out: &mut Octets, pairs: &[Pair]) -> Result<(), Memory>
    ensures { OnOk result (out.new ≡ followed_all out.old (pairs_keyed pairs.now)) }
{
    for pair in pairs {
        let fields = pair.fields();
        put_part(
            out,
            Key::Pair,
            fields.kind.as_slice(),
            fields.value.as_slice(),
        )?;
    }
    Ok(())
}

/// The text form of a name: its parts in the order of the keys. What is kept unread is not printed, and a name without
/// a part has the empty text.
pub fn name_text(alloc: Global, name: &OrName) -> Result<Text, Memory>
    ensures { IfOk result (λ t. t ≡ text_form name.now) }
{
    let n = name.attributes();
    let mut out = Octets::new(alloc);
    put_label(&mut out, Key::Country, &n.country)?;
    put_label(&mut out, Key::Admd, &n.admd)?;
    put_label(&mut out, Key::Prmd, &n.prmd)?;
    put_text(&mut out, Key::Organization, &n.organization)?;
    put_units(&mut out, n.units.as_slice())?;
    put_person(&mut out, &n.person)?;
    put_text(&mut out, Key::Common, &n.common)?;
    put_text(&mut out, Key::Network, &n.network)?;
    put_text(&mut out, Key::Terminal, &n.terminal)?;
    put_text(&mut out, Key::User, &n.user)?;
    put_pairs(&mut out, n.pairs.as_slice())?;
    Ok(Text::from_octets(out))
}

//! Comparing O/R names with a country, an administration domain and a surname that are lent.

ghost use Rattle.std.specs.Prelude.{◌≡◌, [], Some, None};
ghost use Rattle.mta_names.specs.Normal.{is_same_name, is_same_label, is_same_value, is_same_texts, is_same_persons};
ghost use Rattle.mta_names.specs.Normal.{is_same_pairs};
ghost use Rattle.mta_tables.specs.Indexes.{digest_of_name};
ghost use Rattle.mta_tables.specs.Surnames.{label_of, person_of, name_of_surname};

use mta_ber::Text;
use mta_name_digest::{digest_step, text_digest};
use mta_names::{Attributes, Label, OrName, Pair, Person, same_text};

fn is_label(label: &Option<Label>, text: &[u8]) -> bool
    ensures { result ≡ is_same_label label.now (Some (label_of text.now)) }
{
    match label {
        None => false,
        Some(label) => same_text(label.text.as_slice(), text),
    }
}

fn is_no_label(label: &Option<Label>) -> bool
    ensures { result ≡ is_same_label label.now None }
{
    match label {
        None => true,
        Some(_) => false,
    }
}

fn is_no_value(text: &Option<Text>) -> bool
    ensures { result ≡ is_same_value text.now None }
{
    match text {
        None => true,
        Some(_) => false,
    }
}

fn is_person(person: &Option<Person>, surname: &[u8]) -> bool
    ensures { result ≡ is_same_persons person.now (Some (person_of surname.now)) }
{
    match person {
        None => false,
        Some(person) => {
            let fields = person.fields();
            same_text(fields.surname.as_slice(), surname)
                && is_no_value(&fields.given)
                && is_no_value(&fields.initials)
                && is_no_value(&fields.generation)
        }
    }
}

fn are_no_units(units: &[Text]) -> bool
    ensures { result ≡ is_same_texts units.now [] }
{
    match units {
        [] => true,
        [_, ..] => false,
    }
}

fn are_no_pairs(pairs: &[Pair]) -> bool
    ensures { result ≡ is_same_pairs pairs.now [] }
{
    match pairs {
        [] => true,
        [_, ..] => false,
    }
}

#[tactic(auto, unfolding(mta_names::specs::Normal::is_same_name))]
fn are_of_surname(n: &Attributes, country: &[u8], admd: &[u8], surname: &[u8]) -> bool
    ensures { result ≡ is_same_name n.now (name_of_surname country.now admd.now surname.now) }
{
    is_label(&n.country, country)
        && is_label(&n.admd, admd)
        && is_no_label(&n.prmd)
        && is_no_value(&n.organization)
        && are_no_units(n.units.as_slice())
        && is_person(&n.person, surname)
        && is_no_value(&n.common)
        && is_no_value(&n.network)
        && is_no_value(&n.terminal)
        && is_no_value(&n.user)
        && are_no_pairs(n.pairs.as_slice())
}

/// Whether a name is the same as the one that has this country, administration domain and surname and nothing else
/// (X.402, clause 18).
pub fn is_of_surname(name: &OrName, country: &[u8], admd: &[u8], surname: &[u8]) -> bool
    ensures { result ≡ is_same_name name.now (name_of_surname country.now admd.now surname.now) }
{
    are_of_surname(name.attributes(), country, admd, surname)
}

/// The digest of the name that has this country, administration domain and surname and nothing else.
#[tactic(auto, unfolding(mta_name_digest::specs::Digests::name_digest))]
pub fn surname_digest(country: &[u8], admd: &[u8], surname: &[u8]) -> u64
    ensures { result ≡ digest_of_name (name_of_surname country.now admd.now surname.now) }
{
    let digest = text_digest(text_digest(0, country), admd);
    // No private domain, no organization, no unit.
    let digest = digest_step(digest_step(digest_step(digest, 1), 1), 2);
    let digest = text_digest(digest, surname);
    // No given name, no initials, no generation qualifier.
    let digest = digest_step(digest_step(digest_step(digest, 1), 1), 1);
    // No common name, no network address, no terminal identifier, no user identifier, no domain-defined attribute.
    let digest = digest_step(digest_step(digest_step(digest, 1), 1), 1);
    digest_step(digest_step(digest, 1), 2)
}

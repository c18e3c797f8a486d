//! How many octets names have that are written, told without writing them: no call here takes memory. Each answers
//! 2^64 - 1 where there are as many octets or more.

ghost use Rattle.std.specs.Prelude.{◌≡◌, ◌<◌, ◌++◌, List, ℕ, []};
ghost use Rattle.std.specs.List.{flat_map};
ghost use Rattle.mta_ber.specs.Canon.{element, optional};
ghost use Rattle.mta_ber.specs.Lengths.{octet_length};
ghost use Rattle.mta_names.specs.Extensions.{canonical_attribute, canonical_common, canonical_extra};
ghost use Rattle.mta_names.specs.Extensions.{canonical_extensions};
ghost use Rattle.mta_names.specs.Labels.{canonical_choice, canonical_label};
ghost use Rattle.mta_names.specs.Lists.{canonical_printable, canonical_units, canonical_pair, canonical_pairs, listed};
ghost use Rattle.mta_names.specs.Names.{kept, name_content, extensions_of};
ghost use Rattle.mta_names.specs.Persons.{canonical_person};
ghost use Rattle.mta_names.specs.Standard.{canonical_text, canonical_named, canonical_standard};

use crate::attributes::{Attributes, Extra, Label, Pair, Person, PersonFields};
use crate::row::Row;
use crate::writing::{constructed, primitive};
use mta_ber::{Octets, Text, element_length, int_length, length_of_both, slice_length};

/// How many octets the string `[number]` has, where it is there.
fn text_length(number: u32, text: &Option<Text>) -> u64
    requires { number < 31 }
    ensures { result ≡ octet_length (optional (canonical_text number) text.now) }
{
    match text {
        None => 0,
        Some(text) => element_length(primitive(2, number), slice_length(text.as_slice())),
    }
}

/// How many octets a label has with no tag around it.
pub fn label_choice_length(label: &Label) -> u64
    ensures { result ≡ octet_length (canonical_choice label.now) }
{
    let number = if label.numeric { 18 } else { 19 };
    element_length(primitive(0, number), slice_length(label.text.as_slice()))
}

/// How many octets a label has inside an explicit tag.
pub fn label_length(class: u8, number: u32, label: &Label) -> u64
    requires { number < 31 }
    ensures { result ≡ octet_length (canonical_label class number label.now) }
{
    element_length(constructed(class, number), label_choice_length(label))
}

fn label_if_length(class: u8, number: u32, label: &Option<Label>) -> u64
    requires { number < 31 }
    ensures { result ≡ octet_length (optional (canonical_label class number) label.now) }
{
    match label {
        None => 0,
        Some(label) => label_length(class, number, label),
    }
}

fn printable_length(text: &Text) -> u64
    ensures { result ≡ octet_length (canonical_printable text.now) }
{
    element_length(primitive(0, 19), slice_length(text.as_slice()))
}

/// How many octets the required string `[number]` has.
fn string_length(number: u32, text: &Text) -> u64
    requires { number < 31 }
    ensures { result ≡ octet_length (canonical_text number text.now) }
{
    element_length(primitive(2, number), slice_length(text.as_slice()))
}

/// How many contents octets a personal name has.
fn person_content_length(person: &PersonFields) -> u64
    ensures { result ≡ octet_length (canonical_person person.now) }
{
    let surname = string_length(0, &person.surname);
    let given = text_length(1, &person.given);
    let named = length_of_both(surname, given);
    let initials = text_length(2, &person.initials);
    let begun = length_of_both(named, initials);
    let generation = text_length(3, &person.generation);
    length_of_both(begun, generation)
}

/// How many octets a personal name has, where it is there.
fn person_length(person: &Option<Person>) -> u64
    ensures { result ≡ octet_length (optional canonical_named person.now) }
{
    match person {
        None => 0,
        Some(person) => element_length(constructed(2, 5), person_content_length(person.fields())),
    }
}

fn printables_length(texts: &[Text]) -> u64
    ensures { result ≡ octet_length (flat_map canonical_printable texts.now) }
{
    let mut total = 0;
    for text in texts {
        total = length_of_both(total, printable_length(text));
    }
    total
}

fn units_length(units: &Row<Text>) -> u64
    ensures { result ≡ octet_length (listed canonical_units units.now) }
{
    match units.as_slice() {
        [] => 0,
        units => element_length(constructed(2, 6), printables_length(units)),
    }
}

fn pair_length(pair: &Pair) -> u64
    ensures { result ≡ octet_length (canonical_pair pair.now) }
{
    let fields = pair.fields();
    let content = length_of_both(
        printable_length(&fields.kind),
        printable_length(&fields.value),
    );
    element_length(constructed(0, 16), content)
}

fn all_pairs_length(pairs: &[Pair]) -> u64
    ensures { result ≡ octet_length (flat_map canonical_pair pairs.now) }
{
    let mut total = 0;
    for pair in pairs {
        total = length_of_both(total, pair_length(pair));
    }
    total
}

fn pairs_length(pairs: &Row<Pair>) -> u64
    ensures { result ≡ octet_length (listed canonical_pairs pairs.now) }
{
    match pairs.as_slice() {
        [] => 0,
        pairs => element_length(constructed(0, 16), all_pairs_length(pairs)),
    }
}

/// How many octets an extension attribute has, where its value has so many.
fn attribute_length(number: u32, value: u64) -> u64
    ensures { (octets : List ℕ) → value ≡ octet_length octets
        → result ≡ octet_length (canonical_attribute number octets) }
{
    let content = length_of_both(int_length(primitive(2, 0), number as i64), value);
    element_length(constructed(0, 16), content)
}

fn common_length(common: &Option<Text>) -> u64
    ensures { result ≡ octet_length (optional canonical_common common.now) }
{
    match common {
        None => 0,
        Some(common) => {
            let value = element_length(constructed(2, 1), printable_length(common));
            attribute_length(1, value)
        }
    }
}

fn extra_length(extra: &Extra) -> u64
    ensures { result ≡ octet_length (canonical_extra extra.now) }
{
    let fields = extra.fields();
    attribute_length(fields.number, slice_length(fields.raw.as_slice()))
}

fn extras_length(extras: &[Extra]) -> u64
    ensures { result ≡ octet_length (flat_map canonical_extra extras.now) }
{
    let mut total = 0;
    for extra in extras {
        total = length_of_both(total, extra_length(extra));
    }
    total
}

fn attributes_length(n: &Attributes) -> u64
    ensures { result ≡ octet_length
        (optional canonical_common n.now.common ++ flat_map canonical_extra n.now.extras) }
{
    length_of_both(common_length(&n.common), extras_length(n.extras.as_slice()))
}

fn extensions_length(n: &Attributes) -> u64
    ensures { result ≡ octet_length (canonical_extensions (extensions_of n.now)) }
{
    let content = attributes_length(n);
    if n.common.is_none() && n.extras.len() == 0 {
        return 0;
    }
    element_length(constructed(0, 17), content)
}

fn standard_length(n: &Attributes) -> u64
    ensures { result ≡ octet_length (canonical_standard n.now) }
{
    let country = label_if_length(1, 1, &n.country);
    let domains = length_of_both(country, label_if_length(1, 2, &n.admd));
    let network = length_of_both(domains, text_length(0, &n.network));
    let terminal = length_of_both(network, text_length(1, &n.terminal));
    let private = length_of_both(terminal, label_if_length(2, 2, &n.prmd));
    let organization = length_of_both(private, text_length(3, &n.organization));
    let user = length_of_both(organization, text_length(4, &n.user));
    let person = length_of_both(user, person_length(&n.person));
    let units = length_of_both(person, units_length(&n.units));
    element_length(constructed(0, 16), units)
}

/// How many octets are kept, where they are there.
pub fn raw_length(raw: &Option<Octets>) -> u64
    ensures { result ≡ octet_length (optional kept raw.now) }
{
    match raw {
        None => 0,
        Some(raw) => slice_length(raw.as_slice()),
    }
}

/// How many contents octets a name has.
pub fn components_length(n: &Attributes) -> u64
    ensures { result ≡ octet_length (name_content n.now) }
{
    let pairs = length_of_both(standard_length(n), pairs_length(&n.pairs));
    let extensions = length_of_both(pairs, extensions_length(n));
    length_of_both(extensions, raw_length(&n.directory))
}

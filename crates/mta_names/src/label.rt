//! Labels of countries and domains.

ghost use Rattle.std.specs.Prelude.{◌≡◌, ◌-◌, List, ℕ};
ghost use Rattle.std.specs.List.{list_all};
ghost use Rattle.mta_ber.specs.Parts.{Reads};
ghost use Rattle.mta_ber.specs.Seen.{view};
ghost use Rattle.mta_ber.specs.Strings.{in_class};
ghost use Rattle.mta_names.specs.Labels.{country_choice, label_choice, country_in, label_in};
ghost use Rattle.mta_names.specs.Strings.{string_in};
ghost use Rattle.mta_names.specs.Values.{country_character, country_size, label_class};

use crate::attributes::Label;
use mta_ber::{Kind, ReadFault, Text, TextClass, View, bad, is_of_class, is_tag_of};
use std::alloc::Global;

/// Whether these are digits, or in a label that is not numeric letters.
pub fn are_country_characters(numeric: bool, text: &[u8]) -> bool
    ensures { result ≡ list_all (country_character numeric) text.now }
{
    if numeric {
        text.iter().all(|c| matches!(*c, 48..=57))
    } else {
        text.iter()
            .all(|c| matches!(*c, 65..=90) || matches!(*c, 97..=122))
    }
}

/// How many characters a country has.
pub fn country_size_of(numeric: bool) -> usize
    ensures { result ≡ country_size numeric }
{
    if numeric { 3 } else { 2 }
}

/// The class of a label's characters.
pub fn label_class_of(numeric: bool) -> TextClass
    ensures { result ≡ label_class numeric }
{
    if numeric {
        TextClass::Numeric
    } else {
        TextClass::Printable
    }
}

#[tactic(auto, unfolding(crate::specs::Strings::string_in))]
fn read_country_text(alloc: Global, part: &View, numeric: bool) -> Result<Text, ReadFault>
    ensures { Reads result (string_in (list_all (country_character numeric)) (country_size numeric)
        (country_size numeric) (view part.now)) }
{
    let octets = part.joined(alloc)?;
    if !are_country_characters(numeric, octets.as_slice()) {
        return bad(part.at, Kind::BadText);
    }
    let size = country_size_of(numeric);
    if octets.len() < size || size < octets.len() {
        return bad(part.at, Kind::BadSize);
    }
    Ok(Text::from_octets(octets))
}

#[tactic(auto, unfolding(crate::specs::Strings::string_in))]
fn read_label_text(
    alloc: Global,
    part: &View,
    numeric: bool,
    low: u32,
    high: u32,
) -> Result<Text, ReadFault>
    ensures { Reads result (string_in (list_all (in_class (label_class numeric))) low high (view part.now)) }
{
    let octets = part.joined(alloc)?;
    if !is_of_class(label_class_of(numeric), octets.as_slice()) {
        return bad(part.at, Kind::BadText);
    }
    let count = octets.len();
    if count < (low as usize) || (high as usize) < count {
        return bad(part.at, Kind::BadSize);
    }
    Ok(Text::from_octets(octets))
}

#[tactic(auto, unfolding(crate::specs::Labels::country_choice))]
fn read_country_choice(alloc: Global, part: &View) -> Result<Label, ReadFault>
    ensures { Reads result (country_choice (view part.now)) }
{
    if is_tag_of(part.tag, 0, 18) {
        let text = read_country_text(alloc, part, true)?;
        Ok(Label {
            numeric: true,
            text,
        })
    } else if is_tag_of(part.tag, 0, 19) {
        let text = read_country_text(alloc, part, false)?;
        Ok(Label {
            numeric: false,
            text,
        })
    } else {
        bad(part.at, Kind::BadTag)
    }
}

/// A label of `low` to `high` characters, with no tag around it.
#[tactic(auto, unfolding(crate::specs::Labels::label_choice))]
pub fn read_label_choice(
    alloc: Global,
    part: &View,
    low: u32,
    high: u32,
) -> Result<Label, ReadFault>
    ensures { Reads result (label_choice low high (view part.now)) }
{
    if is_tag_of(part.tag, 0, 18) {
        let text = read_label_text(alloc, part, true, low, high)?;
        Ok(Label {
            numeric: true,
            text,
        })
    } else if is_tag_of(part.tag, 0, 19) {
        let text = read_label_text(alloc, part, false, low, high)?;
        Ok(Label {
            numeric: false,
            text,
        })
    } else {
        bad(part.at, Kind::BadTag)
    }
}

/// The country inside an explicit tag: two letters as PrintableString, or three digits as NumericString.
pub fn read_country(alloc: Global, part: &View) -> Result<Label, ReadFault>
    ensures { Reads result (country_in (view part.now)) }
{
    let inside = part.inner()?;
    let label = read_country_choice(alloc, &inside)?;
    inside.alone()?;
    Ok(label)
}

/// The label of `low` to `high` characters inside an explicit tag.
pub fn read_label(alloc: Global, part: &View, low: u32, high: u32) -> Result<Label, ReadFault>
    ensures { Reads result (label_in low high (view part.now)) }
{
    let inside = part.inner()?;
    let label = read_label_choice(alloc, &inside, low, high)?;
    inside.alone()?;
    Ok(label)
}

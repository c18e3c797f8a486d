//! The parts of a name by which routes go.

ghost use Rattle.std.specs.Prelude.{◌≡◌, ◌≤◌, ◌-◌, slice_get};
ghost use Rattle.std.specs.Option.{option_copied, option_map};
ghost use Rattle.mta_name_text.specs.Forms.{label_text};
ghost use Rattle.mta_name_text.specs.Routes.{route_attributes};
ghost use Rattle.mta_tables.specs.Fronts.{part_at};

use mta_ber::Text;
use mta_names::{Attributes, Label, OrName};

fn label_text(label: &Option<Label>) -> Option<&[u8]>
    ensures { option_copied result ≡ option_map label_text label.now }
{
    match label {
        None => None,
        Some(label) => Some(label.text.as_slice()),
    }
}

fn text_of(text: &Option<Text>) -> Option<&[u8]>
    ensures { option_copied result ≡ text.now }
{
    match text {
        None => None,
        Some(text) => Some(text.as_slice()),
    }
}

fn unit_at(units: &[Text], place: usize) -> Option<&[u8]>
    ensures { option_copied result ≡ slice_get units.now place }
{
    match units.get(place) {
        None => None,
        Some(text) => Some(text.as_slice()),
    }
}

fn attribute_at(n: &Attributes, place: usize) -> Option<&[u8]>
    ensures { option_copied result ≡ part_at (route_attributes n.now) place }
{
    if place == 0 {
        label_text(&n.country)
    } else if place == 1 {
        label_text(&n.admd)
    } else if place == 2 {
        label_text(&n.prmd)
    } else if place == 3 {
        text_of(&n.organization)
    } else {
        unit_at(n.units.as_slice(), place - 4)
    }
}

/// The part at a place: from 0 the country, the administration domain, the private domain, the organization, and then
/// the units.
pub fn part_at(name: &OrName, place: usize) -> Option<&[u8]>
    ensures { option_copied result ≡ part_at (route_attributes name.now) place }
{
    attribute_at(name.attributes(), place)
}

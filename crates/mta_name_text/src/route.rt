//! Which names are on a route.

ghost use Rattle.std.specs.Prelude.{◌≡◌, ◌∷◌, map, IsTrue, ◌↔◌};
ghost use Rattle.std.specs.Option.{option_map};
ghost use Rattle.mta_names.specs.Normal.{is_same_value};
ghost use Rattle.mta_name_text.specs.Forms.{label_text};
ghost use Rattle.mta_name_text.specs.Routes.{present, route_attributes, has_parts, HasRoute};

use crate::pattern::Pattern;
use mta_ber::Text;
use mta_names::{Attributes, Label, OrName, same_text};

fn is_label(label: &Option<Label>, part: &Text) -> bool
    ensures { result ≡ is_same_value (option_map label_text label.now) (present part.now) }
{
    match label {
        None => false,
        Some(label) => same_text(label.text.as_slice(), part.as_slice()),
    }
}

fn is_text(text: &Option<Text>, part: &Text) -> bool
    ensures { result ≡ is_same_value text.now (present part.now) }
{
    match text {
        None => false,
        Some(text) => same_text(text.as_slice(), part.as_slice()),
    }
}

#[tactic(auto, using(crate::proofs::RouteLaws::none_left))]
fn has_units(parts: &[Text], units: &[Text]) -> bool
    ensures { result ≡ has_parts parts.now (map present units.now) }
{
    match parts {
        [] => true,
        [part, others @ ..] => match units {
            [] => false,
            [unit, rest @ ..] => {
                same_text(unit.as_slice(), part.as_slice()) && has_units(others, rest)
            }
        },
    }
}

fn from_organization(parts: &[Text], n: &Attributes) -> bool
    ensures { result ≡ has_parts parts.now (n.now.organization ∷ map present n.now.units) }
{
    match parts {
        [] => true,
        [part, others @ ..] => {
            is_text(&n.organization, part) && has_units(others, n.units.as_slice())
        }
    }
}

fn from_prmd(parts: &[Text], n: &Attributes) -> bool
    ensures { result ≡ has_parts parts.now
        (option_map label_text n.now.prmd ∷ n.now.organization ∷ map present n.now.units) }
{
    match parts {
        [] => true,
        [part, others @ ..] => is_label(&n.prmd, part) && from_organization(others, n),
    }
}

fn from_admd(parts: &[Text], n: &Attributes) -> bool
    ensures { result ≡ has_parts parts.now (option_map label_text n.now.admd ∷ option_map label_text n.now.prmd ∷
        n.now.organization ∷ map present n.now.units) }
{
    match parts {
        [] => true,
        [part, others @ ..] => is_label(&n.admd, part) && from_prmd(others, n),
    }
}

fn from_country(parts: &[Text], n: &Attributes) -> bool
    ensures { result ≡ has_parts parts.now (route_attributes n.now) }
{
    match parts {
        [] => true,
        [part, others @ ..] => is_label(&n.country, part) && from_admd(others, n),
    }
}

/// Whether each part of a pattern is in the name with equal normal text: the parts are a country, an administration
/// domain, a private domain, an organization and units, and leave out none before their last.
pub fn has_route(name: &OrName, pattern: &Pattern) -> bool
    ensures { IsTrue result ↔ HasRoute name.now pattern.now }
{
    from_country(pattern.parts(), name.attributes())
}

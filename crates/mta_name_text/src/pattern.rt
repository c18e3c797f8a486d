//! Patterns of routes.

use mta_ber::Text;
use mta_names::Row;
use std::marker::Model;

/// A pattern of a route, seen by contracts as the list of its parts: a country, an administration domain, a private
/// domain, an organization and at most four units, with none left out before the last part, each with the characters
/// and the size that it has in a name.
#[derive(Drop)]
pub struct Pattern {
    parts: Row<Text>,
}

impl Model for Pattern {
    ghost use Rattle.std.specs.Prelude.{List, ℕ};
    ghost use Rattle.mta_name_text.specs.Made.{IsPattern};

    ghost Value = { List (List ℕ) };

    ghost view = { λ p. p.parts };

    ghost invariant = { λ p. IsPattern p.parts };
}

impl Pattern {
    ghost use Rattle.std.specs.Prelude.{◌≡◌};
    ghost use Rattle.mta_name_text.specs.Made.{IsPattern};

    /// The parts, lent.
    pub fn parts(&self) -> &[Text]
        ensures exact { result.now ≡ self.now }
        ensures pattern { IsPattern self.now }
    {
        self.parts.as_slice()
    }

    /// A pattern of these parts, which takes no memory.
    pub(crate) fn from_parts(parts: Row<Text>) -> Pattern
        requires { IsPattern parts }
        ensures { result ≡ parts }
    {
        Pattern { parts }
    }
}

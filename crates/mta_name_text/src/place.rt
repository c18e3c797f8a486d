//! Which parts may follow which.

ghost use Rattle.std.specs.Prelude.{◌≡◌};
ghost use Rattle.mta_name_text.specs.Grammar.{start, behind, follows};

use crate::key::Key;

/// What a text is the text form of.
#[derive(Clone, Copy)]
pub enum Grammar {
    /// A name: parts in the order of their keys, given name, initials and generation only behind a surname.
    Names,
    /// A pattern of a route: country, administration domain, private domain, organization and units, none left out
    /// before the last part.
    Patterns,
}

/// What stands before a part: the place of the last key, how many more parts of that key may follow, and whether there
/// is a surname.
#[derive(Clone, Copy)]
pub struct Place {
    pub last: u8,
    pub left: u8,
    pub surname: bool,
}

impl Place {
    /// No part.
    pub fn start() -> Place
        ensures { result ≡ start }
    {
        Place {
            last: 0,
            left: 0,
            surname: false,
        }
    }

    /// What stands before the next part, behind a part of this key.
    pub fn behind(self, key: Key) -> Place
        ensures { result ≡ behind self key }
    {
        let place = key.place();
        let left = if self.last == place {
            self.left.saturating_sub(1)
        } else {
            key.repeats()
        };
        Place {
            last: place,
            left,
            surname: self.surname || key.is_surname(),
        }
    }

    /// Whether a part of this key may stand here.
    pub fn follows(self, grammar: Grammar, key: Key) -> bool
        ensures { result ≡ follows grammar self key }
    {
        let place = key.place();
        let again = self.last == place && 0 < self.left;
        match grammar {
            Grammar::Names => {
                (self.last < place || again) && (self.surname || !key.needs_surname())
            }
            Grammar::Patterns => { (self.last as u16 + 1 == place as u16 || again) && place <= 5 }
        }
    }
}

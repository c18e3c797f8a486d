//! Text forms and routes as methods of names and patterns.

ghost use Rattle.std.specs.Prelude.{◌≡◌, ◌↔◌, IsTrue, ℕ, List, Err, IfOk};
ghost use Rattle.mta_names.specs.declared.attributes.Attributes.{Attributes as AttributesValue};
ghost use Rattle.mta_name_text.specs.declared.fault.NameFault.TheVariants as Faults;
ghost use Rattle.mta_name_text.specs.declared.place.Grammar.TheVariants as Grammars;
ghost use Rattle.mta_name_text.specs.Forms.{text_form};
ghost use Rattle.mta_name_text.specs.Grammar.{IsFirstFault};
ghost use Rattle.mta_name_text.specs.Made.{IsTextForm, name_of_text, IsPatternForm, pattern_of_text};
ghost use Rattle.mta_name_text.specs.Reading.{Reads, IsReadAs};
ghost use Rattle.mta_name_text.specs.Routes.{HasRoute};

use crate::fault::NameFault;
use crate::form::name_text;
use crate::pattern::Pattern;
use crate::reading::{name_from_text, pattern_from_text};
use crate::route::has_route;
use mta_ber::{Memory, Text};
use mta_names::OrName;
use std::alloc::Global;

/// A value that is read from a text form: a name or a pattern.
pub trait FromText: Sized {
    /// The value of a text form. `NameText` at the first octet at which no text form goes on.
    fn from_text(alloc: Global, text: &[u8]) -> Result<Self, NameFault>;
}

impl FromText for OrName {
    /// The name of a text form: parts KEY=value joined by semicolons, in the order C, A, P, O, OU (up to four), S, G,
    /// I, Q, CN, X121, TID, UID, DDA:type (up to four), at least one of them, and G, I and Q only behind S.
    fn from_text(alloc: Global, text: &[u8]) -> Result<OrName, NameFault>
        ensures exact { Reads result (name_of_text text.now) }

        // What is answered has this text form, and what has it is answered, unless memory runs out.
        ensures found { IfOk result (IsTextForm text.now) }
        ensures only { (n : AttributesValue) → IsTextForm text.now n → IsReadAs result n }

        // Which octet is at fault.
        ensures fault { (at : ℕ) → result ≡ Err (Faults.NameText at) → IsFirstFault Grammars.Names text.now at }
    {
        name_from_text(alloc, text)
    }
}

impl FromText for Pattern {
    /// The pattern of a text form: parts C, A, P, O and OU (up to four), joined by semicolons, from C on with none left
    /// out before the last.
    fn from_text(alloc: Global, text: &[u8]) -> Result<Pattern, NameFault>
        ensures exact { Reads result (pattern_of_text text.now) }

        // What is answered has this text form, and what has it is answered, unless memory runs out.
        ensures found { IfOk result (IsPatternForm text.now) }
        ensures only { (values : List (List ℕ)) → IsPatternForm text.now values → IsReadAs result values }

        // Which octet is at fault.
        ensures fault { (at : ℕ) → result ≡ Err (Faults.NameText at)
            → IsFirstFault Grammars.Patterns text.now at }
    {
        pattern_from_text(alloc, text)
    }
}

/// What an O/R name is as a text, and on which routes it is.
pub trait NameForm {
    /// The text form.
    fn to_text(&self, alloc: Global) -> Result<Text, Memory>;

    /// Whether the name is on a route.
    fn has_route(&self, pattern: &Pattern) -> bool;
}

impl NameForm for OrName {
    /// The text form of a name: its parts in the order of the keys. What is kept unread is not printed, and a name
    /// without a part has the empty text.
    fn to_text(&self, alloc: Global) -> Result<Text, Memory>
        ensures { IfOk result (λ t. t ≡ text_form self.now) }
    {
        name_text(alloc, self)
    }

    /// Whether each part of a pattern is in the name with equal normal text: the parts are a country, an administration
    /// domain, a private domain, an organization and units, and leave out none before their last.
    fn has_route(&self, pattern: &Pattern) -> bool
        ensures { IsTrue result ↔ HasRoute self.now pattern.now }
    {
        has_route(self, pattern)
    }
}

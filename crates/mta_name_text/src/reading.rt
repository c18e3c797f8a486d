//! Reading text forms of names and of patterns.

ghost use Rattle.std.specs.Prelude.{◌≡◌, ℕ, List, Err, IfOk};
ghost use Rattle.mta_names.specs.declared.attributes.Attributes.{Attributes as AttributesValue};
ghost use Rattle.mta_name_text.specs.declared.fault.NameFault.TheVariants as Faults;
ghost use Rattle.mta_name_text.specs.declared.place.Grammar.TheVariants as Grammars;
ghost use Rattle.mta_name_text.specs.Grammar.{IsFirstFault};
ghost use Rattle.mta_name_text.specs.Made.{IsTextForm, name_of_text, IsPatternForm, pattern_of_text};
ghost use Rattle.mta_name_text.specs.Reading.{Reads, IsReadAs};

use crate::draft::parts_of;
use crate::fault::NameFault;
use crate::made::{NameDraft, finished, name_of, values_of};
use crate::pattern::Pattern;
use crate::place::Grammar;
use mta_ber::Text;
use mta_names::{OrName, Row};
use std::alloc::Global;

/// The attributes that a text form makes.
#[tactic(auto, unfolding(crate::specs::Made::name_of_text))]
fn draft_of(alloc: Global, text: &[u8]) -> Result<NameDraft, NameFault>
    ensures { Reads result (name_of_text text.now) }
{
    let parts = parts_of(alloc, Grammar::Names, text)?;
    let draft = name_of(alloc, parts)?;
    Ok(draft)
}

/// The values that the text form of a pattern has.
#[tactic(auto, unfolding(crate::specs::Made::pattern_of_text))]
fn pattern_values_of(alloc: Global, text: &[u8]) -> Result<Row<Text>, NameFault>
    ensures { Reads result (pattern_of_text text.now) }
{
    let parts = parts_of(alloc, Grammar::Patterns, text)?;
    let values = values_of(alloc, parts)?;
    Ok(values)
}

/// The name of a text form: parts KEY=value joined by semicolons, in the order C, A, P, O, OU (up to four), S, G, I, Q,
/// CN, X121, TID, UID, DDA:type (up to four), at least one of them, and G, I and Q only behind S.
pub fn name_from_text(alloc: Global, text: &[u8]) -> Result<OrName, NameFault>
    ensures exact { Reads result (name_of_text text.now) }

    // What is answered has this text form, and what has it is answered, unless memory runs out.
    ensures found { IfOk result (IsTextForm text.now) }
    ensures only { (n : AttributesValue) → IsTextForm text.now n → IsReadAs result n }

    // Which octet is at fault.
    ensures fault { (at : ℕ) → result ≡ Err (Faults.NameText at) → IsFirstFault Grammars.Names text.now at }
{
    match draft_of(alloc, text) {
        Ok(draft) => {
            let name = finished(alloc, draft)?;
            Ok(name)
        }
        Err(fault) => Err(fault),
    }
}

/// The pattern of a text form: parts C, A, P, O and OU (up to four), joined by semicolons, from C on with none left out
/// before the last.
pub fn pattern_from_text(alloc: Global, text: &[u8]) -> Result<Pattern, NameFault>
    ensures exact { Reads result (pattern_of_text text.now) }

    // What is answered has this text form, and what has it is answered, unless memory runs out.
    ensures found { IfOk result (IsPatternForm text.now) }
    ensures only { (values : List (List ℕ)) → IsPatternForm text.now values → IsReadAs result values }

    // Which octet is at fault.
    ensures fault { (at : ℕ) → result ≡ Err (Faults.NameText at) → IsFirstFault Grammars.Patterns text.now at }
{
    match pattern_values_of(alloc, text) {
        Ok(values) => Ok(Pattern::from_parts(values)),
        Err(fault) => Err(fault),
    }
}

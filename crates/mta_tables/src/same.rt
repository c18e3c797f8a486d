//! Whether names and patterns are the same.

ghost use Rattle.std.specs.Prelude.{◌≡◌};
ghost use Rattle.mta_names.specs.Normal.{is_same_name, is_same_texts};
ghost use Rattle.mta_name_text.specs.Routes.{has_parts, route_attributes};

use mta_ber::Text;
use mta_name_text::{NameForm, Pattern};
use mta_names::{OrName, same_text};

/// Whether the two names are the same (X.402, clause 18).
pub fn is_same(first: &OrName, second: &OrName) -> bool
    ensures { result ≡ is_same_name first.now second.now }
{
    first.same(second)
}

/// Whether a pattern matches a name.
pub fn is_on_route(name: &OrName, pattern: &Pattern) -> bool
    ensures { result ≡ has_parts pattern.now (route_attributes name.now) }
{
    name.has_route(pattern)
}

fn same_parts(first: &[Text], second: &[Text]) -> bool
    ensures { result ≡ is_same_texts first.now second.now }
{
    match (first, second) {
        ([], []) => true,
        ([part, others @ ..], [other, rest @ ..]) => {
            same_text(part.as_slice(), other.as_slice()) && same_parts(others, rest)
        }
        _ => false,
    }
}

/// Whether two patterns have equal normal texts, part by part.
pub fn is_same_pattern(first: &Pattern, second: &Pattern) -> bool
    ensures { result ≡ is_same_texts first.now second.now }
{
    same_parts(first.parts(), second.parts())
}

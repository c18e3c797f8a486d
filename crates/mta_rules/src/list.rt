//! What a verdict asks of a list.

ghost use Rattle.std.specs.Prelude.{◌≡◌, ◌≤◌, length, List, ℕ};
ghost use Rattle.std.specs.List.{list_any};
ghost use Rattle.mta_procedures.specs.Facts.{is_unwanted};
ghost use Rattle.mta_procedures.specs.Histories.{is_of, is_in_history, poster, is_on, may_post, has_full_history};

use mta_envelope::EnvelopeFields;
use mta_fields::Expansion;
use mta_name_text::{NameForm, Pattern};
use mta_names::OrName;
use mta_tables::MailList;

fn is_of(name: &OrName, expansion: &Expansion) -> bool
    ensures { result ≡ is_of name.now expansion.now }
{
    expansion.fields().name.same(name)
}

/// Whether the list was expanded before.
pub fn is_in_history(list: &MailList, envelope: &EnvelopeFields) -> bool
    ensures { result ≡ is_in_history list.now envelope.now }
{
    envelope
        .history
        .as_slice()
        .iter()
        .any(|expansion| is_of(&list.name, expansion))
}

/// Who posts: the list that was expanded last, or the originator.
fn poster(envelope: &EnvelopeFields) -> &OrName
    ensures { result.now ≡ poster envelope.now }
{
    match envelope.history.as_slice().last() {
        Some(expansion) => &expansion.fields().name,
        None => &envelope.originator,
    }
}

fn is_on(name: &OrName, pattern: &Pattern) -> bool
    ensures { result ≡ is_on name.now pattern.now }
{
    name.has_route(pattern)
}

fn is_on_some(name: &OrName, patterns: &[Pattern]) -> bool
    ensures { result ≡ list_any (is_on name.now) patterns.now }
{
    patterns.iter().any(|pattern| is_on(name, pattern))
}

fn may_post(list: &MailList, name: &OrName) -> bool
    ensures { result ≡ may_post list.now name.now }
{
    list.from.len() == 0 || is_on_some(name, list.from.as_slice())
}

/// Whether who posts may not post to the list.
pub fn is_unwanted(envelope: &EnvelopeFields, list: &MailList) -> bool
    ensures { result ≡ is_unwanted envelope.now list.now }
{
    !may_post(list, poster(envelope))
}

/// Whether as many lists were expanded as a history can hold.
pub fn has_full_history(envelope: &EnvelopeFields) -> bool
    ensures { result ≡ has_full_history envelope.now }
{
    envelope.history.len() >= 512
}

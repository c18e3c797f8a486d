//! Whether what stands at a place of an index is what is looked for.

ghost use Rattle.std.specs.Prelude.{◌≡◌};
ghost use Rattle.mta_tables.specs.Fronts.{is_route_of};
ghost use Rattle.mta_tables.specs.Indexes.{passes_at};
ghost use Rattle.mta_tables.specs.Reading.{has_mailbox_word, is_of_mailbox, has_list_word, is_of_list, has_pattern};
ghost use Rattle.mta_tables.specs.Surnames.{name_of_surname};

use crate::cut::is_text;
use crate::entry::{MailList, Mailbox, Route};
use crate::same::{is_on_route, is_same, is_same_pattern};
use crate::surname::is_of_surname;
use mta_name_text::Pattern;
use mta_names::OrName;

/// Whether the mailbox at a place has the word.
pub fn has_mailbox_word_at(mailboxes: &[Mailbox], place: u32, word: &[u8]) -> bool
    ensures { result ≡ passes_at (has_mailbox_word word.now) mailboxes.now place }
{
    match mailboxes.get(place as usize) {
        None => false,
        Some(mailbox) => is_text(mailbox.word.as_slice(), word),
    }
}

/// Whether the mailbox at a place has the same name.
pub fn is_of_mailbox_at(mailboxes: &[Mailbox], place: u32, name: &OrName) -> bool
    ensures { result ≡ passes_at (is_of_mailbox name.now) mailboxes.now place }
{
    match mailboxes.get(place as usize) {
        None => false,
        Some(mailbox) => is_same(&mailbox.name, name),
    }
}

/// Whether the mailbox at a place has the name of a country, an administration domain and a surname.
pub fn is_of_surname_at(
    mailboxes: &[Mailbox],
    place: u32,
    country: &[u8],
    admd: &[u8],
    surname: &[u8],
) -> bool
    ensures { result ≡ passes_at
        (is_of_mailbox (name_of_surname country.now admd.now surname.now)) mailboxes.now place }
{
    match mailboxes.get(place as usize) {
        None => false,
        Some(mailbox) => is_of_surname(&mailbox.name, country, admd, surname),
    }
}

/// Whether the list at a place has the word.
pub fn has_list_word_at(lists: &[MailList], place: u32, word: &[u8]) -> bool
    ensures { result ≡ passes_at (has_list_word word.now) lists.now place }
{
    match lists.get(place as usize) {
        None => false,
        Some(list) => is_text(list.word.as_slice(), word),
    }
}

/// Whether the list at a place has the same name.
pub fn is_of_list_at(lists: &[MailList], place: u32, name: &OrName) -> bool
    ensures { result ≡ passes_at (is_of_list name.now) lists.now place }
{
    match lists.get(place as usize) {
        None => false,
        Some(list) => is_same(&list.name, name),
    }
}

/// Whether the route matches the name and has so many parts.
pub fn is_route_of(count: usize, name: &OrName, route: &Route) -> bool
    ensures { result ≡ is_route_of count name.now route.now }
{
    is_on_route(name, &route.pattern) && route.pattern.parts().len() == count
}

/// Whether the route at a place has an equal pattern.
pub fn has_pattern_at(routes: &[Route], place: u32, pattern: &Pattern) -> bool
    ensures { result ≡ passes_at (has_pattern pattern.now) routes.now place }
{
    match routes.get(place as usize) {
        None => false,
        Some(route) => is_same_pattern(&route.pattern, pattern),
    }
}

/// Whether the route at a place matches the name and has so many parts.
pub fn is_route_of_at(routes: &[Route], place: u32, count: usize, name: &OrName) -> bool
    ensures { result ≡ passes_at (is_route_of count name.now) routes.now place }
{
    match routes.get(place as usize) {
        None => false,
        Some(route) => is_route_of(count, name, route),
    }
}

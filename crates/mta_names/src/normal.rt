//! Comparing texts by their normal texts, without making them.

ghost use Rattle.std.specs.Prelude.{◌≡◌, ◌≤◌, ◌<◌, ◌∷◌, [], false, length, MatchOption};
ghost use Rattle.mta_names.specs.Normal.{folded, unspaced, squeezed, is_same_text, is_same_texts, is_same_value};
ghost use Rattle.mta_names.specs.Normal.{is_same_label, is_same_person, is_same_persons, is_same_pair, is_same_pairs};

use crate::attributes::{Label, Pair, Person};
use mta_ber::Text;

fn folded_of(c: u8) -> u8
    ensures { result ≡ folded c }
{
    if matches!(c, 65..=90) { c + 32 } else { c }
}

/// The text without the spaces at its beginning.
fn unspaced_of(text: &[u8]) -> &[u8]
    ensures exact { result.now ≡ unspaced text.now }
    ensures bound { length result.now ≤ length text.now }
{
    let mut rest = text;
    while let [b' ', tail @ ..] = rest {
        rest = tail;
    }
    rest
}

/// The first character of a normal text, and the text that the others are of.
fn next_of(text: &[u8]) -> Option<(u8, &[u8])>
    ensures exact { MatchOption result (squeezed false text.now ≡ [])
        (λ x. squeezed false text.now ≡ x.0 ∷ squeezed false x.1.now) }
    ensures shorter { MatchOption result (Unit {0}) (λ x. length x.1.now < length text.now) }
{
    match text {
        [] => None,
        [c, tail @ ..] => {
            if *c != b' ' {
                return Some((folded_of(*c), tail));
            }
            let behind = unspaced_of(tail);
            if behind.is_empty() {
                return None;
            }
            Some((b' ', behind))
        }
    }
}

/// Whether two texts have the same normal text.
#[tactic(auto, unfolding(crate::specs::Normal::normal_text))]
pub fn same_text(first: &[u8], second: &[u8]) -> bool
    ensures { result ≡ is_same_text first.now second.now }
{
    let mut left = unspaced_of(first);
    let mut right = unspaced_of(second);
    loop {
        match (next_of(left), next_of(right)) {
            (None, None) => return true,
            (Some((c, behind)), Some((d, beyond))) => {
                if c != d {
                    return false;
                }
                left = behind;
                right = beyond;
            }
            _ => return false,
        }
    }
}

/// Whether both are absent, or have the same normal text.
pub fn same_value(first: &Option<Text>, second: &Option<Text>) -> bool
    ensures { result ≡ is_same_value first.now second.now }
{
    match (first, second) {
        (None, None) => true,
        (Some(first), Some(second)) => same_text(first.as_slice(), second.as_slice()),
        _ => false,
    }
}

/// The same of labels, numeric or not.
pub fn same_label(first: &Option<Label>, second: &Option<Label>) -> bool
    ensures { result ≡ is_same_label first.now second.now }
{
    match (first, second) {
        (None, None) => true,
        (Some(first), Some(second)) => { same_text(first.text.as_slice(), second.text.as_slice()) }
        _ => false,
    }
}

fn same_person(first: &Person, second: &Person) -> bool
    ensures { result ≡ is_same_person first.now second.now }
{
    let one = first.fields();
    let other = second.fields();
    same_text(one.surname.as_slice(), other.surname.as_slice())
        && same_value(&one.given, &other.given)
        && same_value(&one.initials, &other.initials)
        && same_value(&one.generation, &other.generation)
}

/// The same of personal names.
pub fn same_persons(first: &Option<Person>, second: &Option<Person>) -> bool
    ensures { result ≡ is_same_persons first.now second.now }
{
    match (first, second) {
        (None, None) => true,
        (Some(first), Some(second)) => same_person(first, second),
        _ => false,
    }
}

/// Whether two lists have the same normal texts, place by place.
pub fn same_texts(first: &[Text], second: &[Text]) -> bool
    ensures { result ≡ is_same_texts first.now second.now }
{
    match (first, second) {
        ([], []) => true,
        ([text, others @ ..], [other, rest @ ..]) => {
            same_text(text.as_slice(), other.as_slice()) && same_texts(others, rest)
        }
        _ => false,
    }
}

fn same_pair(first: &Pair, second: &Pair) -> bool
    ensures { result ≡ is_same_pair first.now second.now }
{
    let one = first.fields();
    let other = second.fields();
    same_text(one.kind.as_slice(), other.kind.as_slice())
        && same_text(one.value.as_slice(), other.value.as_slice())
}

/// Whether two lists have the same types and values, place by place.
pub fn same_pairs(first: &[Pair], second: &[Pair]) -> bool
    ensures { result ≡ is_same_pairs first.now second.now }
{
    match (first, second) {
        ([], []) => true,
        ([pair, others @ ..], [other, rest @ ..]) => {
            same_pair(pair, other) && same_pairs(others, rest)
        }
        _ => false,
    }
}

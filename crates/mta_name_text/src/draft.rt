//! What has been read of a text form, octet by octet.

ghost use Rattle.std.specs.Prelude.{◌≡◌, ◌++◌, ◌∷◌, [], ◌&&◌, IfOk};
ghost use Rattle.std.specs.List.{find, list_any};
ghost use Rattle.std.specs.Str.{bytes_eq};
ghost use Rattle.mta_name_text.specs.Grammar.{follows};
ghost use Rattle.mta_name_text.specs.Keys.{lead};
ghost use Rattle.mta_name_text.specs.Reading.{begins, is_front, named, nothing_read, opened, step_front, step_kind};
ghost use Rattle.mta_name_text.specs.Reading.{end_value, more_value, step, finish, parts_of_text, Reads};

use crate::fault::NameFault;
use crate::key::{Key, all_keys};
use crate::part::Part;
use crate::place::{Grammar, Place};
use crate::shape::Shape;
use mta_ber::{Memory, Octets, Text};
use mta_names::Row;
use std::alloc::Global;

/// What has to follow.
#[derive(Drop)]
pub enum Stage {
    /// More of a key, of which these octets have been read.
    Front(Octets),
    /// More of the type of a domain-defined attribute with this key, or the `=` behind it.
    Kind(Key, Octets),
    /// More of the value of a part with this key and this type, or what ends it.
    Value(Key, Octets, Octets),
}

/// The parts that have ended, what stands before the next one, and what has to follow.
#[derive(Drop)]
pub struct Draft {
    pub parts: Row<Part>,
    pub place: Place,
    pub stage: Stage,
}

/// Whether `front` is the beginning of `whole` and shorter.
fn begins(front: &[u8], whole: &[u8]) -> bool
    ensures { result ≡ begins front.now whole.now }
{
    match front {
        [] => !whole.is_empty(),
        [c, others @ ..] => match whole {
            [] => false,
            [d, rest @ ..] => *c == *d && begins(others, rest),
        },
    }
}

fn begins_one(grammar: Grammar, place: Place, front: &[u8], keys: &[Key]) -> bool
    ensures { result ≡ list_any (λ k. begins front.now (lead k) && follows grammar place k) keys.now }
{
    match keys {
        [] => false,
        [key, others @ ..] => {
            (begins(front, key.lead()) && place.follows(grammar, *key))
                || begins_one(grammar, place, front, others)
        }
    }
}

/// Whether a key that may stand here begins with these octets.
#[tactic(auto, unfolding(crate::specs::Reading::is_front))]
fn is_front(grammar: Grammar, place: Place, front: &[u8]) -> bool
    ensures { result ≡ is_front grammar place front.now }
{
    begins_one(grammar, place, front, all_keys())
}

fn is_lead(key: Key, front: &[u8]) -> bool
    ensures { result ≡ bytes_eq (lead key) front.now }
{
    key.lead() == front
}

fn named_of(front: &[u8], keys: &[Key]) -> Option<Key>
    ensures { result ≡ find (λ k. bytes_eq (lead k) front.now) keys.now }
{
    match keys {
        [] => None,
        [key, others @ ..] => {
            if is_lead(*key, front) {
                Some(*key)
            } else {
                named_of(front, others)
            }
        }
    }
}

/// The key that is written so, with what ends it.
#[tactic(auto, unfolding(crate::specs::Reading::named))]
fn named(front: &[u8]) -> Option<Key>
    ensures { result ≡ named front.now }
{
    named_of(front, all_keys())
}

fn opened(alloc: Global, key: Key) -> Stage
    ensures { result ≡ opened key }
{
    if key.has_kind() {
        Stage::Kind(key, Octets::new(alloc))
    } else {
        Stage::Value(key, Octets::new(alloc), Octets::new(alloc))
    }
}

/// Nothing has been read.
pub fn nothing_read(alloc: Global) -> Draft
    ensures { result ≡ nothing_read }
{
    Draft {
        parts: Row::new(alloc),
        place: Place::start(),
        stage: Stage::Front(Octets::new(alloc)),
    }
}

#[tactic(auto, unfolding(crate::specs::Reading::step_front))]
fn step_front(
    alloc: Global,
    grammar: Grammar,
    parts: Row<Part>,
    place: Place,
    mut front: Octets,
    octet: u8,
) -> Result<Option<Draft>, Memory>
    ensures { IfOk result (λ d. d ≡ step_front grammar parts place front octet) }
{
    front.extend(&[octet])?;
    if is_front(grammar, place, front.as_slice()) {
        let stage = Stage::Front(front);
        return Ok(Some(Draft {
            parts,
            place,
            stage,
        }));
    }
    match named(front.as_slice()) {
        None => Ok(None),
        Some(key) => {
            if !place.follows(grammar, key) {
                return Ok(None);
            }
            let stage = opened(alloc, key);
            Ok(Some(Draft {
                parts,
                place,
                stage,
            }))
        }
    }
}

#[tactic(auto, unfolding(crate::specs::Reading::step_kind))]
fn step_kind(
    alloc: Global,
    parts: Row<Part>,
    place: Place,
    key: Key,
    mut kind: Octets,
    octet: u8,
) -> Result<Option<Draft>, Memory>
    ensures { IfOk result (λ d. d ≡ step_kind parts place key kind octet) }
{
    if octet == b'=' {
        if !Shape::Kind.is_value(kind.as_slice()) {
            return Ok(None);
        }
        let stage = Stage::Value(key, kind, Octets::new(alloc));
        return Ok(Some(Draft {
            parts,
            place,
            stage,
        }));
    }
    kind.extend(&[octet])?;
    if !Shape::Kind.is_begun(kind.as_slice()) {
        return Ok(None);
    }
    let stage = Stage::Kind(key, kind);
    Ok(Some(Draft {
        parts,
        place,
        stage,
    }))
}

/// The parts with one more.
fn with_part(
    mut parts: Row<Part>,
    key: Key,
    kind: Octets,
    value: Octets,
) -> Result<Row<Part>, Memory>
    ensures { IfOk result (λ ps. ps ≡ parts ++ (record { key = key; kind = kind; value = value }) ∷ []) }
{
    let kind = Text::from_octets(kind);
    let value = Text::from_octets(value);
    parts.push(Part { key, kind, value })?;
    Ok(parts)
}

/// What has been read where a semicolon ends the value of a part.
fn end_value(
    alloc: Global,
    grammar: Grammar,
    parts: Row<Part>,
    place: Place,
    key: Key,
    kind: Octets,
    value: Octets,
) -> Result<Option<Draft>, Memory>
    ensures { IfOk result (λ d. d ≡ end_value grammar parts place key kind value) }
{
    let next = place.behind(key);
    if !key.shape().is_value(value.as_slice()) || !is_front(grammar, next, b"") {
        return Ok(None);
    }
    let parts = with_part(parts, key, kind, value)?;
    Ok(Some(Draft {
        parts,
        place: next,
        stage: Stage::Front(Octets::new(alloc)),
    }))
}

/// What has been read with one more character of the value of a part.
fn more_value(
    parts: Row<Part>,
    place: Place,
    key: Key,
    kind: Octets,
    mut value: Octets,
    octet: u8,
) -> Result<Option<Draft>, Memory>
    ensures { IfOk result (λ d. d ≡ more_value parts place key kind (value ++ octet ∷ [])) }
{
    value.extend(&[octet])?;
    if !key.shape().is_begun(value.as_slice()) {
        return Ok(None);
    }
    Ok(Some(Draft {
        parts,
        place,
        stage: Stage::Value(key, kind, value),
    }))
}

/// What has been read with one more octet, or `None` where no text form goes on so.
#[tactic(auto, unfolding(crate::specs::Reading::step, crate::specs::Reading::step_value))]
pub fn step(
    alloc: Global,
    grammar: Grammar,
    draft: Draft,
    octet: u8,
) -> Result<Option<Draft>, Memory>
    ensures { IfOk result (λ d. d ≡ step grammar draft octet) }
{
    let Draft {
        parts,
        place,
        stage,
    } = draft;
    match stage {
        Stage::Front(front) => step_front(alloc, grammar, parts, place, front, octet),
        Stage::Kind(key, kind) => step_kind(alloc, parts, place, key, kind, octet),
        Stage::Value(key, kind, value) => {
            if octet == b';' {
                end_value(alloc, grammar, parts, place, key, kind, value)
            } else {
                more_value(parts, place, key, kind, value, octet)
            }
        }
    }
}

/// The parts, where the text may end.
#[tactic(auto, unfolding(crate::specs::Reading::finish))]
pub fn finish(draft: Draft) -> Result<Option<Row<Part>>, Memory>
    ensures { IfOk result (λ ps. ps ≡ finish draft) }
{
    let Draft { parts, stage, .. } = draft;
    match stage {
        Stage::Value(key, kind, value) => {
            if !key.shape().is_value(value.as_slice()) {
                return Ok(None);
            }
            Ok(Some(with_part(parts, key, kind, value)?))
        }
        _ => Ok(None),
    }
}

/// The parts of a text form, or the first octet at which none goes on.
#[tactic(auto, unfolding(crate::specs::Reading::parts_of_text))]
pub fn parts_of(alloc: Global, grammar: Grammar, text: &[u8]) -> Result<Row<Part>, NameFault>
    ensures { Reads result (parts_of_text grammar text.now) }
{
    let mut draft = nothing_read(alloc);
    for (i, octet) in text.iter().enumerate() {
        match step(alloc, grammar, draft, *octet)? {
            Some(next) => draft = next,
            None => return Err(NameFault::NameText { at: i as u32 }),
        }
    }
    match finish(draft)? {
        Some(parts) => Ok(parts),
        None => Err(NameFault::NameText {
            at: text.len() as u32,
        }),
    }
}

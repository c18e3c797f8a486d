//! The unit at the front of a stream.
//!
//! A unit is four octets of its body's length, the most significant first, a kind octet, and the body: of a record that
//! record's body, and of the other two kinds a number of eight octets. In come octets and what is due; out goes the
//! unit, or that there are too few octets to tell, or that it is none that is due. The length is judged as soon as its
//! four octets are there, the kind with its octet, and a number when it is whole.

ghost use Rattle.std.specs.Prelude.{◌≡◌, ◌∷◌, [], ◌+◌, ◌-◌, ◌<◌, length};
ghost use Rattle.std.specs.Int.{w32, w64, from_be_bytes};
ghost use Rattle.mta_follow_units.specs.Look.{IsLook, bodied, fits, has_number, is_of, kinded, look, sized, whole};
ghost use Rattle.mta_follow_units.specs.Units.{most};

use crate::due::Due;
use crate::writing::{DONE, KEPT, RECORD};
use mta_journal::{LONGEST_BODY, LONGEST_FIRST};

// The octets of a number.
const NUMBER: u32 = 8;

/// What stands at the front of a stream.
#[derive(Clone, Copy)]
pub enum Look<'a> {
    /// Too few octets to tell.
    Cut,
    /// A unit that is not due.
    Bad,
    /// A record with this body.
    Record(&'a [u8]),
    /// That there are no more records, with the number of those that came.
    Done,
    /// That the record is kept which was put last.
    Kept,
}

// The most octets of the body of the record behind so many.
fn most(got: u64) -> u32
    ensures { result ≡ most got }
{
    if got == 0 {
        LONGEST_FIRST
    } else {
        LONGEST_BODY
    }
}

// Whether the body of a unit that is due may have so many octets.
fn fits(due: Due, size: u32) -> bool
    ensures { result ≡ fits due size }
{
    match due {
        Due::Record { got } => size <= most(got),
        Due::Kept { .. } => size == NUMBER,
    }
}

// Whether a unit of this kind, whose body has so many octets, is due.
fn is_of(due: Due, kind: u8, size: u32) -> bool
    ensures { result ≡ is_of due kind size }
{
    match due {
        Due::Record { .. } => kind == RECORD || (kind == DONE && size == NUMBER),
        Due::Kept { .. } => kind == KEPT,
    }
}

// The number in a body; none that is due where it has another size than a number.
fn has_number(body: &[u8], number: u64) -> bool
    ensures { result ≡ has_number body.now number }
{
    match body {
        [a, b, c, d, e, f, g, h] => {
            u64::from_be_bytes([*a, *b, *c, *d, *e, *f, *g, *h]) == number
        }
        _ => false,
    }
}

// What a whole body of a kind that is due comes to.
fn whole(due: Due, kind: u8, body: &[u8]) -> Look<'_>
    ensures { IsLook result (whole due kind body.now) }
{
    match due {
        Due::Record { got } => {
            if kind == RECORD {
                Look::Record(body)
            } else if has_number(body, got) {
                Look::Done
            } else {
                Look::Bad
            }
        }
        Due::Kept { number } => {
            if has_number(body, number) {
                Look::Kept
            } else {
                Look::Bad
            }
        }
    }
}

// Behind the octet of the kind.
fn bodied(due: Due, size: u32, kind: u8, octets: &[u8]) -> Look<'_>
    ensures { IsLook result (bodied due size kind octets.now) }
{
    if !is_of(due, kind, size) {
        Look::Bad
    } else if octets.len() < size as usize {
        Look::Cut
    } else {
        whole(due, kind, &octets[..size as usize])
    }
}

// Behind the octets of the length.
fn kinded(due: Due, size: u32, octets: &[u8]) -> Look<'_>
    ensures { IsLook result (kinded due size octets.now) }
{
    match octets {
        [] => Look::Cut,
        [kind, rest @ ..] => bodied(due, size, *kind, rest),
    }
}

/// What stands at the front of octets, where this is due.
#[tactic(auto, unfolding(crate::specs::Look::look))]
pub fn look_at(due: Due, octets: &[u8]) -> Look<'_>
    ensures exact { IsLook result (look due octets.now) }
{
    match octets {
        [a, b, c, d, rest @ ..] => {
            let size = u32::from_be_bytes([*a, *b, *c, *d]);
            if fits(due, size) {
                kinded(due, size, rest)
            } else {
                Look::Bad
            }
        }
        _ => Look::Cut,
    }
}

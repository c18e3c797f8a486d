//! What stands at the front of a stream.

ghost use Rattle.std.specs.Prelude.{◌≡◌, ◌≤◌, ◌+◌, length, Some};
ghost use Rattle.mta_units.specs.Front.{IsFront, front, sized, kinded, listed};

use crate::kind::UnitKind;

/// The most octets of a body: those of a piece of 2,097,152 octets with their header.
pub const LONGEST_BODY: u32 = 2_097_157;

/// Why no unit stands in a stream: its length is above the limit, its kind octet is no kind's, or its body is none of
/// that kind.
#[derive(Clone, Copy, Debug)]
pub enum BadUnit {
    Length,
    Kind,
    Body,
}

/// What stands at the front: too few octets to tell, a fault, or a whole body of a kind and what follows it.
#[derive(Clone, Copy)]
pub enum Front<'a> {
    Cut,
    Faulty(BadUnit),
    Whole {
        kind: UnitKind,
        body: &'a [u8],
        rest: &'a [u8],
    },
}

fn body_of(size: usize, kind: UnitKind, octets: &[u8]) -> Front<'_>
    ensures { IsFront result (listed size (Some kind) octets.now) }
{
    if octets.len() < size {
        Front::Cut
    } else {
        let (body, rest) = (&octets[..size], &octets[size..]);
        Front::Whole { kind, body, rest }
    }
}

fn kind_of(size: u32, octets: &[u8]) -> Front<'_>
    ensures { IsFront result (kinded size octets.now) }
{
    match octets {
        [] => Front::Cut,
        [octet, rest @ ..] => match UnitKind::from_number(*octet) {
            None => Front::Faulty(BadUnit::Kind),
            Some(kind) => body_of(size as usize, kind, rest),
        },
    }
}

/// What stands at the front of octets. The length is checked once its four octets are there, and the kind once its
/// octet is.
pub fn front_of(octets: &[u8]) -> Front<'_>
    ensures exact { IsFront result (front octets.now) }
{
    match octets {
        [first, second, third, fourth, rest @ ..] => {
            let size = u32::from_be_bytes([*first, *second, *third, *fourth]);
            if size > LONGEST_BODY {
                Front::Faulty(BadUnit::Length)
            } else {
                kind_of(size, rest)
            }
        }
        _ => Front::Cut,
    }
}

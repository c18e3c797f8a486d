//! Identifier and length octets.

ghost use Rattle.std.specs.Prelude.{◌≡◌, ◌+◌, ◌-◌, ◌<◌, ◌≤◌, ◌^◌, length, false, position, nat_lt, IfSome, IfOk, OnOk};
ghost use Rattle.mta_ber.specs.Head.{base, group, ident, definite, length_at, bad_number, tag_of, head};
ghost use Rattle.mta_ber.specs.Octet.{IsOctets};
ghost use Rattle.mta_ber.specs.Place.{IsTail};
ghost use Rattle.mta_ber.specs.Seen.{Gives, GivesSome, head_view};

use crate::fault::{Fault, Kind};
use crate::tag::Tag;

/// A header, and what follows it.
#[derive(Clone, Copy)]
pub struct Head<'a> {
    pub tag: Tag,
    /// How many octets the content has; `None` where the length is indefinite.
    pub length: Option<usize>,
    pub body: &'a [u8],
}

/// The number of at most four octets, seven bits in each.
fn tag_number(octets: &[u8]) -> u32
    requires { length octets.now ≤ 4 }
    ensures { result ≡ base 128 octets.now }
{
    let mut n: u32 = 0;
    for octet in octets {
        n = n * 128 + (*octet % 128) as u32;
    }
    n
}

/// The number of at most eight octets.
pub fn length_number(octets: &[u8]) -> u64
    requires { length octets.now ≤ 8 }
    ensures { result ≡ base 256 octets.now }
{
    let mut n: u64 = 0;
    for octet in octets {
        n = n * 256 + *octet as u64;
    }
    n
}

/// The place of the first octet with its top bit clear.
fn last_of(bytes: &[u8]) -> Option<usize>
    ensures exact { result ≡ position (λ b. nat_lt b 128) bytes.now }
    ensures within { IfSome result (λ p. p < length bytes.now) }
{
    bytes.iter().position(|b| *b < 128)
}

/// The octets up to the first with its top bit clear, and what follows.
fn group_of(bytes: &[u8]) -> Option<(&[u8], &[u8])>
    ensures exact { GivesSome (λ x. (x.0.now, x.1.now)) result (group bytes.now) }
    ensures shorter { IfSome result (λ x. length x.1.now < length bytes.now) }
    ensures place { IfSome result (λ x. IsTail x.1 bytes.entry) }
{
    let last = last_of(bytes)?;
    Some((&bytes[..last + 1], &bytes[last + 1..]))
}

/// The first octet, those of a high tag number, and what follows.
#[tactic(auto, unfolding(crate::specs::Head::ident))]
fn ident_of(bytes: &[u8]) -> Option<(u8, &[u8], &[u8])>
    ensures exact { GivesSome (λ x. (x.0, x.1.now, x.2.now)) result (ident bytes.now) }
    ensures shorter { IfSome result (λ x. length x.2.now < length bytes.now) }
    ensures place { IfSome result (λ x. IsTail x.2 bytes.entry) }
{
    match bytes {
        [] => None,
        [first, rest @ ..] => {
            if *first % 32 < 31 {
                return Some((*first, &[], rest));
            }
            let (number, after) = group_of(rest)?;
            Some((*first, number, after))
        }
    }
}

fn definite_of(body: &[u8], at: u32, count: u64) -> Result<(Option<usize>, &[u8]), Fault>
    ensures exact { Gives (λ x. (x.0, x.1.now)) result (definite at count body.now) }
    ensures same { IfOk result (λ x. length x.1.now ≡ length body.now) }
    ensures place { IfOk result (λ x. IsTail x.1 body.entry) }
    ensures within { IfOk result (λ x. IfSome x.0 (λ n. n ≤ length x.1.now)) }
{
    if (body.len() as u64) < count {
        return Err(Fault {
            at,
            kind: Kind::Truncated,
        });
    }
    Ok((Some(count as usize), body))
}

/// How many octets the content has, and what follows the length.
#[tactic(auto, unfolding(crate::specs::Head::length_at))]
fn length_of(bytes: &[u8], at: u32, constructed: bool) -> Result<(Option<usize>, &[u8]), Fault>
    ensures exact { Gives (λ x. (x.0, x.1.now)) result (length_at at constructed bytes.now) }
    ensures shorter { IfOk result (λ x. length x.1.now < length bytes.now) }
    ensures place { IfOk result (λ x. IsTail x.1 bytes.entry) }
    ensures within { IfOk result (λ x. IfSome x.0 (λ n. n ≤ length x.1.now)) }
{
    let (first, rest) = match bytes {
        [] => {
            return Err(Fault {
                at,
                kind: Kind::Truncated,
            });
        }
        [first, rest @ ..] => (*first, rest),
    };
    if first < 128 {
        return definite_of(rest, at, first as u64);
    }
    if first == 128 && constructed {
        return Ok((None, rest));
    }
    if first == 128 || first > 136 {
        return Err(Fault {
            at,
            kind: Kind::BadLength,
        });
    }
    let count = (first - 128) as usize;
    if rest.len() < count {
        return Err(Fault {
            at,
            kind: Kind::Truncated,
        });
    }
    definite_of(&rest[count..], at, length_number(&rest[..count]))
}

/// Whether the octets of a high tag number are too many, begin with 80 or give a low number.
fn is_bad_number(high: &[u8]) -> bool
    ensures exact { result ≡ bad_number high.now }
    ensures short { result ≡ false → length high.now ≤ 4 }
{
    match high {
        [] => false,
        [first, ..] => high.len() > 4 || *first == 128 || tag_number(high) < 31,
    }
}

fn make_tag(first: u8, high: &[u8]) -> Tag
    requires { length high.now ≤ 4 }
    ensures { result ≡ tag_of first high.now }
{
    let number = if high.is_empty() {
        (first % 32) as u32
    } else {
        tag_number(high)
    };
    Tag {
        class: first / 64,
        constructed: first / 32 % 2 == 1,
        number,
    }
}

#[tactic(auto, unfolding(crate::specs::Head::head))]
fn head_from(bytes: &[u8], at: u32, depth: u8) -> Result<Head<'_>, Fault>
    ensures exact { Gives head_view result (head at depth bytes.now) }
    ensures level { OnOk result (depth ≤ 16) }
    ensures shorter { IfOk result (λ h. length h.body.now < length bytes.now) }
    ensures place { IfOk result (λ h. IsTail h.body bytes.entry) }
    ensures within { IfOk result (λ h. IfSome h.length (λ n. n ≤ length h.body.now)) }
{
    let Some((first, high, rest)) = ident_of(bytes) else {
        return Err(Fault {
            at,
            kind: Kind::Truncated,
        });
    };
    let (length, body) = length_of(rest, at, first / 32 % 2 == 1)?;
    if is_bad_number(high) {
        return Err(Fault {
            at,
            kind: Kind::BadTag,
        });
    }
    if depth > 16 {
        return Err(Fault {
            at,
            kind: Kind::TooDeep,
        });
    }
    Ok(Head {
        tag: make_tag(first, high),
        length,
        body,
    })
}

/// The header at the front, and what follows it.
pub fn head_of(bytes: &[u8], at: u32, depth: u8) -> Result<Head<'_>, Fault>
    ensures exact { Gives head_view result (head at depth bytes.now) }
    ensures level { OnOk result (depth ≤ 16) }
    ensures shorter { IfOk result (λ h. length h.body.now < length bytes.now) }
    ensures place { IfOk result (λ h. IsTail h.body bytes.entry) }
    ensures within { IfOk result (λ h. IfSome h.length (λ n. n ≤ length h.body.now)) }
    ensures bytes { IfOk result (λ h. IsOctets h.body.now) }
{
    head_from(bytes, at, depth)
}

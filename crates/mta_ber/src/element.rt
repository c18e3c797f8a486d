//! Where elements end.

ghost use Rattle.std.specs.Prelude.{◌≡◌, ◌+◌, ◌-◌, ◌<◌, ◌≤◌, ◌^◌, length, IfOk, IfSome, IsTrue};
ghost use Rattle.mta_ber.specs.Element.{at_end, content_size, element_size, run};
ghost use Rattle.mta_ber.specs.Short.{HasSize, IsMarked};
ghost use Rattle.mta_ber.specs.Seen.{head_view};

use crate::fault::Fault;
use crate::head::{Head, head_of};

/// Whether a row of elements ends here.
fn is_end(bytes: &[u8], marked: bool) -> bool
    ensures { result ≡ at_end marked bytes.now }
{
    match bytes {
        [] => !marked,
        [_] => false,
        [first, second, ..] => marked && *first == 0 && *second == 0,
    }
}

/// How many octets a content has, and behind an indefinite one those of its end.
#[cycle(rows)]
#[tactic(auto, unfolding(crate::specs::Element::content_size))]
fn content_of(head: Head, start: u32, depth: u8) -> Result<usize, Fault>
    requires room { start + length head.body.now < 2 ^ 32 }
    requires level { (1 ≤ depth) × (depth ≤ 16) }
    requires within { IfSome head.length (λ n. n ≤ length head.body.now) }
    ensures exact { result ≡ content_size (run (17 - depth)) start (head_view head.entry) }
    ensures within { IfOk result (λ n. n ≤ length head.entry.body.now) }
{
    match head.length {
        None => run_of(head.body, start, depth, true),
        Some(count) => {
            if head.tag.constructed {
                run_of(&head.body[..count], start, depth, false)?;
            }
            Ok(count)
        }
    }
}

/// How many octets the primitive element at the front has, where its tag number is below 31 and its length, in one
/// octet, within what is left.
fn short_primitive(bytes: &[u8]) -> Option<usize>
    ensures size { IfSome result (λ n. HasSize n bytes.now) }
    ensures within { IfSome result (λ n. (0 < n) × (n ≤ length bytes.now)) }
{
    match bytes {
        [first, count, rest @ ..] => {
            if *first % 64 < 31 && *count < 128 && *count as usize <= rest.len() {
                return Some(2 + *count as usize);
            }
            None
        }
        _ => None,
    }
}

/// The content and what is behind it, where a constructed element of a tag number below 31 and an indefinite length
/// stands at the front.
fn short_indefinite(bytes: &[u8]) -> Option<&[u8]>
    ensures row { IfSome result (λ rest. IsMarked rest.now bytes.now) }
    ensures shorter { IfSome result (λ rest. length bytes.now ≡ length rest.now + 2) }
{
    match bytes {
        [first, count, rest @ ..] => {
            if *first / 32 % 2 == 1 && *first % 32 < 31 && *count == 128 {
                return Some(rest);
            }
            None
        }
        _ => None,
    }
}

/// How many octets the element at the front has, whatever its header.
#[cycle(rows)]
#[tactic(auto, unfolding(crate::specs::Element::element_size))]
fn long_element_of(bytes: &[u8], at: u32, depth: u8) -> Result<usize, Fault>
    requires room { at + length bytes.now < 2 ^ 32 }
    requires level { 1 ≤ depth }
    ensures exact { result ≡ element_size (run (17 - depth)) depth at bytes.now }
    ensures some { IfOk result (λ n. (0 < n) × (n ≤ length bytes.now)) }
{
    let head = head_of(bytes, at, depth)?;
    let size = bytes.len() - head.body.len();
    let count = content_of(head, at + size as u32, depth)?;
    Ok(size + count)
}

/// How many octets the element at the front has, of an indefinite length behind a short header most often.
#[cycle(rows)]
fn open_element_of(bytes: &[u8], at: u32, depth: u8) -> Result<usize, Fault>
    requires room { at + length bytes.now < 2 ^ 32 }
    requires level { 1 ≤ depth }
    ensures exact { result ≡ element_size (run (17 - depth)) depth at bytes.now }
    ensures some { IfOk result (λ n. (0 < n) × (n ≤ length bytes.now)) }
{
    if depth > 16 {
        return long_element_of(bytes, at, depth);
    }
    if let Some(rest) = short_indefinite(bytes) {
        let count = run_of(rest, at + 2, depth, true)?;
        return Ok(2 + count);
    }
    long_element_of(bytes, at, depth)
}

/// How many octets the element at the front has. Most are primitive, and their headers have two octets: so small a
/// function looks at those that it is taken into the loop over a row.
#[cycle(rows)]
fn element_of(bytes: &[u8], at: u32, depth: u8) -> Result<usize, Fault>
    requires room { at + length bytes.now < 2 ^ 32 }
    requires level { 1 ≤ depth }
    ensures exact { result ≡ element_size (run (17 - depth)) depth at bytes.now }
    ensures some { IfOk result (λ n. (0 < n) × (n ≤ length bytes.now)) }
{
    if depth <= 16
        && let Some(size) = short_primitive(bytes)
    {
        return Ok(size);
    }
    open_element_of(bytes, at, depth)
}

/// How many octets the elements have that stand in a row inside the level `depth`, up to the end
/// of the octets or, in a marked row, to the two zero octets and with them.
#[cycle(rows)]
pub fn run_of(bytes: &[u8], at: u32, depth: u8, marked: bool) -> Result<usize, Fault>
    requires room { at + length bytes.now < 2 ^ 32 }
    requires level { depth ≤ 16 }
    ensures exact { result ≡ run (17 - depth) marked at bytes.now }
    ensures within { IfOk result (λ n. n ≤ length bytes.now) }
    ensures ended { IsTrue marked → IfOk result (λ n. 2 ≤ n) }
{
    let mut used = 0;
    'row: while !is_end(&bytes[used..], marked) {
        used += element_of(&bytes[used..], at + used as u32, depth + 1)?;
    }
    Ok(if marked { used + 2 } else { used })
}

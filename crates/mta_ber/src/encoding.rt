//! The octets of elements that are written.

ghost use Rattle.std.specs.Prelude.{◌≡◌, ◌<◌, ◌≤◌, ◌^◌, ◌+◌, ◌++◌, ◌∷◌, [], length, OnOk, OnErr};
ghost use Rattle.mta_ber.specs.Canon.{IsTag, Begins, drop_zeros, length_octets, high_octets, ident_octets, element};

use crate::memory::Memory;
use crate::tag::Tag;
use std::alloc::AllocError;

/// The octets without the zeros in front.
pub fn significant(octets: &[u8]) -> &[u8]
    ensures exact { result.now ≡ drop_zeros octets.now }
    ensures within { length result.now ≤ length octets.now }
{
    match octets {
        [] => octets,
        [first, rest @ ..] => {
            if *first == 0 {
                significant(rest)
            } else {
                octets
            }
        }
    }
}

#[tactic(auto, unfolding(crate::specs::Canon::length_octets))]
fn put_length(out: &mut Vec<u8>, count: usize) -> Result<(), AllocError>
    ensures ok { OnOk result (out.new.items ≡ out.old.items ++ length_octets count) }
    ensures begins { Begins out.old.items out.new.items }
{
    if count < 128 {
        out.push(count as u8)?;
        return Ok(());
    }
    let octets = (count as u64).to_be_bytes();
    let digits = significant(&octets);
    out.push(128 + digits.len() as u8)?;
    out.extend_from_slice(digits)?;
    Ok(())
}

#[tactic(auto, unfolding(crate::specs::Canon::high_octets))]
fn put_high(out: &mut Vec<u8>, number: u32) -> Result<(), AllocError>
    requires { number < 2 ^ 28 }
    ensures ok { OnOk result (out.new.items ≡ out.old.items ++ high_octets number) }
    ensures begins { Begins out.old.items out.new.items }
{
    let last = (number % 128) as u8;
    if number < 128 {
        out.push(number as u8)?;
        return Ok(());
    }
    let second = 128 + (number / 128 % 128) as u8;
    if number < 16384 {
        out.extend_from_slice(&[128 + (number / 128) as u8, last])?;
        return Ok(());
    }
    if number < 2097152 {
        out.extend_from_slice(&[128 + (number / 16384) as u8, second, last])?;
        return Ok(());
    }
    let third = 128 + (number / 16384 % 128) as u8;
    out.extend_from_slice(&[128 + (number / 2097152) as u8, third, second, last])?;
    Ok(())
}

#[tactic(auto, unfolding(crate::specs::Canon::ident_octets))]
fn put_ident(out: &mut Vec<u8>, tag: Tag) -> Result<(), AllocError>
    requires { IsTag tag }
    ensures ok { OnOk result (out.new.items ≡ out.old.items ++ ident_octets tag) }
    ensures begins { Begins out.old.items out.new.items }
{
    let front = tag.class * 64 + if tag.constructed { 32 } else { 0 };
    if tag.number < 31 {
        out.push(front + tag.number as u8)?;
        return Ok(());
    }
    out.push(front + 31)?;
    put_high(out, tag.number)
}

#[tactic(auto, unfolding(crate::specs::Canon::element))]
fn put_element(out: &mut Vec<u8>, tag: Tag, content: &[u8]) -> Result<(), AllocError>
    requires { IsTag tag }
    ensures ok { OnOk result (out.new.items ≡ out.old.items ++ element tag content.now) }
    ensures begins { Begins out.old.items out.new.items }
{
    put_ident(out, tag)?;
    put_length(out, content.len())?;
    out.extend_from_slice(content)?;
    Ok(())
}

/// Appends the octets of an element, or leaves what stood there.
pub fn append_element(out: &mut Vec<u8>, tag: Tag, content: &[u8]) -> Result<(), Memory>
    requires { IsTag tag }
    ensures ok { OnOk result (out.new.items ≡ out.old.items ++ element tag content.now) }
    ensures err { OnErr result (out.new.items ≡ out.old.items) }
{
    let before = out.len();
    match put_element(out, tag, content) {
        Ok(()) => Ok(()),
        Err(_) => {
            out.truncate(before);
            Err(Memory)
        }
    }
}

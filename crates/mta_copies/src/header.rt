//! The identifier and length octets in front of contents that stand elsewhere.

ghost use Rattle.std.specs.Prelude.{◌≡◌, ◌++◌, ◌<◌, ◌≤◌, length, OnOk};
ghost use Rattle.mta_ber.specs.Canon.{drop_zeros, ident_octets, length_octets};
ghost use Rattle.mta_procedures.specs.Heads.{header};

use mta_ber::{Memory, Tag};

/// The octets without the zeros in front.
fn without_zeros(octets: &[u8]) -> &[u8]
    ensures exact { result.now ≡ drop_zeros octets.now }
    ensures within { length result.now ≤ length octets.now }
{
    match octets {
        [] => octets,
        [first, rest @ ..] => {
            if *first == 0 {
                without_zeros(rest)
            } else {
                octets
            }
        }
    }
}

#[tactic(auto, unfolding(mta_ber::specs::Canon::length_octets))]
fn put_length(out: &mut Vec<u8>, count: u64) -> Result<(), Memory>
    ensures { OnOk result (out.new.items ≡ out.old.items ++ length_octets count) }
{
    if count < 128 {
        out.push(count as u8)?;
        return Ok(());
    }
    let octets = count.to_be_bytes();
    let digits = without_zeros(&octets);
    out.push(128 + digits.len() as u8)?;
    out.extend_from_slice(digits)?;
    Ok(())
}

#[tactic(auto, unfolding(mta_ber::specs::Canon::ident_octets))]
fn put_identifier(out: &mut Vec<u8>, tag: Tag) -> Result<(), Memory>
    requires class { tag.class < 4 }
    requires number { tag.number < 31 }
    ensures { OnOk result (out.new.items ≡ out.old.items ++ ident_octets tag) }
{
    let front = tag.class * 64 + if tag.constructed { 32 } else { 0 };
    out.push(front + tag.number as u8)?;
    Ok(())
}

/// Puts the header of an element with so many contents octets, under a tag that has one identifier octet.
pub fn put_header(out: &mut Vec<u8>, tag: Tag, count: u64) -> Result<(), Memory>
    requires class { tag.class < 4 }
    requires number { tag.number < 31 }
    ensures { OnOk result (out.new.items ≡ out.old.items ++ header tag count) }
{
    put_identifier(out, tag)?;
    put_length(out, count)
}

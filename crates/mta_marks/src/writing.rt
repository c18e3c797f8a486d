//! The body of a mark: an octet that says which, the mailbox behind its length, and the entry's number.

ghost use Rattle.std.specs.Prelude.{◌≡◌, ◌++◌, ◌<◌, ◌^◌, length, IfOk, OnOk};
ghost use Rattle.mta_records.specs.Fields.{a_number, a_string};
ghost use Rattle.mta_marks.specs.Marks.{body_of, entry_octets};

use crate::mark::{Mark, octet_of};
use mta_ber::{Memory, Octets};
use std::alloc::Global;

// Puts a number in four octets, the most significant first.
#[tactic(auto, unfolding(mta_records::specs::Form::number_octets))]
fn put_number(out: &mut Octets, number: u32) -> Result<(), Memory>
    ensures { OnOk result (out.new ≡ out.old ++ a_number.spelled number) }
{
    out.extend(&number.to_be_bytes())
}

// Puts octets behind their length.
#[tactic(auto, unfolding(mta_records::specs::Fields::string))]
fn put_string(out: &mut Octets, octets: &[u8]) -> Result<(), Memory>
    requires { length octets.now < 2 ^ 32 }
    ensures { OnOk result (out.new ≡ out.old ++ a_string.spelled octets.now) }
{
    put_number(out, octets.len() as u32)?;
    out.extend(octets)
}

/// Puts the octets that name an entry.
#[tactic(auto, unfolding(crate::specs::Marks::entry_octets))]
pub fn put_entry(out: &mut Octets, mailbox: &[u8], number: u32) -> Result<(), Memory>
    requires { length mailbox.now < 2 ^ 32 }
    ensures { OnOk result (out.new ≡ out.old ++ entry_octets mailbox.now number) }
{
    put_string(out, mailbox)?;
    put_number(out, number)
}

/// The body of a mark.
pub fn body_of(alloc: Global, mark: &Mark) -> Result<Octets, Memory>
    ensures { IfOk result (λ body. body ≡ body_of mark.now) }
{
    let mut body = Octets::new(alloc);
    body.extend(&[octet_of(mark.kind)])?;
    put_entry(&mut body, mark.mailbox.as_slice(), mark.number)?;
    Ok(body)
}

//! Identifiers of reports.

ghost use Rattle.std.specs.Prelude.{◌≡◌, ◌++◌, IfOk, OnOk};
ghost use Rattle.mta_procedures.specs.Reports.{digits, report_id};

use mta_ber::{Memory, Octets, Text};
use mta_copies::copied_domain;
use mta_fields::{Domain, MtsId, MtsIdFields};
use std::alloc::Global;

/// Puts so many decimal digits of a number behind the octets, the last ones.
pub fn put_digits(octets: &mut Vec<u8>, count: u8, number: u64) -> Result<(), Memory>
    ensures { OnOk result (octets.new.items ≡ octets.old.items ++ digits count number) }
{
    if count == 0 {
        return Ok(());
    }
    put_digits(octets, count - 1, number / 10)?;
    octets.push(48 + (number % 10) as u8)?;
    Ok(())
}

/// The identifier of the report that is the item of a number.
pub fn report_id(alloc: Global, domain: &Domain, number: u64) -> Result<MtsId, Memory>
    ensures { IfOk result (λ i. i ≡ report_id domain.now number) }
{
    let domain = copied_domain(alloc, domain)?;
    let mut octets = Vec::new(alloc);
    octets.push(82)?;
    put_digits(&mut octets, 10, number)?;
    let local = Text::from_octets(Octets::from_vec(octets));
    Ok(MtsId::from_fields(MtsIdFields { domain, local }))
}

//! Members as recipients.

ghost use Rattle.std.specs.Prelude.{◌≡◌, ◌≤◌, length, IfOk};
ghost use Rattle.mta_envelope_recipient.specs.Recipients.{IsRecipient};
ghost use Rattle.mta_procedures.specs.Members.{member_as, members_from};

use mta_ber::Memory;
use mta_envelope_recipient::{Recipient, RecipientFields};
use mta_names::{OrName, Row};
use std::alloc::Global;

/// A member as a recipient, with the indicators of the list as a recipient.
#[tactic(auto, using(crate::proofs::Numbered::member_is_recipient))]
fn member_as(
    alloc: Global,
    recipient: &RecipientFields,
    number: u32,
    member: &OrName,
) -> Result<Recipient, Memory>
    requires recipient { IsRecipient recipient.now }
    requires some { 1 ≤ number }
    requires small { number ≤ 32767 }
    ensures { IfOk result (λ r. r ≡ member_as recipient.now number member.now) }
{
    let name = member.copy(alloc)?;
    Ok(Recipient::from_fields(RecipientFields {
        name,
        number,
        indicators: recipient.indicators,
        conversion: None,
        extensions: Row::new(alloc),
    }))
}

/// Members in their order, numbered from 1.
pub fn members_of(
    alloc: Global,
    members: &[OrName],
    recipient: &RecipientFields,
) -> Result<Row<Recipient>, Memory>
    requires recipient { IsRecipient recipient.now }
    requires few { length members.now ≤ 1000 }
    ensures { IfOk result (λ r. r ≡ members_from 1 recipient.now members.now) }
{
    let mut row: Row<Recipient> = Row::new(alloc);
    let mut number: u32 = 1;
    for member in members {
        let one = member_as(alloc, recipient, number, member)?;
        row.push(one)?;
        number += 1;
    }
    Ok(row)
}

//! Recipients with responsibility as it is to be.

ghost use Rattle.std.specs.Prelude.{◌≡◌, ◌≤◌, length, IfOk};
ghost use Rattle.mta_envelope_common.specs.Indicators.{IsIndicators};
ghost use Rattle.mta_procedures.specs.Bits.{weight, with_responsibility};
ghost use Rattle.mta_procedures.specs.Copies.{responsible_for, responsible_if};

use crate::chosen::chosen_flags;
use crate::fields::copied_fields;
use mta_ber::{Bits, Memory};
use mta_envelope_recipient::{Recipient, RecipientFields};
use mta_names::{Row, copied_raw};
use std::alloc::Global;

/// The number whose one binary digit is the first bit.
fn first_weight(bits: Bits) -> u64
    requires { 1 ≤ bits.count }
    ensures { result ≡ weight bits 0 }
{
    1 << (bits.count() - 1)
}

/// The indicators with responsibility, the first of them, as said, and the others as they are.
#[tactic(auto, using(crate::proofs::Bits::responsibility_steps))]
fn with_responsibility(bits: Bits, responsible: bool) -> Bits
    requires { IsIndicators bits }
    ensures { result ≡ with_responsibility responsible bits }
{
    if bits.is_set(0) == responsible {
        return bits;
    }
    let weight = first_weight(bits);
    if responsible {
        Bits::new(bits.count(), bits.word() + weight)
    } else {
        Bits::new(bits.count(), bits.word() - weight)
    }
}

fn responsible_if(
    alloc: Global,
    recipient: &Recipient,
    responsible: bool,
) -> Result<Recipient, Memory>
    ensures { IfOk result (λ r. r ≡ responsible_if responsible recipient.now) }
{
    let fields = recipient.fields();
    let name = fields.name.copy(alloc)?;
    let conversion = copied_raw(alloc, &fields.conversion)?;
    let extensions = copied_fields(alloc, fields.extensions.as_slice())?;
    Ok(Recipient::from_fields(RecipientFields {
        name,
        number: fields.number,
        indicators: with_responsibility(fields.indicators, responsible),
        conversion,
        extensions,
    }))
}

/// The recipients, with responsibility for those at the chosen positions alone, counted from 1.
pub fn responsible_for(
    alloc: Global,
    recipients: &[Recipient],
    chosen: &[u32],
) -> Result<Row<Recipient>, Memory>
    requires { length recipients.now ≤ 32767 }
    ensures { IfOk result (λ r. r ≡ responsible_for chosen.now recipients.now) }
{
    let flags = chosen_flags(alloc, chosen, recipients.len())?;
    let mut row: Row<Recipient> = Row::new(alloc);
    let mut place: usize = 0;
    for recipient in recipients {
        let copy = responsible_if(alloc, recipient, flags[place])?;
        row.push(copy)?;
        place += 1;
    }
    Ok(row)
}

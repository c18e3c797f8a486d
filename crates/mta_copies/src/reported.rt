//! Equal recipients of whom is reported.

ghost use Rattle.std.specs.Prelude.{◌≡◌, IfOk};

use crate::fields::copied_fields;
use mta_ber::Memory;
use mta_names::{OrName, Row, copied_raw};
use mta_report_recipient::{Outcome, Reported, ReportedFields};
use std::alloc::Global;

fn copied_outcome(outcome: &Outcome) -> Outcome
    ensures { result ≡ outcome.now }
{
    match outcome {
        Outcome::Delivery { moment, user } => Outcome::Delivery {
            moment: *moment,
            user: *user,
        },
        Outcome::NonDelivery { reason, diagnostic } => Outcome::NonDelivery {
            reason: *reason,
            diagnostic: *diagnostic,
        },
    }
}

fn copied_name_if(alloc: Global, name: &Option<OrName>) -> Result<Option<OrName>, Memory>
    ensures { IfOk result (λ n. n ≡ name.now) }
{
    match name {
        None => Ok(None),
        Some(name) => Ok(Some(name.copy(alloc)?)),
    }
}

fn copied_recipient(alloc: Global, recipient: &Reported) -> Result<Reported, Memory>
    ensures { IfOk result (λ r. r ≡ recipient.now) }
{
    let fields = recipient.fields();
    let name = fields.name.copy(alloc)?;
    let converted = copied_raw(alloc, &fields.converted)?;
    let intended = copied_name_if(alloc, &fields.intended)?;
    let supplementary = copied_raw(alloc, &fields.supplementary)?;
    let extensions = copied_fields(alloc, fields.extensions.as_slice())?;
    Ok(Reported::from_fields(ReportedFields {
        name,
        number: fields.number,
        indicators: fields.indicators,
        arrival: fields.arrival,
        converted,
        outcome: copied_outcome(&fields.outcome),
        intended,
        supplementary,
        extensions,
    }))
}

/// Equal recipients of whom is reported, in their order.
pub fn copied_reported(alloc: Global, recipients: &[Reported]) -> Result<Row<Reported>, Memory>
    ensures { IfOk result (λ r. r ≡ recipients.now) }
{
    let mut row: Row<Reported> = Row::new(alloc);
    for recipient in recipients {
        row.push(copied_recipient(alloc, recipient)?)?;
    }
    Ok(row)
}

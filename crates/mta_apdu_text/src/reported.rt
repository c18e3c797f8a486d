//! The lines of recipients of whom is reported.

ghost use Rattle.std.specs.Prelude.{◌≡◌, ◌++◌, OnOk};
ghost use Rattle.mta_apdu_text.specs.Reporteds.{delivery_text, diagnostic_text, failure_text, outcome_text};
ghost use Rattle.mta_apdu_text.specs.Reporteds.{arrival_text, reported_line, reported_lines};

use crate::pieces::{put_bits, put_moment, put_name, put_number};
use mta_ber::{Memory, Octets};
use mta_names::{Code, OrName};
use mta_report_recipient::{Moment, Outcome, Reported};
use std::alloc::Global;

#[tactic(auto, unfolding(crate::specs::Reporteds::delivery_text))]
fn put_delivery(alloc: Global, out: &mut Octets, moment: Moment, user: Code) -> Result<(), Memory>
    ensures { OnOk result (out.new ≡ out.old ++ delivery_text moment user) }
{
    out.extend(b"delivery ")?;
    put_moment(alloc, out, moment.seconds())?;
    out.extend(b" ")?;
    put_number(out, u64::from(user.number()))
}

#[tactic(auto, unfolding(crate::specs::Reporteds::diagnostic_text))]
fn put_diagnostic(out: &mut Octets, diagnostic: Option<Code>) -> Result<(), Memory>
    ensures { OnOk result (out.new ≡ out.old ++ diagnostic_text diagnostic) }
{
    match diagnostic {
        None => out.extend(b"-"),
        Some(code) => put_number(out, u64::from(code.number())),
    }
}

#[tactic(auto, unfolding(crate::specs::Reporteds::failure_text))]
fn put_failure(out: &mut Octets, reason: Code, diagnostic: Option<Code>) -> Result<(), Memory>
    ensures { OnOk result (out.new ≡ out.old ++ failure_text reason diagnostic) }
{
    out.extend(b"non-delivery ")?;
    put_number(out, reason.number() as u64)?;
    out.extend(b" ")?;
    put_diagnostic(out, diagnostic)
}

#[tactic(auto, unfolding(crate::specs::Reporteds::outcome_text))]
fn put_outcome(alloc: Global, out: &mut Octets, outcome: &Outcome) -> Result<(), Memory>
    ensures { OnOk result (out.new ≡ out.old ++ outcome_text outcome.now) }
{
    match outcome {
        Outcome::Delivery { moment, user } => put_delivery(alloc, out, *moment, *user),
        Outcome::NonDelivery { reason, diagnostic } => put_failure(out, *reason, *diagnostic),
    }
}

/// When the message arrived, and the name of the actual recipient.
#[tactic(auto, unfolding(crate::specs::Reporteds::arrival_text))]
fn put_arrival(alloc: Global, out: &mut Octets, moment: u64, name: &OrName) -> Result<(), Memory>
    ensures { OnOk result (out.new ≡ out.old ++ arrival_text moment name.now) }
{
    out.extend(b" arrived ")?;
    put_moment(alloc, out, moment)?;
    out.extend(b" ")?;
    put_name(alloc, out, name)?;
    out.extend(b"\n")
}

/// A recipient of whom is reported.
#[tactic(auto, unfolding(crate::specs::Reporteds::reported_line))]
fn put_reported_line(alloc: Global, out: &mut Octets, recipient: &Reported) -> Result<(), Memory>
    ensures { OnOk result (out.new ≡ out.old ++ reported_line recipient.now) }
{
    let fields = recipient.fields();
    out.extend(b"recipient ")?;
    put_number(out, u64::from(fields.number))?;
    out.extend(b" ")?;
    put_bits(out, fields.indicators)?;
    out.extend(b" ")?;
    put_outcome(alloc, out, &fields.outcome)?;
    put_arrival(alloc, out, fields.arrival, &fields.name)
}

/// The recipients of whom is reported.
#[tactic(auto, unfolding(crate::specs::Reporteds::reported_lines))]
pub fn put_reported_lines(
    alloc: Global,
    out: &mut Octets,
    recipients: &[Reported],
) -> Result<(), Memory>
    ensures { OnOk result (out.new ≡ out.old ++ reported_lines recipients.now) }
{
    for recipient in recipients {
        put_reported_line(alloc, out, recipient)?;
    }
    Ok(())
}

//! The reports that are made here.

ghost use Rattle.std.specs.Prelude.{◌≡◌, ◌-◌, ◌≤◌, ◌∷◌, [], IfOk, Some, length, slice_get};
ghost use Rattle.mta_envelope_recipient.specs.declared.recipient.RecipientFields.{RecipientFields};
ghost use Rattle.mta_ber.specs.Times.{last_moment};
ghost use Rattle.mta_envelope_recipient.specs.Recipients.{IsRecipient};
ghost use Rattle.mta_envelope_common.specs.Indicators.{IsIndicators};
ghost use Rattle.mta_report_recipient.specs.Values.{IsOutcome};
ghost use Rattle.mta_procedures.specs.Bits.{reported_indicators};
ghost use Rattle.mta_procedures.specs.Reports.{reported_of, report_of};
ghost use Rattle.mta_rules.specs.About.{IsAbout, about_of, told};

use crate::bits::with_set;
use crate::identifier::report_id;
use crate::walk::report_walk;
use mta_ber::{Bits, Memory, Text};
use mta_copies::{copied_id, copied_kind, copied_text};
use mta_envelope::{Envelope, EnvelopeFields};
use mta_envelope_common::ContentKind;
use mta_envelope_recipient::RecipientFields;
use mta_fields::{Domain, MtsId};
use mta_names::{OrName, Row};
use mta_report::{Report, ReportFields};
use mta_report_recipient::{Outcome, Reported, ReportedFields};
use mta_tables::Tables;
use std::alloc::Global;

/// The indicators as a report says them: with originating-MTA-non-delivery-report where neither this nor
/// originating-MTA-report is asked.
#[tactic(auto, unfolding(mta_procedures::specs::Bits::reported_indicators))]
fn indicators_of(bits: Bits) -> Bits
    requires { IsIndicators bits }
    ensures exact { result ≡ reported_indicators bits }
    ensures indicators { IsIndicators result }
{
    if bits.is_set(1) || bits.is_set(2) {
        bits
    } else {
        with_set(bits, 2)
    }
}

fn reported(
    alloc: Global,
    arrival: u64,
    recipient: &RecipientFields,
    outcome: Outcome,
) -> Result<Reported, Memory>
    requires recipient { IsRecipient recipient.now }
    requires arrival { arrival ≤ last_moment }
    requires outcome { IsOutcome outcome }
    ensures { IfOk result (λ r. r ≡ reported_of arrival recipient.now outcome) }
{
    let name = recipient.name.copy(alloc)?;
    Ok(Reported::from_fields(ReportedFields {
        name,
        number: recipient.number,
        indicators: indicators_of(recipient.indicators),
        arrival,
        converted: None,
        outcome,
        intended: None,
        supplementary: None,
        extensions: Row::new(alloc),
    }))
}

fn one(alloc: Global, reported: Reported) -> Result<Row<Reported>, Memory>
    ensures { IfOk result (λ r. r ≡ reported ∷ []) }
{
    let mut row: Row<Reported> = Row::new(alloc);
    row.push(reported)?;
    Ok(row)
}

/// What a report has of its item and of the subject message.
#[derive(Drop)]
pub struct About {
    pub id: MtsId,
    pub subject: MtsId,
    pub content_kind: ContentKind,
    pub content_id: Option<Text>,
}

fn copied_about(
    alloc: Global,
    domain: &Domain,
    number: u64,
    subject: &EnvelopeFields,
) -> Result<About, Memory>
    ensures { IfOk result (λ a. IsAbout domain.now number subject.now a) }
{
    let subject_id = copied_id(alloc, &subject.id)?;
    let content_kind = copied_kind(alloc, &subject.content_kind)?;
    let content_id = copied_text(alloc, &subject.content_id)?;
    let id = report_id(alloc, domain, number)?;
    Ok(About {
        id,
        subject: subject_id,
        content_kind,
        content_id,
    })
}

fn reported_alone(
    alloc: Global,
    arrival: u64,
    recipient: &RecipientFields,
    outcome: Outcome,
) -> Result<Row<Reported>, Memory>
    requires recipient { IsRecipient recipient.now }
    requires arrival { arrival ≤ last_moment }
    requires outcome { IsOutcome outcome }
    ensures { IfOk result (λ r. r ≡ reported_of arrival recipient.now outcome ∷ []) }
{
    let made = reported(alloc, arrival, recipient, outcome)?;
    one(alloc, made)
}

fn told(alloc: Global, about: About, destination: OrName, recipients: Row<Reported>) -> ReportFields
    ensures { result ≡ told about destination recipients }
{
    let About {
        id,
        subject,
        content_kind,
        content_id,
    } = about;
    ReportFields {
        id,
        destination,
        trace: Row::new(alloc),
        extensions: Row::new(alloc),
        subject,
        subject_trace: None,
        eits: None,
        content_kind: Some(content_kind),
        content_id,
        returned: None,
        additional: None,
        content_extensions: Row::new(alloc),
        recipients,
    }
}

fn report_to(
    alloc: Global,
    domain: &Domain,
    number: u64,
    arrival: u64,
    subject: &Envelope,
    recipient: &RecipientFields,
    outcome: Outcome,
    destination: &OrName,
) -> Result<Report, Memory>
    requires recipient { IsRecipient recipient.now }
    requires arrival { arrival ≤ last_moment }
    requires outcome { IsOutcome outcome }
    ensures { IfOk result (λ r. r ≡ told (about_of domain.now number subject.now) destination.now
        (reported_of arrival recipient.now outcome ∷ [])) }
{
    let envelope = subject.fields();
    let recipients = reported_alone(alloc, arrival, recipient, outcome)?;
    let name = destination.copy(alloc)?;
    let made = copied_about(alloc, domain, number, envelope)?;
    let whole = told(alloc, made, name, recipients);
    Ok(Report::from_fields(whole))
}

/// The report on a recipient of a message or a probe, as the item of a number; none exactly where the walk ends.
pub fn report_on(
    alloc: Global,
    tables: &Tables,
    number: u64,
    arrival: u64,
    subject: &Envelope,
    recipient: &RecipientFields,
    outcome: Outcome,
) -> Result<Option<Report>, Memory>
    requires recipient { IsRecipient recipient.now }
    requires arrival { arrival ≤ last_moment }
    requires outcome { IsOutcome outcome }
    ensures { IfOk result (λ r. r ≡ report_of tables.now number arrival subject.now recipient.now outcome) }
{
    match report_walk(tables, subject.fields()) {
        None => Ok(None),
        Some(name) => {
            let domain = tables.domain();
            let report = report_to(
                alloc, domain, number, arrival, subject, recipient, outcome, name,
            )?;
            Ok(Some(report))
        }
    }
}

/// The report on the recipient at this position, from 1, of a message or a probe, as the item of a number; none
/// exactly where the walk ends.
pub fn make_report(
    alloc: Global,
    tables: &Tables,
    number: u64,
    arrival: u64,
    subject: &Envelope,
    recipient: u32,
    outcome: Outcome,
) -> Result<Option<Report>, Memory>
    requires some { 1 ≤ recipient }
    requires few { recipient ≤ length subject.now.recipients }
    requires arrival { arrival ≤ last_moment }
    requires outcome { IsOutcome outcome }
    ensures { IfOk result (λ made. (r : RecipientFields)
        → slice_get subject.now.recipients (recipient - 1) ≡ Some r
        → made ≡ report_of tables.now number arrival subject.now r outcome) }
{
    let recipients = subject.fields().recipients.as_slice();
    let chosen = recipients[recipient as usize - 1].fields();
    report_on(alloc, tables, number, arrival, subject, chosen, outcome)
}

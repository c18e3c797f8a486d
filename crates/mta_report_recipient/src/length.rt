//! How many octets recipients of whom is reported have that are written, told without writing them: no call here takes
//! memory. Each answers 2^64 - 1 where there are as many octets or more.

ghost use Rattle.std.specs.Prelude.{◌≡◌};
ghost use Rattle.std.specs.List.{flat_map};
ghost use Rattle.mta_ber.specs.Canon.{optional};
ghost use Rattle.mta_ber.specs.Lengths.{octet_length};
ghost use Rattle.mta_report_recipient.specs.Deliveries.{canonical_user, canonical_delivery};
ghost use Rattle.mta_report_recipient.specs.Failures.{canonical_diagnostic, canonical_failure};
ghost use Rattle.mta_report_recipient.specs.LastTraces.{canonical_last};
ghost use Rattle.mta_report_recipient.specs.Outcomes.{canonical_choice, canonical_outcome};
ghost use Rattle.mta_report_recipient.specs.ReportedRecipients.{canonical_intended, reported_content};
ghost use Rattle.mta_report_recipient.specs.ReportedRecipients.{canonical_reported};
ghost use Rattle.mta_report_recipient.specs.ReportedRecipients.{canonical_reported_list};
ghost use Rattle.mta_report_recipient.specs.Values.{IsMoment, IsReported};

use crate::moment::Moment;
use crate::outcome::Outcome;
use crate::reported::{Reported, ReportedFields};
use mta_ber::{Octets, bits_length, element_length, int_length, length_of_both, utc_length};
use mta_envelope_common::extensions_length;
use mta_names::{Code, OrName, Row, constructed, primitive, raw_length};

fn user_length(user: Code) -> u64
    ensures { result ≡ octet_length (canonical_user user) }
{
    let number = user.number();
    if number == 0 {
        return 0;
    }
    int_length(primitive(2, 1), number as i64)
}

fn delivery_length(moment: Moment, user: Code) -> u64
    ensures { result ≡ octet_length (canonical_delivery moment user) }
{
    let content = length_of_both(
        utc_length(primitive(2, 0), moment.seconds()),
        user_length(user),
    );
    element_length(constructed(2, 0), content)
}

fn diagnostic_length(diagnostic: Option<Code>) -> u64
    ensures { result ≡ octet_length (optional canonical_diagnostic diagnostic) }
{
    match diagnostic {
        None => 0,
        Some(diagnostic) => int_length(primitive(2, 1), diagnostic.number() as i64),
    }
}

fn failure_length(reason: Code, diagnostic: Option<Code>) -> u64
    ensures { result ≡ octet_length (canonical_failure reason diagnostic) }
{
    let number = int_length(primitive(2, 0), reason.number() as i64);
    element_length(
        constructed(2, 1),
        length_of_both(number, diagnostic_length(diagnostic)),
    )
}

fn choice_length(outcome: &Outcome) -> u64
    ensures { result ≡ octet_length (canonical_choice outcome.now) }
{
    match outcome {
        Outcome::Delivery { moment, user } => delivery_length(*moment, *user),
        Outcome::NonDelivery { reason, diagnostic } => failure_length(*reason, *diagnostic),
    }
}

fn outcome_length(outcome: &Outcome) -> u64
    ensures { result ≡ octet_length (canonical_outcome outcome.now) }
{
    element_length(constructed(2, 1), choice_length(outcome))
}

#[tactic(auto, unfolding(crate::specs::LastTraces::canonical_last))]
fn last_length(arrival: u64, converted: &Option<Octets>, outcome: &Outcome) -> u64
    requires { IsMoment arrival }
    ensures { result ≡ octet_length (canonical_last arrival converted.now outcome.now) }
{
    let moment = utc_length(primitive(2, 0), arrival);
    let begun = length_of_both(raw_length(converted), moment);
    element_length(
        constructed(2, 3),
        length_of_both(begun, outcome_length(outcome)),
    )
}

fn intended_length(name: &Option<OrName>) -> u64
    ensures { result ≡ octet_length (optional canonical_intended name.now) }
{
    match name {
        None => 0,
        Some(name) => name.length(constructed(2, 4)),
    }
}

/// How many contents octets a recipient has.
pub fn components_length(v: &ReportedFields) -> u64
    requires { IsReported v.now }
    ensures { result ≡ octet_length (reported_content v.now) }
{
    let name = v.name.length(constructed(2, 0));
    let number = length_of_both(name, int_length(primitive(2, 1), v.number as i64));
    let indicators = length_of_both(number, bits_length(primitive(2, 2), v.indicators));
    let last = last_length(v.arrival, &v.converted, &v.outcome);
    let traced = length_of_both(indicators, last);
    let intended = length_of_both(traced, intended_length(&v.intended));
    let supplementary = length_of_both(intended, raw_length(&v.supplementary));
    length_of_both(
        supplementary,
        extensions_length(constructed(2, 6), &v.extensions),
    )
}

fn all_length(recipients: &[Reported]) -> u64
    ensures { result ≡ octet_length (flat_map canonical_reported recipients.now) }
{
    let mut total = 0;
    for recipient in recipients {
        total = length_of_both(total, recipient.length());
    }
    total
}

/// How many octets recipients have under `[0]`.
#[tactic(auto, unfolding(crate::specs::ReportedRecipients::canonical_reported_list))]
pub fn recipients_length(recipients: &Row<Reported>) -> u64
    ensures { result ≡ octet_length (canonical_reported_list recipients.now) }
{
    element_length(constructed(2, 0), all_length(recipients.as_slice()))
}

//! Which case a recipient is.

ghost use Rattle.std.specs.Prelude.{◌≡◌, ◌≤◌, IfSome};
ghost use Rattle.mta_ber.specs.Times.{last_moment};
ghost use Rattle.mta_procedures.specs.Facts.{Facts, envelope_facts};
ghost use Rattle.mta_procedures.specs.Situations.{situation};
ghost use Rattle.mta_procedures.specs.Verdicts.{first_case, leads_nowhere};
ghost use Rattle.mta_rules.specs.Cases.{IsHopOf, later_case, IsAtList, IsAtHop, IsOfReport};

use crate::list::{has_full_history, is_in_history, is_unwanted};
use crate::looks::{has_critical, has_looped, is_deferred, is_expired, report_terms, terms_of};
use mta_envelope::EnvelopeFields;
use mta_envelope_recipient::RecipientFields;
use mta_procedures::Case;
use mta_report::ReportFields;
use mta_tables::{Hop, MailList, Tables};

/// The most octets of a copy.
pub const LONGEST_COPY: u64 = 2_097_152;

/// The case of a recipient that is a list.
#[tactic(auto, using(crate::proofs::CaseSteps::list_steps))]
pub fn case_at_list(list: &MailList, envelope: &EnvelopeFields, members: u64) -> Case
    ensures { (f : Facts) → IsAtList list.now envelope.now members f → result ≡ later_case f }
{
    if is_in_history(list, envelope) {
        Case::ListInHistory
    } else if envelope.dl_prohibited {
        Case::ListProhibited
    } else if is_unwanted(envelope, list) {
        Case::PosterNotPermitted
    } else if has_full_history(envelope) {
        Case::FullHistory
    } else if members > LONGEST_COPY {
        Case::LongMembersCopy
    } else {
        Case::ToList
    }
}

/// The case of a recipient that is neither unknown nor expired nor deferred.
#[tactic(auto, using(crate::proofs::CaseSteps::hop_steps))]
fn case_at_hop(
    tables: &Tables,
    envelope: &EnvelopeFields,
    hop: Hop,
    members: u64,
    copy: u64,
) -> Case
    requires { IsHopOf tables.now hop }
    ensures { (f : Facts) → IsAtHop tables.now envelope.now hop members copy f → result ≡ later_case f }
{
    match hop {
        Hop::None => Case::ToPeer,
        Hop::Local(_) => Case::ToMailbox,
        Hop::List(place) => match tables.lists().get(place as usize) {
            Some(list) => case_at_list(list, envelope, members),
            None => Case::ToList,
        },
        Hop::Peer(_) => {
            if copy > LONGEST_COPY {
                Case::LongCopy
            } else {
                Case::ToPeer
            }
        }
    }
}

fn leads_nowhere(hop: Hop) -> bool
    ensures { result ≡ leads_nowhere hop }
{
    match hop {
        Hop::None => true,
        Hop::Local(_) | Hop::List(_) | Hop::Peer(_) => false,
    }
}

/// The case of a recipient of a message or a probe in a format.
#[tactic(auto, using(crate::proofs::CaseSteps::case_steps))]
pub fn case_of(
    format: u32,
    tables: &Tables,
    arrival: u64,
    moment: u64,
    envelope: &EnvelopeFields,
    recipient: &RecipientFields,
    hop: Hop,
    members: u64,
    copy: u64,
) -> Case
    requires arrival { arrival ≤ last_moment }
    requires deferral { IfSome envelope.now.deferral (λ d. d ≤ last_moment) }
    requires hop { IsHopOf tables.now hop }
    ensures { let s = situation tables.now arrival moment in
        result ≡ first_case (envelope_facts format s envelope.now recipient.now hop members copy) }
{
    let terms = terms_of(format, envelope);
    if has_looped(tables, envelope.trace.as_slice(), arrival, moment) {
        Case::Looped
    } else if has_critical(hop, envelope, recipient) {
        Case::CriticalExtension
    } else if leads_nowhere(hop) {
        Case::NoRoute
    } else if is_expired(tables, arrival, moment, terms) {
        Case::Expired
    } else if is_deferred(tables, arrival, moment, terms) {
        Case::Deferred
    } else {
        case_at_hop(tables, envelope, hop, members, copy)
    }
}

/// The case of the recipient of a report.
#[tactic(auto, using(crate::proofs::CaseSteps::report_steps))]
pub fn case_of_report(
    tables: &Tables,
    arrival: u64,
    moment: u64,
    report: &ReportFields,
    hop: Hop,
    copy: u64,
) -> Case
    requires arrival { arrival ≤ last_moment }
    ensures { (f : Facts) → IsOfReport (situation tables.now arrival moment) report.now hop copy f
        → result ≡ first_case f }
{
    if has_looped(tables, report.trace.as_slice(), arrival, moment) {
        Case::Looped
    } else if leads_nowhere(hop) {
        Case::NoRoute
    } else if is_expired(tables, arrival, moment, report_terms()) {
        Case::Expired
    } else {
        match hop {
            Hop::List(_) => Case::ToList,
            Hop::Local(_) => Case::ToMailbox,
            Hop::None | Hop::Peer(_) => {
                if copy > LONGEST_COPY {
                    Case::LongCopy
                } else {
                    Case::ToPeer
                }
            }
        }
    }
}

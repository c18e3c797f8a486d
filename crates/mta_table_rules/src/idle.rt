//! When verdicts change, and when recipients may be relayed.

ghost use Rattle.std.specs.Prelude.{◌≡◌, ◌≤◌, IfSome, Some};
ghost use Rattle.mta_apdu.specs.Apdus.{apdu_value};
ghost use Rattle.mta_ber.specs.Times.{last_moment};
ghost use Rattle.mta_procedures.specs.Situations.{situation, terms_of};
ghost use Rattle.mta_idle_laws.specs.Next.{next_in, next_under, up_to_deferral};
ghost use Rattle.mta_idle_laws.specs.Spans.{span_in, span_under};
ghost use Rattle.mta_state.specs.Spans.{bounds_of};

use mta_apdu::Apdu;
use mta_envelope::Envelope;
use mta_procedures::Terms;
use mta_rules::{expiry, is_expired, report_terms, terms_of};
use mta_state::Span;
use mta_tables::Tables;

/// A moment that is to come, or the end of the deferral where that is to come before it.
fn up_to_deferral(now: u64, deferral: Option<u64>, until: u64) -> u64
    ensures { result ≡ up_to_deferral now deferral until }
{
    match deferral {
        Some(deferral) => {
            if now < deferral {
                deferral.min(until)
            } else {
                until
            }
        }
        None => until,
    }
}

/// The next change of an item of these terms: none once it has expired.
fn next_in(tables: &Tables, arrival: u64, moment: u64, terms: Terms) -> Option<u64>
    requires within { arrival ≤ last_moment }
    requires deferred { IfSome terms.deferral (λ d. d ≤ last_moment) }
    ensures { result ≡ next_in (situation tables.now arrival moment) terms }
{
    if is_expired(tables, arrival, moment, terms) {
        None
    } else {
        let until = expiry(tables, arrival, terms);
        Some(up_to_deferral(moment, terms.deferral, until))
    }
}

fn envelope_next(
    format: u32,
    tables: &Tables,
    envelope: &Envelope,
    arrival: u64,
    moment: u64,
) -> Option<u64>
    requires { arrival ≤ last_moment }
    ensures { result ≡ next_in (situation tables.now arrival moment) (terms_of format envelope.now) }
{
    let terms = terms_of(format, envelope.fields());
    next_in(tables, arrival, moment, terms)
}

/// The next moment at which a verdict in a format on a recipient of an APDU may change; none once it has expired.
pub fn next_under(
    format: u32,
    tables: &Tables,
    apdu: &Apdu<'_>,
    arrival: u64,
    moment: u64,
) -> Option<u64>
    requires { arrival ≤ last_moment }
    ensures { result ≡ next_under format (Some tables.now) (Some (apdu_value apdu.now)) arrival moment }
{
    match apdu {
        Apdu::Message(message) => envelope_next(format, tables, &message.envelope, arrival, moment),
        Apdu::Probe(probe) => envelope_next(format, tables, &probe.envelope, arrival, moment),
        Apdu::Report(_) => next_in(tables, arrival, moment, report_terms()),
    }
}

/// When recipients of an item of these terms may be relayed.
fn span_in(tables: &Tables, arrival: u64, terms: Terms) -> Span
    requires within { arrival ≤ last_moment }
    requires deferred { IfSome terms.deferral (λ d. d ≤ last_moment) }
    ensures { bounds_of result ≡ span_in (situation tables.now arrival arrival) terms }
{
    Span {
        from: terms.deferral.unwrap_or(0),
        until: expiry(tables, arrival, terms),
    }
}

fn envelope_span(format: u32, tables: &Tables, envelope: &Envelope, arrival: u64) -> Span
    requires { arrival ≤ last_moment }
    ensures { bounds_of result ≡ span_in (situation tables.now arrival arrival) (terms_of format envelope.now) }
{
    let terms = terms_of(format, envelope.fields());
    span_in(tables, arrival, terms)
}

/// When recipients of an APDU may be relayed in a format.
pub fn span_under(format: u32, tables: &Tables, apdu: &Apdu<'_>, arrival: u64) -> Span
    requires { arrival ≤ last_moment }
    ensures { Some (bounds_of result) ≡ span_under format (Some tables.now) (Some (apdu_value apdu.now)) arrival }
{
    match apdu {
        Apdu::Message(message) => envelope_span(format, tables, &message.envelope, arrival),
        Apdu::Probe(probe) => envelope_span(format, tables, &probe.envelope, arrival),
        Apdu::Report(_) => span_in(tables, arrival, report_terms()),
    }
}

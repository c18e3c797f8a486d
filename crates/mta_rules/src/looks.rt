//! What a verdict asks of traces, extensions and times.

ghost use Rattle.std.specs.Prelude.{◌≡◌, ◌==◌, ◌≤◌, IfSome, max, unwrap_or};
ghost use Rattle.std.specs.List.{list_any};
ghost use Rattle.mta_ber.specs.Times.{last_moment};
ghost use Rattle.mta_procedures.specs.Criticals.{honoured_numbers, is_honoured, is_here, is_critical, has_critical};
ghost use Rattle.mta_procedures.specs.Situations.{situation, hold_of, held_until, earlier, expiry};
ghost use Rattle.mta_procedures.specs.Situations.{is_expired, is_deferred, latest_in, terms_of, report_terms};
ghost use Rattle.mta_procedures.specs.Traces.{is_of_domain, comes_back, has_looped};

use mta_envelope::{EnvelopeFields, Priority};
use mta_envelope_recipient::RecipientFields;
use mta_fields::{Domain, ExtField, ExtKind, TraceElement};
use mta_procedures::Terms;
use mta_tables::{Hop, Tables};

fn is_of_domain(own: &Domain, element: &TraceElement) -> bool
    ensures { result ≡ is_of_domain own.now element.now }
{
    own.same(&element.fields().domain)
}

/// Whether some element is of the own domain, where neither it nor one behind it carries dl-operation.
fn comes_back(own: &Domain, trace: &[TraceElement]) -> bool
    ensures { result ≡ comes_back own.now trace.now }
{
    let mut back = false;
    for element in trace {
        if element.fields().supplied.dl {
            back = false;
        } else if is_of_domain(own, element) {
            back = true;
        }
    }
    back
}

/// Whether the item comes back to the own domain since it was expanded last, or its trace is full.
pub fn has_looped(tables: &Tables, trace: &[TraceElement], arrival: u64, moment: u64) -> bool
    ensures { result ≡ has_looped (situation tables.now arrival moment) trace.now }
{
    comes_back(tables.domain(), trace) || trace.len() >= 512
}

fn is_honoured_number(number: u32) -> bool
    ensures { result ≡ list_any (λ k. number == k) honoured_numbers }
{
    [1, 3, 4, 5, 26, 38].iter().any(|k| number == *k)
}

fn is_honoured(kind: &ExtKind) -> bool
    ensures { result ≡ is_honoured kind.now }
{
    match kind {
        ExtKind::Standard(code) => is_honoured_number(code.number()),
        ExtKind::Private(_) => false,
    }
}

fn is_here(hop: Hop) -> bool
    ensures { result ≡ is_here hop }
{
    match hop {
        Hop::Local(_) | Hop::List(_) => true,
        Hop::Peer(_) | Hop::None => false,
    }
}

fn is_critical(hop: Hop, field: &ExtField) -> bool
    ensures { result ≡ is_critical hop field.now }
{
    let fields = field.fields();
    let honoured = is_honoured(&fields.kind);
    let here = is_here(hop);
    !honoured && (fields.transfer || (fields.delivery && here))
}

fn some_critical(hop: Hop, fields: &[ExtField]) -> bool
    ensures { result ≡ list_any (is_critical hop) fields.now }
{
    fields.iter().any(|field| is_critical(hop, field))
}

/// Whether an extension of the message or of the recipient is marked critical and not honoured.
pub fn has_critical(hop: Hop, envelope: &EnvelopeFields, recipient: &RecipientFields) -> bool
    ensures { result ≡ has_critical hop envelope.now recipient.now }
{
    some_critical(hop, envelope.extensions.as_slice())
        || some_critical(hop, recipient.extensions.as_slice())
}

/// For how many seconds an item of a priority may wait, at most a year.
fn hold_of(tables: &Tables, priority: Priority) -> u64
    ensures exact { result ≡ hold_of tables.now.holds priority }
    ensures small { result ≤ 31536000 }
{
    tables.are_whole();
    let holds = tables.holds();
    match priority {
        Priority::Urgent => holds.urgent,
        Priority::Normal => holds.normal,
        Priority::NonUrgent => holds.non_urgent,
    }
}

/// The greater of the arrival and the deferral.
fn later_of(arrival: u64, deferral: Option<u64>) -> u64
    requires within { arrival ≤ last_moment }
    requires deferred { IfSome deferral (λ d. d ≤ last_moment) }
    ensures exact { result ≡ max arrival (unwrap_or deferral 0) }
    ensures small { result ≤ last_moment }
{
    match deferral {
        Some(deferral) => arrival.max(deferral),
        None => arrival,
    }
}

/// The greater of the arrival and the deferral, and the hold time of the priority.
fn held_until(tables: &Tables, arrival: u64, terms: Terms) -> u64
    requires within { arrival ≤ last_moment }
    requires deferred { IfSome terms.deferral (λ d. d ≤ last_moment) }
    ensures { result ≡ held_until (situation tables.now arrival arrival) terms }
{
    later_of(arrival, terms.deferral) + hold_of(tables, terms.priority)
}

/// The moment, or the latest delivery time where that is less.
fn earlier(moment: u64, latest: Option<u64>) -> u64
    ensures { result ≡ earlier moment latest }
{
    match latest {
        Some(latest) => moment.min(latest),
        None => moment,
    }
}

/// The latest delivery time, which counts in format 2 alone.
fn latest_in(format: u32, envelope: &EnvelopeFields) -> Option<u64>
    ensures { result ≡ latest_in format envelope.now }
{
    if format == 2 { envelope.latest } else { None }
}

/// What an envelope says of its time, as far as that counts in a format.
pub fn terms_of(format: u32, envelope: &EnvelopeFields) -> Terms
    ensures { result ≡ terms_of format envelope.now }
{
    Terms {
        priority: envelope.priority,
        deferral: envelope.deferral,
        latest: latest_in(format, envelope),
    }
}

/// Those of a report, which are the same in each format.
pub fn report_terms() -> Terms
    ensures { result ≡ report_terms }
{
    Terms {
        priority: Priority::Normal,
        deferral: None,
        latest: None,
    }
}

/// When an item of these terms expires.
pub fn expiry(tables: &Tables, arrival: u64, terms: Terms) -> u64
    requires within { arrival ≤ last_moment }
    requires deferred { IfSome terms.deferral (λ d. d ≤ last_moment) }
    ensures { result ≡ expiry (situation tables.now arrival arrival) terms }
{
    earlier(held_until(tables, arrival, terms), terms.latest)
}

/// Whether an item of these terms has expired.
pub fn is_expired(tables: &Tables, arrival: u64, moment: u64, terms: Terms) -> bool
    requires within { arrival ≤ last_moment }
    requires deferred { IfSome terms.deferral (λ d. d ≤ last_moment) }
    ensures { result ≡ is_expired (situation tables.now arrival moment) terms }
{
    expiry(tables, arrival, terms) <= moment
}

/// Whether the deferral is still to come.
pub fn is_deferred(tables: &Tables, arrival: u64, moment: u64, terms: Terms) -> bool
    ensures { result ≡ is_deferred (situation tables.now arrival moment) terms }
{
    match terms.deferral {
        Some(deferral) => moment < deferral,
        None => false,
    }
}

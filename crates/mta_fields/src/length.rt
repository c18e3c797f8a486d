//! How many octets fields have that are written, told without writing them: no call here takes memory. Each answers
//! 2^64 - 1 where there are as many octets or more.

ghost use Rattle.std.specs.Prelude.{◌≡◌, ◌≤◌, IfSome};
ghost use Rattle.mta_ber.specs.Canon.{optional};
ghost use Rattle.mta_ber.specs.Lengths.{octet_length};
ghost use Rattle.mta_ber.specs.Times.{last_moment};
ghost use Rattle.mta_names.specs.Labels.{canonical_choice};
ghost use Rattle.mta_fields.specs.Domains.{canonical_domain};
ghost use Rattle.mta_fields.specs.ExtensionFields.{canonical_kind, canonical_criticality, canonical_value};
ghost use Rattle.mta_fields.specs.ExtensionFields.{canonical_ext};
ghost use Rattle.mta_fields.specs.Traces.{IsSupplied, canonical_deferred, canonical_other, canonical_supplied};

use crate::domain::{Domain, DomainFields};
use crate::extension::{ExtFields, ExtKind, is_null, three_bits_of};
use crate::supplied::{Supplied, action_number_of, two_bits_of};
use mta_ber::{bits_length, element_length, int_length, length_of_both, slice_length, utc_length};
use mta_names::{Label, constructed, label_choice_length, label_length, primitive, raw_length};

fn choice_if_length(label: &Option<Label>) -> u64
    ensures { result ≡ octet_length (optional canonical_choice label.now) }
{
    match label {
        None => 0,
        Some(label) => label_choice_length(label),
    }
}

/// How many octets a domain has.
#[tactic(auto, unfolding(crate::specs::Domains::canonical_domain))]
pub fn domain_length(domain: &DomainFields) -> u64
    ensures { result ≡ octet_length (canonical_domain domain.now) }
{
    let country = label_length(1, 1, &domain.country);
    let named = length_of_both(country, label_length(1, 2, &domain.admd));
    let whole = length_of_both(named, choice_if_length(&domain.prmd));
    element_length(constructed(1, 3), whole)
}

fn domain_if_length(domain: &Option<Domain>) -> u64
    ensures { result ≡ octet_length (optional canonical_domain domain.now) }
{
    match domain {
        None => 0,
        Some(domain) => domain.length(),
    }
}

fn deferred_length(moment: Option<u64>) -> u64
    requires { IfSome moment (λ m. m ≤ last_moment) }
    ensures { result ≡ octet_length (optional canonical_deferred moment) }
{
    match moment {
        None => 0,
        Some(moment) => utc_length(primitive(2, 1), moment),
    }
}

fn other_length(redirected: bool, dl: bool) -> u64
    ensures { result ≡ octet_length (canonical_other redirected dl) }
{
    if !redirected && !dl {
        return 0;
    }
    bits_length(primitive(2, 3), two_bits_of(redirected, dl))
}

/// How many octets that has which a domain supplied.
#[tactic(auto, unfolding(crate::specs::Traces::canonical_supplied))]
pub fn supplied_length(v: &Supplied) -> u64
    requires { IsSupplied v.now }
    ensures { result ≡ octet_length (canonical_supplied v.now) }
{
    let attempted = domain_if_length(&v.attempted);
    let converted = length_of_both(attempted, raw_length(&v.converted));
    let arrival = length_of_both(converted, utc_length(primitive(2, 0), v.arrival));
    let deferred = length_of_both(arrival, deferred_length(v.deferred));
    let number = action_number_of(v.action);
    let action = length_of_both(deferred, int_length(primitive(2, 2), number));
    let other = length_of_both(action, other_length(v.redirected, v.dl));
    element_length(constructed(0, 17), other)
}

fn kind_length(kind: &ExtKind) -> u64
    ensures { result ≡ octet_length (canonical_kind kind.now) }
{
    match kind {
        ExtKind::Standard(number) => int_length(primitive(2, 0), number.number() as i64),
        ExtKind::Private(oid) => element_length(primitive(2, 3), slice_length(oid.as_slice())),
    }
}

fn criticality_length(submission: bool, transfer: bool, delivery: bool) -> u64
    ensures { result ≡ octet_length (canonical_criticality submission transfer delivery) }
{
    if !submission && !transfer && !delivery {
        return 0;
    }
    bits_length(
        primitive(2, 1),
        three_bits_of(submission, transfer, delivery),
    )
}

fn value_length(value: &[u8]) -> u64
    ensures { result ≡ octet_length (canonical_value value.now) }
{
    if is_null(value) {
        return 0;
    }
    element_length(constructed(2, 2), slice_length(value))
}

/// How many octets an extension field has.
#[tactic(auto, unfolding(crate::specs::ExtensionFields::canonical_ext))]
pub fn extension_length(field: &ExtFields) -> u64
    ensures { result ≡ octet_length (canonical_ext field.now) }
{
    let critical = criticality_length(field.submission, field.transfer, field.delivery);
    let begun = length_of_both(kind_length(&field.kind), critical);
    let whole = length_of_both(begun, value_length(field.value.as_slice()));
    element_length(constructed(0, 16), whole)
}

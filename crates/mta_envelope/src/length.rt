//! How many octets an envelope has that is written, told without writing it: no call here takes memory. Each answers
//! 2^64 - 1 where there are as many octets or more.

ghost use Rattle.std.specs.Prelude.{◌≡◌, ◌≤◌, IfSome};
ghost use Rattle.mta_ber.specs.Canon.{optional};
ghost use Rattle.mta_ber.specs.Lengths.{octet_length};
ghost use Rattle.mta_ber.specs.Times.{last_moment};
ghost use Rattle.mta_envelope.specs.Components.{longest};
ghost use Rattle.mta_envelope.specs.Envelopes.{IsEnvelope, canonical_or_none, canonical_deferral, canonical_length};
ghost use Rattle.mta_envelope.specs.Envelopes.{envelope_front, envelope_middle, envelope_back, envelope_content};
ghost use Rattle.mta_envelope.specs.Priorities.{canonical_priority};

use crate::envelope::EnvelopeFields;
use crate::priority::{Priority, number_of};
use mta_ber::{Bits, bits_length, int_length, length_of_both, utc_length};
use mta_envelope_common::{
    content_id_length, extensions_length, kind_in_front_length, kind_in_place_length, trace_length,
};
use mta_envelope_recipient::recipients_length;
use mta_names::{constructed, primitive, raw_length};

fn priority_length(priority: Priority) -> u64
    ensures { result ≡ octet_length (canonical_priority priority) }
{
    match priority {
        Priority::Normal => 0,
        Priority::NonUrgent | Priority::Urgent => int_length(primitive(1, 7), number_of(priority)),
    }
}

fn indicators_length(bits: Bits) -> u64
    ensures { result ≡ octet_length (canonical_or_none bits) }
{
    if bits.count() == 8 && bits.word() == 0 {
        return 0;
    }
    bits_length(primitive(1, 8), bits)
}

fn deferral_length(moment: Option<u64>) -> u64
    requires { IfSome moment (λ m. m ≤ last_moment) }
    ensures { result ≡ octet_length (optional canonical_deferral moment) }
{
    match moment {
        None => 0,
        Some(moment) => utc_length(primitive(2, 0), moment),
    }
}

fn content_length_length(length: Option<u64>) -> u64
    requires { IfSome length (λ n. n ≤ longest) }
    ensures { result ≡ octet_length (optional canonical_length length) }
{
    match length {
        None => 0,
        Some(length) => int_length(primitive(2, 0), length as i64),
    }
}

#[tactic(auto, unfolding(crate::specs::Envelopes::envelope_front))]
fn front_length(v: &EnvelopeFields) -> u64
    ensures { result ≡ octet_length (envelope_front v.now) }
{
    let name = v.originator.length(constructed(1, 0));
    let originator = length_of_both(kind_in_front_length(&v.content_kind), name);
    let id = length_of_both(originator, v.id.length());
    let eits = length_of_both(id, raw_length(&v.eits));
    let kind = length_of_both(eits, kind_in_place_length(&v.content_kind));
    length_of_both(kind, priority_length(v.priority))
}

#[tactic(auto, unfolding(crate::specs::Envelopes::envelope_middle))]
fn middle_length(v: &EnvelopeFields) -> u64
    ensures { result ≡ octet_length (envelope_middle v.now) }
{
    let trace = length_of_both(indicators_length(v.indicators), trace_length(&v.trace));
    length_of_both(trace, content_id_length(&v.content_id))
}

#[tactic(auto, unfolding(crate::specs::Envelopes::envelope_back))]
fn back_length(v: &EnvelopeFields) -> u64
    requires { IsEnvelope v.now }
    ensures { result ≡ octet_length (envelope_back v.now) }
{
    let length = length_of_both(deferral_length(v.deferral), content_length_length(v.length));
    let bilateral = length_of_both(length, raw_length(&v.bilateral));
    let recipients = length_of_both(bilateral, recipients_length(&v.recipients));
    length_of_both(
        recipients,
        extensions_length(constructed(2, 3), &v.extensions),
    )
}

/// How many contents octets an envelope has.
#[tactic(auto, unfolding(crate::specs::Envelopes::envelope_content))]
pub fn components_length(v: &EnvelopeFields) -> u64
    requires { IsEnvelope v.now }
    ensures { result ≡ octet_length (envelope_content v.now) }
{
    let middle = length_of_both(front_length(v), middle_length(v));
    length_of_both(middle, back_length(v))
}

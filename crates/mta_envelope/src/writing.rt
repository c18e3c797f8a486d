//! Writing an envelope in its one canonical spelling: the components in the order of their tags, and none that equals
//! its default.

ghost use Rattle.std.specs.Prelude.{◌≡◌, ◌≤◌, IfOk, OnOk, IfSome};
ghost use Rattle.mta_ber.specs.Canon.{appended, optional};
ghost use Rattle.mta_ber.specs.Times.{last_moment};
ghost use Rattle.mta_envelope_common.specs.ContentKinds.{kind_in_front, kind_in_place};
ghost use Rattle.mta_envelope.specs.Components.{longest};
ghost use Rattle.mta_envelope.specs.Envelopes.{IsEnvelope, canonical_or_none, canonical_deferral, canonical_length};
ghost use Rattle.mta_envelope.specs.Envelopes.{envelope_front, envelope_middle, envelope_back, envelope_content};

use crate::envelope::EnvelopeFields;
use crate::priority::put_priority;
use mta_ber::{Bits, Memory, Writer, put_int, put_utc};
use mta_envelope_common::{
    ContentKind, put_content_id, put_content_kind, put_extensions, put_indicators, put_trace,
};
use mta_envelope_recipient::put_recipients;
use mta_names::{constructed, primitive, put_raw_if};
use std::alloc::Global;

#[tactic(auto, using(crate::proofs::Written::appended_none))]
fn put_kind_in_front(w: &mut Writer, kind: &ContentKind) -> Result<(), Memory>
    ensures { OnOk result (w.new ≡ appended w.old (kind_in_front kind.now)) }
{
    match kind {
        ContentKind::Oid(_) => put_content_kind(w, kind),
        ContentKind::Number(_) => Ok(()),
    }
}

#[tactic(auto, using(crate::proofs::Written::appended_none))]
fn put_kind_in_place(w: &mut Writer, kind: &ContentKind) -> Result<(), Memory>
    ensures { OnOk result (w.new ≡ appended w.old (kind_in_place kind.now)) }
{
    match kind {
        ContentKind::Oid(_) => Ok(()),
        ContentKind::Number(_) => put_content_kind(w, kind),
    }
}

/// Appends indicators, but for 8 zero bits.
#[tactic(auto, using(crate::proofs::Written::appended_none))]
fn put_indicators_if(w: &mut Writer, bits: Bits) -> Result<(), Memory>
    ensures { OnOk result (w.new ≡ appended w.old (canonical_or_none bits)) }
{
    if bits.count() == 8 && bits.word() == 0 {
        return Ok(());
    }
    put_indicators(w, primitive(1, 8), bits)
}

#[tactic(auto, using(crate::proofs::Written::appended_none))]
fn put_deferral(w: &mut Writer, moment: Option<u64>) -> Result<(), Memory>
    requires { IfSome moment (λ m. m ≤ last_moment) }
    ensures { OnOk result (w.new ≡ appended w.old (optional canonical_deferral moment)) }
{
    match moment {
        None => Ok(()),
        Some(moment) => put_utc(w, primitive(2, 0), moment),
    }
}

#[tactic(auto, using(crate::proofs::Written::appended_none))]
fn put_length(w: &mut Writer, length: Option<u64>) -> Result<(), Memory>
    requires { IfSome length (λ n. n ≤ longest) }
    ensures { OnOk result (w.new ≡ appended w.old (optional canonical_length length)) }
{
    match length {
        None => Ok(()),
        Some(length) => put_int(w, primitive(2, 0), length as i64),
    }
}

/// The components up to the priority.
#[tactic(auto, unfolding(crate::specs::Envelopes::envelope_front))]
fn put_front(w: &mut Writer, v: &EnvelopeFields) -> Result<(), Memory>
    ensures { OnOk result (w.new ≡ appended w.old (envelope_front v.now)) }
{
    put_kind_in_front(w, &v.content_kind)?;
    v.originator.write(w, constructed(1, 0))?;
    v.id.write(w)?;
    put_raw_if(w, &v.eits)?;
    put_kind_in_place(w, &v.content_kind)?;
    put_priority(w, v.priority)
}

/// The other components under application tags.
#[tactic(auto, unfolding(crate::specs::Envelopes::envelope_middle))]
fn put_middle(w: &mut Writer, v: &EnvelopeFields) -> Result<(), Memory>
    ensures { OnOk result (w.new ≡ appended w.old (envelope_middle v.now)) }
{
    put_indicators_if(w, v.indicators)?;
    put_trace(w, &v.trace)?;
    put_content_id(w, &v.content_id)
}

/// The components under context tags.
#[tactic(auto, unfolding(crate::specs::Envelopes::envelope_back))]
fn put_back(w: &mut Writer, v: &EnvelopeFields) -> Result<(), Memory>
    requires { IsEnvelope v.now }
    ensures { OnOk result (w.new ≡ appended w.old (envelope_back v.now)) }
{
    put_deferral(w, v.deferral)?;
    put_length(w, v.length)?;
    put_raw_if(w, &v.bilateral)?;
    put_recipients(w, &v.recipients)?;
    put_extensions(w, constructed(2, 3), &v.extensions)
}

/// The components of an envelope, in a writer of their own.
#[tactic(auto, unfolding(crate::specs::Envelopes::envelope_content))]
pub fn put_components(alloc: Global, v: &EnvelopeFields) -> Result<Writer, Memory>
    requires { IsEnvelope v.now }
    ensures { IfOk result (λ w. w.octets ≡ envelope_content v.now) }
{
    let mut inside = Writer::new(alloc);
    put_front(&mut inside, v)?;
    put_middle(&mut inside, v)?;
    put_back(&mut inside, v)?;
    Ok(inside)
}

//! Reading an envelope.

ghost use Rattle.std.specs.Prelude.{◌≡◌, [], unwrap_or, false};
ghost use Rattle.mta_ber.specs.Parts.{Reads};
ghost use Rattle.mta_ber.specs.Seen.{view};
ghost use Rattle.mta_envelope_extensions.specs.declared.extensions.Extensions.{Extensions};
ghost use Rattle.mta_envelope.specs.Envelopes.{told_or_none, history_or_none, indicators_or_none, priority_or_normal};
ghost use Rattle.mta_envelope.specs.Envelopes.{has_required, HasRequired, IsEnvelopeOf, finished, envelope_in};

use crate::envelope::EnvelopeFields;
use crate::parts::{EnvelopeParts, no_parts};
use crate::priority::Priority;
use mta_ber::{Bits, Kind, ReadFault, View, bad, take_parts};
use mta_envelope_extensions::{Extensions, no_extensions};
use mta_fields::Expansion;
use mta_names::Row;
use std::alloc::Global;

/// No extension fields where none were read.
fn told_or_none(alloc: Global, extensions: Option<Extensions>) -> Extensions
    ensures { result ≡ told_or_none extensions }
{
    match extensions {
        Some(extensions) => extensions,
        None => no_extensions(alloc),
    }
}

/// No expansions where none were told.
fn history_or_none(alloc: Global, history: Option<Row<Expansion>>) -> Row<Expansion>
    ensures { result ≡ history_or_none history }
{
    match history {
        Some(history) => history,
        None => Row::new(alloc),
    }
}

fn indicators_or_none(indicators: Option<Bits>) -> Bits
    ensures { result ≡ indicators_or_none indicators }
{
    match indicators {
        Some(indicators) => indicators,
        None => Bits::new(8, 0),
    }
}

fn priority_or_normal(priority: Option<Priority>) -> Priority
    ensures { result ≡ priority_or_normal priority }
{
    match priority {
        Some(priority) => priority,
        None => Priority::Normal,
    }
}

fn is_prohibited(prohibited: Option<bool>) -> bool
    ensures { result ≡ unwrap_or prohibited false }
{
    match prohibited {
        Some(prohibited) => prohibited,
        None => false,
    }
}

/// Whether the required components are there.
fn has_required(parts: &EnvelopeParts) -> bool
    ensures { result ≡ has_required parts.now }
{
    parts.originator.is_some()
        && parts.id.is_some()
        && parts.content_kind.is_some()
        && parts.trace.is_some()
        && parts.recipients.is_some()
}

/// The envelope of components of which the required ones are there.
fn envelope_of(alloc: Global, parts: EnvelopeParts) -> EnvelopeFields
    requires { HasRequired parts }
    ensures { IsEnvelopeOf parts result }
{
    let EnvelopeParts {
        probe: _,
        originator,
        id,
        eits,
        content_kind,
        priority,
        indicators,
        trace,
        content_id,
        deferral,
        length,
        bilateral,
        recipients,
        extensions,
    } = parts;
    let told = told_or_none(alloc, extensions);
    EnvelopeFields {
        id: id.unwrap(),
        originator: originator.unwrap(),
        eits,
        content_kind: content_kind.unwrap(),
        content_id,
        priority: priority_or_normal(priority),
        indicators: indicators_or_none(indicators),
        deferral,
        length,
        bilateral,
        recipients: recipients.unwrap(),
        trace: trace.unwrap(),
        extensions: told.fields,
        history: history_or_none(alloc, told.history),
        latest: told.latest,
        dl_prohibited: is_prohibited(told.prohibited),
    }
}

/// The envelope of components. Missing where a required one is absent.
fn finish(alloc: Global, parts: EnvelopeParts, at: u32) -> Result<EnvelopeFields, ReadFault>
    ensures { Reads result (finished at parts) }
{
    if has_required(&parts) {
        Ok(envelope_of(alloc, parts))
    } else {
        drop(parts);
        bad(at, Kind::Missing)
    }
}

/// What an envelope has, that of a probe or of a message.
#[tactic(auto, unfolding(crate::specs::Envelopes::envelope_in))]
pub fn read_fields(alloc: Global, probe: bool, whole: &View) -> Result<EnvelopeFields, ReadFault>
    ensures { Reads result (envelope_in probe (view whole.now)) }
{
    if !whole.tag.constructed {
        return bad(whole.at, Kind::BadTag);
    }
    let mut parts = no_parts(probe);
    match take_parts(alloc, whole, &mut parts) {
        Ok(()) => finish(alloc, parts, whole.at),
        Err(fault) => {
            drop(parts);
            Err(fault)
        }
    }
}

//! Envelopes with other recipients, another trace, other extensions and another history.

ghost use Rattle.std.specs.Prelude.{◌≡◌, IfOk};
ghost use Rattle.mta_copies.specs.Kept.{IsKept};

use crate::fields::copied_id;
use crate::parts::{copied_kind, copied_text};
use mta_ber::{Memory, Octets, Text};
use mta_envelope::EnvelopeFields;
use mta_envelope_common::ContentKind;
use mta_envelope_recipient::Recipient;
use mta_fields::{Expansion, ExtField, MtsId, TraceElement};
use mta_names::{OrName, Row, copied_raw};
use std::alloc::Global;

/// The parts of an envelope with memory of their own that every copy has in common.
#[derive(Drop)]
pub struct Kept {
    pub id: MtsId,
    pub originator: OrName,
    pub eits: Option<Octets>,
    pub content_kind: ContentKind,
    pub content_id: Option<Text>,
    pub bilateral: Option<Octets>,
}

fn copied_kept(alloc: Global, fields: &EnvelopeFields) -> Result<Kept, Memory>
    ensures { IfOk result (λ k. IsKept fields.now k) }
{
    let id = copied_id(alloc, &fields.id)?;
    let originator = fields.originator.copy(alloc)?;
    let eits = copied_raw(alloc, &fields.eits)?;
    let content_kind = copied_kind(alloc, &fields.content_kind)?;
    let content_id = copied_text(alloc, &fields.content_id)?;
    let bilateral = copied_raw(alloc, &fields.bilateral)?;
    Ok(Kept {
        id,
        originator,
        eits,
        content_kind,
        content_id,
        bilateral,
    })
}

fn with_kept(
    kept: Kept,
    fields: &EnvelopeFields,
    recipients: Row<Recipient>,
    trace: Row<TraceElement>,
    extensions: Row<ExtField>,
    history: Row<Expansion>,
) -> EnvelopeFields
    requires { IsKept fields.now kept }
    ensures { result ≡ record fields.now {
      recipients = recipients;
      trace = trace;
      extensions = extensions;
      history = history;
    } }
{
    let Kept {
        id,
        originator,
        eits,
        content_kind,
        content_id,
        bilateral,
    } = kept;
    EnvelopeFields {
        id,
        originator,
        eits,
        content_kind,
        content_id,
        priority: fields.priority,
        indicators: fields.indicators,
        deferral: fields.deferral,
        length: fields.length,
        bilateral,
        recipients,
        trace,
        extensions,
        history,
        latest: fields.latest,
        dl_prohibited: fields.dl_prohibited,
    }
}

/// The parts of an envelope with these in place of its own, and equal ones else.
pub fn envelope_with(
    alloc: Global,
    fields: &EnvelopeFields,
    recipients: Row<Recipient>,
    trace: Row<TraceElement>,
    extensions: Row<ExtField>,
    history: Row<Expansion>,
) -> Result<EnvelopeFields, Memory>
    ensures { IfOk result (λ e. e ≡ record fields.now {
      recipients = recipients;
      trace = trace;
      extensions = extensions;
      history = history;
    }) }
{
    let kept = copied_kept(alloc, fields)?;
    Ok(with_kept(kept, fields, recipients, trace, extensions, history))
}

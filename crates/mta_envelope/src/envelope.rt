//! Envelopes.

use crate::length::components_length;
use crate::priority::Priority;
use crate::reading::read_fields;
use crate::writing::put_components;
use mta_ber::{Bits, Memory, Octets, ReadFault, Tag, Text, View, Writer, element_length};
use mta_envelope_common::ContentKind;
use mta_envelope_recipient::Recipient;
use mta_fields::{Expansion, ExtField, MtsId, TraceElement};
use mta_names::{OrName, Row, put_around};
use std::alloc::Global;
use std::marker::Model;

/// What the envelope of a message or a probe has. What is absent is `None`, and what has a default is there. Moments
/// are seconds from 1950-01-01 00:00:00 UTC, at most the last second of 2049.
pub struct EnvelopeFields {
    /// message-identifier, or probe-identifier.
    pub id: MtsId,
    /// originator-name.
    pub originator: OrName,
    /// original-encoded-information-types: the whole element, `[APPLICATION 5]`.
    pub eits: Option<Octets>,
    /// content-type.
    pub content_kind: ContentKind,
    /// content-identifier: 1 to 16 characters of PrintableString.
    pub content_id: Option<Text>,
    /// priority, normal by default; that of a probe is normal.
    pub priority: Priority,
    /// per-message-indicators, 8 to 64 bits, 8 zero bits by default: disclosure-of-other-recipients 0,
    /// implicit-conversion-prohibited 1, alternate-recipient-allowed 2, content-return-request 3.
    pub indicators: Bits,
    /// deferred-delivery-time, of a message alone.
    pub deferral: Option<u64>,
    /// content-length, of a probe alone: 0 to 2^63 - 1.
    pub length: Option<u64>,
    /// per-domain-bilateral-information: the whole element, `[1]`.
    pub bilateral: Option<Octets>,
    /// per-recipient-fields: 1 to 32,767.
    pub recipients: Row<Recipient>,
    /// trace-information: at most 512 elements, the first one first.
    pub trace: Row<TraceElement>,
    /// extensions, each as it stands, in the order held.
    pub extensions: Row<ExtField>,
    /// What the extension of type 26 says, dl-expansion-history; empty where there is none.
    pub history: Row<Expansion>,
    /// What the extension of type 5 says, latest-delivery-time.
    pub latest: Option<u64>,
    /// What the extension of type 3 says, dl-expansion-prohibited; false where there is none.
    pub dl_prohibited: bool,
}

// Written out, since a derived one is opened anew, field by field, at each place where a value is let go.
impl Drop for EnvelopeFields {
    fn drop(self) {
        let EnvelopeFields {
            id: _,
            originator: _,
            eits: _,
            content_kind: _,
            content_id: _,
            priority: _,
            indicators: _,
            deferral: _,
            length: _,
            bilateral: _,
            recipients: _,
            trace: _,
            extensions: _,
            history: _,
            latest: _,
            dl_prohibited: _,
        } = self;
    }
}

/// The envelope of a message or a probe (X.411, MessageTransferEnvelope and ProbeTransferEnvelope).
pub struct Envelope {
    fields: EnvelopeFields,
}

// Written out, since a derived one is opened anew, field by field, at each place where a value is let go.
impl Drop for Envelope {
    fn drop(self) {
        let Envelope { fields: _ } = self;
    }
}

impl Model for Envelope {
    ghost use Rattle.mta_envelope.specs.declared.envelope.EnvelopeFields.{EnvelopeFields};
    ghost use Rattle.mta_envelope.specs.Envelopes.{IsEnvelope};

    ghost Value = { EnvelopeFields };

    ghost view = { λ e. e.fields };

    ghost invariant = { λ e. IsEnvelope e.fields };
}

impl Envelope {
    ghost use Rattle.std.specs.Prelude.{◌≡◌, ◌<◌, IfOk, OnOk, OnErr};
    ghost use Rattle.mta_ber.specs.Canon.{IsTag, appended, element};
    ghost use Rattle.mta_ber.specs.Lengths.{octet_length};
    ghost use Rattle.mta_ber.specs.Parts.{Reads, IsReadAs};
    ghost use Rattle.mta_ber.specs.Seen.{view};
    ghost use Rattle.mta_envelope.specs.declared.envelope.EnvelopeFields.{EnvelopeFields};
    ghost use Rattle.mta_envelope.specs.Envelopes.{envelope_in, IsEnvelope, IsOfKind, SpellsEnvelope, envelope_content};

    /// The envelope that an element spells, that of a probe or that of a message, whatever the tag of the element,
    /// which is for the caller to check: a SET, its components in any order.
    pub fn read(alloc: Global, probe: bool, whole: &View) -> Result<Envelope, ReadFault>
        // Which envelope it is, or which fault comes first.
        ensures exact { Reads result (envelope_in probe (view whole.now)) }

        // What is answered is spelled by the content, and what the content spells is answered.
        ensures found { IfOk result (SpellsEnvelope probe whole.now.depth whole.now.tag.constructed
            whole.now.content.now) }
        ensures only { (v : EnvelopeFields)
            → SpellsEnvelope probe whole.now.depth whole.now.tag.constructed whole.now.content.now v
            → IsReadAs result v }

        // That of a message has no content length, and that of a probe neither a priority nor a deferred delivery time.
        ensures kind { IfOk result (IsOfKind probe) }
    {
        match read_fields(alloc, probe, whole) {
            Ok(fields) => Ok(Envelope { fields }),
            Err(fault) => Err(fault),
        }
    }

    /// Appends the envelope in its canonical octets, under a tag.
    pub fn write(&self, w: &mut Writer, tag: Tag) -> Result<(), Memory>
        requires { IsTag tag }
        ensures ok { OnOk result (w.new ≡ appended w.old (element tag (envelope_content self.now))) }
        ensures err { OnErr result (w.new ≡ w.old) }
    {
        let inside = put_components(w.alloc(), &self.fields)?;
        put_around(w, tag, &inside)
    }

    /// How many octets `write` appends, told without memory; 2^64 - 1 where there are as many or more.
    pub fn length(&self, tag: Tag) -> u64
        requires { tag.number < 31 }
        ensures { result ≡ octet_length (element tag (envelope_content self.now)) }
    {
        element_length(tag, components_length(&self.fields))
    }

    /// An envelope of these parts, which takes no memory.
    pub fn from_fields(fields: EnvelopeFields) -> Envelope
        requires { IsEnvelope fields }
        ensures { result ≡ fields }
    {
        Envelope { fields }
    }

    /// The parts, lent.
    pub fn fields(&self) -> &EnvelopeFields
        ensures exact { result.now ≡ self.now }
        ensures envelope { IsEnvelope self.now }
    {
        &self.fields
    }

    /// The parts, which takes no memory.
    pub fn into_fields(self) -> EnvelopeFields
        ensures exact { result ≡ self }
        ensures envelope { IsEnvelope self }
    {
        let Envelope { fields } = self;
        fields
    }
}

//! A recipient.

ghost use Rattle.std.specs.Prelude.{◌≡◌, unwrap_or, []};
ghost use Rattle.mta_ber.specs.Parts.{Reads};
ghost use Rattle.mta_ber.specs.Seen.{view};
ghost use Rattle.mta_fields.specs.declared.extension.ExtFields.{ExtFields};
ghost use Rattle.mta_envelope_recipient.specs.Recipients.{recipient_in, fields_or_none, finished};

use crate::length::components_length;
use crate::parts::RecipientParts;
use crate::writing::put_components;
use mta_ber::{
    Bits, Kind, Memory, Octets, ReadFault, View, Writer, bad, element_length, is_constructed_tag,
    take_parts, take_required,
};
use mta_fields::ExtField;
use mta_names::{OrName, Row, constructed, put_around};
use std::alloc::Global;
use std::marker::Model;

/// What a recipient has.
pub struct RecipientFields {
    pub name: OrName,
    /// originally-specified-recipient-number: 1 to 32,767.
    pub number: u32,
    /// per-recipient-indicators, 8 to 64 bits: responsibility 0, originating-MTA-report 1,
    /// originating-MTA-non-delivery-report 2, originator-report 3, originator-non-delivery-report 4.
    pub indicators: Bits,
    /// explicit-conversion: the whole element, `[2]`.
    pub conversion: Option<Octets>,
    pub extensions: Row<ExtField>,
}

// Written out, since a derived one is opened anew, field by field, at each place where a value is let go.
impl Drop for RecipientFields {
    fn drop(self) {
        let RecipientFields {
            name: _,
            number: _,
            indicators: _,
            conversion: _,
            extensions: _,
        } = self;
    }
}

/// A recipient of a message or a probe (X.411, PerRecipientMessageTransferFields).
pub struct Recipient {
    fields: RecipientFields,
}

// Written out, since a derived one is opened anew, field by field, at each place where a value is let go.
impl Drop for Recipient {
    fn drop(self) {
        let Recipient { fields: _ } = self;
    }
}

impl Model for Recipient {
    ghost use Rattle.mta_envelope_recipient.specs.declared.recipient.RecipientFields.{RecipientFields};
    ghost use Rattle.mta_envelope_recipient.specs.Recipients.{IsRecipient};

    ghost Value = { RecipientFields };

    ghost view = { λ r. r.fields };

    ghost invariant = { λ r. IsRecipient r.fields };
}

/// No fields where none were read.
fn extensions_or_none(alloc: Global, extensions: Option<Row<ExtField>>) -> Row<ExtField>
    ensures { result ≡ fields_or_none extensions }
{
    match extensions {
        Some(extensions) => extensions,
        None => Row::new(alloc),
    }
}

/// The recipient of components of which the required ones are there.
fn finish(alloc: Global, parts: RecipientParts, at: u32) -> Result<RecipientFields, ReadFault>
    ensures { Reads result (finished at parts) }
{
    let RecipientParts {
        name,
        number,
        indicators,
        conversion,
        extensions,
    } = parts;
    let name = take_required(name, at)?;
    let number = take_required(number, at)?;
    let indicators = take_required(indicators, at)?;
    Ok(RecipientFields {
        name,
        number,
        indicators,
        conversion,
        extensions: extensions_or_none(alloc, extensions),
    })
}

#[tactic(auto, unfolding(crate::specs::Recipients::recipient_in))]
fn read_fields(alloc: Global, whole: &View) -> Result<RecipientFields, ReadFault>
    ensures { Reads result (recipient_in (view whole.now)) }
{
    if !is_constructed_tag(whole.tag, 0, 17) {
        return bad(whole.at, Kind::BadTag);
    }
    let mut parts = RecipientParts {
        name: None,
        number: None,
        indicators: None,
        conversion: None,
        extensions: None,
    };
    take_parts(alloc, whole, &mut parts)?;
    finish(alloc, parts, whole.at)
}

impl Recipient {
    ghost use Rattle.std.specs.Prelude.{◌≡◌, IfOk, OnOk, OnErr};
    ghost use Rattle.mta_ber.specs.Bits.{bit};
    ghost use Rattle.mta_ber.specs.Canon.{appended};
    ghost use Rattle.mta_ber.specs.Lengths.{octet_length};
    ghost use Rattle.mta_ber.specs.Parts.{Reads, IsReadAs};
    ghost use Rattle.mta_ber.specs.Seen.{view};
    ghost use Rattle.mta_envelope_recipient.specs.declared.recipient.RecipientFields.{RecipientFields};
    ghost use Rattle.mta_envelope_recipient.specs.Recipients.{recipient_in, IsRecipient, SpellsRecipient};
    ghost use Rattle.mta_envelope_recipient.specs.Recipients.{canonical_recipient};

    /// The recipient that an element spells, a SET. BadTag at an element of any other tag.
    pub fn read(alloc: Global, whole: &View) -> Result<Recipient, ReadFault>
        // Which recipient it is, or which fault comes first.
        ensures exact { Reads result (recipient_in (view whole.now)) }

        // What is answered is spelled by the element, and what the element spells is answered.
        ensures found { IfOk result (SpellsRecipient whole.now.depth whole.now.tag whole.now.content.now) }
        ensures only { (v : RecipientFields) → SpellsRecipient whole.now.depth whole.now.tag whole.now.content.now v
            → IsReadAs result v }
    {
        match read_fields(alloc, whole) {
            Ok(fields) => Ok(Recipient { fields }),
            Err(fault) => Err(fault),
        }
    }

    /// Appends the recipient in its canonical octets.
    #[tactic(auto, unfolding(crate::specs::Recipients::canonical_recipient))]
    pub fn write(&self, w: &mut Writer) -> Result<(), Memory>
        ensures ok { OnOk result (w.new ≡ appended w.old (canonical_recipient self.now)) }
        ensures err { OnErr result (w.new ≡ w.old) }
    {
        let inside = put_components(w.alloc(), &self.fields)?;
        put_around(w, constructed(0, 17), &inside)
    }

    /// How many octets `write` appends, told without memory; 2^64 - 1 where there are as many or more.
    #[tactic(auto, unfolding(crate::specs::Recipients::canonical_recipient))]
    pub fn length(&self) -> u64
        ensures { result ≡ octet_length (canonical_recipient self.now) }
    {
        element_length(constructed(0, 17), components_length(&self.fields))
    }

    /// Whether the transfer agent that has the message is responsible for this recipient (bit 0).
    pub fn is_responsible(&self) -> bool
        ensures { result ≡ bit self.now.indicators 0 }
    {
        self.fields.indicators.is_set(0)
    }

    /// A recipient of these parts, which takes no memory.
    pub fn from_fields(fields: RecipientFields) -> Recipient
        requires { IsRecipient fields }
        ensures { result ≡ fields }
    {
        Recipient { fields }
    }

    /// The parts, lent.
    pub fn fields(&self) -> &RecipientFields
        ensures exact { result.now ≡ self.now }
        ensures recipient { IsRecipient self.now }
    {
        &self.fields
    }

    /// The parts, which takes no memory.
    pub fn into_fields(self) -> RecipientFields
        ensures exact { result ≡ self }
        ensures recipient { IsRecipient self }
    {
        let Recipient { fields } = self;
        fields
    }
}

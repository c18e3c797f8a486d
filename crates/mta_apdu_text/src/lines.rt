//! The lines of fields, each appended to what was printed before.

ghost use Rattle.std.specs.Prelude.{◌≡◌, ◌++◌, OnOk, Option};
ghost use Rattle.std.specs.List.{flat_map};
ghost use Rattle.mta_apdu_text.specs.Lines.{line_if, id_line, name_line, content_kind_text, content_type_line};
ghost use Rattle.mta_apdu_text.specs.Lines.{content_id_line, indicators_line, moment_line, length_line, size_line};
ghost use Rattle.mta_apdu_text.specs.Lines.{action_text, trace_line, trace_lines, ext_kind_text, criticality_text};
ghost use Rattle.mta_apdu_text.specs.Lines.{extension_line, extension_lines, recipient_line, content_line};

use crate::pieces::{
    bit_digit, put_bits, put_domain, put_escaped, put_hex, put_id, put_moment, put_name,
    put_number, put_word_if,
};
use mta_ber::{Bits, Memory, Octets, Text};
use mta_envelope_common::ContentKind;
use mta_fields::{Action, ExtField, ExtFields, ExtKind, MtsId, TraceElement};
use mta_names::OrName;
use std::alloc::Global;

/// A word and an identifier.
#[tactic(auto, unfolding(crate::specs::Lines::id_line))]
pub fn put_id_line(out: &mut Octets, word: &[u8], id: &MtsId) -> Result<(), Memory>
    ensures { OnOk result (out.new ≡ out.old ++ id_line word.now id.now) }
{
    out.extend(word)?;
    put_id(out, id)?;
    out.extend(b"\n")
}

/// A word and a name.
#[tactic(auto, unfolding(crate::specs::Lines::name_line))]
pub fn put_name_line(
    alloc: Global,
    out: &mut Octets,
    word: &[u8],
    name: &OrName,
) -> Result<(), Memory>
    ensures { OnOk result (out.new ≡ out.old ++ name_line word.now name.now) }
{
    out.extend(word)?;
    put_name(alloc, out, name)?;
    out.extend(b"\n")
}

fn put_content_kind(out: &mut Octets, kind: &ContentKind) -> Result<(), Memory>
    ensures { OnOk result (out.new ≡ out.old ++ content_kind_text kind.now) }
{
    match kind {
        ContentKind::Number(number) => put_number(out, u64::from(number.number())),
        ContentKind::Oid(oid) => {
            out.extend(b"oid ")?;
            put_hex(out, oid.as_slice())
        }
    }
}

/// A content type: a number, or the contents of an object identifier.
#[tactic(auto, unfolding(crate::specs::Lines::content_type_line))]
pub fn put_content_type_line(out: &mut Octets, kind: &ContentKind) -> Result<(), Memory>
    ensures { OnOk result (out.new ≡ out.old ++ content_type_line kind.now) }
{
    out.extend(b"content-type ")?;
    put_content_kind(out, kind)?;
    out.extend(b"\n")
}

/// A content identifier, where there is one.
#[tactic(auto, unfolding(crate::specs::Lines::content_id_line))]
pub fn put_content_id_line(out: &mut Octets, id: &Option<Text>) -> Result<(), Memory>
    ensures { OnOk result (out.new ≡ out.old ++ line_if content_id_line id.now) }
{
    match id {
        None => Ok(()),
        Some(text) => {
            out.extend(b"content-identifier ")?;
            put_escaped(out, text.as_slice())?;
            out.extend(b"\n")
        }
    }
}

/// The indicators of a message or a probe.
#[tactic(auto, unfolding(crate::specs::Lines::indicators_line))]
pub fn put_indicators_line(out: &mut Octets, indicators: Bits) -> Result<(), Memory>
    ensures { OnOk result (out.new ≡ out.old ++ indicators_line indicators) }
{
    out.extend(b"indicators ")?;
    put_bits(out, indicators)?;
    out.extend(b"\n")
}

/// A deferred or a latest delivery time, where there is one.
#[tactic(auto, unfolding(crate::specs::Lines::moment_line))]
pub fn put_moment_line(
    alloc: Global,
    out: &mut Octets,
    word: &[u8],
    moment: Option<u64>,
) -> Result<(), Memory>
    ensures { OnOk result (out.new ≡ out.old ++ line_if (moment_line word.now) moment) }
{
    match moment {
        None => Ok(()),
        Some(moment) => {
            out.extend(word)?;
            put_moment(alloc, out, moment)?;
            out.extend(b"\n")
        }
    }
}

/// A content length, where there is one.
#[tactic(auto, unfolding(crate::specs::Lines::length_line))]
pub fn put_length_line(out: &mut Octets, length: Option<u64>) -> Result<(), Memory>
    ensures { OnOk result (out.new ≡ out.old ++ line_if length_line length) }
{
    match length {
        None => Ok(()),
        Some(length) => {
            out.extend(b"length ")?;
            put_number(out, length)?;
            out.extend(b"\n")
        }
    }
}

/// A word and how many octets an element has, where it is there.
#[tactic(auto, unfolding(crate::specs::Lines::size_line))]
pub fn put_size_line(out: &mut Octets, word: &[u8], raw: &Option<Octets>) -> Result<(), Memory>
    ensures { OnOk result (out.new ≡ out.old ++ line_if (size_line word.now) raw.now) }
{
    match raw {
        None => Ok(()),
        Some(octets) => {
            out.extend(word)?;
            put_number(out, octets.len() as u64)?;
            out.extend(b" octets\n")
        }
    }
}

fn put_action(out: &mut Octets, action: Action) -> Result<(), Memory>
    ensures { OnOk result (out.new ≡ out.old ++ action_text action) }
{
    match action {
        Action::Relayed => out.extend(b" relayed"),
        Action::Rerouted => out.extend(b" rerouted"),
    }
}

/// A trace element.
#[tactic(auto, unfolding(crate::specs::Lines::trace_line))]
fn put_trace_line(alloc: Global, out: &mut Octets, element: &TraceElement) -> Result<(), Memory>
    ensures { OnOk result (out.new ≡ out.old ++ trace_line element.now) }
{
    let fields = element.fields();
    out.extend(b"trace ")?;
    put_domain(out, &fields.domain)?;
    out.extend(b" ")?;
    put_moment(alloc, out, fields.supplied.arrival)?;
    put_action(out, fields.supplied.action)?;
    put_word_if(out, fields.supplied.redirected, b" redirected")?;
    put_word_if(out, fields.supplied.dl, b" dl")?;
    out.extend(b"\n")
}

/// The elements of a trace.
#[tactic(auto, unfolding(crate::specs::Lines::trace_lines))]
pub fn put_trace_lines(
    alloc: Global,
    out: &mut Octets,
    trace: &[TraceElement],
) -> Result<(), Memory>
    ensures { OnOk result (out.new ≡ out.old ++ trace_lines trace.now) }
{
    for element in trace {
        put_trace_line(alloc, out, element)?;
    }
    Ok(())
}

fn put_ext_kind(out: &mut Octets, kind: &ExtKind) -> Result<(), Memory>
    ensures { OnOk result (out.new ≡ out.old ++ ext_kind_text kind.now) }
{
    match kind {
        ExtKind::Standard(number) => put_number(out, u64::from(number.number())),
        ExtKind::Private(oid) => {
            out.extend(b"oid ")?;
            put_hex(out, oid.as_slice())
        }
    }
}

fn put_criticality(out: &mut Octets, fields: &ExtFields) -> Result<(), Memory>
    ensures { OnOk result (out.new ≡ out.old ++ criticality_text fields.now) }
{
    out.extend(&[
        bit_digit(fields.submission),
        bit_digit(fields.transfer),
        bit_digit(fields.delivery),
    ])
}

/// An extension field.
#[tactic(auto, unfolding(crate::specs::Lines::extension_line))]
fn put_extension_line(out: &mut Octets, field: &ExtField) -> Result<(), Memory>
    ensures { OnOk result (out.new ≡ out.old ++ extension_line field.now) }
{
    let fields = field.fields();
    out.extend(b"extension ")?;
    put_ext_kind(out, &fields.kind)?;
    out.extend(b" ")?;
    put_criticality(out, fields)?;
    out.extend(b" ")?;
    put_number(out, fields.value.len() as u64)?;
    out.extend(b" octets\n")
}

/// Extension fields.
#[tactic(auto, unfolding(crate::specs::Lines::extension_lines))]
pub fn put_extension_lines(out: &mut Octets, extensions: &[ExtField]) -> Result<(), Memory>
    ensures { OnOk result (out.new ≡ out.old ++ extension_lines extensions.now) }
{
    for field in extensions {
        put_extension_line(out, field)?;
    }
    Ok(())
}

/// A recipient: its number, its indicators and its name.
#[tactic(auto, unfolding(crate::specs::Lines::recipient_line))]
pub fn put_recipient_line(
    alloc: Global,
    out: &mut Octets,
    number: u32,
    indicators: Bits,
    name: &OrName,
) -> Result<(), Memory>
    ensures { OnOk result (out.new ≡ out.old ++ recipient_line number indicators name.now) }
{
    out.extend(b"recipient ")?;
    put_number(out, u64::from(number))?;
    out.extend(b" ")?;
    put_bits(out, indicators)?;
    out.extend(b" ")?;
    put_name(alloc, out, name)?;
    out.extend(b"\n")
}

/// A content.
#[tactic(auto, unfolding(crate::specs::Lines::content_line))]
pub fn put_content_line(out: &mut Octets, content: &[u8]) -> Result<(), Memory>
    ensures { OnOk result (out.new ≡ out.old ++ content_line content.now) }
{
    out.extend(b"content ")?;
    put_number(out, content.len() as u64)?;
    out.extend(b" ")?;
    put_hex(out, content)?;
    out.extend(b"\n")
}

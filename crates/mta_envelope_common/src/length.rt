//! How many octets have the fields that are written, told without writing them: no call here takes memory. Each answers
//! 2^64 - 1 where there are as many octets or more.

ghost use Rattle.std.specs.Prelude.{◌≡◌, ◌<◌};
ghost use Rattle.std.specs.List.{flat_map};
ghost use Rattle.mta_ber.specs.Canon.{optional};
ghost use Rattle.mta_ber.specs.Lengths.{octet_length};
ghost use Rattle.mta_fields.specs.ExtensionFields.{canonical_ext};
ghost use Rattle.mta_fields.specs.TraceElements.{canonical_trace};
ghost use Rattle.mta_envelope_common.specs.ContentIdentifiers.{canonical_content_id};
ghost use Rattle.mta_envelope_common.specs.ContentKinds.{kind_in_front, kind_in_place};
ghost use Rattle.mta_envelope_common.specs.ExtensionLists.{canonical_ext_list};
ghost use Rattle.mta_envelope_common.specs.TraceLists.{canonical_trace_list};

use crate::kind::ContentKind;
use mta_ber::{Tag, Text, element_length, int_length, length_of_both, slice_length};
use mta_fields::{ExtField, TraceElement};
use mta_names::{Row, constructed, primitive};

/// How many octets a content identifier has, where it is there.
pub fn content_id_length(id: &Option<Text>) -> u64
    ensures { result ≡ octet_length (optional canonical_content_id id.now) }
{
    match id {
        None => 0,
        Some(id) => element_length(primitive(1, 10), slice_length(id.as_slice())),
    }
}

/// How many octets a content type has, where it is an object identifier.
pub fn kind_in_front_length(kind: &ContentKind) -> u64
    ensures { result ≡ octet_length (kind_in_front kind.now) }
{
    match kind {
        ContentKind::Number(_) => 0,
        ContentKind::Oid(oid) => element_length(primitive(0, 6), slice_length(oid.as_slice())),
    }
}

/// How many octets a content type has, where it is a number.
pub fn kind_in_place_length(kind: &ContentKind) -> u64
    ensures { result ≡ octet_length (kind_in_place kind.now) }
{
    match kind {
        ContentKind::Number(number) => int_length(primitive(1, 6), number.number() as i64),
        ContentKind::Oid(_) => 0,
    }
}

fn fields_length(fields: &[ExtField]) -> u64
    ensures { result ≡ octet_length (flat_map canonical_ext fields.now) }
{
    let mut total = 0;
    for field in fields {
        total = length_of_both(total, field.length());
    }
    total
}

/// How many octets extension fields have under a tag; none where there are no fields.
pub fn extensions_length(tag: Tag, fields: &Row<ExtField>) -> u64
    requires { tag.number < 31 }
    ensures { result ≡ octet_length (canonical_ext_list tag fields.now) }
{
    match fields.as_slice() {
        [] => 0,
        fields => element_length(tag, fields_length(fields)),
    }
}

fn elements_length(elements: &[TraceElement]) -> u64
    ensures { result ≡ octet_length (flat_map canonical_trace elements.now) }
{
    let mut total = 0;
    for element in elements {
        total = length_of_both(total, element.length());
    }
    total
}

/// How many octets a trace has.
#[tactic(auto, unfolding(crate::specs::TraceLists::canonical_trace_list))]
pub fn trace_length(trace: &Row<TraceElement>) -> u64
    ensures { result ≡ octet_length (canonical_trace_list trace.now) }
{
    element_length(constructed(1, 9), elements_length(trace.as_slice()))
}

//! Octets of names and fields, what is read of them, and what is written of that.

use mta_ber::{Fault, Kind, ReadFault, Tag, View, Writer};
use mta_fields::{Action, Expansion, ExtField, ExtKind, MtsId, TraceElement};
use mta_names::OrName;
use std::alloc::Global;
use std::process::Abort;
use std::test::Fail;

/// The identifier M0001 of country GB and administration domain GOLD.
const IDENTIFIER: &[u8] = b"\x64\x17\x63\x0E\x61\x04\x13\x02GB\x62\x06\x13\x04GOLD\x16\x05M0001";

/// The same with an indefinite length, and a length in two octets.
const LONG_IDENTIFIER: &[u8] =
    b"\x64\x80\x63\x81\x0E\x61\x04\x13\x02GB\x62\x06\x13\x04GOLD\x16\x05M0001\0\0";

/// Relayed by that domain, arrived at the first second of 1950.
const TRACE: &[u8] =
    b"\x30\x24\x63\x0E\x61\x04\x13\x02GB\x62\x06\x13\x04GOLD\x31\x12\x80\x0D500101000000Z\x82\x01\0";

/// An extension field of type 26.
const FIELD: &[u8] = b"\x30\x03\x80\x01\x1A";

/// The same type inside a further tag.
const INNER_FIELD: &[u8] = b"\x30\x05\xA0\x03\x80\x01\x1A";

/// An empty name and the first second of 1950.
const EXPANSION: &[u8] = b"\x30\x13\x60\x02\x30\0\x17\x0D500101000000Z";

/// A name with an extension attribute of type 7 and a directory name, in which what is not read has lengths that are
/// indefinite or longer than need be.
const KEPT: &[u8] =
    b"\x60\x18\x30\0\x31\x0C\x30\x0A\x80\x01\x07\xA1\x80\x04\x01\xFF\0\0\xA0\x81\x05\x31\x03\x02\x01\x07";

/// The same, where what is read has such lengths too.
const LONG_KEPT: &[u8] =
    b"\x60\x80\x30\x81\0\x31\x80\x30\x80\x80\x01\x07\xA1\x80\x04\x01\xFF\0\0\0\0\0\0\
    \xA0\x81\x05\x31\x03\x02\x01\x07\0\0";

fn first_of(octets: &[u8]) -> Result<View<'_>, ReadFault> {
    if octets.len() > 4000 {
        return Err(ReadFault::Memory);
    }
    match View::first(octets, 0) {
        Ok(view) => Ok(view),
        Err(fault) => Err(ReadFault::Bad(fault)),
    }
}

// What is written, and whether nothing else is.
fn is_written(rt: &impl Abort, written: Option<Writer>, want: &[u8]) {
    match written {
        Some(w) => assert_eq!(rt; w.as_slice(), want),
        None => assert!(rt; false),
    }
}

// ---- MTS identifiers

fn id_of(alloc: Global, octets: &[u8]) -> Result<MtsId, ReadFault> {
    match first_of(octets) {
        Ok(view) => MtsId::read(alloc, &view),
        Err(fault) => Err(fault),
    }
}

fn written_id(alloc: Global, id: &MtsId) -> Option<Writer> {
    let mut w = Writer::new(alloc);
    match id.write(&mut w) {
        Ok(()) => Some(w),
        Err(_) => None,
    }
}

fn is_m0001(id: &MtsId) -> bool {
    let fields = id.fields();
    let domain = fields.domain.fields();
    fields.local.as_slice() == b"M0001".as_slice()
        && domain.country.text.as_slice() == b"GB".as_slice()
        && domain.admd.text.as_slice() == b"GOLD".as_slice()
        && domain.prmd.is_none()
}

fn identifies(rt: &impl Abort, alloc: Global, octets: &[u8]) {
    match id_of(alloc, octets) {
        Ok(id) => {
            assert!(rt; is_m0001(&id));
            is_written(rt, written_id(alloc, &id), IDENTIFIER);
        }
        Err(_) => assert!(rt; false),
    }
}

#[test]
fn identifiers_are_read_and_written(rt: HostRuntime) -> Result<(), Fail> {
    identifies(&rt, rt.alloc(), IDENTIFIER);
    identifies(&rt, rt.alloc(), LONG_IDENTIFIER);
    Ok(())
}

// ---- trace elements

fn trace_of(alloc: Global, octets: &[u8]) -> Result<TraceElement, ReadFault> {
    match first_of(octets) {
        Ok(view) => TraceElement::read(alloc, &view),
        Err(fault) => Err(fault),
    }
}

fn written_trace(alloc: Global, element: &TraceElement) -> Option<Writer> {
    let mut w = Writer::new(alloc);
    match element.write(&mut w) {
        Ok(()) => Some(w),
        Err(_) => None,
    }
}

fn is_relayed(element: &TraceElement) -> bool {
    let fields = element.fields();
    fields.supplied.arrival == 0
        && matches!(fields.supplied.action, Action::Relayed)
        && fields.domain.fields().country.text.as_slice() == b"GB".as_slice()
        && fields.domain.fields().admd.text.as_slice() == b"GOLD".as_slice()
}

#[test]
fn trace_elements_are_read_and_written(rt: HostRuntime) -> Result<(), Fail> {
    match trace_of(rt.alloc(), TRACE) {
        Ok(element) => {
            assert!(rt; is_relayed(&element));
            is_written(&rt, written_trace(rt.alloc(), &element), TRACE);
        }
        Err(_) => assert!(rt; false),
    }
    Ok(())
}

// ---- extension fields

fn field_of(alloc: Global, octets: &[u8]) -> Result<ExtField, ReadFault> {
    match first_of(octets) {
        Ok(view) => ExtField::read(alloc, &view),
        Err(fault) => Err(fault),
    }
}

fn written_field(alloc: Global, field: &ExtField) -> Option<Writer> {
    let mut w = Writer::new(alloc);
    match field.write(&mut w) {
        Ok(()) => Some(w),
        Err(_) => None,
    }
}

fn has_type_26(field: &ExtField) -> bool {
    matches!(&field.fields().kind, ExtKind::Standard(number) if number.number() == 26)
}

fn extends(rt: &impl Abort, alloc: Global, octets: &[u8]) {
    match field_of(alloc, octets) {
        Ok(field) => {
            assert!(rt; has_type_26(&field));
            is_written(rt, written_field(alloc, &field), FIELD);
        }
        Err(_) => assert!(rt; false),
    }
}

#[test]
fn extension_fields_are_read_and_written(rt: HostRuntime) -> Result<(), Fail> {
    extends(&rt, rt.alloc(), FIELD);
    extends(&rt, rt.alloc(), INNER_FIELD);
    Ok(())
}

// ---- expansions

fn expansion_of(alloc: Global, octets: &[u8]) -> Result<Expansion, ReadFault> {
    match first_of(octets) {
        Ok(view) => Expansion::read(alloc, &view),
        Err(fault) => Err(fault),
    }
}

fn written_expansion(alloc: Global, expansion: &Expansion) -> Option<Writer> {
    let mut w = Writer::new(alloc);
    match expansion.write(&mut w) {
        Ok(()) => Some(w),
        Err(_) => None,
    }
}

#[test]
fn expansions_are_read_and_written(rt: HostRuntime) -> Result<(), Fail> {
    match expansion_of(rt.alloc(), EXPANSION) {
        Ok(expansion) => is_written(&rt, written_expansion(rt.alloc(), &expansion), EXPANSION),
        Err(_) => assert!(rt; false),
    }
    Ok(())
}

// ---- names

fn name_of(alloc: Global, octets: &[u8]) -> Result<OrName, ReadFault> {
    match first_of(octets) {
        Ok(view) => OrName::read(alloc, &view),
        Err(fault) => Err(fault),
    }
}

fn written_name(alloc: Global, name: &OrName) -> Option<Writer> {
    let mut w = Writer::new(alloc);
    let tag = Tag {
        class: 1,
        constructed: true,
        number: 0,
    };
    match name.write(&mut w, tag) {
        Ok(()) => Some(w),
        Err(_) => None,
    }
}

fn keeps(rt: &impl Abort, alloc: Global, octets: &[u8]) {
    match name_of(alloc, octets) {
        Ok(name) => is_written(rt, written_name(alloc, &name), KEPT),
        Err(_) => assert!(rt; false),
    }
}

#[test]
fn what_is_not_read_is_kept(rt: HostRuntime) -> Result<(), Fail> {
    keeps(&rt, rt.alloc(), KEPT);
    keeps(&rt, rt.alloc(), LONG_KEPT);
    Ok(())
}

// The size of the organization of a name.
fn organization_size(name: &OrName) -> Option<usize> {
    match &name.attributes().organization {
        Some(text) => Some(text.as_slice().len()),
        None => None,
    }
}

fn is_read_with(rt: &impl Abort, read: Result<OrName, ReadFault>, size: usize) {
    match read {
        Ok(name) => assert_eq!(rt; organization_size(&name), Some(size)),
        Err(_) => assert!(rt; false),
    }
}

fn is_refused(rt: &impl Abort, read: Result<OrName, ReadFault>, at: u32, kind: Kind) {
    match read {
        Err(ReadFault::Bad(fault)) => assert_eq!(rt; fault, Fault { at, kind }),
        _ => assert!(rt; false),
    }
}

#[test]
fn an_organization_has_at_most_64_characters(rt: HostRuntime) -> Result<(), Fail> {
    let mut octets = [0x41u8; 70];
    octets[0] = 0x60;
    octets[1] = 68;
    octets[2] = 0x30;
    octets[3] = 66;
    octets[4] = 0x83;
    octets[5] = 64;
    is_read_with(&rt, name_of(rt.alloc(), &octets), 64);
    let mut longer = [0x41u8; 71];
    longer[0] = 0x60;
    longer[1] = 69;
    longer[2] = 0x30;
    longer[3] = 67;
    longer[4] = 0x83;
    longer[5] = 65;
    is_refused(&rt, name_of(rt.alloc(), &longer), 4, Kind::BadSize);
    Ok(())
}

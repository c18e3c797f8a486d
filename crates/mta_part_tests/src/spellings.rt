//! Octets of APDUs, what is read of them, and what is written and printed of that.

use mta_apdu::Apdu;
use mta_apdu_text::show_apdu;
use mta_ber::{Fault, Kind, Memory, Octets, ReadFault, Tag, Writer};
use std::alloc::Global;
use std::test::Fail;

// The sample message with its components in reverse order, and its content in two segments.
const REVERSED: [u8; 105] = [
    0xA0, 0x67, 0x31, 0x5D, 0xA2, 0x23, 0x31, 0x21, 0x81, 0x02, 0x00, 0xA8, 0x80, 0x01, 0x01, 0x60,
    0x18, 0x30, 0x16, 0x61, 0x04, 0x13, 0x02, 0x47, 0x42, 0x62, 0x06, 0x13, 0x04, 0x47, 0x4F, 0x4C,
    0x44, 0xA5, 0x06, 0x80, 0x04, 0x57, 0x41, 0x54, 0x54, 0x69, 0x00, 0x46, 0x01, 0x16, 0x64, 0x17,
    0x63, 0x0E, 0x61, 0x04, 0x13, 0x02, 0x47, 0x42, 0x62, 0x06, 0x13, 0x04, 0x47, 0x4F, 0x4C, 0x44,
    0x16, 0x05, 0x4D, 0x30, 0x30, 0x30, 0x31, 0x60, 0x18, 0x30, 0x16, 0x61, 0x04, 0x13, 0x02, 0x47,
    0x42, 0x62, 0x06, 0x13, 0x04, 0x47, 0x4F, 0x4C, 0x44, 0xA5, 0x06, 0x80, 0x04, 0x42, 0x45, 0x4C,
    0x4C, 0x24, 0x06, 0x04, 0x01, 0x48, 0x04, 0x01, 0x69,
];

const TEXT: &[u8] =
    b"message C=GB;A=GOLD/M0001\noriginator C=GB;A=GOLD;S=BELL\ncontent-type 22\npriority normal\nindicators 00000000\n\
    recipient 1 10101000 C=GB;A=GOLD;S=WATT\ncontent 2 4869\n";

// Originator BELL, identifier M0001 and content type 22.
const FIELDS: [u8; 54] = [
    0x60, 0x18, 0x30, 0x16, 0x61, 0x04, 0x13, 0x02, 0x47, 0x42, 0x62, 0x06, 0x13, 0x04, 0x47, 0x4F,
    0x4C, 0x44, 0xA5, 0x06, 0x80, 0x04, 0x42, 0x45, 0x4C, 0x4C, 0x64, 0x17, 0x63, 0x0E, 0x61, 0x04,
    0x13, 0x02, 0x47, 0x42, 0x62, 0x06, 0x13, 0x04, 0x47, 0x4F, 0x4C, 0x44, 0x16, 0x05, 0x4D, 0x30,
    0x30, 0x30, 0x31, 0x46, 0x01, 0x16,
];

// The trace element of C=GB;A=GOLD: arrival at moment 0, relayed.
const TRACE_ELEMENT: [u8; 38] = [
    0x30, 0x24, 0x63, 0x0E, 0x61, 0x04, 0x13, 0x02, 0x47, 0x42, 0x62, 0x06, 0x13, 0x04, 0x47, 0x4F,
    0x4C, 0x44, 0x31, 0x12, 0x80, 0x0D, 0x35, 0x30, 0x30, 0x31, 0x30, 0x31, 0x30, 0x30, 0x30, 0x30,
    0x30, 0x30, 0x5A, 0x82, 0x01, 0x00,
];

// Recipient WATT, number 1, indicators 10101000.
const RECIPIENT: [u8; 35] = [
    0x31, 0x21, 0x60, 0x18, 0x30, 0x16, 0x61, 0x04, 0x13, 0x02, 0x47, 0x42, 0x62, 0x06, 0x13, 0x04,
    0x47, 0x4F, 0x4C, 0x44, 0xA5, 0x06, 0x80, 0x04, 0x57, 0x41, 0x54, 0x54, 0x80, 0x01, 0x01, 0x81,
    0x02, 0x00, 0xA8,
];

// The same with an explicit conversion, whose length is in more octets than it needs.
const KEPT: [u8; 39] = [
    0x31, 0x25, 0x60, 0x18, 0x30, 0x16, 0x61, 0x04, 0x13, 0x02, 0x47, 0x42, 0x62, 0x06, 0x13, 0x04,
    0x47, 0x4F, 0x4C, 0x44, 0xA5, 0x06, 0x80, 0x04, 0x57, 0x41, 0x54, 0x54, 0x80, 0x01, 0x01, 0x81,
    0x02, 0x00, 0xA8, 0x82, 0x81, 0x01, 0x05,
];

// That in indefinite lengths, its components in another order.
const ODD: [u8; 51] = [
    0x31, 0x80, 0x82, 0x81, 0x01, 0x05, 0x81, 0x02, 0x00, 0xA8, 0x60, 0x80, 0x30, 0x80, 0x61, 0x80,
    0x13, 0x02, 0x47, 0x42, 0x00, 0x00, 0x62, 0x80, 0x13, 0x04, 0x47, 0x4F, 0x4C, 0x44, 0x00, 0x00,
    0xA5, 0x80, 0x80, 0x04, 0x57, 0x41, 0x54, 0x54, 0x00, 0x00, 0x00, 0x00, 0x00, 0x00, 0x80, 0x01,
    0x01, 0x00, 0x00,
];

const TRACE_LIST: Tag = Tag {
    class: 1,
    constructed: true,
    number: 9,
};

const RECIPIENT_LIST: Tag = Tag {
    class: 2,
    constructed: true,
    number: 2,
};

const ENVELOPE: Tag = Tag {
    class: 0,
    constructed: true,
    number: 17,
};

const CONTENT: Tag = Tag {
    class: 0,
    constructed: false,
    number: 4,
};

const MESSAGE: Tag = Tag {
    class: 2,
    constructed: true,
    number: 0,
};

fn copies(alloc: Global, piece: &[u8], count: u32) -> Result<Octets, Memory> {
    let mut octets = Octets::new(alloc);
    for _ in 0..count {
        octets.extend(piece)?;
    }
    Ok(octets)
}

// A message of these fields, this trace and these recipients.
fn message(alloc: Global, trace: &Octets, recipients: &Octets) -> Result<Octets, Memory> {
    let mut envelope = Writer::new(alloc);
    envelope.put_raw(&FIELDS)?;
    envelope.put(TRACE_LIST, trace.as_slice())?;
    envelope.put(RECIPIENT_LIST, recipients.as_slice())?;
    let mut inside = Writer::new(alloc);
    inside.put(ENVELOPE, envelope.as_slice())?;
    inside.put(CONTENT, b"Hi")?;
    let mut whole = Writer::new(alloc);
    whole.put(MESSAGE, inside.as_slice())?;
    Ok(whole.finish())
}

fn fault_of(alloc: Global, bytes: &[u8]) -> Option<Fault> {
    match Apdu::read(alloc, bytes) {
        Ok(apdu) => {
            apdu.discard();
            None
        }
        Err(ReadFault::Bad(fault)) => Some(fault),
        Err(ReadFault::Memory) => None,
    }
}

fn rewritten(alloc: Global, bytes: &[u8]) -> Result<Octets, Memory> {
    match Apdu::read(alloc, bytes) {
        Ok(apdu) => {
            let written = apdu.write(alloc);
            apdu.discard();
            written
        }
        Err(_) => Ok(Octets::new(alloc)),
    }
}

fn text_of(alloc: Global, bytes: &[u8]) -> Result<Octets, Memory> {
    match Apdu::read(alloc, bytes) {
        Ok(apdu) => {
            let text = show_apdu(alloc, &apdu);
            apdu.discard();
            text
        }
        Err(_) => Ok(Octets::new(alloc)),
    }
}

#[test]
fn long_lists_are_refused(rt: HostRuntime) -> Result<(), Fail> {
    let alloc = rt.alloc();
    let none = Octets::new(alloc);
    let many = copies(alloc, &RECIPIENT, 32_768)?;
    let octets = message(alloc, &none, &many)?;
    let list = Fault {
        at: 66,
        kind: Kind::BadSize,
    };
    assert_eq!(rt; fault_of(alloc, octets.as_slice()), Some(list));
    let one = copies(alloc, &RECIPIENT, 1)?;
    let long = copies(alloc, &TRACE_ELEMENT, 513)?;
    let octets = message(alloc, &long, &one)?;
    let trace = Fault {
        at: 62,
        kind: Kind::BadSize,
    };
    assert_eq!(rt; fault_of(alloc, octets.as_slice()), Some(trace));
    Ok(())
}

#[test]
fn unread_parts_are_kept(rt: HostRuntime) -> Result<(), Fail> {
    let alloc = rt.alloc();
    let mut odd = Octets::from_slice(alloc, &[0xA0, 0x80, 0x31, 0x80, 0xA2, 0x80])?;
    odd.extend(copies(alloc, &ODD, 40)?.as_slice())?;
    odd.extend(&[0, 0, 0x69, 0x80, 0, 0])?;
    odd.extend(&FIELDS)?;
    odd.extend(&[0, 0, 0x04, 0x02, 0x48, 0x69, 0, 0])?;
    let none = Octets::new(alloc);
    let kept = copies(alloc, &KEPT, 40)?;
    let canonical = message(alloc, &none, &kept)?;
    let written = rewritten(alloc, odd.as_slice())?;
    assert_eq!(rt; written.as_slice(), canonical.as_slice());
    Ok(())
}

#[test]
fn another_spelling_has_the_same_text(rt: HostRuntime) -> Result<(), Fail> {
    let alloc = rt.alloc();
    let text = text_of(alloc, &REVERSED)?;
    assert_eq!(rt; text.as_slice(), TEXT);
    Ok(())
}

#[test]
fn an_empty_content_is_one(rt: HostRuntime) -> Result<(), Fail> {
    let alloc = rt.alloc();
    let mut octets = Octets::from_slice(alloc, &[0xA0, 0x61, 0x31, 0x5D])?;
    octets.extend(&FIELDS)?;
    octets.extend(&[0x69, 0x00, 0xA2, 0x23])?;
    octets.extend(&RECIPIENT)?;
    octets.extend(&[0x04, 0x00])?;
    assert_eq!(rt; fault_of(alloc, octets.as_slice()), None);
    Ok(())
}

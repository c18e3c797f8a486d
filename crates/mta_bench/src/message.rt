//! Messages that are read, written, copied and decided on.

use mta_ber::{Memory, Octets, Tag, Writer};
use std::alloc::Global;

/// Originator, identifier, content type and trace: C=GB;A=GOLD;S=BELL, M0001, 22, none.
const FIELDS: [u8; 56] = [
    0x60, 0x18, 0x30, 0x16, 0x61, 0x04, 0x13, 0x02, 71, 66, 0x62, 0x06, 0x13, 0x04, 71, 79, 76, 68,
    0xA5, 0x06, 0x80, 0x04, 66, 69, 76, 76, 0x64, 0x17, 0x63, 0x0E, 0x61, 0x04, 0x13, 0x02, 71, 66,
    0x62, 0x06, 0x13, 0x04, 71, 79, 76, 68, 0x16, 0x05, 77, 48, 48, 48, 49, 0x46, 0x01, 0x16, 0x69,
    0x00,
];

/// A recipient: C=GB;A=GOLD;S=WATT, number 1, indicators 10101000.
pub const RECIPIENT: [u8; 35] = [
    0x31, 0x21, 0x60, 0x18, 0x30, 0x16, 0x61, 0x04, 0x13, 0x02, 71, 66, 0x62, 0x06, 0x13, 0x04, 71,
    79, 76, 68, 0xA5, 0x06, 0x80, 0x04, 87, 65, 84, 84, 0x80, 0x01, 0x01, 0x81, 0x02, 0x00, 0xA8,
];

const RECIPIENT_LIST: Tag = Tag {
    class: 2,
    constructed: true,
    number: 2,
};

const ENVELOPE: Tag = Tag {
    class: 0,
    constructed: true,
    number: 17,
};

const CONTENT: Tag = Tag {
    class: 0,
    constructed: false,
    number: 4,
};

const MESSAGE: Tag = Tag {
    class: 2,
    constructed: true,
    number: 0,
};

fn recipients(alloc: Global, count: u32) -> Result<Octets, Memory> {
    let mut octets = Octets::new(alloc);
    for _ in 0..count {
        octets.extend(&RECIPIENT)?;
    }
    Ok(octets)
}

/// A message of so many recipients with this content.
pub fn message(alloc: Global, count: u32, content: &[u8]) -> Result<Octets, Memory> {
    let list = recipients(alloc, count)?;
    message_to(alloc, list.as_slice(), content)
}

/// A message to these recipients with this content.
pub fn message_to(alloc: Global, recipients: &[u8], content: &[u8]) -> Result<Octets, Memory> {
    let mut envelope = Writer::new(alloc);
    envelope.put_raw(&FIELDS)?;
    envelope.put(RECIPIENT_LIST, recipients)?;
    let mut inside = Writer::new(alloc);
    inside.put(ENVELOPE, envelope.as_slice())?;
    inside.put(CONTENT, content)?;
    let mut whole = Writer::new(alloc);
    whole.put(MESSAGE, inside.as_slice())?;
    Ok(whole.finish())
}

//! Readings of whole APDUs, from their octets.

use crate::sample::MESSAGE;
use mta_apdu::Apdu;
use mta_ber::{Fault, Kind, Octets, ReadFault};
use std::alloc::Global;
use std::process::Abort;
use std::test::Fail;

// The sample's envelope and more, in indefinite lengths, up to a trace that is cut off.
const CUT_TRACE: [u8; 61] = [
    0xA0, 0x80, 0x31, 0x80, 0x60, 0x18, 0x30, 0x16, 0x61, 0x04, 0x13, 0x02, 0x47, 0x42, 0x62, 0x06,
    0x13, 0x04, 0x47, 0x4F, 0x4C, 0x44, 0xA5, 0x06, 0x80, 0x04, 0x42, 0x45, 0x4C, 0x4C, 0x64, 0x17,
    0x63, 0x0E, 0x61, 0x04, 0x13, 0x02, 0x47, 0x42, 0x62, 0x06, 0x13, 0x04, 0x47, 0x4F, 0x4C, 0x44,
    0x16, 0x05, 0x4D, 0x30, 0x30, 0x30, 0x31, 0x46, 0x01, 0x16, 0x69, 0x05, 0x30,
];

// 17 levels.
const DEEP: [u8; 34] = [
    0xA0, 0x80, 0xA0, 0x80, 0xA0, 0x80, 0xA0, 0x80, 0xA0, 0x80, 0xA0, 0x80, 0xA0, 0x80, 0xA0, 0x80,
    0xA0, 0x80, 0xA0, 0x80, 0xA0, 0x80, 0xA0, 0x80, 0xA0, 0x80, 0xA0, 0x80, 0xA0, 0x80, 0xA0, 0x80,
    0xA0, 0x80,
];

fn fault_of(alloc: Global, bytes: &[u8]) -> Option<Fault> {
    match Apdu::read(alloc, bytes) {
        Ok(apdu) => {
            apdu.discard();
            None
        }
        Err(ReadFault::Bad(fault)) => Some(fault),
        Err(ReadFault::Memory) => None,
    }
}

fn is_read(alloc: Global, bytes: &[u8]) -> bool {
    match Apdu::read(alloc, bytes) {
        Ok(apdu) => {
            apdu.discard();
            true
        }
        Err(_) => false,
    }
}

fn faults(rt: &impl Abort, alloc: Global, bytes: &[u8], at: u32, kind: Kind) -> Result<(), Fail> {
    assert_eq!(rt; fault_of(alloc, bytes), Some(Fault { at, kind }));
    Ok(())
}

fn rewritten(alloc: Global, bytes: &[u8]) -> Result<Octets, ReadFault> {
    let apdu = Apdu::read(alloc, bytes)?;
    let written = apdu.write(alloc);
    apdu.discard();
    match written {
        Ok(octets) => Ok(octets),
        Err(_) => Err(ReadFault::Memory),
    }
}

#[test]
fn the_first_fault_is_told(rt: HostRuntime) -> Result<(), Fail> {
    let alloc = rt.alloc();
    faults(&rt, alloc, &MESSAGE[..59], 0, Kind::Truncated)?;
    faults(&rt, alloc, &CUT_TRACE, 58, Kind::Truncated)?;
    faults(&rt, alloc, &DEEP, 32, Kind::TooDeep)?;
    faults(&rt, alloc, &MESSAGE[2..], 0, Kind::BadTag)?;
    faults(
        &rt,
        alloc,
        &[MESSAGE.as_slice(), b"\0"].concat(alloc)?,
        101,
        Kind::Trailing,
    )
}

#[test]
fn a_message_is_read_and_written_again(rt: HostRuntime) -> Result<(), Fail> {
    let alloc = rt.alloc();
    let octets = rewritten(alloc, &MESSAGE)?;
    assert_eq!(rt; octets.as_slice(), MESSAGE.as_slice());
    for size in 0..MESSAGE.len() {
        match fault_of(alloc, &MESSAGE[..size]) {
            Some(fault) => assert_eq!(rt; fault.kind, Kind::Truncated),
            None => return Err("a front was read".into()),
        }
    }
    Ok(())
}

// The sample message with a content of so many octets, and its lengths in three octets.
fn long_message(alloc: Global, size: u32) -> Result<Vec<u8>, Fail> {
    let mut octets = Vec::new(alloc);
    octets.extend_from_slice(&[0xA0, 0x83])?;
    octets.extend_from_slice(&size.saturating_add(100).to_be_bytes()[1..])?;
    octets.extend_from_slice(&MESSAGE[2..97])?;
    octets.extend_from_slice(&[0x04, 0x83])?;
    octets.extend_from_slice(&size.to_be_bytes()[1..])?;
    for _ in 0..size {
        octets.push(0x48)?;
    }
    Ok(octets)
}

#[test]
fn the_longest_message_is_read(rt: HostRuntime) -> Result<(), Fail> {
    let alloc = rt.alloc();
    let longest = long_message(alloc, 2_097_047)?;
    assert_eq!(rt; longest.len(), 2_097_152);
    assert_eq!(rt; &longest[..5], b"\xA0\x83\x1F\xFF\xFB".as_slice());
    assert!(rt; is_read(alloc, &longest));
    faults(
        &rt,
        alloc,
        &long_message(alloc, 2_097_048)?,
        2_097_152,
        Kind::TooLong,
    )
}

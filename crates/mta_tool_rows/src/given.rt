//! What runs leave, and the records of a disk.

use mta_edge::MemDisk;
use std::alloc::{AllocError, Global};

/// What two disks hold.
pub fn held_by(
    alloc: Global,
    first: &MemDisk,
    second: &MemDisk,
) -> Result<(Vec<u8>, Vec<u8>), AllocError> {
    let first = first.octets().to_vec(alloc)?;
    Ok((first, second.octets().to_vec(alloc)?))
}

/// Puts a number in four octets.
pub fn put_number(octets: &mut Vec<u8>, number: usize) -> Result<(), AllocError> {
    let number = u32::try_from(number).unwrap_or(u32::MAX);
    octets.extend_from_slice(&number.to_be_bytes())?;
    Ok(())
}

/// Puts a record with this body, in place of the closed gate at the end.
pub fn put_record(disk: &mut Vec<u8>, body: &[u8]) -> Result<(), AllocError> {
    match disk.pop() {
        Some(_) => {}
        None => disk.extend_from_slice(b"MTASPL01")?,
    }
    disk.push(1)?;
    put_number(disk, body.len())?;
    disk.extend_from_slice(body)?;
    disk.push(0)?;
    Ok(())
}

/// An octet, and then octets behind their length: the body of a record of tables where the octet is 1.
pub fn counted_body(alloc: Global, kind: u8, octets: &[u8]) -> Result<Vec<u8>, AllocError> {
    let mut body = Vec::new(alloc);
    body.push(kind)?;
    put_number(&mut body, octets.len())?;
    body.extend_from_slice(octets)?;
    Ok(body)
}

/// Puts a record of tables whose text this is.
pub fn put_tables(alloc: Global, disk: &mut Vec<u8>, text: &[u8]) -> Result<(), AllocError> {
    let body = counted_body(alloc, 1, text)?;
    put_record(disk, body.as_slice())
}

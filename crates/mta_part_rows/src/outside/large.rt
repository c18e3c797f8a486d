//! A large disk that takes many calls.

use mta_edge::{Disk, Octets, SafeDisk};
use std::alloc::{AllocError, Global};

/// Writes behind the end, or over the last octets.
fn write(disk: &mut SafeDisk, at: usize, bytes: &[u8]) -> bool {
    at <= disk.octets().len() && disk.write_at(at as u64, bytes).is_ok()
}

/// Four calls: a size, a write behind the end, a sync, and a write over the first octet of the other. Whether each
/// succeeded.
fn four_calls(disk: &mut SafeDisk) -> bool {
    let end = disk.octets().len();
    disk.size().is_ok()
        && write(disk, end, &[1, 2, 3, 4, 5, 6, 7, 8])
        && disk.sync().is_ok()
        && write(disk, end, &[0])
}

/// How many octets the disk gives in so many reads.
fn octets_read(disk: &mut SafeDisk, piece: &mut [u8], reads: u64) -> u64 {
    let mut read: u64 = 0;
    for _ in 0..reads {
        if let Ok(count) = disk.read(read, piece) {
            read = read.saturating_add(count as u64);
        }
    }
    read
}

/// How many octets a disk of so many gives in so many reads of a mebibyte, in how many rounds of four calls behind
/// them each call succeeds, and the size that it has then.
pub fn large(alloc: Global, size: usize, reads: u64, rounds: u64) -> Result<String, AllocError> {
    let octets = vec![in alloc; 7u8; size]?;
    let mut disk = SafeDisk::new(alloc, Octets::from_vec(octets));
    let mut piece = vec![in alloc; 0u8; 1_048_576]?;
    let read = octets_read(&mut disk, piece.as_mut_slice(), reads);
    let mut good: u64 = 0;
    for _ in 0..rounds {
        if four_calls(&mut disk) {
            good = good.saturating_add(1);
        }
    }
    let size = disk.size();
    format!(in alloc; "{read} {good} {size:?}")
}

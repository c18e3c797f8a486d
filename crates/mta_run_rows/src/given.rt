//! What runs and workers are given.

use anyhow::{Result, anyhow};
use mta_ber::Word;
use mta_edge::{MemClock, MemDisk, Octets, SafeDisk};
use mta_links::Role;
use std::alloc::{AllocError, Global};

/// A disk whose call of this number fails.
pub fn disk_of(alloc: Global, bytes: &[u8], fails: u64) -> Result<MemDisk> {
    let octets = Octets::from_slice(alloc, bytes)?;
    Ok(MemDisk::new(alloc, octets, [fails].to_vec(alloc)?))
}

/// A disk that is changed in place, of which no call fails.
pub fn safe_disk(alloc: Global, bytes: &[u8]) -> Result<SafeDisk> {
    Ok(SafeDisk::new(alloc, Octets::from_slice(alloc, bytes)?))
}

/// A clock that stands at this moment.
pub fn clock(alloc: Global, moment: u64) -> Result<MemClock, AllocError> {
    Ok(MemClock::new([moment].to_vec(alloc)?))
}

/// The name of a peer.
pub fn word_of(alloc: Global, text: &str) -> Result<Word> {
    match Word::from_octets(alloc, Octets::from_slice(alloc, text.as_bytes())?)? {
        Some(word) => Ok(word),
        None => Err(anyhow!("no name")),
    }
}

/// The role that a row names: `in`, or `out PEER`.
pub fn role_of(alloc: Global, text: &str) -> Result<Role> {
    match text.split_once(' ') {
        None => Ok(Role::In),
        Some((_, peer)) => Ok(Role::Out(word_of(alloc, peer)?)),
    }
}

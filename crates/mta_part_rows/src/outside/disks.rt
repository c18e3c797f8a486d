//! Disks. `write`, `cut`, `sync`, `size` and `read` answer what the call answers, `read` with the four octets of its
//! buffer besides; `octets` what the disk holds, `calls` how many calls it had, and `image` what a crash leaves behind
//! so many calls by this choice. `put-closed` puts a body behind the gate at an offset, `lift-gate` opens the gate
//! there, and `read-at` reads so many octets; the first two stand behind a sync.

use crate::outside::numbers::{numbers, octets};
use crate::records::LONGEST_BODY;
use anyhow::Result;
use mta_disk::{lift_gate, put_closed, read_at};
use mta_edge::{Disk, MemDisk, Octets, SafeDisk};
use mta_rows::{Fields, number, octets_of};
use std::alloc::{AllocError, Global};
use std::fmt::Debug;

#[derive(Drop)]
pub struct Disks {
    disk: MemDisk,
    safe_disk: SafeDisk,
}

fn text_of<T: Debug + Drop>(alloc: Global, answer: T) -> Result<String, AllocError> {
    format!(in alloc; "{answer:?}")
}

fn write(alloc: Global, disk: &mut MemDisk, at: u64, bytes: &[u8]) -> Result<String, AllocError> {
    if at > disk.octets().len() as u64 {
        return format!(in alloc; "behind the end");
    }
    text_of(alloc, disk.write_at(at, bytes))
}

fn safe_write(
    alloc: Global,
    disk: &mut SafeDisk,
    at: u64,
    bytes: &[u8],
) -> Result<String, AllocError> {
    if at > disk.octets().len() as u64 {
        return format!(in alloc; "behind the end");
    }
    text_of(alloc, disk.write_at(at, bytes))
}

fn cut(alloc: Global, disk: &mut MemDisk, size: u64) -> Result<String, AllocError> {
    if size > disk.octets().len() as u64 {
        return format!(in alloc; "behind the end");
    }
    text_of(alloc, disk.cut(size))
}

fn safe_cut(alloc: Global, disk: &mut SafeDisk, size: u64) -> Result<String, AllocError> {
    if size > disk.octets().len() as u64 {
        return format!(in alloc; "behind the end");
    }
    text_of(alloc, disk.cut(size))
}

fn read<D: Disk>(alloc: Global, disk: &mut D, at: u64) -> Result<String, AllocError> {
    let mut buffer = [0u8; 4];
    let answer = disk.read(at, &mut buffer);
    format!(in alloc; "{answer:?} {buffer:?}")
}

fn put(alloc: Global, disk: &mut MemDisk, gate: u64, body: &[u8]) -> Result<String, AllocError> {
    if gate >= disk.octets().len() as u64 || gate >= 1_000_000 || body.len() > LONGEST_BODY {
        return format!(in alloc; "no such gate");
    }
    match disk.sync() {
        Ok(()) => text_of(alloc, put_closed(alloc, disk, gate, body)),
        Err(_) => format!(in alloc; "no sync"),
    }
}

fn lift(alloc: Global, disk: &mut MemDisk, gate: u64) -> Result<String, AllocError> {
    if gate >= disk.octets().len() as u64 || gate >= 1_000_000 {
        return format!(in alloc; "no such gate");
    }
    match disk.sync() {
        Ok(()) => text_of(alloc, lift_gate(disk, gate)),
        Err(_) => format!(in alloc; "no sync"),
    }
}

fn piece(alloc: Global, disk: &mut MemDisk, at: u64, count: u64) -> Result<String, AllocError> {
    let count = u32::try_from(count).unwrap_or(0);
    match read_at(alloc, disk, at, count) {
        Ok(octets) => text_of(alloc, octets.as_slice()),
        Err(_) => format!(in alloc; "not read"),
    }
}

fn image(alloc: Global, disk: &MemDisk, call: u64, choice: u64) -> Result<String> {
    let image = disk.image(call, choice)?;
    Ok(text_of(alloc, image.as_slice())?)
}

impl Disks {
    pub fn new(alloc: Global) -> Disks {
        Disks {
            disk: MemDisk::new(alloc, Octets::new(alloc), Vec::new(alloc)),
            safe_disk: SafeDisk::new(alloc, Octets::new(alloc)),
        }
    }

    /// Makes the disk that the row says: of octets, where the calls of these numbers fail.
    pub fn make(&mut self, alloc: Global, asked: &str, mut fields: Fields<'_>) -> Result<bool> {
        let octets = match asked {
            "disk" | "safe-disk" => octets(alloc, &mut fields)?,
            _ => return Ok(false),
        };
        if asked == "disk" {
            self.disk = MemDisk::new(alloc, octets, numbers(alloc, fields.take())?);
        } else {
            self.safe_disk = SafeDisk::new(alloc, octets);
        }
        Ok(true)
    }

    /// What a call with an offset and octets answers.
    fn with_octets(
        &mut self,
        alloc: Global,
        asked: &str,
        mut fields: Fields<'_>,
    ) -> Result<String> {
        let at = number(fields.take());
        let octets = octets_of(alloc, fields.take())?;
        let octets = octets.as_slice();
        Ok(match asked {
            "write" => write(alloc, &mut self.disk, at, octets)?,
            "safe-write" => safe_write(alloc, &mut self.safe_disk, at, octets)?,
            _ => put(alloc, &mut self.disk, at, octets)?,
        })
    }

    /// What a call with numbers answers.
    fn with_numbers(
        &mut self,
        alloc: Global,
        asked: &str,
        mut fields: Fields<'_>,
    ) -> Result<Option<String>> {
        let (first, second) = (number(fields.take()), number(fields.take()));
        Ok(Some(match asked {
            "cut" => cut(alloc, &mut self.disk, first)?,
            "safe-cut" => safe_cut(alloc, &mut self.safe_disk, first)?,
            "read" => read(alloc, &mut self.disk, first)?,
            "safe-read" => read(alloc, &mut self.safe_disk, first)?,
            "lift-gate" => lift(alloc, &mut self.disk, first)?,
            "read-at" => piece(alloc, &mut self.disk, first, second)?,
            "image" => image(alloc, &self.disk, first, second)?,
            _ => return Ok(None),
        }))
    }

    /// What the row is answered, where it asks of a disk.
    pub fn answer(
        &mut self,
        alloc: Global,
        asked: &str,
        fields: Fields<'_>,
    ) -> Result<Option<String>> {
        Ok(Some(match asked {
            "write" | "safe-write" | "put-closed" => self.with_octets(alloc, asked, fields)?,
            "sync" => text_of(alloc, self.disk.sync())?,
            "safe-sync" => text_of(alloc, self.safe_disk.sync())?,
            "size" => text_of(alloc, self.disk.size())?,
            "safe-size" => text_of(alloc, self.safe_disk.size())?,
            "octets" => text_of(alloc, self.disk.octets())?,
            "safe-octets" => text_of(alloc, self.safe_disk.octets())?,
            "calls" => text_of(alloc, self.disk.calls())?,
            _ => return self.with_numbers(alloc, asked, fields),
        }))
    }
}

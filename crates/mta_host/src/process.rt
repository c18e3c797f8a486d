//! What the files and the stations of a process tell each other, and the limits that the system sets the process.

ghost use Rattle.std.specs.Prelude.{◌≡◌, ◌≤◌};

use crate::limits::limit;
use crate::patience::{ALL_PLACES, PLACES, SPARE_FILES};
use std::alloc::Global;
use std::fs::{self, File, Files};
use std::sync::atomic::{AtomicU64, Ordering};

// What the system tells of the limits of the process that reads it.
const LIMITS: &str = "/proc/self/limits";

// How many files a process may have open where the system does not tell.
const USUAL_FILES: u64 = 1024;

/// What the files and the stations of a process share. Once a call of a file failed, or a station was closed since a
/// step was refused, no station gives another link.
#[derive(Drop)]
pub struct Process {
    /// Its number.
    pub number: u32,
    // How many files it may have open, and how many octets a file that it writes may have.
    files: u64,
    octets: u64,
    has_failed: AtomicU64,
    // How many stations at ports have not been closed.
    ports: AtomicU64,
}

impl Process {
    /// This process, which has this number. Its limits are those of now.
    pub fn new<R: Files<File = File> + Alloc<A = Global>>(host: &R, number: u32) -> Process
        ensures { result.number ≡ number }
    {
        let limits = match fs::read_to_string(host, LIMITS) {
            Ok(text) => text,
            Err(_) => String::new(host.alloc()),
        };
        Process {
            number,
            files: limit(limits.as_str(), "Max open files").unwrap_or(USUAL_FILES),
            octets: limit(limits.as_str(), "Max file size").unwrap_or(u64::MAX),
            has_failed: AtomicU64::new(0),
            ports: AtomicU64::new(0),
        }
    }

    /// From now on no station gives a link.
    pub(crate) fn fail(&self) {
        self.has_failed.store(1, Ordering::SeqCst);
    }

    pub(crate) fn has_failed(&self) -> bool {
        self.has_failed.load(Ordering::SeqCst) > 0
    }

    /// One more station at a port serves.
    pub(crate) fn add_port(&self) {
        self.ports.fetch_add(1, Ordering::SeqCst);
    }

    /// A station at a port serves no more.
    pub(crate) fn remove_port(&self) {
        self.ports.fetch_sub(1, Ordering::SeqCst);
    }

    /// Whether a station at a port still serves.
    pub(crate) fn has_port(&self) -> bool {
        self.ports.load(Ordering::SeqCst) > 0
    }

    /// How many connections may wait at each port: an equal share of the places of the process, of which there are
    /// fewer where few files may be open.
    pub(crate) fn places(&self) -> usize
        ensures least { 1 ≤ result }
        ensures most { result ≤ PLACES }
    {
        let all = (self.files.saturating_sub(SPARE_FILES) / 2).min(ALL_PLACES);
        let share = all / self.ports.load(Ordering::SeqCst).max(1);
        share.clamp(1, PLACES as u64) as usize
    }

    /// Whether a file of so many octets may be written. The system ends a process that writes a longer one.
    pub(crate) fn may_write(&self, octets: u64) -> bool {
        octets <= self.octets
    }
}

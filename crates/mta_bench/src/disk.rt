//! A disk in a file, which tells nothing of what it holds.

ghost use Rattle.std.specs.Prelude.{◌≤◌};
ghost use Rattle.mta_edge.specs.Causes.{Rose};

use mta_edge::{Disk, Failed};
use std::fs::File;
use std::os::unix::fs::FileExt;

#[derive(Drop)]
pub struct FileDisk {
    file: File,
    faults: u64,
}

impl FileDisk {
    pub fn new(file: File) -> FileDisk {
        FileDisk { file, faults: 0 }
    }

    fn fault(&mut self) -> Failed
        ensures later { self.old.faults ≤ self.new.faults }
        ensures rose { Rose self.old.faults self.new.faults }
    {
        self.faults = self.faults.saturating_add(1);
        Failed
    }
}

impl Disk for FileDisk {
    ghost use Rattle.mta_edge.specs.Views.{untold_disk, untold_disk_laws};

    ghost model = { untold_disk (λ d. d.faults) };

    ghost laws = { untold_disk_laws (λ d. d.faults) };

    fn size(&mut self) -> Result<u64, Failed> {
        match self.file.metadata() {
            Ok(metadata) => Ok(metadata.len()),
            Err(_) => Err(self.fault()),
        }
    }

    fn read(&mut self, at: u64, into: &mut [u8]) -> Result<usize, Failed> {
        match self.file.read_at(into, at) {
            Ok(count) => Ok(count),
            Err(_) => Err(self.fault()),
        }
    }

    fn write_at(&mut self, at: u64, bytes: &[u8]) -> Result<(), Failed> {
        match self.file.write_all_at(bytes, at) {
            Ok(()) => Ok(()),
            Err(_) => Err(self.fault()),
        }
    }

    fn cut(&mut self, size: u64) -> Result<(), Failed> {
        match self.file.set_len(size) {
            Ok(()) => Ok(()),
            Err(_) => Err(self.fault()),
        }
    }

    fn sync(&mut self) -> Result<(), Failed> {
        match self.file.sync_data() {
            Ok(()) => Ok(()),
            Err(_) => Err(self.fault()),
        }
    }
}

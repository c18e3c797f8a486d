//! Real files as `Disk`s.
//!
//! The first call opens the file, makes it where it is absent, and locks it, which waits for another
//! process that has it; while the file is empty its folder is synced, before the first octet is
//! written. Two files of a process are opened and locked together. Each call after that makes its call
//! of the system, again where a signal interrupts it, and counts its failures; that count is what a
//! cause of `run` speaks of. Once a call has failed the process has.
//!
//! Nothing is written to a file that is shorter than this process knew it, and a file that was removed,
//! or in whose place another one stands, cannot be synced: then nothing is promised for it any more.
//!
//! It tells nothing of what it holds, so clauses on octets say nothing of it: that a real file is a
//! disk as the trait has it, also in a crash, is trusted. The lock goes with the process.

ghost use Rattle.std.specs.Prelude.{◌≡◌, ◌≤◌, IfOk, length};
ghost use Rattle.mta_edge.specs.Causes.{Rose};

use crate::interrupts::again;
use crate::process::Process;
use mta_edge::{Disk, Failed};
use std::fs::{self, File, Files, Metadata, OpenOptions};
use std::io::{self, ErrorKind};
use std::os::unix::fs::{FileExt, MetadataExt, OpenOptionsExt};
use std::sync::OnceLock;

// Of a file that is made: only its user reads and writes it, since the steps hold the tables with their passwords.
const MODE: u32 = 0o600;

/// Where a file is: its path, and the folder in which it stands.
#[derive(Clone, Copy)]
pub struct Path<'a> {
    pub folder: &'a str,
    pub path: &'a str,
}

/// The second of two files that are opened together, once the first one was.
#[derive(Drop)]
pub struct Pair {
    second: OnceLock<File>,
}

impl Pair {
    /// Neither is open.
    pub fn new() -> Pair {
        Pair {
            second: OnceLock::new(),
        }
    }
}

// Which file it is: one alone, or the first or the second of a pair.
#[derive(Clone, Copy)]
enum Which<'a> {
    Alone,
    First { second: Path<'a>, pair: &'a Pair },
    Second { pair: &'a Pair },
}

/// A disk in a file, which is opened at the first call, and made where it is absent. From then on no other process
/// has it: the call waits for one that does. Every call fails where the file could not be opened, and where it is no
/// regular file.
#[derive(Drop)]
pub struct FileDisk<'a, R: Files<File = File>> {
    files: &'a R,
    process: &'a Process,
    at: Path<'a>,
    which: Which<'a>,
    file: Option<File>,
    is_asked: bool,
    is_one: bool,
    // How many octets the file has at least, if nobody else cut it.
    least: u64,
    faults: u64,
}

// The device and the number of a file.
fn number_of(metadata: &Metadata) -> (u64, u64) {
    (metadata.dev(), metadata.ino())
}

fn must_be_regular(metadata: &Metadata) -> io::Result<()> {
    if metadata.is_file() {
        Ok(())
    } else {
        Err(ErrorKind::InvalidInput.into())
    }
}

// Opens a regular file, which is made where it is absent. Anything else is left alone: to open it might wait.
fn open<R: Files<File = File>>(files: &R, at: Path<'_>) -> io::Result<File> {
    if let Ok(metadata) = fs::metadata(files, at.path) {
        must_be_regular(&metadata)?;
    }
    let file = OpenOptions::new()
        .read(true)
        .write(true)
        .create(true)
        .mode(MODE)
        .open(files, at.path)?;
    must_be_regular(&file.metadata()?)?;
    Ok(file)
}

// Waits until no other process has the file. The lock goes with the file.
//
// A file without octets may be a new one, so the folder is synced before the first octet is written: then a crash
// leaves the file where anything was promised.
fn lock<R: Files<File = File>>(files: &R, at: Path<'_>, file: &File) -> io::Result<()> {
    again(|| file.lock())?;
    if file.metadata()?.len() == 0 {
        let folder = File::open(files, at.folder)?;
        again(|| folder.sync_all())?;
    }
    Ok(())
}

impl<'a, R: Files<File = File>> FileDisk<'a, R> {
    /// The file that is there. Nothing is opened yet.
    pub fn new(files: &'a R, process: &'a Process, at: Path<'a>) -> FileDisk<'a, R> {
        FileDisk::of(files, process, at, Which::Alone)
    }

    /// The files that are there, of which the first one is asked first. Nothing is opened yet. The first call of the
    /// first one opens both, and locks them in the order of their devices and numbers, so that no two processes each
    /// wait for a file that the other has. Every call of the first one fails where both are one file; where the second
    /// one alone cannot be opened its own calls do.
    pub fn pair(
        files: &'a R,
        process: &'a Process,
        first: Path<'a>,
        second: Path<'a>,
        pair: &'a Pair,
    ) -> (FileDisk<'a, R>, FileDisk<'a, R>) {
        (
            FileDisk::of(files, process, first, Which::First { second, pair }),
            FileDisk::of(files, process, second, Which::Second { pair }),
        )
    }

    fn of(files: &'a R, process: &'a Process, at: Path<'a>, which: Which<'a>) -> FileDisk<'a, R> {
        FileDisk {
            files,
            process,
            at,
            which,
            file: None,
            is_asked: false,
            is_one: false,
            least: 0,
            faults: 0,
        }
    }

    /// Whether this is the first of a pair whose two files are one. It opens them, as the first call does.
    pub fn is_one(&mut self) -> bool {
        self.ask();
        self.is_one
    }

    // Opens the file, and waits until no other process has it.
    fn open_alone(&self) -> io::Result<File> {
        let file = open(self.files, self.at)?;
        lock(self.files, self.at, &file)?;
        Ok(file)
    }

    // Opens both files, and waits until no other process has one of them. The second one is kept for its own disk.
    fn open_first(&mut self, second: Path<'_>, pair: &Pair) -> io::Result<File>
        ensures { self.new.faults ≡ self.old.faults }
    {
        let file = open(self.files, self.at)?;
        let Ok(other) = open(self.files, second) else {
            lock(self.files, self.at, &file)?;
            return Ok(file);
        };
        let (number, other_number) = (number_of(&file.metadata()?), number_of(&other.metadata()?));
        if number == other_number {
            self.is_one = true;
            return Err(ErrorKind::InvalidInput.into());
        }
        if number < other_number {
            lock(self.files, self.at, &file)?;
            lock(self.files, second, &other)?;
        } else {
            lock(self.files, second, &other)?;
            lock(self.files, self.at, &file)?;
        }
        let _ = pair.second.try_set(other);
        Ok(file)
    }

    // Opens the file, in the way of the kind of which it is.
    fn open(&mut self) -> io::Result<File>
        ensures { self.new.faults ≡ self.old.faults }
    {
        match self.which {
            Which::Alone => self.open_alone(),
            Which::First { second, pair } => self.open_first(second, pair),
            Which::Second { pair } => match pair.second.get() {
                Some(file) => file.try_clone(),
                None => Err(ErrorKind::NotFound.into()),
            },
        }
    }

    // The first call opens the file.
    fn ask(&mut self)
        ensures { self.new.faults ≡ self.old.faults }
    {
        if !self.is_asked {
            self.is_asked = true;
            self.file = self.open().ok();
        }
    }

    fn fault(&mut self) -> Failed
        ensures later { self.old.faults ≤ self.new.faults }
        ensures rose { Rose self.old.faults self.new.faults }
    {
        self.process.fail();
        self.faults = self.faults.saturating_add(1);
        Failed
    }

    // Whether the file has the octets that this process knew of, and a name.
    fn is_whole(&self, file: &File) -> bool {
        match file.metadata() {
            Ok(metadata) => metadata.nlink() > 0 && metadata.len() >= self.least,
            Err(_) => false,
        }
    }

    // Whether the file stands at its path.
    fn is_in_place(&self, file: &File) -> bool {
        match (file.metadata(), fs::metadata(self.files, self.at.path)) {
            (Ok(open), Ok(named)) => number_of(&open) == number_of(&named),
            _ => false,
        }
    }
}

// Reads until the buffer is full or the file ends. A read that a signal interrupts is made again.
fn read_fully(file: &File, at: u64, into: &mut [u8]) -> io::Result<usize>
    ensures { IfOk result (λ n. n ≤ length into.new) }
{
    let mut count = 0;
    for _ in 0..u64::MAX {
        if count == into.len() {
            return Ok(count);
        }
        match file.read_at(&mut into[count..], at.saturating_add(count as u64)) {
            Ok(0) => return Ok(count),
            Ok(more) => count += more,
            Err(error) if error.kind() == ErrorKind::Interrupted => {}
            Err(error) => return Err(error),
        }
    }
    Ok(count)
}

impl<R: Files<File = File>> Disk for FileDisk<'_, R> {
    ghost use Rattle.mta_edge.specs.Views.{untold_disk, untold_disk_laws};

    ghost model = { untold_disk (λ d. d.faults) };

    ghost laws = { untold_disk_laws (λ d. d.faults) };

    fn size(&mut self) -> Result<u64, Failed> {
        self.ask();
        if let Some(file) = &self.file {
            if let Ok(metadata) = file.metadata() {
                self.least = self.least.max(metadata.len());
                return Ok(metadata.len());
            }
        }
        Err(self.fault())
    }

    fn read(&mut self, at: u64, into: &mut [u8]) -> Result<usize, Failed> {
        self.ask();
        if let Some(file) = &self.file {
            if let Ok(count) = read_fully(file, at, into) {
                return Ok(count);
            }
        }
        Err(self.fault())
    }

    fn write_at(&mut self, at: u64, bytes: &[u8]) -> Result<(), Failed> {
        self.ask();
        let end = at.saturating_add(bytes.len() as u64);
        if let Some(file) = &self.file {
            let may_write = self.process.may_write(end) && self.is_whole(file);
            if may_write && file.write_all_at(bytes, at).is_ok() {
                self.least = self.least.max(end);
                return Ok(());
            }
        }
        Err(self.fault())
    }

    fn cut(&mut self, size: u64) -> Result<(), Failed> {
        self.ask();
        if let Some(file) = &self.file {
            if self.process.may_write(size) && again(|| file.set_len(size)).is_ok() {
                self.least = size;
                return Ok(());
            }
        }
        Err(self.fault())
    }

    fn sync(&mut self) -> Result<(), Failed> {
        self.ask();
        if let Some(file) = &self.file {
            let stands = self.is_whole(file) && self.is_in_place(file);
            if stands && again(|| file.sync_data()).is_ok() {
                return Ok(());
            }
        }
        Err(self.fault())
    }
}

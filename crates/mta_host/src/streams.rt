//! Real files and streams as `Source` and `Sink`.
//!
//! Each makes a call of the system for a call of its trait, again where a signal interrupts it, and
//! counts its failures. They tell nothing of what they hold. A file that could not be opened fails at
//! every call.

ghost use Rattle.std.specs.Prelude.{◌<◌, ◌≤◌, IfOk, IfSome, length};

use mta_edge::{Failed, Sink, Source};
use std::fs::File;
use std::io::{self, ErrorKind, Read, Write};

/// The tables' file or the input's stream, which are handed in as one type.
#[derive(Drop)]
pub enum Octets<S: Read + Drop> {
    File(Option<File>),
    Stream(S),
}

impl<S: Read + Drop> Octets<S> {
    fn read(&mut self, into: &mut [u8]) -> Option<usize>
        ensures { IfSome result (λ n. n ≤ length into.new) }
    {
        match self {
            Octets::File(None) => None,
            Octets::File(Some(file)) => read_some(file, into).ok(),
            Octets::Stream(stream) => read_some(stream, into).ok(),
        }
    }
}

// The count of one read. A read that a signal interrupts is made again.
pub(crate) fn read_some<S: Read>(stream: &mut S, into: &mut [u8]) -> io::Result<usize>
    ensures { IfOk result (λ n. n ≤ length into.new) }
{
    for _ in 0..u64::MAX {
        match stream.read(into) {
            Ok(count) => return Ok(count),
            Err(error) if error.kind() == ErrorKind::Interrupted => {}
            Err(error) => return Err(error),
        }
    }
    Err(ErrorKind::Interrupted.into())
}

/// Octets from a file or a stream. Every call fails where a file could not be opened.
#[derive(Drop)]
pub struct Reading<S: Read + Drop> {
    octets: Octets<S>,
    faults: u64,
}

impl<S: Read + Drop> Reading<S> {
    pub fn new(octets: Octets<S>) -> Reading<S> {
        Reading { octets, faults: 0 }
    }
}

impl<S: Read + Drop> Source for Reading<S> {
    ghost use Rattle.mta_edge.specs.Views.{untold_source};

    ghost model = { untold_source (λ s. s.faults) };

    fn take(&mut self, into: &mut [u8]) -> Result<usize, Failed> {
        match self.octets.read(into) {
            Some(count) => Ok(count),
            None => {
                self.faults = self.faults.saturating_add(1);
                Err(Failed)
            }
        }
    }
}

/// Octets to a writer.
#[derive(Drop)]
pub struct Writing<W: Write + Drop> {
    inner: W,
    faults: u64,
}

impl<W: Write + Drop> Writing<W> {
    pub fn new(inner: W) -> Writing<W> {
        Writing { inner, faults: 0 }
    }
}

// The count of one write, of at least one octet where there are any. A write that a signal interrupts is made again.
pub(crate) fn write_some<W: Write>(writer: &mut W, bytes: &[u8]) -> io::Result<usize>
    ensures bound { IfOk result (λ n. n ≤ length bytes.now) }
    ensures some { IfOk result (λ n. 0 < length bytes.now → 0 < n) }
{
    for _ in 0..u64::MAX {
        match writer.write(bytes) {
            Ok(0) if !bytes.is_empty() => return Err(ErrorKind::WriteZero.into()),
            Ok(count) => return Ok(count),
            Err(error) if error.kind() == ErrorKind::Interrupted => {}
            Err(error) => return Err(error),
        }
    }
    Err(ErrorKind::Interrupted.into())
}

impl<W: Write + Drop> Sink for Writing<W> {
    ghost use Rattle.mta_edge.specs.Views.{untold_sink};

    ghost model = { untold_sink (λ s. s.faults) };

    fn put(&mut self, bytes: &[u8]) -> Result<usize, Failed> {
        match write_some(&mut self.inner, bytes) {
            Ok(count) => Ok(count),
            Err(_) => {
                self.faults = self.faults.saturating_add(1);
                Err(Failed)
            }
        }
    }
}

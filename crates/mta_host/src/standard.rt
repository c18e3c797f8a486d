//! The descriptors of the standard streams.

use std::fs::{File, Files};
use std::io;

// Whatever is read of it is at its end, and a descriptor that is open for reading takes no octets.
const NOTHING: &str = "/dev/null";

/// The status of a program that cannot have its standard streams: that of one that cannot write its output.
pub const NO_STREAMS: u8 = 9;

/// Files in place of the standard streams with which the process was not started, for as long as this is kept.
#[derive(Drop)]
pub struct Streams {
    _files: [File; 3],
}

impl Streams {
    /// Makes sure that the descriptors 0, 1 and 2 are taken, so that no file that is opened later is written what is
    /// meant for a stream. The system gives the lowest descriptors that are free, so the first three files have those
    /// of the three that were closed. A stream that was closed gives no octets then, and a write to it fails.
    ///
    /// It is called before anything else is opened. It fails where a file could not be opened.
    pub fn taken<R: Files<File = File>>(files: &R) -> io::Result<Streams> {
        let first = File::open(files, NOTHING)?;
        let second = File::open(files, NOTHING)?;
        let third = File::open(files, NOTHING)?;
        Ok(Streams {
            _files: [first, second, third],
        })
    }
}

//! The adapters over real files, streams that stop and start, and the real clock.

use mta_edge::{Clock, Disk, Failed, Sink, Source};
use mta_host::{FileDisk, Octets as Stream, Path, Process, Reading, SystemClock, Writing, again};
use std::cell::Cell;
use std::fs::{self, File};
use std::io::{self, Empty, ErrorKind, Read, Write};
use std::os::unix::fs::PermissionsExt;
use std::test::Fail;

/// A file in the folder in which the test runs.
pub fn beside(path: &str) -> Path<'_> {
    Path { folder: ".", path }
}

#[test]
fn a_file_is_a_disk(rt: HostRuntime) -> Result<(), Fail> {
    let process = Process::new(&rt, 1);
    let mut disk = FileDisk::new(&rt, &process, beside("disk.try"));
    let mut buffer = [0u8; 4];
    assert_eq!(rt; disk.sync(), Ok(()));
    assert_eq!(rt; disk.cut(0), Ok(()));
    assert_eq!(rt; disk.write_at(0, b"abcd"), Ok(()));
    assert_eq!(rt; disk.sync(), Ok(()));
    assert_eq!(rt; disk.size(), Ok(4));
    assert_eq!(rt; disk.cut(3), Ok(()));
    assert_eq!(rt; disk.read(1, &mut buffer), Ok(2));
    assert_eq!(rt; buffer, *b"bc\0\0");
    let mode = fs::metadata(&rt, "disk.try")?.permissions().mode();
    assert_eq!(rt; mode & 0o777, 0o600);
    fs::remove_file(&rt, "disk.try")?;
    Ok(())
}

// No file is made before the first call, and every call fails where there is no folder for it.
#[test]
fn a_file_is_opened_at_the_first_call(rt: HostRuntime) -> Result<(), Fail> {
    let process = Process::new(&rt, 1);
    let mut disk = FileDisk::new(&rt, &process, beside("late.try"));
    assert!(rt; File::open(&rt, "late.try").is_err());
    assert_eq!(rt; disk.size(), Ok(0));
    assert!(rt; File::open(&rt, "late.try").is_ok());
    fs::remove_file(&rt, "late.try")?;
    let absent = Path {
        folder: "absent.try",
        path: "absent.try/late.try",
    };
    let mut none = FileDisk::new(&rt, &process, absent);
    assert_eq!(rt; none.sync(), Err(Failed));
    assert_eq!(rt; none.size(), Err(Failed));
    Ok(())
}

// Nothing is promised any more for a file that was removed, or in whose place another one stands.
#[test]
fn a_file_is_removed_and_replaced(rt: HostRuntime) -> Result<(), Fail> {
    let process = Process::new(&rt, 1);
    let mut disk = FileDisk::new(&rt, &process, beside("gone.try"));
    assert_eq!(rt; disk.write_at(0, b"abcd"), Ok(()));
    assert_eq!(rt; disk.sync(), Ok(()));
    fs::remove_file(&rt, "gone.try")?;
    assert_eq!(rt; disk.sync(), Err(Failed));
    let mut disk = FileDisk::new(&rt, &process, beside("gone.try"));
    assert_eq!(rt; disk.write_at(0, b"abcd"), Ok(()));
    fs::rename(&rt, "gone.try", "kept.try")?;
    assert_eq!(rt; disk.sync(), Err(Failed));
    fs::write(&rt, "gone.try", b"abcd")?;
    assert_eq!(rt; disk.sync(), Err(Failed));
    fs::remove_file(&rt, "gone.try")?;
    fs::remove_file(&rt, "kept.try")?;
    Ok(())
}

// A write at the old place would leave zeros in a file that was cut, so none is made.
#[test]
fn a_file_is_cut_by_somebody_else(rt: HostRuntime) -> Result<(), Fail> {
    let process = Process::new(&rt, 1);
    let mut disk = FileDisk::new(&rt, &process, beside("cut.try"));
    assert_eq!(rt; disk.write_at(0, b"abcd"), Ok(()));
    File::options()
        .write(true)
        .open(&rt, "cut.try")?
        .set_len(1)?;
    assert_eq!(rt; disk.sync(), Err(Failed));
    assert_eq!(rt; disk.write_at(4, b"e"), Err(Failed));
    assert_eq!(rt; disk.size(), Ok(1));
    fs::remove_file(&rt, "cut.try")?;
    Ok(())
}

// What is no regular file is not opened.
#[test]
fn a_device_is_no_disk(rt: HostRuntime) -> Result<(), Fail> {
    let process = Process::new(&rt, 1);
    let zeros = Path {
        folder: "/dev",
        path: "/dev/zero",
    };
    let mut disk = FileDisk::new(&rt, &process, zeros);
    assert_eq!(rt; disk.size(), Err(Failed));
    assert_eq!(rt; disk.read(0, &mut [0u8; 4]), Err(Failed));
    Ok(())
}

#[test]
fn files_are_sources_and_sinks_and_the_clock_goes(rt: HostRuntime) -> Result<(), Fail> {
    let mut sink = Writing::new(File::create(&rt, "sink.try")?);
    assert_eq!(rt; sink.put(b"abc"), Ok(3));
    let mut buffer = [0u8; 4];
    let file: Stream<Empty> = Stream::File(File::open(&rt, "sink.try").ok());
    let mut source = Reading::new(file);
    assert_eq!(rt; source.take(&mut buffer), Ok(3));
    assert_eq!(rt; source.take(&mut buffer), Ok(0));
    let mut none: Reading<Empty> = Reading::new(Stream::File(None));
    assert_eq!(rt; none.take(&mut buffer), Err(Failed));
    fs::remove_file(&rt, "sink.try")?;
    // 2026-01-01, which is 27,759 days after 1950-01-01.
    assert!(rt; SystemClock::new(&rt).now() > 27_759 * 86_400);
    Ok(())
}

// A stream whose calls fail with these kinds in turn, and then succeed with one octet each.
#[derive(Drop)]
struct Uneven {
    kinds: Vec<ErrorKind>,
}

impl Uneven {
    fn next(&mut self) -> io::Result<usize> {
        match self.kinds.pop() {
            Some(kind) => Err(kind.into()),
            None => Ok(1),
        }
    }
}

impl Read for Uneven {
    fn read(&mut self, into: &mut [u8]) -> io::Result<usize> {
        let count = self.next()?.min(into.len());
        into[..count].fill(7);
        Ok(count)
    }
}

impl Write for Uneven {
    fn write(&mut self, bytes: &[u8]) -> io::Result<usize> {
        Ok(self.next()?.min(bytes.len()))
    }

    fn flush(&mut self) -> io::Result<()> {
        Ok(())
    }
}

#[test]
fn interrupted_calls_are_made_again(rt: HostRuntime) -> Result<(), Fail> {
    let kinds = [
        ErrorKind::BrokenPipe,
        ErrorKind::Interrupted,
        ErrorKind::Interrupted,
    ];
    let mut buffer = [0u8; 2];
    let mut source = Reading::new(Stream::Stream(Uneven {
        kinds: kinds.to_vec(rt.alloc())?,
    }));
    assert_eq!(rt; source.take(&mut buffer), Err(Failed));
    assert_eq!(rt; source.take(&mut buffer), Ok(1));
    assert_eq!(rt; buffer, [7, 0]);
    let mut sink = Writing::new(Uneven {
        kinds: kinds.to_vec(rt.alloc())?,
    });
    assert_eq!(rt; sink.put(b"ab"), Err(Failed));
    assert_eq!(rt; sink.put(b"ab"), Ok(1));
    assert_eq!(rt; sink.put(b""), Ok(0));
    Ok(())
}

// A call that a signal interrupts twice.
#[test]
fn a_call_that_is_interrupted_is_made_again(rt: HostRuntime) -> Result<(), Fail> {
    let made = Cell::new(0u8);
    let answer = again(|| {
        made.set(made.get().saturating_add(1));
        if made.get() < 3 {
            return Err(ErrorKind::Interrupted.into());
        }
        Ok(made.get())
    });
    assert_eq!(rt; answer?, 3);
    let refused: io::Result<u8> = again(|| Err(ErrorKind::BrokenPipe.into()));
    assert_eq!(rt;
        refused.map_err(|error| error.kind()),
        Err(ErrorKind::BrokenPipe)
    );
    Ok(())
}

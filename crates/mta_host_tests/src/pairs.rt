//! Two files that are opened together.

use crate::files::beside;
use mta_edge::{Disk, Failed};
use mta_host::{FileDisk, Pair, Path, Process};
use std::fs::{self, File, Files};
use std::os::unix::fs::symlink;
use std::test::Fail;
use std::thread;

// How often two threads open the same two files, each in an order of its own.
const ROUNDS: u32 = 50;

#[test]
fn both_are_opened_by_the_first_call(rt: HostRuntime) -> Result<(), Fail> {
    let (process, pair) = (Process::new(&rt, 1), Pair::new());
    let (one, other) = (beside("one.try"), beside("other.try"));
    let (mut first, mut second) = FileDisk::pair(&rt, &process, one, other, &pair);
    assert!(rt; File::open(&rt, "one.try").is_err());
    assert!(rt; !first.is_one());
    assert!(rt; File::open(&rt, "other.try").is_ok());
    assert_eq!(rt; first.write_at(0, b"ab"), Ok(()));
    assert_eq!(rt; second.write_at(0, b"cde"), Ok(()));
    assert_eq!(rt; first.sync(), Ok(()));
    assert_eq!(rt; second.sync(), Ok(()));
    assert_eq!(rt; first.size(), Ok(2));
    assert_eq!(rt; second.size(), Ok(3));
    fs::remove_file(&rt, "one.try")?;
    fs::remove_file(&rt, "other.try")?;
    Ok(())
}

// Where the second one cannot be opened the first one can all the same.
#[test]
fn the_second_one_is_a_folder(rt: HostRuntime) -> Result<(), Fail> {
    let (process, pair) = (Process::new(&rt, 1), Pair::new());
    let (one, folder) = (beside("lone.try"), beside("."));
    let (mut first, mut second) = FileDisk::pair(&rt, &process, one, folder, &pair);
    assert_eq!(rt; first.size(), Ok(0));
    assert_eq!(rt; second.size(), Err(Failed));
    fs::remove_file(&rt, "lone.try")?;
    Ok(())
}

// A link that leads to a file which is absent when the two are opened.
#[test]
fn both_are_one_file(rt: HostRuntime) -> Result<(), Fail> {
    let (process, pair) = (Process::new(&rt, 1), Pair::new());
    symlink(&rt, "same.try", "link.try")?;
    let (one, link) = (beside("same.try"), beside("link.try"));
    let (mut first, _second) = FileDisk::pair(&rt, &process, one, link, &pair);
    assert!(rt; first.is_one());
    assert_eq!(rt; first.size(), Err(Failed));
    fs::remove_file(&rt, "same.try")?;
    fs::remove_file(&rt, "link.try")?;
    Ok(())
}

// Whether both files can be had. They are let go again.
fn are_opened<'a, R: Files<File = File>>(
    files: &'a R,
    process: &'a Process,
    first: Path<'a>,
    second: Path<'a>,
) -> bool {
    let pair = Pair::new();
    let (mut one, mut other) = FileDisk::pair(files, process, first, second, &pair);
    one.size().is_ok() && other.size().is_ok()
}

// Opens both files again and again, and lets them go; how often that succeeded.
fn opened<'a, R: Files<File = File>>(
    files: &'a R,
    process: &'a Process,
    first: Path<'a>,
    second: Path<'a>,
) -> u32 {
    let mut count = 0u32;
    for _ in 0..ROUNDS {
        if are_opened(files, process, first, second) {
            count = count.saturating_add(1);
        }
    }
    count
}

#[test]
fn two_threads_open_both_in_either_order(rt: HostRuntime) -> Result<(), Fail> {
    let process = Process::new(&rt, 1);
    let (left, right) = (beside("left.try"), beside("right.try"));
    let counts = thread::join(
        &rt,
        || opened(&rt, &process, left, right),
        || opened(&rt, &process, right, left),
    );
    assert_eq!(rt; counts, (ROUNDS, ROUNDS));
    fs::remove_file(&rt, "left.try")?;
    fs::remove_file(&rt, "right.try")?;
    Ok(())
}

//! What is printed of the workers' ends.

ghost use Rattle.std.specs.Prelude.{◌≡◌, ◌++◌, IfOk, OnOk, decimal};
ghost use Rattle.mta_stations.specs.Lines.{station_line, station_lines};

use crate::end::WorkerEnd;
use mta_apdu_text::put_number;
use mta_ber::{Memory, Octets};
use std::alloc::Global;

// A word with its spaces, and a number behind it.
fn put_counted(line: &mut Octets, word: &[u8], number: u64) -> Result<(), Memory>
    ensures { OnOk result (line.new ≡ line.old ++ (word.now ++ decimal number)) }
{
    line.extend(word)?;
    put_number(line, number)
}

// The line of the station of this number.
fn put_station_line(text: &mut Octets, number: u64, end: &WorkerEnd) -> Result<(), Memory>
    ensures { OnOk result (text.new ≡ text.old ++ station_line number end.now) }
{
    put_counted(text, b"station ", number)?;
    put_counted(text, b" sessions ", u64::from(end.sessions))?;
    put_counted(text, b" closed ", u64::from(end.closed))?;
    text.extend(b"\n")
}

/// A line a station, `station K sessions A closed B`, in their order: its number, from 1, how many links its worker
/// gave back, and how many of their sessions ended with the lane closed.
pub fn station_lines(alloc: Global, ends: &[WorkerEnd]) -> Result<Octets, Memory>
    ensures { IfOk result (λ text. text ≡ station_lines ends.now) }
{
    let mut text = Octets::new(alloc);
    for (i, end) in ends.iter().enumerate() {
        put_station_line(&mut text, i as u64 + 1, end)?;
    }
    Ok(text)
}

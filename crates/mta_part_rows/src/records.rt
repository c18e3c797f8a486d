//! Bodies of records. A row has what reading the octets answers (the step, or the place of the first fault), and the
//! octets in hexadecimal, behind a tab. The octets of a step are also written again. A row that is answered otherwise
//! is printed. The rows were worked out from the format of the journal: of each kind a body, the body cut by an octet
//! and with an octet behind it, and bodies with a field outside its type.

ghost use Rattle.mta_records.specs.Body.{HasFields};

use anyhow::Result;
use mta_records::{RecordFault, Step, read_record, write_record};
use mta_rows::{Fields, octets_of};
use std::alloc::{AllocError, Global};

/// No body of a row is longer.
pub const LONGEST_BODY: usize = 4_096;

/// The step, where it is written as this body.
fn told(alloc: Global, step: &Step, body: &[u8]) -> Result<String, AllocError>
    requires { HasFields step.now }
{
    match write_record(alloc, step) {
        Ok(written) if written.as_slice() == body => format!(in alloc; "{step:?}"),
        Ok(_) => format!(in alloc; "written otherwise"),
        Err(_) => format!(in alloc; "memory"),
    }
}

/// What reading the octets answers. The step is let go at one place: the proof goes through all its kinds there.
fn answer(alloc: Global, body: &[u8]) -> Result<String, AllocError> {
    if body.len() > LONGEST_BODY {
        return format!(in alloc; "a long row");
    }
    match read_record(alloc, body) {
        Ok(step) => told(alloc, &step, body),
        Err(RecordFault::BadRecord { at }) => format!(in alloc; "{at}"),
        Err(RecordFault::Memory) => format!(in alloc; "memory"),
    }
}

/// Prints what octets are answered in place of what the row says.
fn print_row(rt: &impl Print, octets: &str, answered: &str, expected: &str) -> Result<()> {
    println!(rt; "{octets}: {answered} in place of {expected}")?;
    Ok(())
}

/// Prints a row that is answered otherwise than it says. Each asks something.
pub fn try_row(rt: &impl Print, alloc: Global, row: &str) -> Result<bool> {
    let mut fields = Fields { rest: row };
    let (expected, octets) = (fields.take(), fields.take());
    let body = octets_of(alloc, octets)?;
    let answered = answer(alloc, body.as_slice())?;
    if answered.as_str() == expected {
        return Ok(true);
    }
    print_row(rt, octets, answered.as_str(), expected)?;
    Ok(true)
}

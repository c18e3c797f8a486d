//! Reading what `submit` and `decode` need before the disk is called.
//!
//! The tables and then the input are read to their ends, each with a bound on its octets.
//! `Tables::read` makes the tables, and `Apdu::read` says whether the input is an APDU; its value is
//! let go, since the spool keeps octets.
//!
//! Out go the tables and the octets, or the first stop: a bad line, the first fault of the input, a
//! source that failed, memory. The disk was not called, so a crash or a stop here leaves it as it was.

ghost use Rattle.mta_commands.specs.Inputs.{HasTables, HasOctets, IsChecked, HasInput, HasInputs};

use crate::stop::{Stop, stop_of_read};
use mta_apdu::{Apdu, LONGEST_APDU};
use mta_ber::Kind;
use mta_edge::{Octets, Source, SourceFault, read_all};
use mta_tables::{LineKind, Tables, TablesFault};
use std::alloc::Global;

// The most octets of tables.
const LONGEST_TABLES: u32 = 1_048_576;

/// The tables, and the octets of an APDU.
#[derive(Drop)]
pub struct Inputs {
    pub tables: Tables,
    pub apdu: Octets,
}

/// Reads the tables to their end.
pub fn tables_of<I: Source>(alloc: Global, conf: &mut I) -> Result<Tables, Stop>
    ensures { HasTables I.model conf.old conf.new result }
{
    let text = match read_all(alloc, conf, LONGEST_TABLES) {
        Ok(text) => text,
        Err(SourceFault::Failed) => return Err(Stop::Source),
        Err(SourceFault::TooLong) => {
            return Err(Stop::Tables {
                line: 1,
                kind: LineKind::TooLong,
            });
        }
        Err(SourceFault::Memory) => return Err(Stop::Memory),
    };
    match Tables::read(alloc, text.as_slice()) {
        Ok(tables) => Ok(tables),
        Err(TablesFault::BadLine { line, kind }) => Err(Stop::Tables { line, kind }),
        Err(TablesFault::Memory) => Err(Stop::Memory),
    }
}

/// Reads an input to its end, or to the first octet that is too many for an APDU.
pub fn octets_of<I: Source>(alloc: Global, input: &mut I) -> Result<Octets, Stop>
    ensures { HasOctets I.model input.old input.new result }
{
    match read_all(alloc, input, LONGEST_APDU) {
        Ok(octets) => Ok(octets),
        Err(SourceFault::Failed) => Err(Stop::Source),
        Err(SourceFault::TooLong) => Err(Stop::BadApdu {
            at: LONGEST_APDU,
            kind: Kind::TooLong,
        }),
        Err(SourceFault::Memory) => Err(Stop::Memory),
    }
}

fn check_apdu(alloc: Global, octets: &Octets) -> Result<(), Stop>
    ensures { IsChecked octets.now result }
{
    match Apdu::read(alloc, octets.as_slice()) {
        Ok(apdu) => {
            apdu.discard();
            Ok(())
        }
        Err(fault) => Err(stop_of_read(fault)),
    }
}

// Reads an APDU.
fn apdu_of<I: Source>(alloc: Global, input: &mut I) -> Result<Octets, Stop>
    ensures { HasInput I.model input.old input.new result }
{
    let octets = octets_of(alloc, input)?;
    check_apdu(alloc, &octets)?;
    Ok(octets)
}

/// Reads the tables and then the input to their ends.
pub fn inputs_of<I: Source>(alloc: Global, conf: &mut I, input: &mut I) -> Result<Inputs, Stop>
    ensures { HasInputs I.model conf.old conf.new input.old input.new result }
{
    let tables = match tables_of(alloc, conf) {
        Ok(tables) => tables,
        Err(stop) => return Err(stop),
    };
    match apdu_of(alloc, input) {
        Ok(apdu) => Ok(Inputs { tables, apdu }),
        Err(stop) => Err(stop),
    }
}

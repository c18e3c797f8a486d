//! The audit of two spools.

ghost use Rattle.std.specs.Prelude.{IfOk};
ghost use Rattle.mta_audit_run.specs.Outcome.{IsReportOf, lines_of_side};
ghost use Rattle.mta_audit_run.specs.Texts.{Puts};

use crate::side::Side;
use crate::stop::Spool;
use crate::text::{both, put_lanes};
use mta_ber::{Memory, Octets};
use std::alloc::Global;

/// The lines of an audit, and whether all halves agree that are covered.
#[derive(Drop)]
pub struct Report {
    pub text: Octets,
    pub agrees: bool,
}

// Puts the lines of the lanes of a spool to the other one, and answers whether all agree.
fn put_side(
    alloc: Global,
    text: &mut Octets,
    spool: Spool,
    side: &Side,
    other: &Side,
) -> Result<bool, Memory>
    ensures { IfOk result (Puts (lines_of_side spool side.now other.now) text.old text.new) }
{
    put_lanes(
        alloc,
        text,
        spool,
        side.own.as_ref(),
        other.own.as_ref(),
        other.begun,
        side.accounts.as_slice(),
        other.accounts.as_slice(),
    )
}

/// The audit of two spools.
pub fn report_of(alloc: Global, first: &Side, second: &Side) -> Result<Report, Memory>
    ensures { IfOk result (IsReportOf first.now second.now) }
{
    let mut text = Octets::new(alloc);
    let first_agrees = put_side(alloc, &mut text, Spool::First, first, second)?;
    let second_agrees = put_side(alloc, &mut text, Spool::Second, second, first)?;
    Ok(Report {
        text,
        agrees: both(first_agrees, second_agrees),
    })
}

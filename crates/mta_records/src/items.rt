//! The items and the deliveries of a snapshot, as fields of its record.

ghost use Rattle.std.specs.Prelude.{◌≡◌, ◌++◌, ◌∷◌, [], length, OnOk};
ghost use Rattle.mta_records.specs.Answered.{Gives};
ghost use Rattle.mta_records.specs.Fields.{a_moment, a_string};
ghost use Rattle.mta_records.specs.Sizes.{capped};
ghost use Rattle.mta_records.specs.Snapshots.{an_origin, a_diagnostic, status_form, item_form, line_form};

use crate::fields::{Short, moment_of, number_of, octet_of, string_of, truth_of, word_of};
use crate::lists::{Field, list_of, list_size, put_list};
use crate::sizes::string_size;
use crate::snapshot::ItemRecord;
use crate::state::{MailboxLine, Origin, Status};
use crate::writing::{put_long_number, put_number, put_octet, put_string, put_truth};
use mta_ber::{Memory, Octets};
use std::alloc::Global;
use std::sync::Arc;

// ---- statuses

/// A diagnostic, whose number is 0 where it is not given.
fn diagnostic_of(octets: &[u8]) -> Result<(Option<u32>, &[u8]), Short>
    ensures { Gives (λ x. (x.0, x.1.now)) result (a_diagnostic.at octets.now) }
{
    let (is_given, behind) = truth_of(octets)?;
    let (number, rest) = number_of(behind)?;
    if is_given {
        return Ok((Some(number), rest));
    }
    if number != 0 {
        return Err(Short::Left(behind.len()));
    }
    Ok((None, rest))
}

fn put_diagnostic(out: &mut Octets, diagnostic: Option<u32>) -> Result<(), Memory>
    ensures { OnOk result (out.new ≡ out.old ++ a_diagnostic.spelled diagnostic) }
{
    put_truth(out, diagnostic.is_some())?;
    put_number(out, diagnostic.unwrap_or(0))
}

/// A code, and a moment behind it.
fn put_timed(out: &mut Octets, code: u8, moment: u64) -> Result<(), Memory>
    ensures { OnOk result (out.new ≡ out.old ++ (code ∷ []) ++ a_moment.spelled moment) }
{
    put_octet(out, code)?;
    put_long_number(out, moment)
}

/// A status: its code, and what follows the code.
impl Field for Status {
    ghost at = { λ two octets. status_form.at octets };

    ghost spelled = { λ two s. status_form.spelled s };

    ghost Fits = { λ two s. status_form.Fits s };

    #[tactic(auto, unfolding(crate::specs::Snapshots::status_form))]
    fn read(alloc: Global, _two: bool, octets: &[u8]) -> Result<(Status, &[u8]), Short> {
        let (code, rest) = octet_of(octets)?;
        match code {
            0 => Ok((Status::Pending, rest)),
            1 => {
                let (moment, rest) = moment_of(rest)?;
                Ok((Status::Delivered(moment), rest))
            }
            2 => {
                let (moment, rest) = moment_of(rest)?;
                Ok((Status::Expanded(moment), rest))
            }
            3 => {
                let (moment, rest) = moment_of(rest)?;
                let (peer, rest) = word_of(alloc, rest)?;
                Ok((Status::Sent { moment, peer }, rest))
            }
            4 => {
                let (moment, rest) = moment_of(rest)?;
                let (reason, rest) = number_of(rest)?;
                let (diagnostic, rest) = diagnostic_of(rest)?;
                let status = Status::Reported {
                    moment,
                    reason,
                    diagnostic,
                };
                Ok((status, rest))
            }
            5 => {
                let (moment, rest) = moment_of(rest)?;
                Ok((Status::Affirmed(moment), rest))
            }
            6 => {
                let (moment, rest) = moment_of(rest)?;
                Ok((Status::Discarded(moment), rest))
            }
            7 => {
                let (moment, rest) = moment_of(rest)?;
                Ok((Status::Passed(moment), rest))
            }
            _ => Err(Short::Left(octets.len())),
        }
    }

    #[tactic(auto, unfolding(crate::specs::Snapshots::status_form, crate::specs::Fields::string))]
    fn put(&self, out: &mut Octets, _two: bool) -> Result<(), Memory> {
        match self {
            Status::Pending => put_octet(out, 0),
            Status::Delivered(moment) => put_timed(out, 1, *moment),
            Status::Expanded(moment) => put_timed(out, 2, *moment),
            Status::Sent { moment, peer } => {
                put_timed(out, 3, *moment)?;
                put_string(out, peer.as_slice())
            }
            Status::Reported {
                moment,
                reason,
                diagnostic,
            } => {
                put_timed(out, 4, *moment)?;
                put_number(out, *reason)?;
                put_diagnostic(out, *diagnostic)
            }
            Status::Affirmed(moment) => put_timed(out, 5, *moment),
            Status::Discarded(moment) => put_timed(out, 6, *moment),
            Status::Passed(moment) => put_timed(out, 7, *moment),
        }
    }

    #[tactic(auto, using(crate::proofs::Lengths::lengths), unfolding(crate::specs::Snapshots::status_form))]
    fn size(&self, _two: bool) -> u64 {
        match self {
            Status::Pending => 1,
            Status::Delivered(_)
            | Status::Expanded(_)
            | Status::Affirmed(_)
            | Status::Discarded(_)
            | Status::Passed(_) => 9,
            Status::Sent { peer, .. } => string_size(peer.as_slice()).saturating_add(9),
            Status::Reported { .. } => 18,
        }
    }
}

// ---- items

fn origin_of(octets: &[u8]) -> Result<(Origin, &[u8]), Short>
    ensures { Gives (λ x. (x.0, x.1.now)) result (an_origin.at octets.now) }
{
    let (octet, rest) = octet_of(octets)?;
    match octet {
        0 => Ok((Origin::Submitted, rest)),
        1 => Ok((Origin::Lane, rest)),
        2 => Ok((Origin::Own, rest)),
        _ => Err(Short::Left(octets.len())),
    }
}

fn put_origin(out: &mut Octets, origin: Origin) -> Result<(), Memory>
    ensures { OnOk result (out.new ≡ out.old ++ an_origin.spelled origin) }
{
    match origin {
        Origin::Submitted => put_octet(out, 0),
        Origin::Lane => put_octet(out, 1),
        Origin::Own => put_octet(out, 2),
    }
}

/// Octets that others may hold too.
fn shared_string_of(alloc: Global, octets: &[u8]) -> Result<(Arc<Octets, Global>, &[u8]), Short>
    ensures { Gives (λ x. (x.0.value, x.1.now)) result (a_string.at octets.now) }
{
    let (string, rest) = string_of(octets)?;
    let string = Octets::from_slice(alloc, string)?;
    let shared = Arc::new(alloc, string)?;
    Ok((shared, rest))
}

/// An item: where it came from, when it arrived, its octets, and the statuses of the recipients for whom this agent is
/// responsible.
impl Field for ItemRecord {
    ghost at = { λ two octets. item_form.at octets };

    ghost spelled = { λ two i. item_form.spelled i };

    ghost Fits = { λ two i. item_form.Fits i };

    #[tactic(auto, unfolding(crate::specs::Snapshots::item_form))]
    fn read(alloc: Global, two: bool, octets: &[u8]) -> Result<(ItemRecord, &[u8]), Short> {
        let (origin, rest) = origin_of(octets)?;
        let (arrival, rest) = moment_of(rest)?;
        let (octets, rest) = shared_string_of(alloc, rest)?;
        let (codes, rest) = list_of(alloc, two, rest)?;
        let item = ItemRecord {
            origin,
            arrival,
            octets,
            codes,
        };
        Ok((item, rest))
    }

    #[tactic(auto, unfolding(crate::specs::Snapshots::item_form))]
    fn put(&self, out: &mut Octets, two: bool) -> Result<(), Memory> {
        put_origin(out, self.origin)?;
        put_long_number(out, self.arrival)?;
        put_string(out, self.octets.as_slice())?;
        put_list(out, two, self.codes.as_slice())
    }

    #[tactic(auto, using(crate::proofs::Lengths::lengths), unfolding(crate::specs::Snapshots::item_form))]
    fn size(&self, two: bool) -> u64 {
        list_size(two, self.codes.as_slice())
            .saturating_add(string_size(self.octets.as_slice()))
            .saturating_add(9)
    }
}

// ---- deliveries

/// A delivery: the mailbox, the item, and when.
impl Field for MailboxLine {
    ghost at = { λ two octets. line_form.at octets };

    ghost spelled = { λ two l. line_form.spelled l };

    ghost Fits = { λ two l. line_form.Fits l };

    #[tactic(auto, unfolding(crate::specs::Snapshots::line_form))]
    fn read(alloc: Global, _two: bool, octets: &[u8]) -> Result<(MailboxLine, &[u8]), Short> {
        let (mailbox, rest) = word_of(alloc, octets)?;
        let (item, rest) = number_of(rest)?;
        let (moment, rest) = moment_of(rest)?;
        let line = MailboxLine {
            mailbox,
            item,
            moment,
        };
        Ok((line, rest))
    }

    #[tactic(auto, unfolding(crate::specs::Snapshots::line_form))]
    fn put(&self, out: &mut Octets, _two: bool) -> Result<(), Memory> {
        put_string(out, self.mailbox.as_slice())?;
        put_number(out, self.item)?;
        put_long_number(out, self.moment)
    }

    #[tactic(auto, using(crate::proofs::Lengths::lengths), unfolding(crate::specs::Snapshots::line_form))]
    fn size(&self, _two: bool) -> u64 {
        string_size(self.mailbox.as_slice()).saturating_add(12)
    }
}

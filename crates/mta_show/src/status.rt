//! What became of a recipient, in words: its line in the queue.

ghost use Rattle.std.specs.Prelude.{◌≡◌, ◌++◌, OnOk};
ghost use Rattle.std.specs.Option.{option_copied};
ghost use Rattle.mta_apdu_text.specs.Reporteds.{diagnostic_text};
ghost use Rattle.mta_show.specs.Statuses.{timed_text, sent_text, reported_text, status_text, status_line};
ghost use Rattle.mta_show.specs.Statuses.{status_line_if};

use mta_apdu_text::{put_moment, put_name, put_number};
use mta_ber::{Memory, Octets, Word};
use mta_machine::Status;
use mta_names::OrName;
use std::alloc::Global;

// A word, with the space behind it, and when it came to be so.
#[tactic(auto, unfolding(crate::specs::Statuses::timed_text))]
fn put_timed(alloc: Global, out: &mut Octets, word: &[u8], moment: u64) -> Result<(), Memory>
    ensures { OnOk result (out.new ≡ out.old ++ timed_text word.now moment) }
{
    out.extend(word)?;
    put_moment(alloc, out, moment)
}

#[tactic(auto, unfolding(crate::specs::Statuses::sent_text))]
fn put_sent(alloc: Global, out: &mut Octets, moment: u64, peer: &Word) -> Result<(), Memory>
    ensures { OnOk result (out.new ≡ out.old ++ sent_text moment peer.now) }
{
    put_timed(alloc, out, b"sent ", moment)?;
    out.extend(b" ")?;
    out.extend(peer.as_slice())
}

// The number, or a dash where there is none.
#[tactic(auto, unfolding(mta_apdu_text::specs::Reporteds::diagnostic_text))]
fn put_diagnostic(out: &mut Octets, diagnostic: Option<u32>) -> Result<(), Memory>
    ensures { OnOk result (out.new ≡ out.old ++ diagnostic_text diagnostic) }
{
    match diagnostic {
        None => out.extend(b"-"),
        Some(number) => put_number(out, u64::from(number)),
    }
}

#[tactic(auto, unfolding(crate::specs::Statuses::reported_text))]
fn put_reported(
    alloc: Global,
    out: &mut Octets,
    moment: u64,
    reason: u32,
    diagnostic: Option<u32>,
) -> Result<(), Memory>
    ensures { OnOk result (out.new ≡ out.old ++ reported_text moment reason diagnostic) }
{
    put_timed(alloc, out, b"reported ", moment)?;
    out.extend(b" ")?;
    put_number(out, u64::from(reason))?;
    out.extend(b" ")?;
    put_diagnostic(out, diagnostic)
}

fn put_status(alloc: Global, out: &mut Octets, status: &Status) -> Result<(), Memory>
    ensures { OnOk result (out.new ≡ out.old ++ status_text status.now) }
{
    match status {
        Status::Pending => out.extend(b"pending"),
        Status::Delivered(moment) => put_timed(alloc, out, b"delivered ", *moment),
        Status::Expanded(moment) => put_timed(alloc, out, b"expanded ", *moment),
        Status::Sent { moment, peer } => put_sent(alloc, out, *moment, peer),
        Status::Reported {
            moment,
            reason,
            diagnostic,
        } => put_reported(alloc, out, *moment, *reason, *diagnostic),
        Status::Affirmed(moment) => put_timed(alloc, out, b"affirmed ", *moment),
        Status::Discarded(moment) => put_timed(alloc, out, b"discarded ", *moment),
        Status::Passed(moment) => put_timed(alloc, out, b"passed ", *moment),
    }
}

#[tactic(auto, unfolding(crate::specs::Statuses::status_line))]
fn put_status_line(
    alloc: Global,
    out: &mut Octets,
    number: u64,
    status: &Status,
    name: &OrName,
) -> Result<(), Memory>
    ensures { OnOk result (out.new ≡ out.old ++ status_line number status.now name.now) }
{
    out.extend(b"recipient ")?;
    put_number(out, number)?;
    out.extend(b" ")?;
    put_status(alloc, out, status)?;
    out.extend(b" ")?;
    put_name(alloc, out, name)?;
    out.extend(b"\n")
}

/// The line of a recipient that has a status.
pub fn put_status_line_if(
    alloc: Global,
    out: &mut Octets,
    number: u64,
    status: Option<&Status>,
    name: &OrName,
) -> Result<(), Memory>
    ensures { OnOk result (out.new ≡ out.old ++ status_line_if number (option_copied status.entry) name.now) }
{
    match status {
        None => Ok(()),
        Some(status) => put_status_line(alloc, out, number, status, name),
    }
}

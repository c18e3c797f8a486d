//! The lines of an audit.

ghost use Rattle.std.specs.Prelude.{◌≡◌, ◌<◌, ◌+◌, ◌++◌, ◌∷◌, [], ◌&&◌, IfOk, None, OnOk, Some, true};
ghost use Rattle.std.specs.Fmt.{decimal};
ghost use Rattle.std.specs.Option.{option_copied};
ghost use Rattle.mta_audit_run.specs.Lines.{agree_text, both_lines, completed_text, counts_text, lane_lines, lane_text};
ghost use Rattle.mta_audit_run.specs.Lines.{line, lines_from, not_covered_text, sent_text, spool_text};
ghost use Rattle.mta_audit_run.specs.Lines.{verdict_text, way_in, way_out};
ghost use Rattle.mta_audit_run.specs.Partners.{in_half, out_half, partners};
ghost use Rattle.mta_audit_run.specs.Texts.{Puts};

use crate::account::Account;
use crate::half::{Half, in_half, out_half};
use crate::partners::{is_covered, is_to};
use crate::stop::Spool;
use crate::verdict::{Verdict, agrees, verdict_of};
use itoa::Buffer;
use mta_ber::{Memory, Octets, Word};
use std::alloc::Global;

/// Puts a number in decimal digits.
pub fn put_number(text: &mut Octets, number: u64) -> Result<(), Memory>
    ensures { OnOk result (text.new ≡ text.old ++ decimal number) }
{
    let mut buffer = Buffer::new();
    text.extend(buffer.format(number).as_bytes())
}

/// The word of a spool.
pub fn spool_text(spool: Spool) -> &'static [u8]
    ensures { result.now ≡ spool_text spool }
{
    match spool {
        Spool::First => b"first",
        Spool::Second => b"second",
    }
}

// Puts the number of a lane.
#[tactic(auto, unfolding(crate::specs::Lines::lane_text))]
fn put_lane_number(text: &mut Octets, number: u64) -> Result<(), Memory>
    ensures { OnOk result (text.new ≡ text.old ++ lane_text number) }
{
    text.extend(b" lane ")?;
    put_number(text, number)
}

// Puts how many activities were sent.
#[tactic(auto, unfolding(crate::specs::Lines::sent_text))]
fn put_sent(text: &mut Octets, count: u64) -> Result<(), Memory>
    ensures { OnOk result (text.new ≡ text.old ++ sent_text count) }
{
    text.extend(b"sent ")?;
    put_number(text, count)
}

// Puts how many activities were completed.
#[tactic(auto, unfolding(crate::specs::Lines::completed_text))]
fn put_completed(text: &mut Octets, count: u64) -> Result<(), Memory>
    ensures { OnOk result (text.new ≡ text.old ++ completed_text count) }
{
    text.extend(b" completed ")?;
    put_number(text, count)
}

// Puts that they agree.
#[tactic(auto, unfolding(crate::specs::Lines::agree_text))]
fn put_agree(text: &mut Octets) -> Result<(), Memory>
    ensures { OnOk result (text.new ≡ text.old ++ agree_text) }
{
    text.extend(b" agree\n")
}

// Puts how many activities were sent and completed, where they agree.
fn put_counts(text: &mut Octets, sent: u64, completed: u64) -> Result<(), Memory>
    ensures { OnOk result (text.new ≡ text.old ++ counts_text sent completed) }
{
    put_sent(text, sent)?;
    put_completed(text, completed)?;
    put_agree(text)
}

// Puts what is said of a half.
fn put_verdict(text: &mut Octets, half: &Half, verdict: Verdict) -> Result<(), Memory>
    ensures { OnOk result (text.new ≡ text.old ++ verdict_text half.now verdict) }
{
    match verdict {
        Verdict::Agrees => { put_counts(text, half.sent.len() as u64, half.completed.len() as u64) }
        Verdict::Differs { at } => {
            text.extend(b"differs at ")?;
            put_number(text, at)?;
            text.extend(b"\n")
        }
    }
}

// Puts what is said of a half that is not covered.
#[tactic(auto, unfolding(crate::specs::Lines::not_covered_text))]
fn put_not_covered(text: &mut Octets) -> Result<(), Memory>
    ensures { OnOk result (text.new ≡ text.old ++ not_covered_text) }
{
    text.extend(b"not covered\n")
}

// Puts the line of a half, and answers whether it agrees.
fn put_line(
    text: &mut Octets,
    spool: Spool,
    lane: u32,
    way: &[u8],
    half: &Half,
) -> Result<bool, Memory>
    ensures { IfOk result (Puts (line spool lane way.now (Some half.now) ∷ []) text.old text.new) }
{
    let verdict = verdict_of(half);
    text.extend(spool_text(spool))?;
    put_lane_number(text, lane as u64)?;
    text.extend(way)?;
    put_verdict(text, half, verdict)?;
    Ok(agrees(verdict))
}

// Puts the line of a half that is not covered.
fn put_left_out(text: &mut Octets, spool: Spool, lane: u32, way: &[u8]) -> Result<(), Memory>
    ensures { OnOk result (Puts (line spool lane way.now None ∷ []) text.old text.new true) }
{
    text.extend(spool_text(spool))?;
    put_lane_number(text, lane as u64)?;
    text.extend(way)?;
    put_not_covered(text)
}

/// Whether both hold.
pub fn both(one: bool, other: bool) -> bool
    ensures { result ≡ (one && other) }
{
    one && other
}

// Puts the lines of a lane that is covered, and answers whether both halves agree.
fn put_halves(
    alloc: Global,
    text: &mut Octets,
    spool: Spool,
    own: Option<&Word>,
    account: &Account,
    others: &[Account],
) -> Result<bool, Memory>
    ensures { let ends = partners (option_copied own.entry) account.now.reference others.now in
        IfOk result (Puts (line spool account.now.number way_out (Some (out_half account.now ends))
        ∷ line spool account.now.number way_in (Some (in_half account.now ends)) ∷ []) text.old text.new) }
{
    let out = out_half(alloc, account, own, others)?;
    let out_agrees = put_line(text, spool, account.number, b" out ", &out)?;
    let back = in_half(alloc, account, own, others)?;
    let back_agrees = put_line(text, spool, account.number, b" in ", &back)?;
    Ok(both(out_agrees, back_agrees))
}

// Puts the lines of a lane that is not covered.
fn put_both_left_out(text: &mut Octets, spool: Spool, lane: u32) -> Result<(), Memory>
    ensures { OnOk result (Puts (line spool lane way_out None ∷ line spool lane way_in None ∷ []) text.old text.new
        true) }
{
    put_left_out(text, spool, lane, b" out ")?;
    put_left_out(text, spool, lane, b" in ")
}

// Puts the lines of an initiator's lane to the other spool's agent, and answers whether they agree, where it is
// covered.
fn put_pair(
    alloc: Global,
    text: &mut Octets,
    spool: Spool,
    own: Option<&Word>,
    begun: bool,
    account: &Account,
    others: &[Account],
) -> Result<bool, Memory>
    ensures { let ends = partners (option_copied own.entry) account.now.reference others.now in
        IfOk result (Puts (both_lines spool begun account.now ends) text.old text.new) }
{
    if is_covered(begun, account, own, others) {
        return put_halves(alloc, text, spool, own, account, others);
    }
    put_both_left_out(text, spool, account.number)?;
    Ok(true)
}

// Puts the lines of a lane, where it is an initiator's to the other spool's agent, and answers whether they agree.
fn put_lane(
    alloc: Global,
    text: &mut Octets,
    spool: Spool,
    own: Option<&Word>,
    other: Option<&Word>,
    begun: bool,
    account: &Account,
    others: &[Account],
) -> Result<bool, Memory>
    ensures { IfOk result (Puts (lane_lines spool (option_copied own.entry) (option_copied other.entry) begun others.now
        account.now) text.old text.new) }
{
    if !is_to(other, account) {
        return Ok(true);
    }
    put_pair(alloc, text, spool, own, begun, account, others)
}

/// Puts the lines of the lanes of a spool that are an initiator's to the other spool's agent, and answers whether all
/// agree that are covered. The other spool's history begins with a snapshot or not.
pub fn put_lanes(
    alloc: Global,
    text: &mut Octets,
    spool: Spool,
    own: Option<&Word>,
    other: Option<&Word>,
    begun: bool,
    accounts: &[Account],
    others: &[Account],
) -> Result<bool, Memory>
    ensures { IfOk result (Puts (lines_from spool (option_copied own.entry) (option_copied other.entry) begun others.now
        accounts.now) text.old text.new) }
{
    let mut all = true;
    for account in accounts {
        let agree = put_lane(alloc, text, spool, own, other, begun, account, others)?;
        all = both(all, agree);
    }
    Ok(all)
}

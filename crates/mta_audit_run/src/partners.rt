//! The lanes of the other spool that are the other end of a lane.

ghost use Rattle.std.specs.Prelude.{◌≡◌, ◌++◌, ◌∷◌, [], ◌&&◌, not, IfOk, OnOk};
ghost use Rattle.std.specs.List.{flat_map, list_any};
ghost use Rattle.std.specs.Option.{option_copied};
ghost use Rattle.mta_audit_run.specs.Partners.{is_begun_end, is_covered, is_initiator, is_partner, is_responder};
ghost use Rattle.mta_audit_run.specs.Partners.{is_to, is_with};
ghost use Rattle.mta_audit_run.specs.Partners.{part_of, partners, same_reference};

use crate::account::Account;
use crate::activity::Activity;
use mta_ber::{Memory, Word};
use mta_names::Row;
use mta_records::{LaneRole, Reference};
use std::alloc::Global;

/// Activities of a lane.
#[derive(Clone, Copy)]
pub enum Part {
    Sent,
    Completed,
    Ending,
}

// The activities of a lane.
fn part_of(part: Part, account: &Account) -> &[Activity]
    ensures { result.now ≡ part_of part account.now }
{
    match part {
        Part::Sent => account.sent.as_slice(),
        Part::Completed => account.completed.as_slice(),
        Part::Ending => account.ending.as_slice(),
    }
}

fn same_reference(one: &Reference, other: &Reference) -> bool
    ensures { result ≡ same_reference one.now other.now }
{
    one.same(other)
}

// Whether the lane is with the agent of this name.
fn is_with(name: Option<&Word>, account: &Account) -> bool
    ensures { result ≡ is_with (option_copied name.entry) account.now }
{
    match name {
        Some(name) => name.as_slice() == account.peer.as_slice(),
        None => false,
    }
}

fn is_initiator(role: LaneRole) -> bool
    ensures { result ≡ is_initiator role }
{
    match role {
        LaneRole::Initiator => true,
        LaneRole::Responder => false,
    }
}

fn is_responder(role: LaneRole) -> bool
    ensures { result ≡ is_responder role }
{
    match role {
        LaneRole::Initiator => false,
        LaneRole::Responder => true,
    }
}

/// Whether it is an initiator's lane to the agent of this name.
pub fn is_to(name: Option<&Word>, account: &Account) -> bool
    ensures { result ≡ is_to (option_copied name.entry) account.now }
{
    is_initiator(account.role) && is_with(name, account)
}

// Whether it is a responder's lane from the agent of this name, which both call the same.
fn is_partner(name: Option<&Word>, reference: &Reference, account: &Account) -> bool
    ensures { result ≡ is_partner (option_copied name.entry) reference.now account.now }
{
    is_responder(account.role)
        && same_reference(reference, &account.reference)
        && is_with(name, account)
}

// Whether one is another end of a lane, and stands in a snapshot.
fn is_begun_end(name: Option<&Word>, reference: &Reference, other: &Account) -> bool
    ensures { result ≡ is_begun_end (option_copied name.entry) reference.now other.now }
{
    other.in_snapshot && is_partner(name, reference, other)
}

// Whether a lane has another end.
fn has_end(name: Option<&Word>, reference: &Reference, others: &[Account]) -> bool
    ensures { result ≡ list_any (is_partner (option_copied name.entry) reference.now) others.now }
{
    others
        .iter()
        .any(|other| is_partner(name, reference, other))
}

// Whether a lane has another end that stands in a snapshot.
fn has_begun_end(name: Option<&Word>, reference: &Reference, others: &[Account]) -> bool
    ensures { result ≡ list_any (is_begun_end (option_copied name.entry) reference.now) others.now }
{
    others
        .iter()
        .any(|other| is_begun_end(name, reference, other))
}

// Whether a lane is covered that stands in a snapshot or not, where another end of it does or not, and it has another
// end or not.
fn is_covered_by(begun: bool, in_snapshot: bool, begun_end: bool, some_end: bool) -> bool
    ensures { result ≡ (not in_snapshot && (not begun_end && not (begun && not some_end))) }
{
    !in_snapshot && !begun_end && !(begun && !some_end)
}

/// Whether a lane is covered, where the other spool has these lanes, and its history begins with a snapshot or not.
pub fn is_covered(begun: bool, account: &Account, own: Option<&Word>, others: &[Account]) -> bool
    ensures { result ≡ is_covered begun account.now
        (partners (option_copied own.entry) account.now.reference others.now) }
{
    let begun_end = has_begun_end(own, &account.reference, others);
    let some_end = has_end(own, &account.reference, others);
    is_covered_by(begun, account.in_snapshot, begun_end, some_end)
}

/// Shares activities behind others.
pub fn share_all(into: &mut Row<Activity>, activities: &[Activity]) -> Result<(), Memory>
    ensures { OnOk result (into.new ≡ into.old ++ activities.now) }
{
    for activity in activities {
        into.push(activity.share()?)?;
    }
    Ok(())
}

// Shares the activities of a lane behind others, where it is the other end.
fn gather_one(
    row: &mut Row<Activity>,
    name: Option<&Word>,
    reference: &Reference,
    other: &Account,
    part: Part,
) -> Result<(), Memory>
    ensures { OnOk result (row.new
        ≡ row.old ++ flat_map (part_of part) (partners (option_copied name.entry) reference.now (other.now ∷ []))) }
{
    if is_partner(name, reference, other) {
        share_all(row, part_of(part, other))?;
    }
    Ok(())
}

/// The activities of the lanes that are the other end of one, in order.
pub fn gather(
    alloc: Global,
    name: Option<&Word>,
    reference: &Reference,
    others: &[Account],
    part: Part,
) -> Result<Row<Activity>, Memory>
    ensures { IfOk result (λ r. r
        ≡ flat_map (part_of part) (partners (option_copied name.entry) reference.now others.now)) }
{
    let mut row = Row::new(alloc);
    for other in others {
        gather_one(&mut row, name, reference, other, part)?;
    }
    Ok(row)
}

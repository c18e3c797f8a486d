//! What the history of a spool tells of its lanes.

ghost use Rattle.std.specs.Prelude.{◌≡◌, ◌++◌, ◌∷◌, [], IfOk, OnOk, Some};
ghost use Rattle.std.specs.Option.{option_copied};
ghost use Rattle.mta_lanes.specs.Finds.{lanes_of};
ghost use Rattle.mta_audit_run.specs.Account.{AreAscending, accounts_begun, changed, with_completed};
ghost use Rattle.mta_audit_run.specs.Account.{with_ending, with_sent};
ghost use Rattle.mta_audit_run.specs.Accounts.{ending_in, noted, with_endings};
ghost use Rattle.mta_audit_run.specs.Last.{last_octets};
ghost use Rattle.mta_audit_run.specs.Places.{IsPlaceOf};

use crate::account::Account;
use crate::activity::Activity;
use crate::told::{Told, transferred_on};
use mta_ber::{Memory, Octets};
use mta_lane_send::SendState;
use mta_lanes::{Lane, Lanes};
use mta_machine::Item;
use std::alloc::Global;

// Where the account of the lane of this number stands. It is searched for by halves.
fn place_of(accounts: &[Account], lane: u32) -> Option<usize>
    requires { AreAscending accounts.now }
    ensures { IsPlaceOf lane accounts.now result }
{
    accounts
        .binary_search_by_key(&lane, |account| account.number)
        .ok()
}

// An activity more was sent on the lane of this number.
fn add_sent(accounts: &mut Vec<Account>, lane: u32, activity: Activity) -> Result<(), Memory>
    requires { AreAscending accounts.old.items }
    ensures { OnOk result (accounts.new.items ≡ changed (with_sent activity) lane accounts.old.items) }
{
    match place_of(accounts.as_slice(), lane) {
        Some(place) => {
            accounts[place].add_sent(activity)?;
            Ok(())
        }
        None => Ok(()),
    }
}

// An activity more was completed on the lane of this number.
fn add_completed(accounts: &mut Vec<Account>, lane: u32, activity: Activity) -> Result<(), Memory>
    requires { AreAscending accounts.old.items }
    ensures { OnOk result (accounts.new.items ≡ changed (with_completed activity) lane accounts.old.items) }
{
    match place_of(accounts.as_slice(), lane) {
        Some(place) => {
            accounts[place].add_completed(activity)?;
            Ok(())
        }
        None => Ok(()),
    }
}

// The activity of the lane of this number is in Ending.
fn add_ending(accounts: &mut Vec<Account>, lane: u32, activity: Activity) -> Result<(), Memory>
    requires { AreAscending accounts.old.items }
    ensures { OnOk result (accounts.new.items ≡ changed (with_ending activity) lane accounts.old.items) }
{
    match place_of(accounts.as_slice(), lane) {
        Some(place) => {
            accounts[place].add_ending(activity)?;
            Ok(())
        }
        None => Ok(()),
    }
}

// The octets of the last item; none where there is no item.
fn last_octets(alloc: Global, items: &[Item]) -> Result<Activity, Memory>
    ensures { IfOk result (λ a. a ≡ last_octets items.now) }
{
    match items.last() {
        Some(item) => Activity::of_item(item),
        None => Activity::new(alloc, Octets::new(alloc)),
    }
}

// The lanes that stand in a snapshot.
fn accounts_begun(alloc: Global, open_lanes: &[Lane]) -> Result<Vec<Account>, Memory>
    ensures { IfOk result (λ known. known.items ≡ accounts_begun open_lanes.now) }
{
    let mut accounts = Vec::new(alloc);
    for lane in open_lanes {
        accounts.push(Account::begun(alloc, lane)?)?;
    }
    Ok(accounts)
}

/// Notes what a step told, of which these are the items and the lanes then.
pub fn note(
    alloc: Global,
    accounts: &mut Vec<Account>,
    told: Told,
    items: &[Item],
    lanes: &Lanes,
) -> Result<(), Memory>
    requires { AreAscending accounts.old.items }
    ensures { OnOk result (accounts.new.items
        ≡ noted told (last_octets items.now) (lanes_of lanes.now) accounts.old.items) }
{
    match told {
        Told::Nothing => Ok(()),
        Told::Begun => {
            *accounts = accounts_begun(alloc, lanes.open_lanes.as_slice())?;
            Ok(())
        }
        Told::Opened {
            role,
            peer,
            reference,
        } => {
            let number = lanes.count;
            let account = Account::new(alloc, false, number, role, peer, reference);
            accounts.push(account)?;
            Ok(())
        }
        Told::Sent { lane, activity } => add_sent(accounts, lane, activity),
        Told::Completed { lane } => {
            let activity = last_octets(alloc, items)?;
            add_completed(accounts, lane, activity)
        }
    }
}

// Notes the activity of an open lane, where it is in Ending.
fn note_ending(alloc: Global, accounts: &mut Vec<Account>, lane: &Lane) -> Result<(), Memory>
    requires { AreAscending accounts.old.items }
    ensures { OnOk result (accounts.new.items ≡ ending_in lane.now lane.now.sending accounts.old.items) }
{
    match lane.sending() {
        SendState::Idle { .. } => Ok(()),
        SendState::Sending { .. } => Ok(()),
        SendState::Ending { .. } => {
            let activity = transferred_on(alloc, Some(lane))?;
            add_ending(accounts, lane.number(), activity)
        }
        SendState::Dropping { .. } => Ok(()),
    }
}

/// Notes the activities of open lanes that are in Ending.
pub fn note_endings(
    alloc: Global,
    accounts: &mut Vec<Account>,
    open_lanes: &[Lane],
) -> Result<(), Memory>
    requires { AreAscending accounts.old.items }
    ensures { OnOk result (accounts.new.items ≡ with_endings open_lanes.now accounts.old.items) }
{
    for lane in open_lanes {
        note_ending(alloc, accounts, lane)?;
    }
    Ok(())
}

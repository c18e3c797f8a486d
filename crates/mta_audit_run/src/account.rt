//! What the history of a spool tells of one lane.

ghost use Rattle.std.specs.Prelude.{◌≡◌, ◌++◌, ◌∷◌, [], IfOk, OnOk};
ghost use Rattle.mta_audit_run.specs.Account.{account_begun, new_account, with_sent, with_completed, with_ending};

use crate::activity::Activity;
use mta_ber::{Memory, Word};
use mta_lanes::Lane;
use mta_names::Row;
use mta_records::{LaneRole, Reference};
use std::alloc::Global;

/// A lane: whether it stands in the snapshot with which the history begins, its number, by what name it was opened, the
/// octets of the activities that were sent on it, of those that were completed on it, each in their order, and of the
/// one that is in Ending, where one is. Of a lane that stands in a snapshot these are what came behind that.
pub struct Account {
    pub in_snapshot: bool,
    pub number: u32,
    pub role: LaneRole,
    pub peer: Word,
    pub reference: Reference,
    pub sent: Row<Activity>,
    pub completed: Row<Activity>,
    pub ending: Row<Activity>,
}

// Written out, since a derived one is opened anew, field by field, at each place where a value is let go.
impl Drop for Account {
    fn drop(self) {
        let Account {
            in_snapshot: _,
            number: _,
            role: _,
            peer: _,
            reference: _,
            sent: _,
            completed: _,
            ending: _,
        } = self;
    }
}

impl Account {
    /// A lane of this number, of which no activity is told yet. It takes no memory.
    pub fn new(
        alloc: Global,
        in_snapshot: bool,
        number: u32,
        role: LaneRole,
        peer: Word,
        reference: Reference,
    ) -> Account
        ensures { result ≡ new_account in_snapshot number role peer reference }
    {
        Account {
            in_snapshot,
            number,
            role,
            peer,
            reference,
            sent: Row::new(alloc),
            completed: Row::new(alloc),
            ending: Row::new(alloc),
        }
    }

    /// A lane that stands in a snapshot.
    pub fn begun(alloc: Global, lane: &Lane) -> Result<Account, Memory>
        ensures { IfOk result (λ a. a ≡ account_begun lane.now) }
    {
        let peer = lane.peer().share()?;
        let reference = lane.reference().copy(alloc)?;
        Ok(Account::new(alloc, true, lane.number(), lane.role(), peer, reference))
    }

    /// One activity more was sent.
    pub fn add_sent(&mut self, activity: Activity) -> Result<(), Memory>
        ensures { OnOk result (self.new ≡ with_sent activity self.old) }
    {
        self.sent.push(activity)
    }

    /// One activity more was completed.
    pub fn add_completed(&mut self, activity: Activity) -> Result<(), Memory>
        ensures { OnOk result (self.new ≡ with_completed activity self.old) }
    {
        self.completed.push(activity)
    }

    /// An activity is in Ending.
    pub fn add_ending(&mut self, activity: Activity) -> Result<(), Memory>
        ensures { OnOk result (self.new ≡ with_ending activity self.old) }
    {
        self.ending.push(activity)
    }
}

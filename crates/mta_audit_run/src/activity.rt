//! The octets of an activity.

ghost use Rattle.std.specs.Prelude.{◌≡◌, ◌≤◌, ◌++◌, IfOk, length};
ghost use Rattle.std.specs.Str.{bytes_eq};

use crate::held::Held;
use mta_ber::{Memory, Octets};
use mta_lanes::Transfer;
use mta_machine::Item;
use std::alloc::Global;
use std::marker::Model;
use std::sync::Arc;

/// The octets of an activity, which contracts see as their list. What stands in an item is the item's own, and not
/// copied.
pub struct Activity {
    held: Held,
}

// Written out, since a derived one is opened anew, field by field, at each place where a value is let go.
impl Drop for Activity {
    fn drop(self) {
        let Activity { held: _ } = self;
    }
}

impl Model for Activity {
    ghost use Rattle.std.specs.Prelude.{List, ℕ};
    ghost use Rattle.mta_audit_run.specs.Held.{octets_of};

    ghost Value = { List ℕ };

    ghost view = { λ a. octets_of a.held };
}

// Whether octets are those of two pieces, one behind the other.
fn is_both(whole: &[u8], first: &[u8], second: &[u8]) -> bool
    ensures { result ≡ bytes_eq whole.now (first.now ++ second.now) }
{
    if whole.len() < first.len() {
        return false;
    }
    let (front, rest) = whole.split_at(first.len());
    front == first && rest == second
}

// Whether two pieces, one behind the other, have the octets of two others, of which the first is no shorter.
fn same_pieces(head: &[u8], rest: &[u8], longer: &[u8], behind: &[u8]) -> bool
    requires { length head.now ≤ length longer.now }
    ensures { result ≡ bytes_eq (head.now ++ rest.now) (longer.now ++ behind.now) }
{
    let (front, more) = longer.split_at(head.len());
    head == front && is_both(rest, more, behind)
}

impl Activity {
    /// These octets.
    pub fn new(alloc: Global, octets: Octets) -> Result<Activity, Memory>
        ensures { IfOk result (λ a. a ≡ octets) }
    {
        let octets = Arc::new(alloc, octets)?;
        Ok(Activity {
            held: Held::Whole(octets),
        })
    }

    /// Those that are transferred, of which it shares what is an item's.
    pub fn of_transfer(alloc: Global, transfer: &Transfer) -> Result<Activity, Memory>
        ensures { IfOk result (λ a. a ≡ transfer.now.octets) }
    {
        let outgoing = transfer.share(alloc, 0)?;
        let outgoing = Arc::new(alloc, outgoing)?;
        Ok(Activity {
            held: Held::Carried(outgoing),
        })
    }

    /// Those of an item, which it shares.
    pub fn of_item(item: &Item) -> Result<Activity, Memory>
        ensures { IfOk result (λ a. a ≡ item.now.octets) }
    {
        let octets = item.shared()?;
        Ok(Activity {
            held: Held::Whole(octets),
        })
    }

    /// The same octets, shared.
    pub fn share(&self) -> Result<Activity, Memory>
        ensures { IfOk result (λ a. a ≡ self.now) }
    {
        match &self.held {
            Held::Whole(octets) => {
                let octets = Arc::try_clone(octets)?;
                Ok(Activity {
                    held: Held::Whole(octets),
                })
            }
            Held::Carried(outgoing) => {
                let outgoing = Arc::try_clone(outgoing)?;
                Ok(Activity {
                    held: Held::Carried(outgoing),
                })
            }
        }
    }

    // The octets, lent as two slices of which the second follows the first.
    fn pieces(&self) -> (&[u8], &[u8])
        ensures { result.0.now ++ result.1.now ≡ self.now }
    {
        match &self.held {
            Held::Whole(octets) => (octets.as_slice(), &[]),
            Held::Carried(outgoing) => outgoing.cut(0, outgoing.total()),
        }
    }

    /// Whether both have the same octets.
    pub fn same(&self, other: &Activity) -> bool
        ensures { result ≡ bytes_eq self.now other.now }
    {
        let (head, rest) = self.pieces();
        let (longer, behind) = other.pieces();
        if head.len() <= longer.len() {
            same_pieces(head, rest, longer, behind)
        } else {
            same_pieces(longer, behind, head, rest)
        }
    }
}

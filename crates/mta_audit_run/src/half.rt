//! One half of a lane at its two ends.

ghost use Rattle.std.specs.Prelude.{◌≡◌, IfOk};
ghost use Rattle.std.specs.Option.{option_copied};
ghost use Rattle.mta_audit_run.specs.Partners.{in_half, out_half, partners};

use crate::account::Account;
use crate::activity::Activity;
use crate::partners::{Part, gather, share_all};
use mta_ber::{Memory, Word};
use mta_names::Row;
use std::alloc::Global;

/// One half of a lane: the octets of what its sender settled as sent and of what is in Ending there, and of what its
/// receiver completed.
pub struct Half {
    pub sent: Row<Activity>,
    pub ending: Row<Activity>,
    pub completed: Row<Activity>,
}

// Written out, since a derived one is opened anew, field by field, at each place where a value is let go.
impl Drop for Half {
    fn drop(self) {
        let Half {
            sent: _,
            ending: _,
            completed: _,
        } = self;
    }
}

fn shared(alloc: Global, activities: &[Activity]) -> Result<Row<Activity>, Memory>
    ensures { IfOk result (λ r. r ≡ activities.now) }
{
    let mut row = Row::new(alloc);
    share_all(&mut row, activities)?;
    Ok(row)
}

/// What the initiator of a lane sends, with what was completed at its other end.
pub fn out_half(
    alloc: Global,
    account: &Account,
    own: Option<&Word>,
    others: &[Account],
) -> Result<Half, Memory>
    ensures { IfOk result (λ h. h ≡ out_half account.now
        (partners (option_copied own.entry) account.now.reference others.now)) }
{
    let sent = shared(alloc, account.sent.as_slice())?;
    let ending = shared(alloc, account.ending.as_slice())?;
    let completed = gather(alloc, own, &account.reference, others, Part::Completed)?;
    Ok(Half {
        sent,
        ending,
        completed,
    })
}

/// What the responder of a lane sends, with what was completed at its initiator.
pub fn in_half(
    alloc: Global,
    account: &Account,
    own: Option<&Word>,
    others: &[Account],
) -> Result<Half, Memory>
    ensures { IfOk result (λ h. h ≡ in_half account.now
        (partners (option_copied own.entry) account.now.reference others.now)) }
{
    let sent = gather(alloc, own, &account.reference, others, Part::Sent)?;
    let ending = gather(alloc, own, &account.reference, others, Part::Ending)?;
    let completed = shared(alloc, account.completed.as_slice())?;
    Ok(Half {
        sent,
        ending,
        completed,
    })
}

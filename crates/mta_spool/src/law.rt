//! A law of the spool, as the contract of a function that does nothing.

ghost use Rattle.mta_spool.specs.Order.{FirstCauseIsTold};

use mta_edge::Disk;

/// Of the causes for which a step is refused the first in the order is told: an earlier step answered that the disk
/// failed, the refusals for a lane, too few numbers, no room in the journal. In place of each but the first and the
/// want of numbers want of memory may be told.
pub fn first_cause_is_told<D: Disk>()
    ensures { FirstCauseIsTold D.model }
{}

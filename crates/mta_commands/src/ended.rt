//! How a command ended.

ghost use Rattle.std.specs.Prelude.{◌≡◌, Err};
ghost use Rattle.mta_commands.specs.Shows.{stop_of_open};

use crate::stop::{Stop, stop_of_open};
use mta_edge::{Clock, Disk};
use mta_spool::SpoolOpen;

/// What a command left: the disk, and why it stopped where it did.
#[derive(Drop)]
pub struct Ended<D: Drop> {
    pub disk: D,
    pub outcome: Result<(), Stop>,
}

/// A disk that was not opened.
pub fn refused<D: Disk + Drop, C: Clock + Drop>(refused: SpoolOpen<D, C>) -> Ended<D>
    ensures { (result.disk ≡ refused.disk) × (result.outcome ≡ Err (stop_of_open refused.why)) }
{
    let SpoolOpen { disk, why, .. } = refused;
    Ended {
        disk,
        outcome: Err(stop_of_open(why)),
    }
}

//! The law over the definitions.

ghost use Rattle.mta_worker_step_laws.specs.Steps.{StepsAreTimed};

use mta_edge::{Clock, Disk};
use mta_links::{Link, Station};

/// Each entry that workers made settles a recipient, opens a lane or is a step on one. The moment that it carries is
/// one that the clock tells, capped, and never below the last moment before it.
pub fn steps_are_timed<D: Disk + Drop, C: Clock + Drop, L: Link, S: Station>()
    ensures { StepsAreTimed D.model C.model L.model S.model }
{}

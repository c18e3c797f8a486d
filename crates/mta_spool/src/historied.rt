//! A spool under a lock: its entries are the steps that were made since it was opened.

use crate::spool::Spool;
use mta_edge::{Clock, Disk};
use mta_records::Step;
use mta_shared::Historied;

impl<D: Disk + Drop, C: Clock + Drop> Historied for Spool<D, C> {
    type Entry = Step;

    ghost use Rattle.mta_spool.specs.Bases.{base_of, Keeps};

    ghost first = { λ _. 0 };

    ghost entries = { λ s. s.entries };

    ghost base = { base_of D.model C.model };

    ghost meets = { Keeps D.model C.model };
}

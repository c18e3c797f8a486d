//! Units that are put over a link.

ghost use Rattle.std.specs.Prelude.{◌≡◌, ◌≤◌, ◌++◌, true, false, OnOk, OnErr, IfOk};
ghost use Rattle.mta_edge.specs.Causes.{HasCause, Rose};
ghost use Rattle.mta_links.specs.Links.{Leads};
ghost use Rattle.mta_units.specs.Canon.{IsWritable, unit_octets};
ghost use Rattle.mta_session_run.specs.Carried.{PutsAll, PutsFront};

use mta_ber::Memory;
use mta_edge::Failed;
use mta_links::Link;
use mta_units::{Unit, write_unit};
use std::alloc::Global;

/// Puts all of the octets, or a front of them where the link fails.
fn put_all<L: Link>(link: &mut L, bytes: &[u8]) -> Result<(), Failed>
    ensures whole { OnOk result (Leads (PutsAll bytes.now) (L.model.talk link.old) (L.model.talk link.new)) }
    ensures front { OnErr result (PutsFront bytes.now (L.model.talk link.old) (L.model.talk link.new)) }
    ensures cause { HasCause (L.model.faults link.old) (L.model.faults link.new) result }
{
    let mut rest = bytes;
    while !rest.is_empty() {
        let count = link.put(rest)?;
        let (_, after) = rest.split_at(count);
        rest = after;
    }
    Ok(())
}

/// Puts the canonical octets of the unit, and whether all of them were taken. A front of them is, where the link fails.
/// After want of memory nothing was put.
pub fn put_unit<L: Link>(alloc: Global, link: &mut L, unit: &Unit) -> Result<bool, Memory>
    requires { IsWritable unit.now }
    ensures whole { IfOk result (λ b. b ≡ true →
        Leads (PutsAll (unit_octets unit.now)) (L.model.talk link.old) (L.model.talk link.new)) }
    ensures front { IfOk result (λ b. b ≡ false →
        PutsFront (unit_octets unit.now) (L.model.talk link.old) (L.model.talk link.new)
        × Rose (L.model.faults link.old) (L.model.faults link.new)) }
    ensures none { OnErr result (L.model.talk link.new ≡ L.model.talk link.old) }
    ensures later { L.model.faults link.old ≤ L.model.faults link.new }
{
    let octets = write_unit(alloc, unit)?;
    Ok(put_all(link, octets.as_slice()).is_ok())
}

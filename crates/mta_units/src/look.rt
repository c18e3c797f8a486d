//! The unit at the front of a stream.

ghost use Rattle.std.specs.Prelude.{◌≡◌, false, IfOk, IsOk};
ghost use Rattle.mta_units.specs.Front.{front, may_take_memory};
ghost use Rattle.mta_units.specs.Look.{look, IsLook};

use crate::body::read_body;
use crate::front::{BadUnit, Front, front_of};
use crate::unit::Unit;
use mta_ber::{Memory, ReadFault};
use std::alloc::Global;

/// What is seen at the front: too few octets for a whole unit and no fault, a fault, or a unit and how many octets it
/// has.
#[derive(Drop)]
pub enum Look {
    Cut,
    Faulty(BadUnit),
    Read(Unit, usize),
}

/// Looks at the front of octets. Memory is taken by none but units of no fixed size.
#[tactic(auto, unfolding(crate::specs::Look::look))]
pub fn look_at(alloc: Global, octets: &[u8]) -> Result<Look, Memory>
    ensures exact { IfOk result (IsLook octets.now) }
    ensures memory { may_take_memory (front octets.now) ≡ false → IsOk result }
{
    match front_of(octets) {
        Front::Cut => Ok(Look::Cut),
        Front::Faulty(kind) => Ok(Look::Faulty(kind)),
        Front::Whole { kind, body, rest } => match read_body(alloc, kind, body) {
            Ok(unit) => Ok(Look::Read(unit, octets.len() - rest.len())),
            Err(ReadFault::Bad(_)) => Ok(Look::Faulty(BadUnit::Body)),
            Err(ReadFault::Memory) => Err(Memory),
        },
    }
}

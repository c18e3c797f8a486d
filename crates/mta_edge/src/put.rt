//! Putting a text whole: a sink may take a piece of it at a call.
//!
//! In come octets from whoever prints; out goes Ok with all of them taken, or that the sink failed with
//! a front of them taken.

ghost use Rattle.std.specs.Prelude.{◌≡◌, ◌++◌, OnOk, OnErr};
ghost use Rattle.mta_edge.specs.Causes.{HasCause};
ghost use Rattle.mta_edge.specs.Outside.{Goes};
ghost use Rattle.mta_edge.specs.Streams.{TakesFront};

use crate::outside::{Failed, Sink};

/// Puts all of the piece, or a front of it where the sink fails.
pub fn put_all<O: Sink>(out: &mut O, bytes: &[u8]) -> Result<(), Failed>
    ensures whole { OnOk result (Goes (λ f g. g ≡ f ++ bytes.now) (O.model.taken out.old) (O.model.taken out.new)) }
    ensures front { OnErr result (Goes (TakesFront bytes.now) (O.model.taken out.old) (O.model.taken out.new)) }
    ensures cause { HasCause (O.model.faults out.old) (O.model.faults out.new) result }
{
    let mut rest = bytes;
    while !rest.is_empty() {
        let count = out.put(rest)?;
        let (_, after) = rest.split_at(count);
        rest = after;
    }
    Ok(())
}

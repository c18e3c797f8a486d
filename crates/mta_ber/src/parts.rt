//! The components of a SET or a SEQUENCE, one after the other.

ghost use Rattle.std.specs.Prelude.{◌≡◌, ◌+◌, length, Result, IsTrue};
ghost use Rattle.mta_ber.specs.declared.fault.Fault.{Fault};
ghost use Rattle.mta_ber.specs.Element.{Part};
ghost use Rattle.mta_ber.specs.Parts.{parts_of, Leaves};
ghost use Rattle.mta_ber.specs.Seen.{view};

use crate::fault::ReadFault;
use crate::view::View;
use std::alloc::Global;

/// What a reader of a SET or a SEQUENCE (X.690, 8.9 to 8.12) has so far: a struct with one `Option` a component.
/// `take_parts` is the loop over the components, written and proved once; a type of its own says only what one
/// component does. `src/example.rt` of `mta_ber_tests` shows a type of three components from its definition to its
/// proof, as the pattern to copy.
pub trait Components {
    /// What the next component makes of it, or the fault there.
    ghost step: { Self → Part → Result Self Fault };

    /// Takes the next component: finds which one it is by its tag, refuses one that stands twice, out of order or is
    /// not expected here, and reads it.
    fn take(&mut self, alloc: Global, part: &View) -> Result<(), ReadFault>
        ensures { Leaves result self.new (step self.old (view part.now)) };
}

/// Takes the components of a constructed content in the order of their octets.
pub fn take_parts<C: Components>(
    alloc: Global,
    whole: &View,
    state: &mut C,
) -> Result<(), ReadFault>
    requires { IsTrue whole.now.tag.constructed }
    ensures { Leaves result state.new (parts_of C.step state.old (view whole.now)) }
{
    let mut parts = whole.parts();
    'parts: loop {
        match parts.next()? {
            None => return Ok(()),
            Some(part) => state.take(alloc, &part)?,
        }
    }
}

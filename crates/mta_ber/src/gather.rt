//! Strings that may come in segments: the one walk over them.

ghost use Rattle.std.specs.Prelude.{◌≡◌, ◌-◌, ◌&&◌, Bool, false, Result, Err, IsTrue};
ghost use Rattle.mta_ber.specs.declared.fault.Fault.{Fault};
ghost use Rattle.mta_ber.specs.declared.fault.ReadFault.{ReadFault};
ghost use Rattle.mta_ber.specs.declared.fault.ReadFault.TheVariants.{Memory};
ghost use Rattle.mta_ber.specs.Element.{Part};
ghost use Rattle.mta_ber.specs.Parts.{Leaves};
ghost use Rattle.mta_ber.specs.Seen.{view};
ghost use Rattle.mta_ber.specs.Strings.{is_segment, is_empty, gather};

use crate::fault::{Fault, Kind, ReadFault};
use crate::tag::Tag;
use crate::view::View;

/// What is gathered from the primitive pieces of a string.
pub trait Gathers {
    /// What a piece makes of what stands before it; the flag says that no piece may follow it.
    ghost piece: { Bool → Self → Part → Result Self Fault };

    /// Whether taking a piece may want memory.
    ghost takes_memory: { Bool };

    fn take(&mut self, last: bool, part: &View) -> Result<(), ReadFault>
        ensures exact { Leaves result self.new (piece last self.old (view part.now)) }
        ensures memory { result ≡ Err Memory → IsTrue takes_memory };
}

fn is_segment_of(tag: Tag, first: u32, second: u32) -> bool
    ensures { result ≡ is_segment first second tag }
{
    tag.class == 0 && (tag.number == first || tag.number == second)
}

/// Whether no piece may follow this segment of a string.
fn is_last(last: bool, part: &View) -> bool
    ensures { result ≡ (last && is_empty part.now.rest.now) }
{
    match part.rest {
        [] => last,
        [_, ..] => false,
    }
}

/// Takes the primitive pieces of a string in the order of their octets. Segments have the universal tags `first` or
/// `second`.
#[tactic(auto, unfolding(crate::specs::Strings::gather))]
pub fn gather_of<G: Gathers>(
    state: &mut G,
    whole: &View,
    first: u32,
    second: u32,
    last: bool,
) -> Result<(), ReadFault>
    ensures exact { Leaves result state.new
        (gather G.piece (17 - whole.now.depth) first second last state.old (view whole.now)) }
    ensures memory { result ≡ Err Memory → IsTrue G.takes_memory }
{
    if !whole.tag.constructed {
        return state.take(last, whole);
    }
    let mut parts = whole.parts();
    'parts: loop {
        match parts.next()? {
            None => return Ok(()),
            Some(part) => {
                if !is_segment_of(part.tag, first, second) {
                    return Err(ReadFault::Bad(Fault {
                        at: part.at,
                        kind: Kind::BadTag,
                    }));
                }
                let here = is_last(last, &part);
                gather_of(state, &part, first, second, here)?;
            }
        }
    }
}

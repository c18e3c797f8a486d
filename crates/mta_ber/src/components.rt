//! What readers of SETs and SEQUENCEs say of their components.

ghost use Rattle.std.specs.Prelude.{◌≡◌, Err, Ok, Option};
ghost use Rattle.mta_ber.specs.Forms.{is_primitive_tag, is_constructed_tag};
ghost use Rattle.mta_ber.specs.Parts.{Reads, is_tag, once, may_follow, required};

use crate::fault::{Fault, Kind, ReadFault};
use crate::tag::Tag;

/// A fault at an offset.
pub fn bad<T>(at: u32, kind: Kind) -> Result<T, ReadFault>
    ensures { result ≡ Err (ReadFault.Bad (record { at = at; kind = kind })) }
{
    Err(ReadFault::Bad(Fault { at, kind }))
}

/// Whether a tag has this class and number, whatever its form.
pub fn is_tag_of(tag: Tag, class: u8, number: u32) -> bool
    ensures { result ≡ is_tag class number tag }
{
    tag.class == class && tag.number == number
}

/// Whether a tag has this class and number and the primitive form: that of a component whose type has no other.
pub fn is_primitive_tag(tag: Tag, class: u8, number: u32) -> bool
    ensures { result ≡ is_primitive_tag class number tag }
{
    is_tag_of(tag, class, number) && !tag.constructed
}

/// Whether a tag has this class and number and the constructed form: that of a component whose type has no other.
pub fn is_constructed_tag(tag: Tag, class: u8, number: u32) -> bool
    ensures { result ≡ is_constructed_tag class number tag }
{
    is_tag_of(tag, class, number) && tag.constructed
}

/// Whether a component of a SEQUENCE may stand at a place behind the last one that was read (0 where there is none),
/// where `needed` is the place of the last required component before it (0 where there is none). BadTag where not.
pub fn check_order(last: u8, needed: u8, place: u8, at: u32) -> Result<(), ReadFault>
    ensures { Reads result (may_follow last needed place at) }
{
    if last < place && needed <= last {
        Ok(())
    } else {
        bad(at, Kind::BadTag)
    }
}

/// A required component. Missing where it is absent.
pub fn take_required<T: Drop>(component: Option<T>, at: u32) -> Result<T, ReadFault>
    ensures { Reads result (required component at) }
{
    match component {
        None => bad(at, Kind::Missing),
        Some(component) => Ok(component),
    }
}

//! Where a content lies in the input.

ghost use Rattle.std.specs.Prelude.{◌≡◌};
ghost use Rattle.mta_ber.specs.Seen.{view};
ghost use Rattle.mta_envelope.specs.Places.{place_in};

use mta_ber::View;

/// The offsets in the input of the first octet of a content and of the first octet behind it.
#[derive(Clone, Copy)]
pub struct Place {
    pub from: u32,
    pub to: u32,
}

/// The place of the contents octets of an element, where it is primitive.
pub fn place_of(part: &View) -> Option<Place>
    ensures { result ≡ place_in (view part.now) }
{
    if part.tag.constructed {
        None
    } else {
        Some(Place {
            from: part.start,
            to: part.start + part.content.len() as u32,
        })
    }
}

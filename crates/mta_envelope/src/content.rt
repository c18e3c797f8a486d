//! The content of a message.

ghost use Rattle.std.specs.Prelude.{◌≡◌, IfOk};
ghost use Rattle.mta_ber.specs.Seen.{view};
ghost use Rattle.mta_envelope.specs.Contents.{ReadsSeen, content_value, content_in, IsLentFrom};

use mta_ber::{Kind, Octets, ReadFault, View, bad, is_tag_of};
use std::alloc::Global;

/// The octets of a content (X.411, Content): those of the input itself where they stand there in one piece, else the
/// segments joined.
#[derive(Drop)]
pub enum Content<'a> {
    Lent(&'a [u8]),
    Joined(Octets),
}

impl Content<'_> {
    ghost use Rattle.std.specs.Prelude.{◌≡◌};
    ghost use Rattle.mta_envelope.specs.Contents.{octets_of};

    /// The octets, lent.
    pub fn as_slice(&self) -> &[u8]
        ensures { result.now ≡ octets_of self.now }
    {
        match self {
            Content::Lent(octets) => octets,
            Content::Joined(octets) => octets.as_slice(),
        }
    }
}

/// The content that an element spells: an OCTET STRING, primitive or of segments. BadTag at any other tag.
#[tactic(auto, unfolding(crate::specs::Contents::content_in))]
pub fn read_content<'a>(alloc: Global, part: &View<'a>) -> Result<Content<'a>, ReadFault>
    ensures exact { ReadsSeen content_value result (content_in (view part.now)) }

    // It is lent exactly where the element is primitive, and is the element's content itself then.
    ensures lent { IfOk result (λ c. IsLentFrom part.now.content c) }
{
    if !is_tag_of(part.tag, 0, 4) {
        return bad(part.at, Kind::BadTag);
    }
    match part.plain() {
        Some(octets) => Ok(Content::Lent(octets)),
        None => {
            let octets = part.joined(alloc)?;
            Ok(Content::Joined(octets))
        }
    }
}

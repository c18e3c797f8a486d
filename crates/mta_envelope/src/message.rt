//! What a message has.

ghost use Rattle.std.specs.Prelude.{◌≡◌, None};

use crate::content::Content;
use crate::envelope::Envelope;
use crate::place::Place;

/// A message (X.411, Message): an envelope, which has no content length, a content, and the place of a content that is
/// lent in the input that was read.
#[derive(Drop)]
pub struct Message<'a> {
    pub envelope: Envelope,
    pub content: Content<'a>,
    pub place: Option<Place>,
    pub ghost no_length: { envelope.length ≡ None },
}

impl Message<'_> {
    ghost use Rattle.mta_envelope.specs.Contents.{octets_of};

    /// The octets of its content, lent.
    pub fn content(&self) -> &[u8]
        ensures { result.now ≡ octets_of self.now.content }
    {
        self.content.as_slice()
    }
}

//! What octets were read as, without them.

ghost use Rattle.std.specs.Prelude.{◌≡◌, None};

use mta_ber::Octets;
use mta_envelope::{Envelope, Place, Probe};
use mta_report::Report;

/// The content of a message: where it lies in the octets, or what was joined of its segments.
#[derive(Drop)]
pub(crate) enum DecodedContent {
    At(Place),
    Joined(Octets),
}

/// A message whose content is told by its place, where it has one.
#[derive(Drop)]
pub(crate) struct DecodedMessage {
    pub(crate) envelope: Envelope,
    pub(crate) content: DecodedContent,
    pub(crate) ghost no_length: { envelope.length ≡ None },
}

/// An APDU without its octets; `Nothing` where they spell none.
#[derive(Drop)]
pub(crate) enum DecodedApdu {
    Nothing,
    Message(DecodedMessage),
    Probe(Probe),
    Report(Report),
}

/// What octets were read as, without them. It borrows nothing, so that it can be kept for the next question.
pub struct Decoded {
    pub(crate) apdu: DecodedApdu,
    pub(crate) back: u64,
}

// Written out, since a derived one is opened anew, field by field, at each place where a value is let go.
impl Drop for Decoded {
    fn drop(self) {
        let Decoded { apdu: _, back: _ } = self;
    }
}

impl Decoded {
    // Its parts.
    pub(crate) fn into_parts(self) -> (DecodedApdu, u64)
        ensures apdu { result.0 ≡ self.apdu }
        ensures back { result.1 ≡ self.back }
    {
        let Decoded { apdu, back } = self;
        (apdu, back)
    }
}

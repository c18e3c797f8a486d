//! What octets are read as, once for all that is asked of them.
//!
//! A `Reading` lends the content of a message from the octets. A `Decoded` is what is left of it without them: it is
//! kept, and the next question makes a reading of it again. Each is made of the other by moving its parts.

ghost use Rattle.std.specs.Prelude.{◌≡◌, List, ℕ, IfOk, IfSome, Some};
ghost use Rattle.std.specs.Option.{option_map};
ghost use Rattle.std.specs.Borrow.{Bor};
ghost use Rattle.mta_apdu.specs.Apdus.{apdu_value, IsPlacedIn, SpellsApdu};
ghost use Rattle.mta_envelope.specs.Contents.{content_value};
ghost use Rattle.mta_envelope.specs.Messages.{message_value};
ghost use Rattle.mta_machine.specs.Apdu.{is_report, value_of};
ghost use Rattle.mta_state.specs.Readings.{IsContentOver, IsCounted, IsDecodedAs, IsDecodedOf, IsLentAt, IsLentIn};
ghost use Rattle.mta_state.specs.Readings.{IsReadingOf, IsWithin, IsWithinContent, IsCountedOver, message_over};
ghost use Rattle.mta_state.specs.Readings.{value_over};

use crate::decoded::{Decoded, DecodedApdu, DecodedContent, DecodedMessage};
use mta_apdu::Apdu;
use mta_ber::{Memory, ReadFault};
use mta_envelope::{Content, Message, Place};
use mta_machine::Item;
use mta_rules::back_length;
use std::alloc::Global;

/// What the octets of an item are read as, with what is counted once for all its recipients.
pub struct Reading<'a> {
    /// The APDU that the octets spell; none where they spell none.
    pub apdu: Option<Apdu<'a>>,
    /// How many octets the copies of a message or a probe have from the deferred delivery time on, as
    /// `mta_rules::back_length` counts them.
    pub back: u64,
}

// Written out, since a derived one is opened anew, field by field, at each place where a value is let go.
impl Drop for Reading<'_> {
    fn drop(self) {
        let Reading { apdu: _, back: _ } = self;
    }
}

fn is_of_report(apdu: &Apdu<'_>) -> bool
    ensures { result ≡ is_report (Some (apdu_value apdu.now)) }
{
    match apdu {
        Apdu::Message(_) => false,
        Apdu::Probe(_) => false,
        Apdu::Report(_) => true,
    }
}

/// What is counted once for all recipients of an APDU: of a message or a probe, `mta_rules::back_length`.
pub fn back_of(apdu: &Apdu<'_>) -> u64
    ensures { IsCounted apdu.now result }
{
    match apdu {
        Apdu::Message(message) => back_length(message.envelope.fields()),
        Apdu::Probe(probe) => back_length(probe.envelope.fields()),
        Apdu::Report(_) => 0,
    }
}

// The APDU of octets that are kept; none where they spell none.
#[tactic(auto, unfolding(mta_machine::specs::Apdu::value_of), using(crate::proofs::Placed::placed))]
fn read_kept<'a>(alloc: Global, octets: &'a [u8]) -> Result<Option<Apdu<'a>>, Memory>
    ensures value { IfOk result (λ a. value_of octets.now ≡ option_map apdu_value a) }
    ensures lent { IfOk result (λ a. IfSome a (IsLentIn octets.now)) }
{
    match Apdu::read_stored(alloc, octets) {
        Ok(apdu) => Ok(Some(apdu)),
        Err(ReadFault::Bad(_)) => Ok(None),
        Err(ReadFault::Memory) => Err(Memory),
    }
}

// ---- without the octets

fn content_detached(content: Content<'_>, place: Option<Place>) -> DecodedContent
    ensures { (octets : List ℕ) → IsLentAt octets content.entry place
        → IsContentOver octets (content_value content.entry) result }
{
    match place {
        Some(place) => DecodedContent::At(place),
        None => match content {
            Content::Joined(octets) => DecodedContent::Joined(octets),
            Content::Lent(_) => DecodedContent::At(Place { from: 0, to: 0 }),
        },
    }
}

fn message_detached(message: Message<'_>) -> DecodedMessage
    ensures envelope { result.envelope ≡ message.entry.envelope }
    ensures content { (octets : List ℕ) → IsLentAt octets message.entry.content message.entry.place
        → IsContentOver octets (content_value message.entry.content) result.content }
{
    let Message {
        envelope,
        content,
        place,
    } = message;
    let content = content_detached(content, place);
    DecodedMessage { envelope, content }
}

fn apdu_detached(apdu: Apdu<'_>) -> DecodedApdu
    ensures { (octets : List ℕ) → IsLentIn octets apdu.entry → IsDecodedAs octets apdu.entry result }
{
    match apdu {
        Apdu::Message(message) => DecodedApdu::Message(message_detached(message)),
        Apdu::Probe(probe) => DecodedApdu::Probe(probe),
        Apdu::Report(report) => DecodedApdu::Report(report),
    }
}

// ---- over the octets

fn message_lent<'a>(message: DecodedMessage, octets: &'a [u8]) -> Message<'a>
    requires { IsWithinContent octets.now message.content }
    ensures value { message_value result ≡ message_over octets.now message }
    ensures lent { IsLentAt octets.now result.content result.place }
{
    let DecodedMessage { envelope, content } = message;
    match content {
        DecodedContent::At(place) => Message {
            envelope,
            content: Content::Lent(&octets[place.from as usize..place.to as usize]),
            place: Some(place),
        },
        DecodedContent::Joined(joined) => Message {
            envelope,
            content: Content::Joined(joined),
            place: None,
        },
    }
}

fn apdu_lent<'a>(apdu: DecodedApdu, octets: &'a [u8]) -> Option<Apdu<'a>>
    requires { IsWithin octets.now apdu }
    ensures value { option_map apdu_value result ≡ value_over octets.now apdu }
    ensures lent { IfSome result (IsLentIn octets.now) }
    ensures counted { (back : ℕ) → IsCountedOver apdu back → IfSome result (λ a. IsCounted a back) }
{
    match apdu {
        DecodedApdu::Nothing => None,
        DecodedApdu::Message(message) => Some(Apdu::Message(message_lent(message, octets))),
        DecodedApdu::Probe(probe) => Some(Apdu::Probe(probe)),
        DecodedApdu::Report(report) => Some(Apdu::Report(report)),
    }
}

impl<'a> Reading<'a> {
    /// What nothing is read as. It stands for no item.
    pub fn nothing() -> Reading<'a> {
        Reading {
            apdu: None,
            back: 0,
        }
    }

    /// What the octets of an item are read as.
    pub fn read(alloc: Global, item: &'a Item) -> Result<Reading<'a>, Memory>
        ensures { IfOk result (IsReadingOf item.now.octets) }
    {
        match read_kept(alloc, item.octets())? {
            None => Ok(Reading {
                apdu: None,
                back: 0,
            }),
            Some(apdu) => {
                let back = back_of(&apdu);
                Ok(Reading {
                    apdu: Some(apdu),
                    back,
                })
            }
        }
    }

    /// Whether the octets spell a report.
    pub fn is_report(&self) -> bool
        ensures { (octets : List ℕ) → IsReadingOf octets self.now → result ≡ is_report (value_of octets) }
    {
        match &self.apdu {
            None => false,
            Some(apdu) => is_of_report(apdu),
        }
    }

    /// What is left of it without the octets.
    pub fn detach(self) -> Decoded
        ensures { (octets : List ℕ) → IsReadingOf octets self.entry → IsDecodedOf octets result }
    {
        let Reading { apdu, back } = self;
        match apdu {
            None => Decoded {
                apdu: DecodedApdu::Nothing,
                back,
            },
            Some(apdu) => Decoded {
                apdu: apdu_detached(apdu),
                back,
            },
        }
    }

    /// Lets it go. In a call of its own, so that no caller's proof goes through all its parts.
    pub fn discard(self) {}
}

impl Decoded {
    /// What is left of an APDU that was read from octets, without them.
    pub fn of_apdu(apdu: Apdu<'_>) -> Decoded
        ensures { (octets : Bor (List ℕ)) → SpellsApdu octets.now (apdu_value apdu.entry)
            → IsPlacedIn octets apdu.entry → IsDecodedOf octets.now result }
    {
        let back = back_of(&apdu);
        Decoded {
            apdu: apdu_detached(apdu),
            back,
        }
    }

    /// The reading of the item from which it was made.
    pub fn over<'a>(self, item: &'a Item) -> Reading<'a>
        requires { IsDecodedOf item.now.octets self }
        ensures { IsReadingOf item.now.octets result }
    {
        let (apdu, back) = self.into_parts();
        Reading {
            apdu: apdu_lent(apdu, item.octets()),
            back,
        }
    }

    /// Lets it go. In a call of its own, so that no caller's proof goes through all its parts.
    pub fn discard(self) {}
}

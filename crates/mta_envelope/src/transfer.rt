//! Reading and writing messages and probes.

ghost use Rattle.std.specs.Prelude.{◌≡◌, ◌+◌, ◌-◌, ◌<◌, length, true, false, IfOk, Ok, List, ℕ};
ghost use Rattle.mta_ber.specs.Element.{IsBehind};
ghost use Rattle.mta_ber.specs.Lengths.{octet_length};
ghost use Rattle.mta_ber.specs.Parts.{Reads, IsReadAs};
ghost use Rattle.mta_ber.specs.Place.{IsTail, IsAt};
ghost use Rattle.mta_ber.specs.Seen.{view};
ghost use Rattle.mta_ber.specs.Spelling.{Standing};
ghost use Rattle.mta_envelope.specs.declared.envelope.EnvelopeFields.{EnvelopeFields};
ghost use Rattle.mta_envelope.specs.Contents.{ReadsSeen, IsSeenAs, IsLentEndOf, octets_of, content_value};
ghost use Rattle.mta_envelope.specs.Envelopes.{IsOfKind};
ghost use Rattle.mta_envelope.specs.Messages.{MessageValue, message_value, next_in, set_in, last_in, message_in};
ghost use Rattle.mta_envelope.specs.Messages.{SpellsMessage, probe_in, SpellsProbe, canonical_message, canonical_probe};
ghost use Rattle.mta_envelope.specs.Places.{IsLast, IsBehindEnvelope, IsPlaced};

use crate::content::{Content, read_content};
use crate::envelope::Envelope;
use crate::message::Message;
use crate::place::{Place, place_of};
use crate::probe::Probe;
use mta_ber::{
    Kind, Memory, Octets, Parts, ReadFault, View, Writer, bad, element_length, is_constructed_tag,
    is_tag_of, length_of_both, slice_length,
};
use mta_names::{constructed, primitive, put_around};
use std::alloc::Global;

/// The next element, which has to be there. Missing at the whole where it is not.
fn next_of<'a>(parts: &mut Parts<'a>, whole: u32) -> Result<View<'a>, ReadFault>
    ensures exact { ReadsSeen view result (next_in whole parts.old.at (parts.old.depth + 1) parts.old.left.now) }
    ensures moved { IfOk result (λ v. IsBehind parts.old.at parts.old.left.now v.rest.now parts.new.at
        parts.new.left.now) }
    ensures depth { parts.new.depth ≡ parts.old.depth }
    ensures found { IfOk result (λ v. Standing parts.old.at (parts.old.depth + 1) (view v) parts.old.left.now) }
    ensures place { IfOk result (λ v. IsAt (v.start - parts.old.at) v.content parts.old.left) }
    ensures tail { IfOk result (λ _. IsTail parts.new.left parts.old.left) }
{
    match parts.next()? {
        None => bad(whole, Kind::Missing),
        Some(part) => Ok(part),
    }
}

/// The envelope of a message, which is a SET.
#[tactic(auto, unfolding(crate::specs::Messages::set_in))]
fn read_set(alloc: Global, part: &View) -> Result<Envelope, ReadFault>
    ensures exact { Reads result (set_in (view part.now)) }
    ensures kind { IfOk result (λ e. e.length ≡ None) }
{
    if !is_tag_of(part.tag, 0, 17) {
        return bad(part.at, Kind::BadTag);
    }
    Envelope::read(alloc, false, part)
}

/// A content with its place.
#[derive(Drop)]
struct PlacedContent<'a> {
    content: Content<'a>,
    place: Option<Place>,
}

/// The content, behind which nothing stands.
#[tactic(auto, unfolding(crate::specs::Messages::last_in))]
fn read_last<'a>(
    alloc: Global,
    parts: &mut Parts<'a>,
    whole: u32,
) -> Result<PlacedContent<'a>, ReadFault>
    ensures exact { ReadsSeen (λ c. content_value c.content) result
        (last_in whole parts.old.at (parts.old.depth + 1) parts.old.left.now) }
    ensures lent { IfOk result (λ c. IsLentEndOf parts.old.left c.content) }
    ensures placed { IfOk result
        (λ c. IsPlaced (IsLast (parts.old.depth + 1)) parts.old.at parts.old.left c.content c.place) }
{
    let second = next_of(parts, whole)?;
    let content = read_content(alloc, &second)?;
    second.alone()?;
    let place = place_of(&second);
    Ok(PlacedContent { content, place })
}

#[tactic(auto, unfolding(crate::specs::Messages::message_in))]
fn read_message<'a>(alloc: Global, whole: &View<'a>) -> Result<Message<'a>, ReadFault>
    ensures exact { ReadsSeen message_value result (message_in (view whole.now)) }
    ensures lent { IfOk result (λ m. IsLentEndOf whole.now.content m.content) }
    ensures placed { IfOk result
        (λ m. IsPlaced (IsBehindEnvelope (whole.now.depth + 1)) whole.now.start whole.now.content m.content m.place) }
{
    if !is_constructed_tag(whole.tag, 2, 0) {
        return bad(whole.at, Kind::BadTag);
    }
    let mut parts = whole.parts();
    let first = next_of(&mut parts, whole.at)?;
    let envelope = read_set(alloc, &first)?;
    match read_last(alloc, &mut parts, whole.at) {
        Ok(PlacedContent { content, place }) => Ok(Message {
            envelope,
            content,
            place,
        }),
        Err(fault) => {
            drop(envelope);
            Err(fault)
        }
    }
}

/// The envelope of a probe.
#[tactic(auto, unfolding(crate::specs::Messages::probe_in))]
fn read_probe(alloc: Global, whole: &View) -> Result<Envelope, ReadFault>
    ensures exact { Reads result (probe_in (view whole.now)) }
    ensures kind { IfOk result (IsOfKind true) }
{
    if !is_constructed_tag(whole.tag, 2, 2) {
        return bad(whole.at, Kind::BadTag);
    }
    Envelope::read(alloc, true, whole)
}

impl<'a> Message<'a> {
    /// The message that the element of an APDU spells, under `[0]`: a SEQUENCE of an envelope and a content. BadTag at
    /// an element of any other tag.
    pub fn read(alloc: Global, whole: &View<'a>) -> Result<Message<'a>, ReadFault>
        // Which message it is, or which fault comes first. Its content is lent exactly where it is primitive.
        ensures exact { ReadsSeen message_value result (message_in (view whole.now)) }

        // What is answered is spelled by the element, and what the element spells is answered.
        ensures found { IfOk result
            (λ m. SpellsMessage whole.now.depth whole.now.tag whole.now.content.now (message_value m)) }
        ensures only { (v : MessageValue) → SpellsMessage whole.now.depth whole.now.tag whole.now.content.now v
            → IsSeenAs message_value result v }

        // What is lent is the input itself: the last octets of it.
        ensures lent { IfOk result (λ m. IsLentEndOf whole.now.content m.content) }

        // Its place is that of the contents octets of the element behind the envelope, and there is none where it was
        // joined.
        ensures placed { IfOk result
            (λ m. IsPlaced (IsBehindEnvelope
            (whole.now.depth + 1)) whole.now.start whole.now.content m.content m.place) }
    {
        read_message(alloc, whole)
    }

    /// How many octets `write` gives, told without memory; 2^64 - 1 where there are as many or more.
    #[tactic(auto, unfolding(crate::specs::Messages::canonical_message))]
    pub fn length(&self) -> u64
        ensures { result ≡ octet_length (canonical_message self.now.envelope (octets_of self.now.content)) }
    {
        let envelope = self.envelope.length(constructed(0, 17));
        let content = element_length(primitive(0, 4), slice_length(self.content.as_slice()));
        element_length(constructed(2, 0), length_of_both(envelope, content))
    }

    /// The canonical octets of the whole APDU.
    #[tactic(auto, unfolding(crate::specs::Messages::canonical_message))]
    pub fn write(&self, alloc: Global) -> Result<Octets, Memory>
        ensures { IfOk result (λ o. o ≡ canonical_message self.now.envelope (octets_of self.now.content)) }
    {
        let mut inside = Writer::new(alloc);
        self.envelope.write(&mut inside, constructed(0, 17))?;
        inside.put(primitive(0, 4), self.content.as_slice())?;
        let mut whole = Writer::new(alloc);
        put_around(&mut whole, constructed(2, 0), &inside)?;
        Ok(whole.finish())
    }
}

impl Probe {
    /// The probe that the element of an APDU spells, under `[2]`: the envelope itself. BadTag at an element of any
    /// other tag.
    pub fn read(alloc: Global, whole: &View) -> Result<Probe, ReadFault>
        // Which probe it is, or which fault comes first.
        ensures exact { ReadsSeen (λ p. p.envelope) result (probe_in (view whole.now)) }

        // What is answered is spelled by the element, and what the element spells is answered.
        ensures found { IfOk result (λ p. SpellsProbe whole.now.depth whole.now.tag whole.now.content.now p.envelope) }
        ensures only { (v : EnvelopeFields) → SpellsProbe whole.now.depth whole.now.tag whole.now.content.now v
            → IsSeenAs (λ p. p.envelope) result v }
    {
        match read_probe(alloc, whole) {
            Ok(envelope) => Ok(Probe { envelope }),
            Err(fault) => Err(fault),
        }
    }

    /// How many octets `write` gives, told without memory; 2^64 - 1 where there are as many or more.
    #[tactic(auto, unfolding(crate::specs::Messages::canonical_probe))]
    pub fn length(&self) -> u64
        ensures { result ≡ octet_length (canonical_probe self.now.envelope) }
    {
        self.envelope.length(constructed(2, 2))
    }

    /// The canonical octets of the whole APDU.
    #[tactic(auto, unfolding(crate::specs::Messages::canonical_probe))]
    pub fn write(&self, alloc: Global) -> Result<Octets, Memory>
        ensures { IfOk result (λ o. o ≡ canonical_probe self.now.envelope) }
    {
        let mut whole = Writer::new(alloc);
        self.envelope.write(&mut whole, constructed(2, 2))?;
        Ok(whole.finish())
    }
}

//! Where names lead, and the words of peers and mailboxes.

ghost use Rattle.std.specs.Prelude.{◌≡◌};
ghost use Rattle.std.specs.Option.{option_copied, option_map};
ghost use Rattle.mta_apdu.specs.Apdus.{apdu_value};
ghost use Rattle.mta_machine.specs.Items.{numbered};
ghost use Rattle.mta_machine.specs.Rules.{mailbox_at, mailbox_word, name_of, names_in, names_peer, peer_at};
ghost use Rattle.mta_machine.specs.Rules.{peer_on, peer_word, route_under, route_word};
ghost use Rattle.mta_state.specs.Readings.{IsReadingOf};

use crate::reading::{recipient_of, text_reads};
use mta_apdu::Apdu;
use mta_ber::Word;
use mta_envelope::Envelope;
use mta_envelope_recipient::Recipient;
use mta_machine::Item;
use mta_names::OrName;
use mta_state::Reading;
use mta_tables::{Hop, Tables};

fn name_among(recipients: &[Recipient], number: u32) -> Option<&OrName>
    ensures { option_copied result ≡ option_map name_of (numbered recipients.now number) }
{
    let found = recipient_of(recipients, number)?;
    Some(&found.fields().name)
}

/// The name of a recipient.
pub fn name_in<'a>(apdu: &'a Apdu<'_>, recipient: u32) -> Option<&'a OrName>
    ensures { option_copied result ≡ numbered (names_in (apdu_value apdu.now)) recipient }
{
    match apdu {
        Apdu::Message(message) => {
            name_among(message.envelope.fields().recipients.as_slice(), recipient)
        }
        Apdu::Probe(probe) => name_among(probe.envelope.fields().recipients.as_slice(), recipient),
        Apdu::Report(report) => {
            if recipient == 1 {
                Some(&report.fields().destination)
            } else {
                None
            }
        }
    }
}

/// The word of the peer to which a hop leads.
fn peer_on(tables: &Tables, hop: Hop) -> Option<&[u8]>
    ensures { option_copied result ≡ peer_on tables.now hop }
{
    match hop {
        Hop::Peer(place) => peer_name(tables, place),
        Hop::Local(_) | Hop::List(_) | Hop::None => None,
    }
}

fn route_under<'a>(tables: &'a Tables, apdu: &Apdu<'_>, recipient: u32) -> Option<&'a [u8]>
    ensures { option_copied result ≡ route_under tables.now (apdu_value apdu.now) recipient }
{
    match name_in(apdu, recipient) {
        Some(name) => peer_on(tables, tables.route(name)),
        None => None,
    }
}

/// The word of the peer to whom the best route of a recipient's name leads.
pub fn route<'a>(
    tables: &'a Tables,
    item: &Item,
    reading: &Reading<'_>,
    recipient: u32,
) -> Option<&'a [u8]>
    requires { IsReadingOf item.now.octets reading.now }
    ensures { option_copied result ≡ route_word tables.now.text item.now.octets recipient }
{
    text_reads(tables);
    match &reading.apdu {
        None => None,
        Some(apdu) => route_under(tables, apdu, recipient),
    }
}

/// Whether the tables have a peer of this word.
#[tactic(auto, using(crate::proofs::Read::names_peer_is))]
pub fn names_peer(tables: &Tables, word: &[u8]) -> bool
    ensures { result ≡ names_peer tables.now.text word.now }
{
    text_reads(tables);
    tables.peer(word).is_some()
}

fn peer_name(tables: &Tables, place: u32) -> Option<&[u8]>
    ensures { option_copied result ≡ peer_at tables.now place }
{
    match tables.peers().get(place as usize) {
        Some(peer) => Some(peer.name.as_slice()),
        None => None,
    }
}

/// The word of the peer at a place of the tables, from 0.
#[tactic(auto, using(crate::proofs::Read::peer_word_is))]
pub fn peer_at(tables: &Tables, place: u32) -> Option<&[u8]>
    ensures { option_copied result ≡ peer_word tables.now.text place }
{
    text_reads(tables);
    peer_name(tables, place)
}

fn mailbox_name(tables: &Tables, place: u32) -> Option<&Word>
    ensures { option_copied result ≡ mailbox_at tables.now place }
{
    match tables.mailboxes().get(place as usize) {
        Some(mailbox) => Some(&mailbox.word),
        None => None,
    }
}

/// The word of the mailbox at a place of the tables, from 0.
#[tactic(auto, using(crate::proofs::Read::mailbox_word_is))]
pub fn mailbox_at(tables: &Tables, place: u32) -> Option<&Word>
    ensures { option_copied result ≡ mailbox_word tables.now.text place }
{
    text_reads(tables);
    mailbox_name(tables, place)
}

//! Messages that are spent: nobody wants their content any more.

ghost use Rattle.std.specs.Prelude.{◌≡◌, IfOk};
ghost use Rattle.std.specs.List.{list_any};
ghost use Rattle.mta_apdu.specs.Apdus.{apdu_value};
ghost use Rattle.mta_histories.specs.Compact.{kept_octets, wants_content};
ghost use Rattle.mta_machine.specs.Apdu.{value_of};
ghost use Rattle.mta_snapshots.specs.Spent.{IsEmptied, IsEmptiedOf, IsWithoutContent};

use mta_apdu::Apdu;
use mta_ber::{Memory, Octets, ReadFault};
use mta_envelope::{Content, Message};
use mta_machine::{Item, Status};
use std::alloc::Global;
use std::sync::Arc;

fn wants_content(status: &Option<Status>) -> bool
    ensures { result ≡ wants_content status.now }
{
    match status {
        None => false,
        Some(Status::Pending) => true,
        Some(Status::Delivered(_)) => true,
        Some(Status::Expanded(_)) => false,
        Some(Status::Sent { .. }) => false,
        Some(Status::Reported { .. }) => false,
        Some(Status::Affirmed(_)) => false,
        Some(Status::Discarded(_)) => false,
        Some(Status::Passed(_)) => false,
    }
}

// Whether some recipient is pending or was delivered to.
fn is_wanted(statuses: &[Option<Status>]) -> bool
    ensures { result ≡ list_any wants_content statuses.now }
{
    statuses.iter().any(|status| wants_content(status))
}

// The message with an empty content.
fn without_content(message: Message<'_>) -> Message<'_>
    ensures { IsWithoutContent message.entry result }
{
    let Message { envelope, .. } = message;
    Message {
        envelope,
        content: Content::Lent(&[]),
        place: None,
    }
}

// The canonical octets of a message with an empty content; none of another APDU.
fn emptied(alloc: Global, apdu: Apdu<'_>) -> Result<Option<Octets>, Memory>
    ensures { IfOk result (IsEmptied (apdu_value apdu.entry)) }
{
    match apdu {
        Apdu::Message(message) => {
            let emptied = Apdu::Message(without_content(message));
            let octets = emptied.write(alloc);
            emptied.discard();
            Ok(Some(octets?))
        }
        Apdu::Probe(probe) => {
            Apdu::Probe(probe).discard();
            Ok(None)
        }
        Apdu::Report(report) => {
            Apdu::Report(report).discard();
            Ok(None)
        }
    }
}

// The canonical octets of a message with an empty content; none where the octets spell no message.
#[tactic(auto, unfolding(mta_machine::specs::Apdu::value_of))]
fn emptied_of(alloc: Global, octets: &[u8]) -> Result<Option<Octets>, Memory>
    ensures { IfOk result (IsEmptiedOf (value_of octets.now)) }
{
    match Apdu::read_stored(alloc, octets) {
        Ok(apdu) => emptied(alloc, apdu),
        Err(ReadFault::Bad(_)) => Ok(None),
        Err(ReadFault::Memory) => Err(Memory),
    }
}

/// What is kept of the octets of an item: of a message that is spent, and that no delivery names, its canonical octets
/// with an empty content. Others hold the octets too where they stay as they are. The item is read only where nobody
/// wants its content.
pub(crate) fn kept_octets(
    alloc: Global,
    named: bool,
    item: &Item,
) -> Result<Arc<Octets, Global>, Memory>
    ensures { IfOk result (λ octets. octets.value ≡ kept_octets named item.now) }
{
    if named || is_wanted(item.statuses()) {
        return item.shared();
    }
    match emptied_of(alloc, item.octets())? {
        None => item.shared(),
        Some(octets) => match Arc::new(alloc, octets) {
            Ok(octets) => Ok(octets),
            Err(_) => Err(Memory),
        },
    }
}

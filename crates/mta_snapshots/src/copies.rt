//! What an activity transfers, asked of the rules under which it was decided.

ghost use Rattle.std.specs.Prelude.{◌≡◌, ◌≤◌, ◌↔◌, true, ℕ, IfOk, IsTrue, Some};
ghost use Rattle.mta_ber.specs.Times.{last_moment};
ghost use Rattle.mta_histories.specs.Limits.{octets_of};
ghost use Rattle.mta_machine.specs.Items.{names};
ghost use Rattle.mta_machine.specs.Machine.{relay_by};
ghost use Rattle.mta_machine.specs.Rules.{outgoing_copy, verdict_of};
ghost use Rattle.mta_state.specs.Asked.{Relays};
ghost use Rattle.mta_state.specs.Readings.{IsReadingOf};

use mta_ber::{Memory, Octets};
use mta_machine::Item;
use mta_procedures::Verdict;
use mta_records::Outgoing;
use mta_state::{Reading, Rules};
use std::alloc::Global;

// Whether a verdict relays to the peer.
fn relays_to<R: Rules>(rules: &R, verdict: Option<Verdict>, peer: &[u8]) -> bool
    ensures { IsTrue result ↔ (relay_by (R.text rules.now) verdict ≡ Some peer.now) }
{
    match verdict {
        Some(Verdict::Relay(place)) => match rules.peer_at(place) {
            Some(word) => word == peer,
            None => false,
        },
        _ => false,
    }
}

// Whether the verdict on a recipient of an item relays to the peer.
fn is_relayed<R: Rules>(
    alloc: Global,
    rules: &R,
    item: &Item,
    reading: &Reading<'_>,
    recipient: u32,
    peer: &[u8],
    moment: u64,
) -> Result<bool, Memory>
    requires arrived { item.now.arrival ≤ last_moment }
    requires reading { IsReadingOf item.now.octets reading.now }
    ensures { IfOk result (λ b. IsTrue b ↔ (relay_by (R.text rules.now)
        (verdict_of (R.format rules.now) (R.text rules.now) item.now.octets item.now.arrival recipient moment)
        ≡ Some peer.now)) }
{
    let verdict = rules.verdict(alloc, item, reading, recipient, moment)?;
    Ok(relays_to(rules, verdict, peer))
}

/// Whether the verdict on each of the recipients of an item relays to the peer.
pub(crate) fn are_relayed<R: Rules>(
    alloc: Global,
    rules: &R,
    item: &Item,
    reading: &Reading<'_>,
    recipients: &[u32],
    peer: &[u8],
    moment: u64,
) -> Result<bool, Memory>
    requires arrived { item.now.arrival ≤ last_moment }
    requires reading { IsReadingOf item.now.octets reading.now }
    ensures { IfOk result (λ b. IsTrue b ↔ ((r : ℕ) → names recipients.now r ≡ true → relay_by (R.text rules.now)
        (verdict_of (R.format rules.now) (R.text rules.now) item.now.octets item.now.arrival r moment)
        ≡ Some peer.now)) }
{
    for recipient in recipients {
        if !is_relayed(alloc, rules, item, reading, *recipient, peer, moment)? {
            return Ok(false);
        }
    }
    Ok(true)
}

// The octets of an activity in one piece.
fn joined(alloc: Global, outgoing: &Outgoing) -> Result<Octets, Memory>
    ensures { IfOk result (λ o. o ≡ outgoing.now.octets) }
{
    let (head, rest) = outgoing.cut(0, outgoing.total());
    let mut octets = Octets::from_slice(alloc, head)?;
    octets.extend(rest)?;
    Ok(octets)
}

// Whether both activities are of the same octets.
fn are_same(alloc: Global, one: &Outgoing, other: &Outgoing) -> Result<bool, Memory>
    ensures { IfOk result (λ b. IsTrue b ↔ (one.now.octets ≡ other.now.octets)) }
{
    let one = joined(alloc, one)?;
    let other = joined(alloc, other)?;
    Ok(one.as_slice() == other.as_slice())
}

/// Whether these octets are the copy of an item for recipients of whom one is relayed.
pub(crate) fn is_copy<R: Rules>(
    alloc: Global,
    rules: &R,
    item: &Item,
    reading: &Reading<'_>,
    recipients: &[u32],
    recipient: u32,
    moment: u64,
    outgoing: &Outgoing,
) -> Result<bool, Memory>
    requires arrived { item.now.arrival ≤ last_moment }
    requires reading { IsReadingOf item.now.octets reading.now }
    requires fits { moment ≤ last_moment }
    requires relayed { Relays
        (verdict_of (R.format rules.now) (R.text rules.now) item.now.octets item.now.arrival recipient moment) }
    ensures { IfOk result (λ b. IsTrue b ↔ (outgoing.now.octets
        ≡ octets_of (outgoing_copy (R.text rules.now) item.now.octets item.now.arrival recipients.now moment))) }
{
    let copy = rules.outgoing_copy(
        alloc,
        outgoing.activity,
        item,
        reading,
        recipients,
        recipient,
        moment,
    )?;
    are_same(alloc, outgoing, &copy)
}

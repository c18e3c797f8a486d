//! What goes to a peer next, found by looking in turn at each recipient of the items of its queue that may be relayed.

ghost use Rattle.std.specs.Prelude.{◌≡◌, ◌≢◌, ◌≤◌, ◌↔◌, [], true, false};
ghost use Rattle.std.specs.Prelude.{IfOk, IsTrue, Some};
ghost use Rattle.std.specs.List.{All};
ghost use Rattle.mta_ber.specs.Times.{last_moment};
ghost use Rattle.mta_machine.specs.Items.{ItemValue, numbered};
ghost use Rattle.mta_machine.specs.Rules.{verdict_of};
ghost use Rattle.mta_machine.specs.Machine.{relay_by};
ghost use Rattle.mta_histories.specs.Due.{IsQueue, IsToRelay};
ghost use Rattle.mta_state.specs.Kept.{state_of};
ghost use Rattle.mta_state.specs.Asked.{IsStored, IsTextOf};
ghost use Rattle.mta_state.specs.Readings.{IsReadingOf};
ghost use Rattle.mta_dues.specs.Answers.{AreRelayed, IsBatchOf};
ghost use Rattle.mta_dues.specs.Index.{AreSpansIn, IsIndexed};

use crate::index::Index;
use crate::learning::learn_all;
use crate::rest::has_pending;
use crate::spans::Spans;
use mta_ber::{Memory, Word};
use mta_machine::Item;
use mta_procedures::Verdict;
use mta_records::{Batch, Recipients};
use mta_state::{Kept, Reading, Rules};
use std::alloc::Global;

// Whether a verdict relays to the peer.
fn relays_to<R: Rules>(rules: &R, verdict: Option<Verdict>, peer: &[u8]) -> bool
    ensures { IsTrue result ↔ (relay_by (R.text rules.now) verdict ≡ Some peer.now) }
{
    let Some(Verdict::Relay(place)) = verdict else {
        return false;
    };
    match rules.peer_at(place) {
        Some(word) => word == peer,
        None => false,
    }
}

/// Whether a recipient of an item is pending, in no activity, and has a verdict that relays to the peer.
#[tactic(auto, using(crate::proofs::Relays::relayed, crate::proofs::Relays::not_waiting))]
pub fn is_to_relay<R: Rules>(
    alloc: Global,
    rules: &R,
    kept: &Kept,
    number: u32,
    item: &Item,
    reading: &Reading<'_>,
    recipient: u32,
    peer: &[u8],
    moment: u64,
) -> Result<bool, Memory>
    requires text { IsTextOf kept.now (R.text rules.now) }
    requires format { R.format rules.now ≡ kept.now.parts.format }
    requires item { numbered kept.now.parts.items.items number ≡ Some item.now }
    requires arrived { item.now.arrival ≤ last_moment }
    requires reading { IsReadingOf item.now.octets reading.now }
    ensures { IfOk result (λ b. IsTrue b ↔ IsToRelay (state_of kept.now) peer.now moment number recipient) }
{
    if !kept.parts.is_pending(number, recipient) || !kept.lanes.is_free(number, recipient) {
        return Ok(false);
    }
    let verdict = rules.verdict(alloc, item, reading, recipient, moment)?;
    Ok(relays_to(rules, verdict, peer))
}

// The recipients of an item that are to be relayed to the peer. The item is read once, where somebody is pending.
#[tactic(auto, using(crate::proofs::Relays::relay_laws))]
fn recipients_for<R: Rules>(
    alloc: Global,
    rules: &R,
    kept: &Kept,
    number: u32,
    item: &Item,
    peer: &[u8],
    moment: u64,
) -> Result<Vec<u32>, Memory>
    requires text { IsTextOf kept.now (R.text rules.now) }
    requires format { R.format rules.now ≡ kept.now.parts.format }
    requires item { numbered kept.now.parts.items.items number ≡ Some item.now }
    requires stored { IsStored item.now }
    ensures { IfOk result (λ rs. AreRelayed (state_of kept.now) peer.now moment number rs.items) }
{
    let pending = has_pending(item);
    if !pending {
        return Ok(Vec::new(alloc));
    }
    let reading = Reading::read(alloc, item)?;
    let count = item.statuses().len() as u32;
    let mut recipients: Vec<u32> = Vec::new(alloc);
    let mut recipient: u32 = 0;
    while recipient < count {
        recipient += 1;
        if is_to_relay(
            alloc, rules, kept, number, item, &reading, recipient, peer, moment,
        )? {
            recipients.push(recipient)?;
        }
    }
    Ok(recipients)
}

fn has_some(recipients: &Vec<u32>) -> bool
    ensures none { result ≡ false → recipients.now.items ≡ [] }
    ensures some { result ≡ true → recipients.now.items ≢ [] }
{
    match recipients.as_slice() {
        [] => false,
        [_, ..] => true,
    }
}

// The recipients of the item of a number that are to be relayed to the peer.
#[tactic(auto, using(crate::proofs::Passed::relayed_laws))]
fn relayed<R: Rules>(
    alloc: Global,
    rules: &R,
    kept: &Kept,
    number: u32,
    peer: &[u8],
    moment: u64,
) -> Result<Vec<u32>, Memory>
    requires text { IsTextOf kept.now (R.text rules.now) }
    requires format { R.format rules.now ≡ kept.now.parts.format }
    requires stored { All IsStored kept.now.parts.items.items }
    ensures { IfOk result (λ rs. AreRelayed (state_of kept.now) peer.now moment number rs.items) }
{
    match kept.parts.item(number) {
        None => Ok(Vec::new(alloc)),
        Some(item) => recipients_for(alloc, rules, kept, number, item, peer, moment),
    }
}

// The lowest item of the queue with recipients to relay to the peer. Those are passed over that are held or have
// expired.
#[tactic(auto, using(crate::proofs::Batches::none_before_first))]
fn first_batch<R: Rules>(
    alloc: Global,
    rules: &R,
    kept: &Kept,
    spans: &Spans,
    queue: &[u32],
    peer: &[u8],
    moment: u64,
) -> Result<Option<Batch>, Memory>
    requires text { IsTextOf kept.now (R.text rules.now) }
    requires format { R.format rules.now ≡ kept.now.parts.format }
    requires stored { All IsStored kept.now.parts.items.items }
    requires queue { IsQueue (state_of kept.now) peer.now queue.now }
    requires spans { AreSpansIn (R.format rules.now) (R.text rules.now) kept.now.parts.items.items spans.now }
    ensures { IfOk result (IsBatchOf (state_of kept.now) peer.now moment) }
{
    let mut from: usize = 0;
    while let Some(place) = spans.next_open(queue, from, moment) {
        let number = queue[place];
        let recipients = relayed(alloc, rules, kept, number, peer, moment)?;
        let found = has_some(&recipients);
        if found {
            return Ok(Some(Batch {
                item: number,
                recipients: Recipients::from_vec(recipients),
            }));
        }
        from = place + 1;
    }
    Ok(None)
}

/// The lowest item with recipients to relay to the peer, and all those; none where there is no such item. It is found
/// in the queue of the peer. An item is read where it may be relayed at the moment, or where it is not known yet when
/// it may be.
pub fn batch_for<R: Rules>(
    alloc: Global,
    rules: &R,
    kept: &Kept,
    index: &mut Index,
    queue: &[u32],
    peer: &Word,
    moment: u64,
) -> Result<Option<Batch>, Memory>
    requires text { IsTextOf kept.now (R.text rules.now) }
    requires format { R.format rules.now ≡ kept.now.parts.format }
    requires stored { All IsStored kept.now.parts.items.items }
    requires queue { IsQueue (state_of kept.now) peer.now queue.now }
    requires indexed { IsIndexed (R.format rules.now) (R.text rules.now) kept.now.parts.items.items index.old }
    ensures batch { IfOk result (IsBatchOf (state_of kept.now) peer.now moment) }
    ensures indexed { IsIndexed (R.format rules.now) (R.text rules.now) kept.now.parts.items.items index.new }
{
    learn_all(alloc, rules, kept, index)?;
    first_batch(
        alloc,
        rules,
        kept,
        &index.spans,
        queue,
        peer.as_slice(),
        moment,
    )
}

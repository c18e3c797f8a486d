//! Items that rest, since nothing is due of them for a while, and recipients of an item who wait.

ghost use Rattle.std.specs.Prelude.{◌≡◌, ◌≤◌, ◌<◌, ◌↔◌, ℕ, IfOk, IsTrue, List, Some, true, false};
ghost use Rattle.mta_ber.specs.Times.{last_moment};
ghost use Rattle.mta_machine.specs.Items.{ItemValue, numbered};
ghost use Rattle.mta_machine.specs.Rules.{is_expired};
ghost use Rattle.mta_idle_laws.specs.Idle.{IsIdle, IsIdleUntil};
ghost use Rattle.mta_dues.specs.Agendas.{is_active, IsAllCalled};
ghost use Rattle.mta_state.specs.Asked.{IsStored, RestsAs};
ghost use Rattle.mta_state.specs.Readings.{IsReadingOf};
ghost use Rattle.mta_dues.specs.Index.{HasPending, IsIndexed};
ghost use Rattle.mta_dues.specs.Looked.{AreIdleUpTo, is_calling};

use crate::index::Index;
use crate::learning::nobody;
use mta_ber::Memory;
use mta_machine::Item;
use mta_state::{Reading, Rest, Rules, calls_at_once, is_pending};
use std::alloc::Global;

// Whether some recipient of an item is pending.
#[tactic(auto, using(crate::proofs::Pending::pending_laws))]
pub(crate) fn has_pending(item: &Item) -> bool
    requires stored { IsStored item.now }
    ensures { IsTrue result ↔ HasPending item.now }
{
    let count = item.statuses().len() as u32;
    let mut recipient = item.settled() as u32;
    while recipient < count {
        recipient += 1;
        if is_pending(item, recipient) {
            return true;
        }
    }
    false
}

/// An active item rests until its verdicts may change. Where there is no memory to note it the item stays active.
pub(crate) fn put_to_rest(index: &mut Index, number: u32, moment: u64, until: u64)
    requires active { is_active index.old.agenda number ≡ true }
    requires later { moment < until }
    ensures indexed { (format : ℕ) (text : List ℕ) (items : List ItemValue) (item : ItemValue)
        → numbered items number ≡ Some item → IsIdleUntil format text item moment (Some until)
        → IsIndexed format text items index.old → IsIndexed format text items index.new }
    ensures called { (count : ℕ) → IsAllCalled index.old.agenda count moment
        → IsAllCalled index.new.agenda count moment }
{
    index.agenda.put_off(number, moment, until);
}

/// Whether nobody of an active item is pending. It rests for good then, and is not read.
pub(crate) fn rests_for_good(index: &mut Index, number: u32, item: &Item) -> bool
    requires stored { IsStored item.now }
    requires active { is_active index.old.agenda number ≡ true }
    ensures idle { result ≡ true → (format : ℕ) (text : List ℕ) (moment : ℕ) → IsIdle format text item.now moment }
    ensures indexed { (format : ℕ) (text : List ℕ) (items : List ItemValue) → numbered items number ≡ Some item.now
        → IsIndexed format text items index.old → IsIndexed format text items index.new }
    ensures called { (count moment : ℕ) → IsAllCalled index.old.agenda count moment
        → IsAllCalled index.new.agenda count moment }
    ensures same { result ≡ false → index.new ≡ index.old }
{
    let pending = has_pending(item);
    if pending {
        return false;
    }
    index.learn(number, nobody());
    index.agenda.let_go(number);
    true
}

// Whether something is called for at once of a recipient, if pending.
fn calls<R: Rules>(
    alloc: Global,
    rules: &R,
    item: &Item,
    reading: &Reading<'_>,
    recipient: u32,
    moment: u64,
) -> Result<bool, Memory>
    requires arrived { item.now.arrival ≤ last_moment }
    requires reading { IsReadingOf item.now.octets reading.now }
    ensures { IfOk result (λ b. b ≡ is_calling (R.format rules.now) (R.text rules.now) item.now recipient moment) }
{
    let pending = is_pending(item, recipient);
    if !pending {
        return Ok(false);
    }
    let verdict = rules.verdict(alloc, item, reading, recipient, moment)?;
    Ok(calls_at_once(verdict))
}

/// How many of the first recipients of an item that has not expired wait at a moment, if pending, of whom so many are
/// known to: all those before the first of whom something is called for at once.
#[tactic(auto, using(crate::proofs::Waiting::waiting_laws))]
pub(crate) fn idle_from<R: Rules>(
    alloc: Global,
    rules: &R,
    item: &Item,
    reading: &Reading<'_>,
    known: u32,
    moment: u64,
) -> Result<u32, Memory>
    requires stored { IsStored item.now }
    requires reading { IsReadingOf item.now.octets reading.now }
    requires known { AreIdleUpTo (R.format rules.now) (R.text rules.now) item.now known moment }
    requires unexpired { is_expired (R.format rules.now) (R.text rules.now) item.now.octets
        item.now.arrival moment ≡ false }
    ensures { IfOk result (λ most. AreIdleUpTo (R.format rules.now) (R.text rules.now) item.now most moment) }
{
    let count = item.statuses().len() as u32;
    let mut most = known;
    while most < count {
        let called = calls(alloc, rules, item, reading, most + 1, moment)?;
        if called {
            return Ok(most);
        }
        most += 1;
    }
    Ok(most)
}

/// What was found of an item that was not looked at yet is noted, unless it rests by now. Where there is no memory to
/// note it the item stays active.
pub fn note(index: &mut Index, number: u32, moment: u64, found: &Rest) -> Result<(), Memory>
    requires later { moment < found.now.until }
    ensures { (format : ℕ) (text : List ℕ) (items : List ItemValue) (item : ItemValue)
        → numbered items number ≡ Some item → RestsAs format text item moment found.now
        → IsIndexed format text items index.old → IsIndexed format text items index.new }
{
    index.learn(number, found.span);
    index.agenda.call(number, moment)?;
    if index.agenda.is_active(number) {
        put_to_rest(index, number, moment, found.until);
    }
    Ok(())
}

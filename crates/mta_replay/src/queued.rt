//! The queues of peers in the state: after each change it is put down of those whom it touches whether they wait.

ghost use Rattle.std.specs.Prelude.{◌≡◌, ◌≤◌, ◌<◌, ◌+◌, ◌^◌, ◌++◌, ◌∷◌, [], List, ℕ, IfOk, OnOk, Some, length};
ghost use Rattle.std.specs.Prelude.{IfSome, None, option_to_list};
ghost use Rattle.mta_machine.specs.Items.{ItemValue, numbered};
ghost use Rattle.mta_machine.specs.Rules.{route_word};
ghost use Rattle.mta_queue.specs.Queues.{HasPlaces, HasRoom};
ghost use Rattle.mta_state.specs.Kept.{state_of};
ghost use Rattle.mta_state.specs.Parts.{made_items};
ghost use Rattle.mta_state.specs.Readings.{IsDecodedOf, IsReadingOf};
ghost use Rattle.mta_replay.specs.Expected.{IsReadOfMade};
ghost use Rattle.mta_replay.specs.Queued.{AreComing, AreQueued, AreRows, GoesOn, IsNamedBy, IsNextRow, IsOnePutDown};
ghost use Rattle.mta_replay.specs.Queued.{IsPutDown, IsQueuedUpTo, IsRowMore, IsRowOf, made_by, made_in_turn, Nobody};
ghost use Rattle.mta_replay.specs.Queued.{place_by};
ghost use Rattle.mta_replay.specs.Touched.{is_waiting, IsTouched};

use crate::touched::Touched;
use mta_ber::Memory;
use mta_machine::Item;
use mta_queue::{Marks, Queues};
use mta_state::{Change, Decoded, Kept, Made, Reading, Rules, Settlement};
use std::alloc::Global;

// ---- the recipients of items

// The place of the peer to whom the route of a recipient of an item leads.
fn route_of<R: Rules>(
    rules: &R,
    queues: &Queues,
    item: &Item,
    reading: &Reading<'_>,
    recipient: u32,
) -> Option<usize>
    requires { IsReadingOf item.now.octets reading.now }
    ensures { result ≡ place_by queues.now.words (route_word (R.text rules.now) item.now.octets recipient) }
{
    match rules.route(item, reading, recipient) {
        None => None,
        Some(word) => queues.place_of(word),
    }
}

// The recipients of an item that was read, of whom nobody waits yet, with the routes of their names. Memory is said to
// be wanted where they are more than have numbers, which no item has.
#[tactic(auto, using(crate::proofs::Rowed::row_laws))]
fn row_read<R: Rules>(
    alloc: Global,
    rules: &R,
    queues: &Queues,
    item: &Item,
    reading: &Reading<'_>,
) -> Result<Marks, Memory>
    requires { IsReadingOf item.now.octets reading.now }
    ensures { IfOk result (IsRowOf (R.text rules.now) queues.now.words item.now) }
{
    let Ok(count) = u32::try_from(item.statuses().len()) else {
        return Err(Memory);
    };
    let mut row = Marks::new(alloc);
    let mut recipient: u32 = 0;
    while recipient < count {
        recipient += 1;
        row.push(route_of(rules, queues, item, reading, recipient))?;
    }
    Ok(row)
}

// Those of an item, which is read for it, and what is left of the reading.
fn row_decoded<R: Rules>(
    alloc: Global,
    rules: &R,
    queues: &Queues,
    item: &Item,
) -> Result<(Marks, Decoded), Memory>
    ensures row { IfOk result (λ found. IsRowOf (R.text rules.now) queues.now.words item.now found.0) }
    ensures decoded { IfOk result (λ found. IsDecodedOf item.now.octets found.1) }
{
    let reading = Reading::read(alloc, item)?;
    let row = row_read(alloc, rules, queues, item, &reading);
    let decoded = reading.detach();
    match row {
        Ok(row) => Ok((row, decoded)),
        Err(_) => {
            decoded.discard();
            Err(Memory)
        }
    }
}

// Those of an item, which is read for it.
fn row_of<R: Rules>(alloc: Global, rules: &R, queues: &Queues, item: &Item) -> Result<Marks, Memory>
    ensures { IfOk result (IsRowOf (R.text rules.now) queues.now.words item.now) }
{
    let (row, decoded) = row_decoded(alloc, rules, queues, item)?;
    decoded.discard();
    Ok(row)
}

// The recipients of an item that is made, where one is, come behind those of the others.
#[tactic(auto, using(crate::proofs::Rowed::rows_laws))]
fn push_row<R: Rules>(
    alloc: Global,
    rules: &R,
    queues: &Queues,
    rows: &mut Vec<Marks>,
    item: &Option<Item>,
) -> Result<(), Memory>
    ensures { OnOk result ((made : List ItemValue)
        → AreRows (R.text rules.now) queues.now.words rows.old.items made
        → AreRows (R.text rules.now) queues.now.words rows.new.items (made ++ option_to_list item.now)) }
{
    if let Some(item) = item {
        rows.push(row_of(alloc, rules, queues, item)?)?;
    }
    Ok(())
}

/// The recipients of the items that a change makes, in the order in which they are made.
#[derive(Drop)]
pub(crate) struct Coming {
    pub(crate) rows: Vec<Marks>,
    /// What the one item that is made was read as, where it was read for them.
    pub(crate) read: Option<Decoded>,
}

// Nobody comes.
fn nobody(alloc: Global) -> Coming
    ensures rows { result.rows.items ≡ [] }
    ensures read { result.read ≡ None }
{
    Coming {
        rows: Vec::new(alloc),
        read: None,
    }
}

// The recipients of one item, which is read for them.
fn coming_of_one<R: Rules>(
    alloc: Global,
    rules: &R,
    queues: &Queues,
    item: &Item,
) -> Result<Coming, Memory>
    ensures rows { IfOk result (λ c. AreRows (R.text rules.now) queues.now.words c.rows.items (item.now ∷ [])) }
    ensures read { IfOk result (λ c. IfSome c.read (IsDecodedOf item.now.octets)) }
{
    let mut rows: Vec<Marks> = Vec::new(alloc);
    let (row, decoded) = row_decoded(alloc, rules, queues, item)?;
    match rows.push(row) {
        Ok(()) => Ok(Coming {
            rows,
            read: Some(decoded),
        }),
        Err(_) => {
            decoded.discard();
            Err(Memory)
        }
    }
}

/// Those of one item that was read.
pub(crate) fn rows_read<R: Rules>(
    alloc: Global,
    rules: &R,
    queues: &Queues,
    item: &Item,
    reading: &Reading<'_>,
) -> Result<Vec<Marks>, Memory>
    requires { IsReadingOf item.now.octets reading.now }
    ensures { IfOk result (λ rows. AreRows (R.text rules.now) queues.now.words rows.items (item.now ∷ [])) }
{
    let mut rows: Vec<Marks> = Vec::new(alloc);
    rows.push(row_read(alloc, rules, queues, item, reading)?)?;
    Ok(rows)
}

// Those of the items that the discharge of a recipient makes.
fn rows_of_made<R: Rules>(
    alloc: Global,
    rules: &R,
    queues: &Queues,
    made: &Made,
) -> Result<Vec<Marks>, Memory>
    ensures { IfOk result (λ rows. AreRows (R.text rules.now) queues.now.words rows.items (made_items made.now)) }
{
    let mut rows: Vec<Marks> = Vec::new(alloc);
    push_row(alloc, rules, queues, &mut rows, &made.first)?;
    push_row(alloc, rules, queues, &mut rows, &made.second)?;
    Ok(rows)
}

// Those of the items that discharges in turn make, the last of these first.
fn rows_in_turn<R: Rules>(
    alloc: Global,
    rules: &R,
    queues: &Queues,
    settlements: &[Settlement],
) -> Result<Vec<Marks>, Memory>
    ensures { IfOk result (λ rows. AreRows (R.text rules.now) queues.now.words rows.items
        (made_in_turn settlements.now)) }
{
    let mut rows: Vec<Marks> = Vec::new(alloc);
    let mut place = settlements.len();
    while place > 0 {
        place -= 1;
        push_row(alloc, rules, queues, &mut rows, &settlements[place].made)?;
    }
    Ok(rows)
}

// The recipients that were found without a reading that is kept.
fn unread(rows: Vec<Marks>) -> Coming
    ensures rows { result.rows ≡ rows }
    ensures read { result.read ≡ None }
{
    Coming { rows, read: None }
}

/// The recipients of the items that a change makes, in the order in which they are made. Memory is said to be wanted
/// where a history begins by the change, which it does only where there are no rules yet.
pub(crate) fn coming_of<R: Rules>(
    alloc: Global,
    rules: &R,
    queues: &Queues,
    change: &Change,
) -> Result<Coming, Memory>
    ensures rows { IfOk result (λ c.
        AreRows (R.text rules.now) queues.now.words c.rows.items (made_by change.now)) }
    ensures read { IfOk result (λ c. IfSome c.read (IsReadOfMade change.now)) }
    ensures goes_on { OnOk result (GoesOn change.now) }
{
    match change {
        Change::Begin { .. } => Err(Memory),
        Change::Format => Ok(nobody(alloc)),
        Change::Tables { .. } => Ok(nobody(alloc)),
        Change::Accept { item, .. } => coming_of_one(alloc, rules, queues, item),
        Change::Settle { made, .. } => Ok(unread(rows_of_made(alloc, rules, queues, made)?)),
        Change::Open { .. } => Ok(nobody(alloc)),
        Change::OnLane { .. } => Ok(nobody(alloc)),
        Change::Complete { item, .. } => coming_of_one(alloc, rules, queues, item),
        Change::Discharge { settlements, .. } => Ok(unread(rows_in_turn(
            alloc,
            rules,
            queues,
            settlements.as_slice(),
        )?)),
        Change::Close { .. } => Ok(nobody(alloc)),
    }
}

// ---- who waits

// Whether a recipient is pending and in no activity.
fn is_waiting(kept: &Kept, item: u32, recipient: u32) -> bool
    ensures { result ≡ is_waiting (state_of kept.now) item recipient }
{
    kept.parts.is_pending(item, recipient) && kept.lanes.is_free(item, recipient)
}

// It is put down of a recipient whether he waits. There is a place for the item in each queue.
fn put_down_one(queues: &mut Queues, kept: &Kept, item: u32, recipient: u32)
    requires { HasPlaces queues.old.queues item }
    ensures { IsOnePutDown (state_of kept.now) item recipient queues.old queues.new }
{
    queues.put(item, recipient, is_waiting(kept, item, recipient));
}

// The same of each recipient of an item.
#[tactic(auto, using(crate::proofs::PutDown::all_laws))]
fn put_down_all(queues: &mut Queues, kept: &Kept, item: u32)
    requires { HasRoom queues.old.queues 1 }
    ensures { IsPutDown (state_of kept.now) (λ i r. i ≡ item) 1 queues.old queues.new }
{
    let count = queues.recipients(item);
    let mut recipient: u32 = 0;
    while recipient < count {
        recipient += 1;
        put_down_one(queues, kept, item, recipient);
    }
}

// The same of whom a change touches.
#[tactic(auto, using(crate::proofs::PutDown::touched_laws))]
fn put_down(queues: &mut Queues, kept: &Kept, touched: Touched)
    requires { HasRoom queues.old.queues 2 }
    ensures { IsPutDown (state_of kept.now) (IsTouched touched) 2 queues.old queues.new }
{
    match touched {
        Touched::Nothing => {}
        Touched::One { item, recipient } => put_down_one(queues, kept, item, recipient),
        Touched::All { item } => put_down_all(queues, kept, item),
        Touched::Both { item, other } => {
            put_down_all(queues, kept, item);
            put_down_all(queues, kept, other);
        }
    }
}

// An item more is put down.
fn add_row<R: Rules>(rules: &R, queues: &mut Queues, kept: &Kept, row: Marks)
    requires numbers { length kept.now.parts.items.items < 2 ^ 32 }
    requires queued { IsQueuedUpTo (R.text rules.now) (state_of kept.now) queues.old (length queues.old.rows) Nobody }
    requires next { IsNextRow (R.text rules.now) queues.old.words kept.now.parts.items.items
        (length queues.old.rows) row }
    requires room { 1 ≤ queues.old.room }
    requires places { HasRoom queues.old.queues 1 }
    ensures queued { IsQueuedUpTo (R.text rules.now) (state_of kept.now) queues.new (length queues.new.rows) Nobody }
    ensures more { IsRowMore queues.old queues.new }
{
    queues.push(row);
    let number = queues.items() as u32;
    put_down_all(queues, kept, number);
}

// The items behind those that are put down are put down.
fn add_rows<R: Rules>(rules: &R, queues: &mut Queues, kept: &Kept, rows: Vec<Marks>)
    requires numbers { length kept.now.parts.items.items < 2 ^ 32 }
    requires queued { IsQueuedUpTo (R.text rules.now) (state_of kept.now) queues.old (length queues.old.rows) Nobody }
    requires coming { AreComing (R.text rules.now) queues.old.words kept.now.parts.items.items
        (length queues.old.rows) rows.items }
    requires room { length rows.items ≤ queues.old.room }
    requires places { HasRoom queues.old.queues (length rows.items) }
    ensures { AreQueued (R.text rules.now) (state_of kept.now) queues.new }
{
    let mut rest = rows.into_iter();
    while let Some(row) = rest.next() {
        add_row(rules, queues, kept, row);
    }
}

/// The queues follow a change that was made: it is put down of whom it touches, and of the recipients of the items that
/// it made, whether they wait.
pub(crate) fn follow<R: Rules>(
    rules: &R,
    queues: &mut Queues,
    kept: &Kept,
    touched: Touched,
    rows: Vec<Marks>,
)
    requires numbers { length kept.now.parts.items.items < 2 ^ 32 }
    requires queued { IsQueuedUpTo (R.text rules.now) (state_of kept.now) queues.old (length queues.old.rows)
        (IsTouched touched) }
    requires coming { AreComing (R.text rules.now) queues.old.words kept.now.parts.items.items
        (length queues.old.rows) rows.items }
    requires room { length rows.items ≤ queues.old.room }
    requires places { HasRoom queues.old.queues (length rows.items + 2) }
    ensures { AreQueued (R.text rules.now) (state_of kept.now) queues.new }
{
    put_down(queues, kept, touched);
    add_rows(rules, queues, kept, rows);
}

// ---- new tables

// The queues of the peers that the tables name, without items.
#[tactic(auto, using(crate::proofs::Named::named_laws))]
fn queues_named<R: Rules>(alloc: Global, rules: &R) -> Result<Queues, Memory>
    ensures named { IfOk result (λ q. IsNamedBy (R.text rules.now) q.words) }
    ensures rows { IfOk result (λ q. q.rows ≡ []) }
{
    let mut queues = Queues::new(alloc);
    let mut place: u32 = 0;
    while let Some(word) = rules.peer_at(place) {
        queues.name(alloc, word)?;
        if place == u32::MAX {
            return Err(Memory);
        }
        place += 1;
    }
    Ok(queues)
}

// An item more is found and put down.
fn find_row<R: Rules>(
    alloc: Global,
    rules: &R,
    queues: &mut Queues,
    kept: &Kept,
    item: &Item,
) -> Result<(), Memory>
    requires numbers { length kept.now.parts.items.items < 2 ^ 32 }
    requires queued { IsQueuedUpTo (R.text rules.now) (state_of kept.now) queues.old (length queues.old.rows) Nobody }
    requires item { numbered kept.now.parts.items.items (length queues.old.rows + 1) ≡ Some item.now }
    ensures queued { OnOk result (IsQueuedUpTo (R.text rules.now) (state_of kept.now) queues.new
        (length queues.new.rows) Nobody) }
    ensures more { OnOk result (length queues.new.rows ≡ length queues.old.rows + 1) }
{
    let row = row_of(alloc, rules, queues, item)?;
    queues.reserve(1, 1)?;
    add_row(rules, queues, kept, row);
    Ok(())
}

/// The queues of the peers in the state under these rules. Each item is read once.
pub(crate) fn queues_of<R: Rules>(alloc: Global, rules: &R, kept: &Kept) -> Result<Queues, Memory>
    requires numbers { length kept.now.parts.items.items < 2 ^ 32 }
    ensures { IfOk result (AreQueued (R.text rules.now) (state_of kept.now)) }
{
    let mut queues = queues_named(alloc, rules)?;
    for item in kept.parts.items.as_slice() {
        find_row(alloc, rules, &mut queues, kept, item)?;
    }
    Ok(queues)
}

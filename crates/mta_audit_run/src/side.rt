//! One of the two spools, as an audit sees it: what its bodies tell, one after the other.
//!
//! Each body is read as a step, which is taken up where it is possible, as opening a spool does, and what it tells of a
//! lane's activities is noted. Of the octets of activities those are kept that were sent and those that were completed,
//! which are the items' but for the heads of what was sent. All else of the spool is let go. A history may begin with a
//! snapshot, which has the lanes that are open then: of these it is known that they stand there.

ghost use Rattle.std.specs.Prelude.{◌≡◌, ◌<◌, ◌+◌, ◌^◌, ◌||◌, length, IfErr, IfOk, Some};
ghost use Rattle.mta_journal.specs.Bodies.{AreWithin, longest_first, records};
ghost use Rattle.mta_records.specs.Body.{HasFields};
ghost use Rattle.std.specs.Option.{option_map};
ghost use Rattle.mta_machine.specs.Rules.{tables_value};
ghost use Rattle.mta_state.specs.Kept.{state_of};
ghost use Rattle.mta_table_rules.specs.Text.{format_of, text_of};
ghost use Rattle.mta_replay.specs.Sound.{IsSound};
ghost use Rattle.mta_spool.specs.Replaying.{HasStopped, open_why};
ghost use Rattle.mta_audit_run.specs.Account.{AreAscending, AreNumbered};
ghost use Rattle.mta_audit_run.specs.Audit.{own_by, own_in};
ghost use Rattle.mta_audit_run.specs.Sides.{HasNoted, HasTold, IsSide, IsSideAt};

use crate::account::Account;
use crate::accounts::{note, note_endings};
use crate::told::told_by;
use mta_ber::{Memory, Octets, Word};
use mta_journal::{OpenWhy, Rest};
use mta_records::{RecordFault, Step, read_record};
use mta_replay::{NotMade, Replay};
use mta_table_rules::{TableRules, text_reads};
use mta_tables::Tables;
use std::alloc::Global;

/// One of the two spools: the agent's own name by the tables recorded last, where some were, whether its history begins
/// with a snapshot, and its lanes by ascending numbers.
#[derive(Drop)]
pub struct Side {
    pub own: Option<Word>,
    pub begun: bool,
    pub accounts: Vec<Account>,
}

// Takes up a step where it is possible, notes what it tells, and answers whether it is a snapshot.
#[tactic(auto, using(crate::proofs::Noted::told_laws))]
fn take_step(
    alloc: Global,
    replay: &mut Replay<TableRules>,
    accounts: &mut Vec<Account>,
    step: Step,
) -> Result<bool, NotMade>
    requires sound { IsSound format_of text_of replay.old.kept replay.old.rules }
    requires fields { HasFields step }
    requires numbered { AreNumbered 0 accounts.old.items (state_of replay.old.kept).lanes.count }
    ensures told { HasTold step (state_of replay.old.kept) accounts.old.items (state_of replay.new.kept)
        accounts.new.items result }
    ensures sound { IsSound format_of text_of replay.new.kept replay.new.rules }
{
    let told = told_by(alloc, &replay.kept.lanes, &step)?;
    let snapshot = told.is_begun();
    replay.add(alloc, step)?;
    let items = replay.kept.parts.items.as_slice();
    note(alloc, accounts, told, items, &replay.kept.lanes)?;
    Ok(snapshot)
}

// Takes up the step of a body, where it has one that is possible, notes what it tells, and answers whether it is a
// snapshot.
fn take_up(
    alloc: Global,
    replay: &mut Replay<TableRules>,
    accounts: &mut Vec<Account>,
    body: &[u8],
) -> Result<bool, NotMade>
    requires fits { length body.now < 2 ^ 32 }
    requires sound { IsSound format_of text_of replay.old.kept replay.old.rules }
    requires numbered { AreNumbered 0 accounts.old.items (state_of replay.old.kept).lanes.count }
    ensures noted { HasNoted body.now (state_of replay.old.kept) accounts.old.items (state_of replay.new.kept)
        accounts.new.items result }
    ensures sound { IsSound format_of text_of replay.new.kept replay.new.rules }
{
    match read_record(alloc, body) {
        Ok(step) => take_step(alloc, replay, accounts, step),
        Err(RecordFault::BadRecord { .. }) => Err(NotMade::Impossible),
        Err(RecordFault::Memory) => Err(NotMade::Memory),
    }
}

// Whether one of both holds.
fn either(one: bool, other: bool) -> bool
    ensures { result ≡ (one || other) }
{
    one || other
}

// Why a body was not taken up whose gate is at this offset.
fn open_why(why: NotMade, at: u64) -> OpenWhy
    ensures { result ≡ open_why why at }
{
    match why {
        NotMade::Impossible => OpenWhy::NotSpool { at },
        NotMade::Memory => OpenWhy::Memory,
    }
}

// The agent's own name by its tables.
fn own_name(tables: &Tables) -> Result<Word, Memory>
    ensures { IfOk result (λ own. Some own ≡ option_map own_in (tables_value tables.now.text)) }
{
    text_reads(tables);
    tables.own().share()
}

// The agent's own name.
#[tactic(auto, using(crate::proofs::Own::own_laws))]
fn own_of(replay: &Replay<TableRules>) -> Result<Option<Word>, Memory>
    requires { IsSound format_of text_of replay.now.kept replay.now.rules }
    ensures { IfOk result (λ own. own ≡ own_by (state_of replay.now.kept).machine) }
{
    match &replay.rules {
        Some(force) => {
            let own = own_name(force.rules.tables())?;
            Ok(Some(own))
        }
        None => Ok(None),
    }
}

// The spool whose history leads to this state.
fn side_of(
    alloc: Global,
    replay: Replay<TableRules>,
    begun: bool,
    mut accounts: Vec<Account>,
) -> Result<Side, Memory>
    requires sound { IsSound format_of text_of replay.kept replay.rules }
    requires ascending { AreAscending accounts.items }
    ensures { IfOk result (IsSideAt (state_of replay.kept) begun accounts.items) }
{
    let own = own_of(&replay)?;
    note_endings(alloc, &mut accounts, replay.lanes().open_lanes.as_slice())?;
    Ok(Side {
        own,
        begun,
        accounts,
    })
}

/// The spool of these bodies, whose records stand from the gate at `first` on, or the offset of the gate of the first
/// body that is that of no possible step. Each body is freed once its step is taken up.
#[tactic(auto, using(crate::proofs::Sides::way_ended))]
pub fn side_of_bodies(alloc: Global, first: u64, bodies: Vec<Octets>) -> Result<Side, OpenWhy>
    requires short { AreWithin longest_first bodies.items }
    requires fits { first + length (records bodies.items) + 1 < 2 ^ 64 }
    ensures side { IfOk result (IsSide bodies.items) }
    ensures stopped { IfErr result (HasStopped first bodies.items) }
{
    let mut replay = Replay::new(alloc);
    let mut begun = false;
    let mut accounts = Vec::new(alloc);
    let mut at = first;
    let mut rest = Rest::new(bodies);
    while let Some(body) = rest.next() {
        match take_up(alloc, &mut replay, &mut accounts, body.as_slice()) {
            Ok(snapshot) => {
                begun = either(begun, snapshot);
                at += body.len() as u64 + 5;
            }
            Err(why) => {
                replay.discard();
                return Err(open_why(why, at));
            }
        }
    }
    match side_of(alloc, replay, begun, accounts) {
        Ok(side) => Ok(side),
        Err(Memory) => Err(OpenWhy::Memory),
    }
}

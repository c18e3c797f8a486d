//! Tables that are recorded, and an APDU that is accepted.

ghost use Rattle.std.specs.Prelude.{◌≡◌, ◌≢◌, ◌<◌, ◌≤◌, ◌^◌, ◌↔◌, IfOk, IfSome, IsTrue, [], length};
ghost use Rattle.std.specs.Option.{option_map};
ghost use Rattle.mta_ber.specs.Times.{last_moment};
ghost use Rattle.mta_records.specs.declared.state.Origin.TheVariants as Origins;
ghost use Rattle.mta_machine.specs.Machine.{accepted_item};
ghost use Rattle.mta_machine.specs.Rules.{is_tables_text};
ghost use Rattle.mta_histories.specs.Lanes.{State};
ghost use Rattle.mta_records.specs.declared.step.Step.TheVariants as Steps;
ghost use Rattle.mta_state.specs.Asked.{IsRestOf};
ghost use Rattle.mta_state.specs.Kept.{state_of};
ghost use Rattle.mta_state.specs.Prepared.{Prepares};
ghost use Rattle.mta_replay.specs.Found.{IsDecodedItem, accept_change};
ghost use Rattle.mta_replay.specs.Settleable.{MayAccept};

use mta_ber::{Memory, Octets, ReadFault};
use mta_machine::{Item, Origin};
use mta_state::{Change, Decoded, Kept, Rest, Rules, Submitted, accepted_item};
use std::alloc::Global;

/// What a Tables changes in any state, where it is known whether the grammar of tables reads the text; none exactly
/// where it is not possible.
#[tactic(auto, using(crate::proofs::Accepts::tables_laws))]
pub fn prepare_tables(text: Octets, is_text: bool) -> Option<Change>
    requires { is_text ≡ is_tables_text text }
    ensures { (s : State) → length s.machine.items < 2 ^ 32 → Prepares s (Steps.Tables text) result }
{
    if !is_text {
        return None;
    }
    Some(Change::Tables { text })
}

// Whether tables are recorded.
fn has_tables(kept: &Kept) -> bool
    ensures { IsTrue result ↔ (kept.now.parts.texts.items ≢ []) }
{
    match kept.parts.texts.as_slice() {
        [] => false,
        [_, ..] => true,
    }
}

fn may_accept(kept: &Kept, moment: u64) -> bool
    ensures { IsTrue result ↔ MayAccept (state_of kept.now) moment }
{
    has_tables(kept)
        && kept.parts.moment <= moment
        && kept.moment <= moment
        && kept.parts.items.len() < u32::MAX as usize
}

/// What an Accept changes, at a moment in seconds since 1950-01-01 00:00:00 UTC; none exactly where it is not possible.
#[tactic(auto, using(crate::proofs::Accepts::accept_laws))]
pub fn prepare_accept(
    alloc: Global,
    kept: &Kept,
    moment: u64,
    apdu: Octets,
) -> Result<Option<Change>, Memory>
    ensures { IfOk result (Prepares (state_of kept.now) (Steps.Accept moment apdu)) }
{
    if !may_accept(kept, moment) {
        return Ok(None);
    }
    match accepted_item(alloc, apdu, Origin::Submitted, moment) {
        Ok(item) => Ok(Some(Change::Accept { item, moment })),
        Err(ReadFault::Bad(_)) => Ok(None),
        Err(ReadFault::Memory) => Err(Memory),
    }
}

/// The item that an Accept makes, and what is found of it then.
#[derive(Drop)]
pub struct Arrival {
    pub item: Item,
    /// What its octets were read as.
    pub decoded: Decoded,
    /// None where something is called for at once.
    pub rest: Option<Rest>,
}

/// The item that an Accept makes, at a moment in seconds since 1950-01-01 00:00:00 UTC, and what is found of it then,
/// from one reading; none exactly where it is not possible.
#[tactic(auto, using(crate::proofs::Accepts::arrival_laws))]
pub fn prepare_arrival<R: Rules>(
    alloc: Global,
    rules: &R,
    kept: &Kept,
    moment: u64,
    apdu: Octets,
) -> Result<Option<Arrival>, Memory>
    requires { moment ≤ last_moment }
    ensures prepares { IfOk result (λ found.
        Prepares (state_of kept.now) (Steps.Accept moment apdu) (option_map (accept_change moment) found)) }
    ensures decoded { IfOk result (λ found. IfSome found (λ a. IsDecodedItem apdu a.item a.decoded)) }
    ensures rest { IfOk result (λ found. IfSome found (λ a.
        IsRestOf (R.format rules.now) (R.text rules.now) (accepted_item apdu Origins.Submitted moment) moment a.rest)) }
{
    if !may_accept(kept, moment) {
        return Ok(None);
    }
    match rules.submitted(alloc, apdu, moment)? {
        None => Ok(None),
        Some(
            Submitted {
                item,
                decoded,
                rest,
            },
        ) => Ok(Some(Arrival {
            item,
            decoded,
            rest,
        })),
    }
}

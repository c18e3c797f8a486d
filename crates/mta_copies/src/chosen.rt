//! Which of the recipients are chosen, answered for each at once.

ghost use Rattle.std.specs.Prelude.{◌≡◌, ◌<◌, ◌+◌, ◌++◌, ◌∷◌, [], ℕ, List, IfOk, IfSome, IfNone, length};
ghost use Rattle.mta_copies.specs.Flags.{AreFlags};

use mta_ber::Memory;
use std::alloc::Global;

// The place, from 0, of a position that is counted from 1; none where it is not among so many.
fn place_of(position: u32, count: usize) -> Option<usize>
    ensures some { IfSome result (λ place. (place + 1 ≡ position) × (place < count)) }
    ensures none { IfNone result ((place : ℕ) → place < count → place + 1 ≡ position → ⊥) }
{
    let place = (position as usize).checked_sub(1)?;
    if place < count { Some(place) } else { None }
}

// One position more is chosen. One that is not among the recipients is passed over.
#[tactic(auto, using(crate::proofs::Flags::one_chosen, crate::proofs::Flags::passed_over))]
fn choose(flags: &mut Vec<bool>, position: u32)
    ensures each { (chosen : List ℕ) → AreFlags chosen flags.old.items
        → AreFlags (chosen ++ position ∷ []) flags.new.items }
    ensures as_many { length flags.new.items ≡ length flags.old.items }
{
    match place_of(position, flags.len()) {
        None => {}
        Some(place) => flags[place] = true,
    }
}

/// For each of so many recipients whether it is at a chosen position, counted from 1. The positions are gone through
/// once.
#[tactic(auto, using(crate::proofs::Flags::none_chosen, crate::proofs::Flags::next_chosen))]
pub(crate) fn chosen_flags(alloc: Global, chosen: &[u32], count: usize) -> Result<Vec<bool>, Memory>
    ensures each { IfOk result (λ flags. AreFlags chosen.now flags.items) }
    ensures as_many { IfOk result (λ flags. length flags.items ≡ count) }
{
    let mut flags = vec![in alloc; false; count]?;
    for position in chosen {
        choose(&mut flags, *position);
    }
    Ok(flags)
}

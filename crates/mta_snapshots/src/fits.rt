//! How the parts of a state fit one another.

ghost use Rattle.std.specs.Prelude.{◌≤◌, ◌↔◌, IfOk, IsTrue};
ghost use Rattle.std.specs.List.{AllByRecursion};
ghost use Rattle.mta_ber.specs.Times.{last_moment};
ghost use Rattle.mta_snapshots.specs.Fits.{AreListed, FitTogether};
ghost use Rattle.mta_state.specs.Kept.{state_of};

use crate::lines::are_lines;
use crate::names::{are_apart, are_few};
use crate::numbering::{are_numbered, is_recorded};
use crate::once::are_once;
use crate::reported::are_settled;
use crate::texts::are_texts;
use crate::transfers::are_at_rest;
use mta_ber::Memory;
use mta_state::{Kept, Rules};
use std::alloc::Global;

// Whether deliveries and lanes fit what they name, as far as no rules are asked.
fn are_listed(kept: &Kept) -> bool
    ensures { IsTrue result ↔ AreListed (state_of kept.now) }
{
    let lanes = kept.lanes.open_lanes.as_slice();
    if !is_recorded(kept) {
        return false;
    }
    if !are_lines(kept) {
        return false;
    }
    if !are_numbered(lanes, kept.lanes.count) {
        return false;
    }
    if !are_few(&kept.lanes) {
        return false;
    }
    if !are_apart(lanes) {
        return false;
    }
    are_settled(&kept.parts, lanes)
}

/// Whether the parts of a state fit one another.
pub(crate) fn fit_together<R: Rules + Drop>(alloc: Global, kept: &Kept) -> Result<bool, Memory>
    requires arrived { AllByRecursion (λ item. item.arrival ≤ last_moment) kept.now.parts.items.items }
    requires fits { kept.now.moment ≤ last_moment }
    ensures { IfOk result (λ b. IsTrue b ↔ FitTogether (state_of kept.now)) }
{
    if !are_listed(kept) || !are_once(alloc, kept)? {
        return Ok(false);
    }
    if !are_texts::<R>(alloc, kept.parts.format, kept.parts.texts.as_slice())? {
        return Ok(false);
    }
    are_at_rest::<R>(alloc, kept)
}

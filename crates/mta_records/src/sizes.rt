//! How many octets fields have.

ghost use Rattle.std.specs.Prelude.{◌≡◌, length};
ghost use Rattle.std.specs.Option.{option_copied};
ghost use Rattle.mta_records.specs.Fields.{a_string, an_additional, a_reference, some_numbers};
ghost use Rattle.mta_records.specs.LaneName.{a_lane_name};
ghost use Rattle.mta_records.specs.Sizes.{capped};
ghost use Rattle.mta_records.specs.declared.lane.LaneRole.{LaneRole};

use crate::reference::Reference;
use mta_ber::Word;

/// A string with its length before it.
#[tactic(auto, using(crate::proofs::Lengths::lengths), unfolding(crate::specs::Fields::string))]
pub fn string_size(octets: &[u8]) -> u64
    ensures { result ≡ capped (length (a_string.spelled octets.now)) }
{
    (octets.len() as u64).saturating_add(4)
}

/// A list of numbers with its count before it.
#[tactic(auto, using(crate::proofs::Lengths::lengths), unfolding(crate::specs::Fields::numbers))]
pub fn numbers_size(numbers: &[u32]) -> u64
    ensures { result ≡ capped (length (some_numbers.spelled numbers.now)) }
{
    (numbers.len() as u64).saturating_mul(4).saturating_add(4)
}

/// Whether an additional reference is given, and its octets.
#[tactic(auto, using(crate::proofs::Lengths::lengths), unfolding(crate::specs::Fields::additional))]
fn additional_size(additional: Option<&[u8]>) -> u64
    ensures { result ≡ capped (length (an_additional.spelled (option_copied additional.entry))) }
{
    match additional {
        Some(octets) => string_size(octets).saturating_add(1),
        None => string_size(&[]).saturating_add(1),
    }
}

/// A session connection identifier.
pub fn reference_size(reference: &Reference) -> u64
    ensures { result ≡ capped (length (a_reference.spelled reference.now)) }
{
    string_size(reference.calling())
        .saturating_add(additional_size(reference.additional()))
        .saturating_add(8)
}

/// How two agents call a lane: the role of this one, the other's name, and the reference.
#[tactic(auto, using(crate::proofs::Lengths::lengths), unfolding(crate::specs::LaneName::lane_name_octets))]
pub fn lane_name_size(peer: &Word, reference: &Reference) -> u64
    ensures { (role : LaneRole) → result ≡ capped (length (a_lane_name.spelled (role, (peer.now, reference.now)))) }
{
    string_size(peer.as_slice())
        .saturating_add(reference_size(reference))
        .saturating_add(1)
}

//! The lowest number behind another.

ghost use Rattle.std.specs.Ordering.{nat_cmp};
ghost use Rattle.std.specs.BTreeSet.{contains};
ghost use Rattle.mta_dues.specs.Next.{IsNextIn};

use std::collections::BTreeSet;
use std::ops::Bound;

/// The lowest of the numbers that is above this one.
pub(crate) fn next_in(numbers: &BTreeSet<u32>, after: u32) -> Option<u32>
    ensures { IsNextIn (contains nat_cmp numbers.now) after result }
{
    match numbers
        .range((Bound::Excluded(after), Bound::Unbounded))
        .next()
    {
        Some(number) => Some(*number),
        None => None,
    }
}

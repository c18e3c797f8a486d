//! Lists of values, each of which has fields of a record.

ghost use Rattle.std.specs.Prelude.{◌≡◌, ◌++◌, ◌<◌, ◌^◌, Bool, List, Result, ℕ, flat_map, length, IfOk, OnOk};
ghost use Rattle.std.specs.List.{AllByRecursion};
ghost use Rattle.mta_records.specs.Answered.{Gives};
ghost use Rattle.mta_records.specs.Fields.{a_string};
ghost use Rattle.mta_records.specs.Form.{values_at, listed_at, listed};
ghost use Rattle.mta_records.specs.Sizes.{capped};

use crate::fields::{Short, number_of, string_of};
use crate::sizes::string_size;
use crate::writing::{put_number, put_string};
use mta_ber::{Memory, Octets};
use std::alloc::Global;

/// What stands in a list of a snapshot. Its fields may depend on whether the snapshot is of format 2.
pub trait Field: Drop {
    /// What is read at the front of octets, and what follows it.
    ghost at: { Bool → List ℕ → Result (Self × List ℕ) ℕ };

    /// How it is spelled.
    ghost spelled: { Bool → Self → List ℕ };

    /// Which values are spelled.
    ghost Fits: { Bool → Self → Type 0 };

    /// Reads one from the front of octets.
    fn read(alloc: Global, two: bool, octets: &[u8]) -> Result<(Self, &[u8]), Short>
        ensures { Gives (λ x. (x.0, x.1.now)) result (at two octets.now) };

    /// Writes it behind what stands in the buffer.
    fn put(&self, out: &mut Octets, two: bool) -> Result<(), Memory>
        requires { Fits two self.now }
        ensures { OnOk result (out.new ≡ out.old ++ spelled two self.now) };

    /// How many octets its fields have, or 2^64 - 1 where they have more.
    fn size(&self, two: bool) -> u64
        ensures { result ≡ capped (length (spelled two self.now)) };
}

fn values_of<F: Field>(
    alloc: Global,
    two: bool,
    count: u32,
    octets: &[u8],
) -> Result<(Vec<F>, &[u8]), Short>
    ensures exact { Gives (λ x. (x.0.items, x.1.now)) result (values_at (F.at two) count octets.now) }
    ensures few { IfOk result (λ x. length x.0.items < 2 ^ 32) }
{
    let mut values = Vec::new(alloc);
    let mut rest = octets;
    for _ in 0..count {
        let (value, behind) = F::read(alloc, two, rest)?;
        values.push(value)?;
        rest = behind;
    }
    Ok((values, rest))
}

/// The values behind their count.
pub fn list_of<F: Field>(alloc: Global, two: bool, octets: &[u8]) -> Result<(Vec<F>, &[u8]), Short>
    ensures exact { Gives (λ x. (x.0.items, x.1.now)) result (listed_at (F.at two) octets.now) }
    ensures few { IfOk result (λ x. length x.0.items < 2 ^ 32) }
{
    let (count, rest) = number_of(octets)?;
    values_of(alloc, two, count, rest)
}

fn put_values<F: Field>(out: &mut Octets, two: bool, values: &[F]) -> Result<(), Memory>
    requires { AllByRecursion (F.Fits two) values.now }
    ensures { OnOk result (out.new ≡ out.old ++ flat_map (F.spelled two) values.now) }
{
    for value in values {
        value.put(out, two)?;
    }
    Ok(())
}

/// The count of the values, and the values.
pub fn put_list<F: Field>(out: &mut Octets, two: bool, values: &[F]) -> Result<(), Memory>
    requires few { length values.now < 2 ^ 32 }
    requires fit { AllByRecursion (F.Fits two) values.now }
    ensures { OnOk result (out.new ≡ out.old ++ listed (F.spelled two) values.now) }
{
    put_number(out, values.len() as u32)?;
    put_values(out, two, values)
}

fn values_size<F: Field>(two: bool, values: &[F]) -> u64
    ensures { result ≡ capped (length (flat_map (F.spelled two) values.now)) }
{
    let mut size = 0u64;
    for value in values {
        size = size.saturating_add(value.size(two));
    }
    size
}

/// How many octets the count of the values and the values have, or 2^64 - 1 where they have more.
pub fn list_size<F: Field>(two: bool, values: &[F]) -> u64
    ensures { result ≡ capped (length (listed (F.spelled two) values.now)) }
{
    values_size(two, values).saturating_add(4)
}

impl Field for Octets {
    ghost at = { λ two octets. a_string.at octets };

    ghost spelled = { λ two s. a_string.spelled s };

    ghost Fits = { λ two s. a_string.Fits s };

    fn read(alloc: Global, _two: bool, octets: &[u8]) -> Result<(Octets, &[u8]), Short> {
        let (string, rest) = string_of(octets)?;
        let string = Octets::from_slice(alloc, string)?;
        Ok((string, rest))
    }

    fn put(&self, out: &mut Octets, _two: bool) -> Result<(), Memory> {
        put_string(out, self.as_slice())
    }

    fn size(&self, _two: bool) -> u64 {
        string_size(self.as_slice())
    }
}

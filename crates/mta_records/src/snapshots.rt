//! A snapshot, as fields of its record.

ghost use Rattle.std.specs.Prelude.{◌≡◌, ◌++◌, length, OnOk};
ghost use Rattle.mta_records.specs.Answered.{Gives};
ghost use Rattle.mta_records.specs.Sizes.{capped};
ghost use Rattle.mta_records.specs.Snapshots.{a_format, snapshot_as, a_snapshot};

use crate::fields::{Short, moment_of, number_of};
use crate::lists::{list_of, list_size, put_list};
use crate::snapshot::Snapshot;
use crate::writing::{put_long_number, put_number};
use mta_ber::{Memory, Octets};
use std::alloc::Global;

/// The format of a snapshot, which is 1 or 2.
fn format_of(octets: &[u8]) -> Result<(u32, &[u8]), Short>
    ensures { Gives (λ x. (x.0, x.1.now)) result (a_format.at octets.now) }
{
    let (format, rest) = number_of(octets)?;
    if format != 1 && format != 2 {
        return Err(Short::Left(octets.len()));
    }
    Ok((format, rest))
}

/// What follows the format.
fn state_of(alloc: Global, format: u32, octets: &[u8]) -> Result<(Snapshot, &[u8]), Short>
    ensures { Gives (λ x. (x.0, x.1.now)) result ((snapshot_as format).at octets.now) }
{
    let two = format == 2;
    let (moment, rest) = moment_of(octets)?;
    let (tables, rest) = list_of(alloc, two, rest)?;
    let (items, rest) = list_of(alloc, two, rest)?;
    let (mailboxes, rest) = list_of(alloc, two, rest)?;
    let (lane_count, rest) = number_of(rest)?;
    let (lanes, rest) = list_of(alloc, two, rest)?;
    let state = Snapshot {
        format,
        moment,
        tables,
        items,
        mailboxes,
        lane_count,
        lanes,
    };
    Ok((state, rest))
}

/// A snapshot: its format, and what follows the format.
#[tactic(auto, unfolding(crate::specs::Snapshots::a_snapshot))]
pub fn snapshot_of(alloc: Global, octets: &[u8]) -> Result<(Snapshot, &[u8]), Short>
    ensures { Gives (λ x. (x.0, x.1.now)) result (a_snapshot.at octets.now) }
{
    let (format, rest) = format_of(octets)?;
    state_of(alloc, format, rest)
}

/// A snapshot: its format, and what follows the format.
#[tactic(auto, unfolding(crate::specs::Snapshots::a_snapshot))]
pub fn put_snapshot(out: &mut Octets, state: &Snapshot) -> Result<(), Memory>
    requires { a_snapshot.Fits state.now }
    ensures { OnOk result (out.new ≡ out.old ++ a_snapshot.spelled state.now) }
{
    let two = state.format == 2;
    put_number(out, state.format)?;
    put_long_number(out, state.moment)?;
    put_list(out, two, state.tables.as_slice())?;
    put_list(out, two, state.items.as_slice())?;
    put_list(out, two, state.mailboxes.as_slice())?;
    put_number(out, state.lane_count)?;
    put_list(out, two, state.lanes.as_slice())
}

impl Snapshot {
    /// How many octets its fields have, or 2^64 - 1 where they have more.
    pub fn size(&self) -> u64
        ensures { result ≡ capped (length (a_snapshot.spelled self.now)) }
    {
        let two = self.format == 2;
        list_size(two, self.tables.as_slice())
            .saturating_add(list_size(two, self.items.as_slice()))
            .saturating_add(list_size(two, self.mailboxes.as_slice()))
            .saturating_add(list_size(two, self.lanes.as_slice()))
            .saturating_add(16)
    }
}

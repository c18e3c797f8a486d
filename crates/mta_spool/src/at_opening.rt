//! What a spool was opened with, for clauses alone.

use mta_ber::Octets;
use std::snapshot::Snapshot;

/// What a spool was opened with. It has no octets, and only clauses read it.
#[derive(Drop)]
pub struct AtOpening<D, C> {
    /// The disk and the clock as they were handed in.
    pub disk: Snapshot<D>,
    pub clock: Snapshot<C>,
    /// The disk as the first sync left it, and as it was when opening was over.
    pub synced: Snapshot<D>,
    pub over: Snapshot<D>,
    /// The bodies of the records that stood on it, the body of the snapshot to which they were compacted, if they were,
    /// and whether the format was set behind them; and their first gate then.
    pub bodies: Snapshot<Vec<Octets>>,
    pub snapshot: Snapshot<Option<Octets>>,
    pub sets_format: Snapshot<bool>,
    pub first: Snapshot<u64>,
}

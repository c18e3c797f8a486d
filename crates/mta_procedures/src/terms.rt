//! What an item says of its time.

use mta_envelope::Priority;

/// What an item says of its time (X.411, clause 14: deferral, latest delivery, maximum time). Moments are seconds since
/// 1950-01-01 00:00:00 UTC.
#[derive(Clone, Copy)]
pub struct Terms {
    pub priority: Priority,
    /// Before this moment it is not delivered.
    pub deferral: Option<u64>,
    /// From this moment on it is not delivered.
    pub latest: Option<u64>,
}

//! When recipients of an item may be relayed, and what is found of an item of which nothing is called for at once.

ghost use Rattle.std.specs.Prelude.{◌≡◌};
ghost use Rattle.mta_state.specs.Spans.{has};

use crate::decoded::Decoded;
use mta_machine::Item;

/// From which moment on, and until which one, recipients of an item may be relayed, in seconds since 1950-01-01
/// 00:00:00 UTC (X.411, clause 14: deferral, latest delivery, maximum time). Before it the item is held, and from its
/// end on it has expired. Nobody is relayed at all where it ends before it begins.
#[derive(Clone, Copy)]
pub struct Span {
    /// The end of the deferral, or 0 where there is none.
    pub from: u64,
    /// The expiry.
    pub until: u64,
}

impl Span {
    /// Whether a moment lies in it.
    pub fn has(&self, moment: u64) -> bool
        ensures { result ≡ has self.now moment }
    {
        self.from <= moment && moment < self.until
    }
}

/// Until when an item rests, in seconds since 1950-01-01 00:00:00 UTC, and when its recipients may be relayed.
#[derive(Clone, Copy)]
pub struct Rest {
    /// The next moment at which a verdict may change.
    pub until: u64,
    pub span: Span,
}

/// An item that is submitted, and what is found of it then.
#[derive(Drop)]
pub struct Submitted {
    pub item: Item,
    /// What its octets were read as.
    pub decoded: Decoded,
    /// None where something is called for at once.
    pub rest: Option<Rest>,
}

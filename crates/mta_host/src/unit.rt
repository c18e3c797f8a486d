//! Where units begin and end among the octets of a link, and how fast a peer gives them.
//!
//! A unit is four octets of its body's length, the most significant first, a kind octet, and the body. A body has at
//! most 2,097,157 octets; a length above it is no unit's, and is answered as such once its four octets came.

ghost use Rattle.std.specs.Prelude.{◌≡◌, ◌+◌, ◌<◌, ◌≤◌, length, true, false};

use crate::patience::{LEAST_OCTETS, OPENING_OCTETS};
use std::time::{Duration, Instant};

// The octets of a body's length.
const LENGTH_OCTETS: u8 = 4;

// The longest body of a unit.
const LONGEST_BODY: u32 = 2_097_157;

/// Whether these first octets of a connection begin a session: a whole unit, so many octets of one that it is as good
/// as whole, or a length that no unit has.
pub(crate) fn is_opening(octets: &[u8]) -> bool
    ensures short { length octets.now < 4 → result ≡ false }
    ensures long { OPENING_OCTETS ≤ length octets.now → result ≡ true }
{
    if octets.len() < usize::from(LENGTH_OCTETS) {
        return false;
    }
    let body = u32::from_be_bytes([octets[0], octets[1], octets[2], octets[3]]);
    body > LONGEST_BODY
        || octets.len() >= OPENING_OCTETS
        || octets.len() as u64 > u64::from(LENGTH_OCTETS) + u64::from(body)
}

/// How far a peer is within a unit, and how fast it gives it.
#[derive(Drop)]
pub(crate) struct Pace {
    // The octets of a length that came, fewer than four, and their number.
    length: u32,
    length_octets: u8,
    // The octets behind the length that are still to come.
    left: u64,
    // The units that came whole.
    units: u64,
    // A span of time of the unit that is under way, and the octets of the unit that came in it.
    since: Option<Instant>,
    octets: u64,
}

impl Pace {
    pub(crate) fn new() -> Pace {
        Pace {
            length: 0,
            length_octets: 0,
            left: 0,
            units: 0,
            since: None,
            octets: 0,
        }
    }

    /// How many units came whole.
    pub(crate) fn units(&self) -> u64 {
        self.units
    }

    /// Whether a unit has come in part.
    pub(crate) fn is_under_way(&self) -> bool {
        self.length_octets > 0 || self.left > 0
    }

    // The next octet of a length, which begins a unit where it is the first.
    fn add_to_length(&mut self, octet: u8) {
        if self.length_octets == 0 {
            self.octets = 0;
        }
        self.octets = self.octets.saturating_add(1);
        self.length = self.length << 8 | u32::from(octet);
        self.length_octets = self.length_octets.wrapping_add(1);
        if self.length_octets >= LENGTH_OCTETS {
            self.left = u64::from(self.length) + 1;
            self.length = 0;
            self.length_octets = 0;
        }
    }

    // How many of the next octets, of which there are so many, the unit takes.
    fn skip(&mut self, most: usize) -> usize
        requires some_left { 0 < self.old.left }
        requires some { 0 < most }
        ensures bound { result ≤ most }
        ensures one { 0 < result }
    {
        let count = self.left.min(most as u64);
        self.left -= count;
        self.octets = self.octets.saturating_add(count);
        if self.left == 0 {
            self.units = self.units.saturating_add(1);
        }
        count as usize
    }

    fn pass(&mut self, octets: &[u8]) {
        let mut rest = octets;
        'units: while !rest.is_empty() {
            let count = if self.left > 0 {
                self.skip(rest.len())
            } else {
                self.add_to_length(rest[0]);
                1
            };
            rest = &rest[count..];
        }
    }

    /// Takes note of the next octets, which came now. A span begins with each unit.
    pub(crate) fn note(&mut self, octets: &[u8], now: Option<Instant>) {
        let units = self.units;
        let goes_on = self.is_under_way();
        self.pass(octets);
        if !goes_on || self.units != units {
            self.since = now;
        }
    }

    /// Whether a unit is under way whose span is over and in which too few octets came. Another span begins where
    /// enough came.
    pub(crate) fn is_slow(&mut self, now: Option<Instant>, span: Duration) -> bool {
        let (Some(since), Some(now)) = (self.since, now) else {
            return false;
        };
        if !self.is_under_way() || now.duration_since(since) < span {
            return false;
        }
        if self.octets < LEAST_OCTETS {
            return true;
        }
        self.since = Some(now);
        self.octets = 0;
        false
    }
}

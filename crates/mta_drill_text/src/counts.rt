//! What is counted in the rounds of a drill.

ghost use Rattle.std.specs.Prelude.{◌≡◌};
ghost use Rattle.mta_drill_text.specs.Counts.{none_yet, with_round};

/// Counts of messages, of breaks, and of octets of contents.
#[derive(Clone, Copy, Debug, Drop, PartialEq, Eq)]
pub struct Counts {
    pub accepted: u64,
    pub transferred: u64,
    pub delivered: u64,
    pub broken: u64,
    pub octets: u64,
}

impl Counts {
    /// None yet.
    pub fn new() -> Counts
        ensures { result ≡ none_yet }
    {
        Counts {
            accepted: 0,
            transferred: 0,
            delivered: 0,
            broken: 0,
            octets: 0,
        }
    }

    /// These and those of another round.
    pub fn with(&self, round: &Counts) -> Counts
        ensures { result ≡ with_round self.now round.now }
    {
        Counts {
            accepted: self.accepted.saturating_add(round.accepted),
            transferred: self.transferred.saturating_add(round.transferred),
            delivered: self.delivered.saturating_add(round.delivered),
            broken: self.broken.saturating_add(round.broken),
            octets: self.octets.saturating_add(round.octets),
        }
    }
}

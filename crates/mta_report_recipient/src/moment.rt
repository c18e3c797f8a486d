//! Moments that a UTCTime can say.

ghost use Rattle.mta_ber.specs.Parts.{Reads};
ghost use Rattle.mta_ber.specs.Seen.{view};
ghost use Rattle.mta_ber.specs.Times.{utc_in};

use mta_ber::{ReadFault, View};
use std::marker::Model;

/// A moment: seconds from 1950-01-01 00:00:00 UTC, at most the last second of 2049. Contracts see the number of
/// seconds.
#[derive(Clone, Copy, PartialEq, Eq)]
pub struct Moment {
    seconds: u64,
}

impl Model for Moment {
    ghost use Rattle.std.specs.Prelude.{ℕ, ◌≤◌};
    ghost use Rattle.mta_ber.specs.Times.{last_moment};

    ghost Value = { ℕ };

    ghost view = { λ m. m.seconds };

    ghost invariant = { λ m. m.seconds ≤ last_moment };

    ghost inverse = { λ n. record { seconds = n } };
}

impl Moment {
    ghost use Rattle.std.specs.Prelude.{◌≡◌, ◌≤◌};
    ghost use Rattle.mta_ber.specs.Times.{last_moment};

    /// The moment of a number of seconds.
    pub fn new(seconds: u64) -> Moment
        requires { seconds ≤ last_moment }
        ensures { result ≡ seconds }
    {
        Moment { seconds }
    }

    /// The number of seconds.
    pub fn seconds(self) -> u64
        ensures exact { result ≡ self }
        ensures within { result ≤ last_moment }
    {
        self.seconds
    }
}

/// The moment that a UTCTime spells.
pub fn read_moment(part: &View) -> Result<Moment, ReadFault>
    ensures { Reads result (utc_in (view part.now)) }
{
    let seconds = part.utc()?;
    Ok(Moment::new(seconds))
}

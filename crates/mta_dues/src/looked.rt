//! Up to which recipient of an item all who are pending were found to wait, so that the next look begins behind them.

ghost use Rattle.std.specs.Prelude.{◌≡◌};
ghost use Rattle.mta_dues.specs.Looked.{looked_up_to};

/// The first recipients of the item of a number, of whom each who is pending waits from a moment on until another, in
/// seconds since 1950-01-01 00:00:00 UTC. No step changes that, since nobody becomes pending again.
#[derive(Clone, Copy)]
pub struct Looked {
    pub number: u32,
    /// How many they are.
    pub most: u32,
    pub from: u64,
    pub until: u64,
}

impl Looked {
    /// How many of the first recipients of the item of a number are known to wait at a moment.
    pub(crate) fn up_to(&self, number: u32, moment: u64) -> u32
        ensures { result ≡ looked_up_to self.now number moment }
    {
        if self.number == number && self.from <= moment && moment < self.until {
            self.most
        } else {
            0
        }
    }
}

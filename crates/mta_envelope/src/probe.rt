//! Probes.

ghost use Rattle.std.specs.Prelude.{◌≡◌};
ghost use Rattle.mta_envelope.specs.Envelopes.{IsOfProbe};

use crate::envelope::Envelope;

/// A probe (X.411, Probe): an envelope, which has the normal priority and no deferred delivery time.
#[derive(Drop)]
pub struct Probe {
    pub envelope: Envelope,
    pub ghost kind: { IsOfProbe envelope },
}

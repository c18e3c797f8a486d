//! Indicators with one of them set.

ghost use Rattle.std.specs.Prelude.{◌≡◌, ◌<◌};
ghost use Rattle.mta_envelope_common.specs.Indicators.{IsIndicators};
ghost use Rattle.mta_procedures.specs.Bits.{weight, with_set};

use mta_ber::Bits;

/// The number whose one binary digit is the bit at a place.
fn weight_of(bits: Bits, place: u8) -> u64
    requires { place < bits.count }
    ensures { result ≡ weight bits place }
{
    1 << (bits.count() - 1 - place)
}

/// The indicators with the one at a place set.
#[tactic(auto, using(crate::proofs::Places::set_steps))]
pub fn with_set(bits: Bits, place: u8) -> Bits
    requires place { place < 8 }
    requires indicators { IsIndicators bits }
    ensures exact { result ≡ with_set place bits }
    ensures indicators { IsIndicators result }
{
    if bits.is_set(place) {
        return bits;
    }
    Bits::new(bits.count(), bits.word() + weight_of(bits, place))
}

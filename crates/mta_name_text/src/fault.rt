//! Why a text is no text form.

use mta_ber::Memory;
use thiserror::Error;

/// Why no name and no pattern was read from a text.
#[derive(Clone, Copy, Debug, PartialEq, Eq, Error)]
pub enum NameFault {
    /// The text is no text form, and `at` is the offset of the first octet at which none goes on.
    #[error("no text form goes on at {at}")]
    NameText { at: u32 },
    /// No memory was left for what is kept.
    #[error("out of memory")]
    Memory,
}

impl From<Memory> for NameFault {
    ghost use Rattle.std.specs.Prelude.{◌≡◌};
    ghost use Rattle.mta_name_text.specs.declared.fault.NameFault.TheVariants as Faults;

    ghost from_gives = { λ _ e. e ≡ Faults.Memory };

    fn from(_: Memory) -> NameFault {
        NameFault::Memory
    }
}

//! Reading a source to its end, or to a bound.
//!
//! In comes any `Source`; out go all its octets, or that it failed, has more than the bound, or that
//! memory was refused. Nothing else is touched.

ghost use Rattle.std.specs.Prelude.{◌≡◌, ◌+◌, ◌<◌, ◌≤◌, ◌^◌, List, ℕ, Some, length, IfOk};
ghost use Rattle.mta_edge.specs.Streams.{HasReadCause, TakesAtMost};

use crate::outside::{Failed, Source};
use mta_ber::{Memory, Octets};
use std::alloc::Global;
use thiserror::Error;

/// Why a source was not read to its end.
#[derive(Clone, Copy, Debug, PartialEq, Eq, Error)]
pub enum SourceFault {
    #[error("the source failed")]
    Failed,
    #[error("the source has more than its limit")]
    TooLong,
    #[error("out of memory")]
    Memory,
}

impl From<Failed> for SourceFault {
    ghost use Rattle.std.specs.Prelude.{◌≡◌};
    ghost use Rattle.mta_edge.specs.declared.read.SourceFault.TheVariants.{Failed as failed_fault};

    ghost from_gives = { λ _ e. e ≡ failed_fault };

    fn from(_: Failed) -> SourceFault {
        SourceFault::Failed
    }
}

impl From<Memory> for SourceFault {
    ghost use Rattle.std.specs.Prelude.{◌≡◌};
    ghost use Rattle.mta_edge.specs.declared.read.SourceFault.TheVariants.{Memory as memory_fault};

    ghost from_gives = { λ _ e. e ≡ memory_fault };

    fn from(_: Memory) -> SourceFault {
        SourceFault::Memory
    }
}

/// All that is left of a source, which may be `limit` octets. Of a longer one `limit + 1` octets are taken at most.
///
/// # Errors
/// `Failed` only where the source failed; `TooLong` only where it has more octets than `limit`; `Memory`.
pub fn read_all<I: Source>(alloc: Global, source: &mut I, limit: u32) -> Result<Octets, SourceFault>
    requires { limit < 2 ^ 31 }
    ensures read { IfOk result (λ o. (f : List ℕ) → I.model.left source.old ≡ Some f → o ≡ f) }
    ensures fits { IfOk result (λ o. length o ≤ limit) }
    ensures most { TakesAtMost I.model (limit + 1) source.old source.new }
    ensures cause { HasReadCause I.model limit source.old source.new result }
{
    let mut all = Octets::new(alloc);
    let mut buffer = [0u8; 4096];
    while all.len() <= limit as usize {
        let room = (limit as usize + 1 - all.len()).min(buffer.len());
        let piece = &mut buffer[..room];
        let count = source.take(piece)?;
        if count == 0 {
            return Ok(all);
        }
        all.extend(&piece[..count])?;
    }
    Err(SourceFault::TooLong)
}

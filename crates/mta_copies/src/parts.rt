//! Equal texts and content types.

ghost use Rattle.std.specs.Prelude.{◌≡◌, IfOk};

use mta_ber::{Memory, Text};
use mta_envelope_common::ContentKind;
use std::alloc::Global;

/// An equal text, where it is there.
pub fn copied_text(alloc: Global, text: &Option<Text>) -> Result<Option<Text>, Memory>
    ensures { IfOk result (λ t. t ≡ text.now) }
{
    match text {
        None => Ok(None),
        Some(text) => Ok(Some(text.copy(alloc)?)),
    }
}

/// An equal content type.
pub fn copied_kind(alloc: Global, kind: &ContentKind) -> Result<ContentKind, Memory>
    ensures { IfOk result (λ k. k ≡ kind.now) }
{
    match kind {
        ContentKind::Number(number) => Ok(ContentKind::Number(*number)),
        ContentKind::Oid(octets) => Ok(ContentKind::Oid(octets.copy(alloc)?)),
    }
}

/// An equal content type, where it is there.
pub fn copied_kind_if(
    alloc: Global,
    kind: &Option<ContentKind>,
) -> Result<Option<ContentKind>, Memory>
    ensures { IfOk result (λ k. k ≡ kind.now) }
{
    match kind {
        None => Ok(None),
        Some(kind) => Ok(Some(copied_kind(alloc, kind)?)),
    }
}

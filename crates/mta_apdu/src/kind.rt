//! Which of the APDUs a tag is that of.

ghost use Rattle.std.specs.Prelude.{◌≡◌};
ghost use Rattle.mta_apdu.specs.Apdus.{kind_of};

use mta_ber::{Tag, is_tag_of};

/// The choices of an APDU (X.411, MTS-APDU): `[0]`, `[1]` and `[2]`.
#[derive(Clone, Copy)]
pub enum ApduKind {
    OfMessage,
    OfReport,
    OfProbe,
}

/// The choice of a tag.
pub fn kind_of(tag: Tag) -> Option<ApduKind>
    ensures { result ≡ kind_of tag }
{
    if is_tag_of(tag, 2, 0) {
        Some(ApduKind::OfMessage)
    } else if is_tag_of(tag, 2, 1) {
        Some(ApduKind::OfReport)
    } else if is_tag_of(tag, 2, 2) {
        Some(ApduKind::OfProbe)
    } else {
        None
    }
}

//! Marks of entries. An entry of a mailbox is one delivery to it, and has a number: its place, from 1, among the
//! deliveries to that mailbox.

ghost use Rattle.std.specs.Prelude.{◌≡◌, ◌↔◌, IsTrue};
ghost use Rattle.mta_marks.specs.Marks.{Allows, octet_of, standing_by};

use mta_ber::Word;

/// What a mark says of an entry.
#[derive(Clone, Copy)]
pub enum MarkKind {
    Fetched,
    Deleted,
}

/// What became of an entry.
#[derive(Clone, Copy)]
pub enum Standing {
    New,
    Fetched,
    Deleted,
}

/// A mark: what it says, and of which entry.
#[derive(Drop)]
pub struct Mark {
    pub kind: MarkKind,
    pub mailbox: Word,
    pub number: u32,
}

/// The first octet of a mark's body.
pub(crate) fn octet_of(kind: MarkKind) -> u8
    ensures { result ≡ octet_of kind }
{
    match kind {
        MarkKind::Fetched => 1,
        MarkKind::Deleted => 2,
    }
}

/// What becomes of an entry by a mark of this kind.
pub(crate) fn standing_by(kind: MarkKind) -> Standing
    ensures { result ≡ standing_by kind }
{
    match kind {
        MarkKind::Fetched => Standing::Fetched,
        MarkKind::Deleted => Standing::Deleted,
    }
}

/// Whether a mark of this kind is possible: what is new may be fetched, and what was fetched deleted.
pub(crate) fn allows(standing: Standing, kind: MarkKind) -> bool
    ensures { IsTrue result ↔ Allows standing kind }
{
    match (standing, kind) {
        (Standing::New, MarkKind::Fetched) => true,
        (Standing::Fetched, MarkKind::Deleted) => true,
        (Standing::New, MarkKind::Deleted) => false,
        (Standing::Fetched, MarkKind::Fetched) => false,
        (Standing::Deleted, MarkKind::Fetched) => false,
        (Standing::Deleted, MarkKind::Deleted) => false,
    }
}

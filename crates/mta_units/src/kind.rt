//! The kinds of units.

ghost use Rattle.std.specs.Prelude.{◌≡◌};
ghost use Rattle.mta_units.specs.Kind.{kind_number, kind_at};

/// The kind of a unit; its number is its kind octet.
#[derive(Clone, Copy)]
pub enum UnitKind {
    Open = 1,
    Accept = 2,
    Reject = 3,
    Start = 4,
    Piece = 5,
    Sync = 6,
    SyncAck = 7,
    End = 8,
    EndAck = 9,
    Resume = 10,
    ResumeAck = 11,
    Discard = 12,
    DiscardAck = 13,
    Please = 14,
    Give = 15,
    Exception = 16,
    Abort = 17,
    Close = 18,
    CloseAck = 19,
}

impl UnitKind {
    /// The kind octet.
    pub fn number(self) -> u8
        ensures { result ≡ kind_number self }
    {
        self as u8
    }

    /// The kind of a kind octet; `None` exactly where it is no kind's.
    pub fn from_number(octet: u8) -> Option<UnitKind>
        ensures { result ≡ kind_at octet }
    {
        match octet {
            1 => Some(UnitKind::Open),
            2 => Some(UnitKind::Accept),
            3 => Some(UnitKind::Reject),
            4 => Some(UnitKind::Start),
            5 => Some(UnitKind::Piece),
            6 => Some(UnitKind::Sync),
            7 => Some(UnitKind::SyncAck),
            8 => Some(UnitKind::End),
            9 => Some(UnitKind::EndAck),
            10 => Some(UnitKind::Resume),
            11 => Some(UnitKind::ResumeAck),
            12 => Some(UnitKind::Discard),
            13 => Some(UnitKind::DiscardAck),
            14 => Some(UnitKind::Please),
            15 => Some(UnitKind::Give),
            16 => Some(UnitKind::Exception),
            17 => Some(UnitKind::Abort),
            18 => Some(UnitKind::Close),
            19 => Some(UnitKind::CloseAck),
            _ => None,
        }
    }
}

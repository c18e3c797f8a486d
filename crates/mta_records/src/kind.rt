//! The kinds of records.

ghost use Rattle.std.specs.Prelude.{◌≡◌};
ghost use Rattle.mta_records.specs.Kind.{octet_of, kind_at};

/// The kind of a record, one for each kind of step; its number is its kind octet.
#[derive(Clone, Copy, Debug)]
pub enum RecordKind {
    Tables = 1,
    Accept = 2,
    Deliver = 3,
    Expand = 4,
    Report = 5,
    Affirm = 6,
    Discard = 7,
    Back = 8,
    LaneOpen = 9,
    LaneAgree = 10,
    Bind = 11,
    Start = 12,
    Confirm = 13,
    Ending = 14,
    Sent = 15,
    Refused = 16,
    Denied = 17,
    Dropped = 18,
    Abandon = 19,
    Secure = 20,
    Complete = 21,
    Drop = 22,
    CloseLane = 23,
    Snapshot = 24,
    Format = 25,
}

impl RecordKind {
    /// The kind octet.
    pub fn octet(self) -> u8
        ensures { result ≡ octet_of self }
    {
        self as u8
    }

    /// The kind of a kind octet; `None` exactly where it is no kind's.
    pub fn from_octet(octet: u8) -> Option<RecordKind>
        ensures { result ≡ kind_at octet }
    {
        match octet {
            1 => Some(RecordKind::Tables),
            2 => Some(RecordKind::Accept),
            3 => Some(RecordKind::Deliver),
            4 => Some(RecordKind::Expand),
            5 => Some(RecordKind::Report),
            6 => Some(RecordKind::Affirm),
            7 => Some(RecordKind::Discard),
            8 => Some(RecordKind::Back),
            9 => Some(RecordKind::LaneOpen),
            10 => Some(RecordKind::LaneAgree),
            11 => Some(RecordKind::Bind),
            12 => Some(RecordKind::Start),
            13 => Some(RecordKind::Confirm),
            14 => Some(RecordKind::Ending),
            15 => Some(RecordKind::Sent),
            16 => Some(RecordKind::Refused),
            17 => Some(RecordKind::Denied),
            18 => Some(RecordKind::Dropped),
            19 => Some(RecordKind::Abandon),
            20 => Some(RecordKind::Secure),
            21 => Some(RecordKind::Complete),
            22 => Some(RecordKind::Drop),
            23 => Some(RecordKind::CloseLane),
            24 => Some(RecordKind::Snapshot),
            25 => Some(RecordKind::Format),
            _ => None,
        }
    }
}

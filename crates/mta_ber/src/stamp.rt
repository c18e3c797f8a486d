//! The digits of a time.

/// What the digits of a UTCTime say: a year of the century, a date, a time of day, and how far that is ahead of UTC or
/// behind it.
#[derive(Clone, Copy, Debug)]
pub struct Stamp {
    pub year: u8,
    pub month: u8,
    pub day: u8,
    pub hour: u8,
    pub minute: u8,
    pub second: u8,
    pub ahead: bool,
    pub offset_hour: u8,
    pub offset_minute: u8,
}

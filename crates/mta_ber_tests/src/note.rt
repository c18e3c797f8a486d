//! A type of three components, which the example reads.

use mta_ber::{Bits, Text};

/// A SET of a title, `[0]` PrintableString of 1 to 20 characters, a count, `[1]` INTEGER of 0 to 100 that is 0 where it
/// is absent, and flags, `[2]` BIT STRING, which may be absent.
#[derive(Drop)]
pub struct Note {
    pub title: Text,
    pub count: i64,
    pub flags: Option<Bits>,
}

/// The components so far.
#[derive(Drop)]
pub struct NoteParts {
    pub title: Option<Text>,
    pub count: Option<i64>,
    pub flags: Option<Bits>,
}

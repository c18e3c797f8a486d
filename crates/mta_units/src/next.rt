//! What comes next in a stream.

use crate::front::BadUnit;
use crate::unit::Unit;

/// The next unit; that more octets are needed to tell; or that the unit that begins at an offset of the stream is none.
#[derive(Drop)]
pub enum Next {
    Unit(Unit),
    More,
    Bad { at: u64, kind: BadUnit },
}

//! Why a station is closed.

/// Why no session of a station is asked for any more.
#[derive(Clone, Copy)]
pub enum CloseWhy {
    /// All the sessions that it was to have are over.
    Served,
    /// It has no more links, it failed, or the tables do not name the peer that it calls.
    GivenUp,
    /// A step was refused: the disk failed, or there was no room, number or memory left. Other stations of the process
    /// are refused as well.
    Refused,
}

//! How long a station and its links wait for a peer, and how many connections may wait.

ghost use Rattle.std.specs.Prelude.{◌≡◌, ◌*◌};
ghost use Rattle.std.specs.Duration.{as_nanos};

use std::time::Duration;

/// A call of a link that gives or takes nothing for so many seconds fails, and so does one that gives fewer than
/// `LEAST_OCTETS` in so many seconds while a unit is under way.
pub const SILENCE_SECONDS: u64 = 600;

/// The fewest octets that a peer gives in `SILENCE_SECONDS` while a unit is under way.
pub const LEAST_OCTETS: u64 = 1024;

/// A connection that has brought no first unit within so many seconds after it was accepted is dropped.
pub const OPENING_SECONDS: u64 = 60;

/// A link that a port gave fails once the agent has put nothing on it within so many seconds after it was given.
pub const ADMISSION_SECONDS: u64 = 60;

/// So many octets of a first unit are as good as the whole of it.
pub const OPENING_OCTETS: usize = 8192;

/// So many connections that have brought no first unit wait at a station at most; where one more comes the oldest is
/// dropped.
pub const PLACES: usize = 64;

/// So many of them wait at all stations of a process together. Where few files may be open they are fewer: half of
/// those that may be open besides `SPARE_FILES`. Each station has an equal share, and one place at least.
pub const ALL_PLACES: u64 = 512;

/// So many open files are left to all but the connections that wait.
pub const SPARE_FILES: u64 = 64;

/// An address that does not answer a call within so many seconds is not reached.
pub const ANSWER_SECONDS: u64 = 30;

/// So many seconds lie between two attempts at a port in use and at a connection that could not be accepted. It is also
/// the pause behind a session in which nothing was sent, the first pause behind a call that reached nobody and behind a
/// session in which the peer gave no unit, and the longest time after which a wait looks whether the process failed.
pub const PAUSE_SECONDS: u64 = 1;

/// The pause behind a call that reached nobody, and behind a session in which the peer gave no unit, doubles up to so
/// many seconds.
pub const LONGEST_PAUSE_SECONDS: u64 = 60;

/// So many times a port is asked for.
pub const BINDS: u32 = 60;

/// A peer that so many calls in a row did not reach is given up, where no station at a port serves in the process.
pub const CALLS: u32 = 12;

/// How long a station and its links wait for a peer.
#[derive(Clone, Copy)]
pub struct Patience {
    /// A call of a link that gives or takes nothing for so long fails, and so does one that gives fewer than
    /// `LEAST_OCTETS` in this time while a unit is under way.
    pub silence: Duration,
    /// A connection that has brought no first unit for so long is dropped.
    pub opening: Duration,
    /// A link that a port gave fails once the agent has put nothing on it for so long.
    pub admission: Duration,
    /// An address that does not answer a call within this time is not reached.
    pub answer: Duration,
    /// So long is waited between two attempts at what may be had after a while, and behind a session in which nothing
    /// was sent. A wait looks so often whether the process failed. It is a millisecond at least.
    pub pause: Duration,
    /// The pause behind a call that reached nobody, and behind a session in which the peer gave no unit, doubles from
    /// `pause` to this time.
    pub longest_pause: Duration,
    /// So many times a port is asked for, and once at least.
    pub binds: u32,
    /// A peer that so many calls in a row did not reach is given up, where no station at a port serves.
    pub calls: u32,
}

impl Patience {
    /// The numbers of the constants.
    pub fn usual() -> Patience
        ensures silence { as_nanos result.silence ≡ SILENCE_SECONDS * 1_000_000_000 }
        ensures opening { as_nanos result.opening ≡ OPENING_SECONDS * 1_000_000_000 }
        ensures admission { as_nanos result.admission ≡ ADMISSION_SECONDS * 1_000_000_000 }
        ensures answer { as_nanos result.answer ≡ ANSWER_SECONDS * 1_000_000_000 }
        ensures pause { as_nanos result.pause ≡ PAUSE_SECONDS * 1_000_000_000 }
        ensures longest_pause { as_nanos result.longest_pause ≡ LONGEST_PAUSE_SECONDS * 1_000_000_000 }
        ensures binds { result.binds ≡ BINDS }
        ensures calls { result.calls ≡ CALLS }
    {
        Patience {
            silence: Duration::from_secs(SILENCE_SECONDS),
            opening: Duration::from_secs(OPENING_SECONDS),
            admission: Duration::from_secs(ADMISSION_SECONDS),
            answer: Duration::from_secs(ANSWER_SECONDS),
            pause: Duration::from_secs(PAUSE_SECONDS),
            longest_pause: Duration::from_secs(LONGEST_PAUSE_SECONDS),
            binds: BINDS,
            calls: CALLS,
        }
    }
}

//! How much a worker does, and a session of it.

ghost use Rattle.std.specs.Prelude.{◌≤◌};

/// At most this much is done.
#[derive(Clone, Copy)]
pub struct Limits {
    /// So many links are given back by a worker.
    pub sessions: u32,
    /// So many units come in a session, at least 1. The last of them is refused, whatever it says.
    pub units: u32,
    ghost some: { 1 ≤ units },
}

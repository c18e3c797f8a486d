//! What a spool holds of the one lane.

use crate::sessions::row::Row;
use mta_lane_recv::Last;
use mta_lane_send::SendState;

#[derive(Clone, Copy, Debug)]
pub struct Held {
    pub twa: bool,
    pub window: u32,
    pub state: SendState,
    pub received: (u32, Last),
    /// The number of the next activity, and how many octets an activity has.
    pub next: u32,
    pub octets: u32,
}

/// A lane of monologue dialogue at window 3 with nothing sent or received, and an activity of one piece.
pub const NOTHING: Held = Held {
    twa: false,
    window: 3,
    state: SendState::Idle { last: 0 },
    received: (0, Last::None),
    next: 1,
    octets: 119,
};

impl Held {
    /// The lane as the row says.
    pub fn lane(self, row: Row<'_>) -> Held {
        let b = row.b;
        match row.first {
            "two-way" => Held { twa: true, ..self },
            "window" => Held { window: b, ..self },
            "octets" => Held { octets: b, ..self },
            "next" => Held { next: b, ..self },
            _ => self,
        }
    }

    /// What is under way is sent so far: so many pieces are confirmed.
    pub fn sending(self, activity: u32, confirmed: u32) -> Held {
        Held {
            state: SendState::Sending {
                activity,
                confirmed,
            },
            ..self
        }
    }

    /// The same where End may have been put.
    pub fn ending(self, activity: u32, confirmed: u32) -> Held {
        Held {
            state: SendState::Ending {
                activity,
                confirmed,
            },
            ..self
        }
    }

    /// So many pieces stand of the peer's activity.
    pub fn partial(self, activity: u32, pieces: u32) -> Held {
        Held {
            received: (activity, Last::Partial { activity, pieces }),
            ..self
        }
    }

    /// The peer's activity is done.
    pub fn done(self, activity: u32) -> Held {
        Held {
            received: (activity, Last::Done { activity }),
            ..self
        }
    }
}

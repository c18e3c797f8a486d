//! The changes that steps make of a lane.

ghost use Rattle.std.specs.Prelude.{◌≡◌};
ghost use Rattle.mta_lanes.specs.Changes.{MayChange, changed};

use crate::lane::Lane;
use crate::pieces::Places;
use crate::transfer::Transfer;
use mta_ber::Octets;

/// A change of a lane: one for each step on it but its end. A settled activity was sent, refused, denied or dropped.
#[derive(Drop)]
pub enum LaneChange {
    /// Both ends hold to these values from now on.
    Agree {
        checkpoint: u32,
        window: u32,
    },
    /// The next generation begins.
    Bind,
    /// The next activity is started.
    Start(Transfer),
    /// The peer has confirmed so many pieces.
    Confirm {
        activity: u32,
        number: u32,
    },
    /// From now on the peer may complete the activity.
    ToEnd {
        activity: u32,
    },
    /// The activity under way is settled.
    Settle,
    /// The activity is given up.
    Abandon {
        activity: u32,
    },
    /// A piece stands, in place of that piece and all behind it.
    Secure {
        activity: u32,
        number: u32,
        piece: Octets,
        places: Places,
    },
    /// All of an activity has come.
    Complete {
        activity: u32,
    },
    /// The pieces that came are given up.
    DropPieces,
}

impl Lane {
    /// Makes a change, which takes no memory.
    pub fn make(&mut self, change: LaneChange)
        requires { MayChange self.old change }
        ensures { self.new ≡ changed self.old change }
    {
        match change {
            LaneChange::Agree { checkpoint, window } => self.agree(checkpoint, window),
            LaneChange::Bind => self.bind(),
            LaneChange::Start(transfer) => self.start(transfer),
            LaneChange::Confirm { activity, number } => self.confirm(activity, number),
            LaneChange::ToEnd { activity } => self.end(activity),
            LaneChange::Settle => self.settle(),
            LaneChange::Abandon { activity } => self.abandon(activity),
            LaneChange::Secure {
                activity,
                number,
                piece,
                places,
            } => self.secure(activity, number, piece, places),
            LaneChange::Complete { activity } => self.complete(activity),
            LaneChange::DropPieces => self.drop_pieces(),
        }
    }
}

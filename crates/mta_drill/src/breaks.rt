//! When the link is broken.
//!
//! In come the steps for which the two sessions ask. The link is broken right behind the one with which a message's
//! place is reached (`break_of`), once in its activity.

ghost use Rattle.std.specs.Prelude.{◌≡◌, ◌↔◌, ℕ, IfSome, IsTrue, None, Some, false};
ghost use Rattle.mta_drill_stage_laws.specs.Breaks.{IsDue, IsDueIn, IsReached, one_more};
ghost use Rattle.mta_drill_text.specs.declared.breaks.Break.{Break as BreakValue};

use mta_drill_text::{Break, break_of};
use mta_session::Ask;
use std::marker::Model;

// The place that is reached with a step which a session asks for, and the activity; none where it is none.
fn place_of(ask: &Ask) -> Option<(Break, u32)>
    ensures reached { IfSome result (λ r. IsReached r.0 r.1 ask.now) }
    ensures only { (place : BreakValue) (activity : ℕ) → IsReached place activity ask.now
        → result ≡ Some (place, activity) }
{
    match ask {
        Ask::Confirm {
            activity,
            number: 1,
            ..
        } => Some((Break::BehindConfirm, *activity)),
        Ask::Complete { activity, .. } => Some((Break::BehindComplete, *activity)),
        _ => None,
    }
}

/// The breaks of a round: how many messages were before it, the last activity in which the link was broken, and how
/// often it was. The activity of a number transfers the message of that number in the round.
#[derive(Drop)]
pub(crate) struct Breaks {
    before: u32,
    last: u32,
    made: u32,
}

impl Model for Breaks {
    ghost use Rattle.mta_drill_stage_laws.specs.Breaks.{Breaks as BreaksValue};

    ghost Value = { BreaksValue };

    ghost view = { λ b. record { before = b.before; last = b.last; made = b.made } };
}

impl Breaks {
    /// No break yet, in a round behind so many messages.
    pub fn new(before: u32) -> Breaks
        ensures { result ≡ record { before = before; last = 0; made = 0 } }
    {
        Breaks {
            before,
            last: 0,
            made: 0,
        }
    }

    /// How often the link was broken.
    pub fn made(&self) -> u32
        ensures { result ≡ self.now.made }
    {
        self.made
    }

    // The activity in which the link is to be broken right after this step; none where it is not.
    fn due(&self, ask: &Ask) -> Option<u32>
        ensures due { IfSome result (IsDueIn self.now ask.now) }
        ensures none { result ≡ None → IsDue self.now ask.now → ⊥ }
    {
        let (place, activity) = match place_of(ask) {
            Some(reached) => reached,
            None => return None,
        };
        let message = self.before.saturating_add(activity);
        if activity > self.last && break_of(message) == Some(place) {
            Some(activity)
        } else {
            None
        }
    }

    /// Whether the link is to be broken right after this step. It is counted then, and told once in an activity.
    pub fn take(&mut self, ask: &Ask) -> bool
        ensures due { IsTrue result ↔ IsDue self.old ask.now }
        ensures counted { IsTrue result → (activity : ℕ) × IsDueIn self.old ask.now activity
            × (self.new ≡ one_more self.old activity) }
        ensures none { result ≡ false → self.new ≡ self.old }
    {
        match self.due(ask) {
            Some(activity) => {
                self.last = activity;
                self.made = self.made.saturating_add(1);
                true
            }
            None => false,
        }
    }
}

//! The sending half of a lane.

ghost use Rattle.std.specs.Prelude.{◌≡◌, ◌≤◌, ◌<◌, ◌+◌, ◌^◌, true};
ghost use Rattle.mta_lane_send.specs.Pieces.{has_piece_after, piece_from, piece_to};
ghost use Rattle.mta_lane_send.specs.Half.{Start, Confirm, To_end, Abandon, FitsState, GoesOver};
ghost use Rattle.mta_lane_send.specs.Half.{is_idle, last_of, is_possible, made, settled, is_confirming};
ghost use Rattle.mta_lane_send.specs.Link.{PutsNext, sync_put, end_put, resume_answered, recovery_of, recovered};

use crate::state::{NextData, OnLink, Recovery, SendState};
use std::marker::Model;

/// Octets in a unit of the checkpoint size.
const UNIT: u64 = 1024;

/// The sending half of a lane: its durable state, and what it put on the current link.
#[derive(Clone, Copy, Drop)]
pub struct SendHalf {
    generation: u64,
    checkpoint: u32,
    window: u32,
    state: SendState,
    total: u32,
    on_link: OnLink,
}

impl Model for SendHalf {
    ghost use Rattle.std.specs.Prelude.{◌≤◌};
    ghost use Rattle.mta_lane_send.specs.Half.{Sender, FitsState, FitsLink};

    ghost Value = { Sender };

    ghost view = { λ h. record {
      generation = h.generation;
      checkpoint = h.checkpoint;
      window = h.window;
      state = h.state;
      total = h.total;
      on_link = h.on_link;
    } };

    ghost inverse = { λ h. record {
      generation = h.generation;
      checkpoint = h.checkpoint;
      window = h.window;
      state = h.state;
      total = h.total;
      on_link = h.on_link;
    } };

    ghost invariant = { λ h. (h.checkpoint ≤ 64) × (1 ≤ h.window) × (h.window ≤ 8)
        × FitsState h.checkpoint h.state h.total × FitsLink h.checkpoint h.total h.on_link };
}

impl SendHalf {
    ghost use Rattle.mta_lane_send.specs.declared.state.OnLink.TheVariants as link;
    ghost use Rattle.mta_lane_send.specs.declared.state.SendState.TheVariants as state;

    /// A new half: Idle, no activity sent yet. `checkpoint` is 0 to 64 units of 1,024 octets, 0 for one
    /// piece an activity; `window` is 1 to 8 Syncs.
    pub fn new(generation: u64, checkpoint: u32, window: u32) -> SendHalf
        requires size { checkpoint ≤ 64 }
        requires some { 1 ≤ window }
        requires few { window ≤ 8 }
        ensures { result ≡ record {
          generation = generation;
          checkpoint = checkpoint;
          window = window;
          state = state.Idle 0;
          total = 0;
          on_link = link.Nothing;
        } }
    {
        SendHalf::restore(
            generation,
            checkpoint,
            window,
            SendState::Idle { last: 0 },
            0,
        )
    }

    /// A half in this state with nothing put on a link. `total` is the octet count of its activity, 0 in Idle.
    pub fn restore(
        generation: u64,
        checkpoint: u32,
        window: u32,
        state: SendState,
        total: u32,
    ) -> SendHalf
        requires size { checkpoint ≤ 64 }
        requires some { 1 ≤ window }
        requires few { window ≤ 8 }
        requires fits { FitsState checkpoint state total }
        ensures { result ≡ record {
          generation = generation;
          checkpoint = checkpoint;
          window = window;
          state = state;
          total = total;
          on_link = link.Nothing;
        } }
    {
        SendHalf {
            generation,
            checkpoint,
            window,
            state,
            total,
            on_link: OnLink::Nothing,
        }
    }

    /// The generation of the lane.
    pub fn generation(&self) -> u64
        ensures { result ≡ self.now.generation }
    {
        self.generation
    }

    /// The checkpoint size, in units of 1,024 octets, 0 to 64.
    pub fn checkpoint(&self) -> u32
        ensures exact { result ≡ self.now.checkpoint }
        ensures range { result ≤ 64 }
    {
        self.checkpoint
    }

    /// The window, 1 to 8 Syncs.
    pub fn window(&self) -> u32
        ensures exact { result ≡ self.now.window }
        ensures some { 1 ≤ result }
        ensures few { result ≤ 8 }
    {
        self.window
    }

    /// The durable state.
    pub fn state(&self) -> SendState
        ensures exact { result ≡ self.now.state }
        ensures fits { FitsState self.now.checkpoint result self.now.total }
    {
        self.state
    }

    /// What was put on the current link.
    pub fn on_link(&self) -> OnLink
        ensures { result ≡ self.now.on_link }
    {
        self.on_link
    }

    /// Both ends hold to these values from now on.
    pub fn agree(&mut self, checkpoint: u32, window: u32)
        requires size { checkpoint ≤ 64 }
        requires some { 1 ≤ window }
        requires few { window ≤ 8 }
        requires idle { is_idle self.old.state ≡ true }
        ensures { self.new ≡ record self.old { checkpoint = checkpoint; window = window; on_link = link.Nothing } }
    {
        self.checkpoint = checkpoint;
        self.window = window;
        self.on_link = OnLink::Nothing;
    }

    /// A new link, of a greater generation: nothing is put on it yet.
    pub fn bind(&mut self, generation: u64)
        requires { self.old.generation < generation }
        ensures { self.new ≡ record self.old { generation = generation; on_link = link.Nothing } }
    {
        self.generation = generation;
        self.on_link = OnLink::Nothing;
    }

    /// The next activity is started, of `total` octets.
    pub fn start(&mut self, total: u32)
        requires some { 1 ≤ total }
        requires possible { is_possible self.old (Start total) ≡ true }
        requires left { last_of self.old.state + 1 < 2 ^ 32 }
        ensures { self.new ≡ made self.old (Start total) }
    {
        self.state = SendState::Sending {
            activity: self.state.last() + 1,
            confirmed: 0,
        };
        self.total = total;
        self.on_link = OnLink::Pieces { number: 0 };
    }

    /// Whether there is a piece behind the first `number`.
    pub fn has_piece_after(&self, number: u32) -> bool
        ensures { result ≡ has_piece_after self.now.checkpoint self.now.total number }
    {
        if self.checkpoint == 0 {
            number == 0
        } else {
            UNIT * self.checkpoint as u64 * (number as u64) < self.total as u64
        }
    }

    /// Whether the peer may hold the pieces 1 to `number` of the activity from now on: it goes on, and `number` is
    /// above what is confirmed and below the number of pieces.
    pub fn may_confirm(&self, activity: u32, number: u32) -> bool
        ensures { result ≡ is_possible self.now (Confirm activity number) }
    {
        self.state.goes_on(activity)
            && self.state.confirmed() < number
            && self.has_piece_after(number)
    }

    /// The peer holds the pieces 1 to `number` of the activity.
    pub fn confirm(&mut self, activity: u32, number: u32)
        requires { is_possible self.old (Confirm activity number) ≡ true }
        ensures { self.new ≡ made self.old (Confirm activity number) }
    {
        self.state = match self.state {
            SendState::Sending { activity, .. } => SendState::Sending {
                activity,
                confirmed: number,
            },
            SendState::Ending { activity, .. } => SendState::Ending {
                activity,
                confirmed: number,
            },
            other => other,
        };
    }

    /// End of the activity, which is in Sending, may be put from now on.
    pub fn ending(&mut self, activity: u32)
        requires { is_possible self.old (To_end activity) ≡ true }
        ensures { self.new ≡ made self.old (To_end activity) }
    {
        self.state = SendState::Ending {
            activity,
            confirmed: self.state.confirmed(),
        };
    }

    /// The activity under way is settled: sent, refused, denied or dropped.
    pub fn settle(&mut self)
        ensures { self.new ≡ settled self.old }
    {
        self.state = SendState::Idle {
            last: self.state.last(),
        };
        self.total = 0;
        self.on_link = OnLink::Nothing;
    }

    /// The activity is given up.
    pub fn abandon(&mut self, activity: u32)
        ensures { self.new ≡ made self.old (Abandon activity) }
    {
        self.state = SendState::Dropping { activity };
    }

    /// What is put next of the transfer that goes on over the current link, behind what is put.
    pub fn next_data(&mut self) -> NextData
        requires { GoesOver self.old.on_link }
        ensures { PutsNext self.old result self.new }
    {
        let OnLink::Pieces { number: put } = self.on_link else {
            unreachable!();
        };
        if put as u64 >= self.state.confirmed() as u64 + self.window as u64 {
            return NextData::Wait;
        }
        let (from, to) = self.range(put);
        let number = put + 1;
        let last = !self.has_piece_after(number);
        self.on_link = if last {
            OnLink::LastPiece { number }
        } else {
            OnLink::SyncDue { number }
        };
        NextData::Piece {
            number,
            from,
            to,
            last,
        }
    }

    /// The Sync behind the piece that was put last is put.
    pub fn put_sync(&mut self)
        ensures { self.new ≡ record self.old { on_link = sync_put self.old.on_link } }
    {
        if let OnLink::SyncDue { number } = self.on_link {
            self.on_link = OnLink::Pieces { number };
        }
    }

    /// End behind the last piece is put.
    pub fn put_end(&mut self)
        ensures { self.new ≡ record self.old { on_link = end_put self.old.on_link } }
    {
        if let OnLink::LastPiece { number } = self.on_link {
            self.on_link = OnLink::End { number };
        }
    }

    /// Discard is put.
    pub fn put_discard(&mut self)
        ensures { self.new ≡ record self.old { on_link = link.Discard } }
    {
        self.on_link = OnLink::Discard;
    }

    /// Resume is answered: the transfer goes on over the link.
    pub fn on_resume_ack(&mut self)
        ensures { self.new ≡ record self.old { on_link = resume_answered self.old.on_link } }
    {
        if let OnLink::Resume { number } = self.on_link {
            self.on_link = OnLink::Pieces { number };
        }
    }

    /// Whether a SyncAck of this number confirms a Sync that was put on this link and is not confirmed.
    pub fn is_confirming(&self, number: u32) -> bool
        ensures { result ≡ is_confirming self.now number }
    {
        let synced = match self.on_link {
            OnLink::Pieces { number } => number,
            OnLink::SyncDue { number } | OnLink::LastPiece { number } | OnLink::End { number } => {
                number.saturating_sub(1)
            }
            _ => 0,
        };
        self.state.goes_on(self.state.last()) && self.state.confirmed() < number && number <= synced
    }

    /// The unit that is put first on a link after a break, which is put now: Resume right behind the last piece that
    /// the peer confirmed, or else Discard.
    pub fn recover(&mut self) -> Recovery
        ensures unit { result ≡ recovery_of self.old.state }
        ensures after { self.new ≡ recovered self.old result }
    {
        match self.state {
            SendState::Idle { .. } => {
                self.on_link = OnLink::Nothing;
                Recovery::Nothing
            }
            SendState::Sending {
                activity,
                confirmed,
            }
            | SendState::Ending {
                activity,
                confirmed,
            } => {
                if confirmed == 0 {
                    self.on_link = OnLink::Discard;
                    Recovery::DiscardIt { activity }
                } else {
                    self.on_link = OnLink::Resume { number: confirmed };
                    Recovery::ResumeAt {
                        activity,
                        number: confirmed,
                    }
                }
            }
            SendState::Dropping { activity } => {
                self.on_link = OnLink::Discard;
                Recovery::DiscardIt { activity }
            }
        }
    }

    /// Where piece `put` + 1 begins and ends.
    fn range(&self, put: u32) -> (u32, u32)
        requires { has_piece_after self.now.checkpoint self.now.total put ≡ true }
        ensures from { result.0 ≡ piece_from self.now.checkpoint put }
        ensures to { result.1 ≡ piece_to self.now.checkpoint self.now.total put }
    {
        let size = UNIT * self.checkpoint as u64;
        let from = size * put as u64;
        let to = if self.checkpoint == 0 {
            self.total as u64
        } else {
            (self.total as u64).min(from + size)
        };
        (from as u32, to as u32)
    }
}

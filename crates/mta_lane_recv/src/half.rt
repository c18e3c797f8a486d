//! The receiving half of a lane.

ghost use Rattle.std.specs.Prelude.{◌≡◌, ◌<◌};
ghost use Rattle.mta_lane_recv.specs.Half.{Secure, Complete, Drop as DropStep, IsOfHigh};
ghost use Rattle.mta_lane_recv.specs.Half.{is_possible, made, may_start, longest_piece};

use crate::state::Last;
use std::marker::Model;

/// The most octets of one activity.
pub const LIMIT: u32 = 2_097_152;

/// The most octets of a piece. `checkpoint` is in units of 1,024 octets, and with 0 an activity is one piece.
pub fn longest_piece(checkpoint: u32) -> u64
    ensures { result ≡ longest_piece checkpoint }
{
    if checkpoint == 0 {
        u64::from(LIMIT)
    } else {
        1024 * u64::from(checkpoint)
    }
}

/// The receiving half of a lane: its generation, and what stands durably.
#[derive(Clone, Copy, Drop)]
pub struct RecvHalf {
    generation: u64,
    high: u32,
    last: Last,
}

impl Model for RecvHalf {
    ghost use Rattle.mta_lane_recv.specs.Half.{Receiver, IsOfHigh};

    ghost Value = { Receiver };

    ghost view = { λ h. record { generation = h.generation; high = h.high; last = h.last } };

    ghost inverse = { λ h. record { generation = h.generation; high = h.high; last = h.last } };

    ghost invariant = { λ h. IsOfHigh h.high h.last };
}

impl RecvHalf {
    ghost use Rattle.mta_lane_recv.specs.declared.state.Last.TheVariants as last;

    /// A new half: no activity has come.
    pub fn new(generation: u64) -> RecvHalf
        ensures { result ≡ record { generation = generation; high = 0; last = last.None } }
    {
        RecvHalf::restore(generation, 0, Last::None)
    }

    /// A half in this state. A part, or what is done, is of the highest activity.
    pub fn restore(generation: u64, high: u32, last: Last) -> RecvHalf
        requires { IsOfHigh high last }
        ensures { result ≡ record { generation = generation; high = high; last = last } }
    {
        RecvHalf {
            generation,
            high,
            last,
        }
    }

    /// A new link, of a greater generation.
    pub fn bind(&mut self, generation: u64)
        requires { self.old.generation < generation }
        ensures { self.new ≡ record self.old { generation = generation } }
    {
        self.generation = generation;
    }

    /// The highest activity that left a durable mark, 0 before the first.
    pub fn high(&self) -> u32
        ensures { result ≡ self.now.high }
    {
        self.high
    }

    /// What stands.
    pub fn last(&self) -> Last
        ensures exact { result ≡ self.now.last }
        ensures of_high { IsOfHigh self.now.high result }
    {
        self.last
    }

    /// Whether the activity may start: it is above the highest, and no part stands.
    pub fn may_start(&self, activity: u32) -> bool
        ensures { result ≡ may_start self.now activity }
    {
        self.high < activity && !self.last.is_partial()
    }

    /// Whether this piece begins a new activity, goes on from what stands, or replaces a part of it.
    pub fn takes_piece(&self, activity: u32, number: u32) -> bool
        ensures secures { result ≡ is_possible self.now (Secure activity number) }
        ensures completes { result ≡ is_possible self.now (Complete activity number) }
    {
        match self.last {
            Last::None => self.high < activity && number == 1,
            Last::Partial {
                activity: part,
                pieces,
            } => activity == part && 1 <= number && number - 1 <= pieces,
            Last::Done { .. } => self.high < activity && number == 1,
        }
    }

    /// A piece stands from now on, and no piece above it.
    pub fn secure(&mut self, activity: u32, number: u32)
        ensures { self.new ≡ made self.old (Secure activity number) }
    {
        self.high = activity;
        self.last = Last::Partial {
            activity,
            pieces: number,
        };
    }

    /// The activity is done: its last piece has come.
    pub fn complete(&mut self, activity: u32)
        ensures { self.new ≡ record self.old { high = activity; last = last.Done activity } }
    {
        self.high = activity;
        self.last = Last::Done { activity };
    }

    /// What stands is given up.
    pub fn drop_part(&mut self)
        ensures { self.new ≡ record self.old { last = last.None } }
    {
        self.last = Last::None;
    }
}

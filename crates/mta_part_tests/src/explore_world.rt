//! The explored world: two durable ends and their links.

use crate::explore_link::Link;
use mta_lane_recv::Last;
use mta_lane_send::SendState;
use std::alloc::{AllocError, Global};

/// How an activity was settled.
#[derive(Clone, Copy, Drop)]
pub enum Outcome {
    Unsettled,
    Sent,
    Dropped,
    Refused,
    Denied,
}

/// What became of an activity.
#[derive(Clone, Copy, Drop)]
pub struct Fate {
    pub activity: u32,
    pub outcome: Outcome,
    pub given_up: bool,
}

/// A half lane of small bounds.
#[derive(Drop)]
pub struct World {
    pub sender_opens: bool,
    pub window: u32,
    /// A bit for each activity whose octets are none of a message.
    pub bad: u32,
    pub state: SendState,
    pub fates: Vec<Fate>,
    pub sent: Vec<u64>,
    pub send_link: Option<usize>,
    pub high: u32,
    pub last: Last,
    pub pieces: Vec<u64>,
    pub completed: Vec<(u32, u64)>,
    pub recv_link: Option<usize>,
    pub links: Vec<Link>,
}

impl World {
    pub fn new(alloc: Global, sender_opens: bool, window: u32, bad: u32) -> World {
        World {
            sender_opens,
            window,
            bad,
            state: SendState::Idle { last: 0 },
            fates: Vec::new(alloc),
            sent: Vec::new(alloc),
            send_link: None,
            high: 0,
            last: Last::None,
            pieces: Vec::new(alloc),
            completed: Vec::new(alloc),
            recv_link: None,
            links: Vec::new(alloc),
        }
    }

    pub fn is_bad(&self, activity: u32) -> bool {
        (self.bad >> (activity % 32)) % 2 == 1
    }

    /// What became of the last activity, to be changed.
    pub fn fate(&mut self) -> Option<&mut Fate> {
        self.fates.last_mut()
    }

    /// A new activity, under way.
    pub fn begin(&mut self, activity: u32) -> Result<(), AllocError> {
        self.fates.push(Fate {
            activity,
            outcome: Outcome::Unsettled,
            given_up: false,
        })?;
        self.state = SendState::Sending {
            activity,
            confirmed: 0,
        };
        Ok(())
    }

    /// Settles the activity under way.
    pub fn settle(&mut self, outcome: Outcome) -> Result<(), AllocError> {
        let activity = last_of(self.state);
        if let Outcome::Sent = outcome {
            self.sent.push(octets_of(activity))?;
        }
        if let Some(fate) = self.fate() {
            fate.outcome = outcome;
        }
        self.state = SendState::Idle { last: activity };
        Ok(())
    }

    /// Completed is sent, or sent and the one activity in Ending.
    pub fn is_in_step(&self) -> bool {
        let mut rest = self.completed.as_slice();
        for octets in &self.sent {
            let [(_, first), more @ ..] = rest else {
                return false;
            };
            if first != octets {
                return false;
            }
            rest = more;
        }
        match (rest, self.state) {
            ([], _) => true,
            ([(_, octets)], SendState::Ending { activity, .. }) => *octets == octets_of(activity),
            _ => false,
        }
    }

    /// No activity that was given up or settled otherwise than as sent is completed, and the octets of a
    /// denied one are none of a message.
    pub fn is_settled_so(&self) -> bool {
        for fate in &self.fates {
            let failed = fate.given_up
                || (!matches!(fate.outcome, Outcome::Sent | Outcome::Unsettled));
            let completed = self.completed.iter().any(|done| done.0 == fate.activity);
            if failed && completed {
                return false;
            }
            if matches!(fate.outcome, Outcome::Denied) && !self.is_bad(fate.activity) {
                return false;
            }
        }
        true
    }
}

/// How many pieces an activity has: one to three.
pub fn pieces_of(activity: u32) -> u32 {
    1 + activity % 3
}

/// The token of a piece.
pub fn token(activity: u32, number: u32) -> u64 {
    (activity as u64 % 60) * 4 + (number as u64 % 4)
}

/// Octets with one piece more.
pub fn with_piece(octets: u64, token: u64) -> u64 {
    octets.wrapping_mul(256).wrapping_add(token)
}

/// All octets of an activity.
pub fn octets_of(activity: u32) -> u64 {
    let mut octets = 0;
    for number in 0..pieces_of(activity) {
        octets = with_piece(octets, token(activity, number.saturating_add(1)));
    }
    octets
}

pub fn last_of(state: SendState) -> u32 {
    match state {
        SendState::Idle { last } => last,
        SendState::Sending { activity, .. }
        | SendState::Ending { activity, .. }
        | SendState::Dropping { activity } => activity,
    }
}

pub fn confirmed_of(state: SendState) -> u32 {
    match state {
        SendState::Sending { confirmed, .. } | SendState::Ending { confirmed, .. } => confirmed,
        _ => 0,
    }
}

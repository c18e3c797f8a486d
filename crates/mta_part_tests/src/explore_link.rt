//! One link of the explored world, with what each end did there.

use std::alloc::{AllocError, Global};

/// A unit on a link. A piece is its token, which no other piece of any activity has.
#[derive(Clone, Copy, Drop)]
pub enum Unit {
    Accept,
    Start { activity: u32 },
    Piece { token: u64 },
    Sync { number: u32 },
    End { activity: u32 },
    Resume { activity: u32, number: u32 },
    Discard { activity: u32 },
    SyncAck { number: u32 },
    EndAck { activity: u32 },
    ResumeAck { activity: u32, number: u32 },
    DiscardAck { activity: u32 },
    Exception,
    Completed,
    Unrecognized,
}

/// What the sending end put on a link.
#[derive(Clone, Copy, Drop)]
pub enum SendStage {
    Quiet,
    Opened,
    Started { activity: u32 },
    Next { activity: u32, put: u32 },
    SyncNext { activity: u32, number: u32 },
    LastPut { activity: u32, number: u32 },
    EndPut { activity: u32, number: u32 },
    ResumePut { activity: u32, number: u32 },
    DiscardPut { activity: u32 },
}

/// What the receiving end took on a link.
#[derive(Clone, Copy, Drop)]
pub enum RecvStage {
    Free,
    Next {
        activity: u32,
        number: u32,
    },
    Held {
        activity: u32,
        number: u32,
        token: u64,
    },
    Synced {
        activity: u32,
        number: u32,
        token: u64,
    },
    Ended {
        activity: u32,
        number: u32,
        token: u64,
    },
    Asked {
        activity: u32,
        number: u32,
    },
    Discards {
        activity: u32,
    },
    Found {
        activity: u32,
    },
    Skips {
        activity: u32,
    },
}

/// One direction of a link: all units that were ever put, how many were taken, and up to where a unit can
/// still be taken.
#[derive(Drop)]
pub struct Queue {
    pub all: Vec<Unit>,
    pub taken: usize,
    pub reach: usize,
}

impl Queue {
    pub fn new(alloc: Global) -> Queue {
        Queue {
            all: Vec::new(alloc),
            taken: 0,
            reach: usize::MAX,
        }
    }

    /// The unit that can be taken next.
    pub fn front(&self) -> Option<Unit> {
        if self.taken < self.reach {
            self.all.get(self.taken).copied()
        } else {
            None
        }
    }

    pub fn take(&mut self) {
        self.taken = self.taken.saturating_add(1);
    }

    pub fn put(&mut self, unit: Unit) -> Result<(), AllocError> {
        self.all.push(unit)?;
        Ok(())
    }

    /// Loses all but the first few that are on their way, and what is put later.
    pub fn lose(&mut self, keeps: usize) {
        let reach = self.taken.saturating_add(keeps);
        if reach < self.all.len() && reach < self.reach {
            self.reach = reach;
        }
    }
}

/// A link.
#[derive(Drop)]
pub struct Link {
    pub up: Queue,
    pub down: Queue,
    pub send_joined: bool,
    pub send_stopped: bool,
    pub recv_joined: bool,
    pub recv_stopped: bool,
    pub accepted: bool,
    pub send: SendStage,
    pub heard: Option<Unit>,
    pub recv: RecvStage,
    pub from: u32,
}

impl Link {
    pub fn new(alloc: Global, send_joined: bool, recv_joined: bool) -> Link {
        Link {
            up: Queue::new(alloc),
            down: Queue::new(alloc),
            send_joined,
            send_stopped: false,
            recv_joined,
            recv_stopped: false,
            accepted: false,
            send: SendStage::Quiet,
            heard: None,
            recv: RecvStage::Free,
            from: 0,
        }
    }

    pub fn sender_uses(&self) -> bool {
        self.send_joined && !self.send_stopped
    }

    pub fn receiver_uses(&self) -> bool {
        self.recv_joined && !self.recv_stopped
    }
}

/// The last Sync that the sending end put in its transfer.
pub fn synced(stage: SendStage) -> u32 {
    match stage {
        SendStage::Next { put, .. } => put,
        SendStage::SyncNext { number, .. }
        | SendStage::LastPut { number, .. }
        | SendStage::EndPut { number, .. } => number.saturating_sub(1),
        _ => 0,
    }
}

/// Whether Syncs up to this number came in the transfer, and of which activity.
pub fn came(stage: RecvStage) -> Option<(u32, u32)> {
    match stage {
        RecvStage::Next { activity, number }
        | RecvStage::Synced {
            activity,
            number,
            ..
        } => { Some((activity, number)) }
        RecvStage::Held {
            activity,
            number,
            ..
        }
        | RecvStage::Ended {
            activity,
            number,
            ..
        } => { Some((activity, number.saturating_sub(1))) }
        _ => None,
    }
}

//! Where threads sleep until their turn. Nothing here is part of what is proved of the lock: it only says when to look
//! again.
use std::array;
use std::sync::Wait;
use std::sync::atomic::{AtomicU64, Ordering};

/// The bells of one lock. A ticket's bell is its remainder by this number, so that up to so many waiting threads are
/// woken one at a time.
const BELLS: u64 = 64;

/// Rung when the turn of one of its tickets comes.
#[derive(Drop)]
pub(crate) struct Bell {
    rings: AtomicU64,
    listeners: AtomicU64,
}

impl Bell {
    fn new() -> Bell {
        Bell {
            rings: AtomicU64::new(0),
            listeners: AtomicU64::new(0),
        }
    }

    /// From now on each ring is heard. Look for the turn once more before the sleep.
    pub(crate) fn listen(&self) -> u64 {
        self.listeners.fetch_add(1, Ordering::SeqCst);
        self.rings.load(Ordering::SeqCst)
    }

    /// Sleeps until a ring since `heard` was answered. It may also return for no reason.
    pub(crate) fn sleep<R: Wait>(&self, rt: &R, heard: u64) {
        self.rings.park(rt, (heard % (1 << 32)) as u32);
    }

    pub(crate) fn leave(&self) {
        self.listeners.fetch_sub(1, Ordering::SeqCst);
    }

    /// Wakes those that sleep here. It costs one load where nobody listens.
    pub(crate) fn ring(&self) {
        if self.listeners.load(Ordering::SeqCst) > 0 {
            self.rings.fetch_add(1, Ordering::SeqCst);
            self.rings.wake_all();
        }
    }
}

#[derive(Drop)]
pub(crate) struct Bells {
    row: [Bell; BELLS as usize],
}

impl Bells {
    pub(crate) fn new() -> Bells {
        Bells {
            row: array::from_fn(|_| Bell::new()),
        }
    }

    /// The bell of this ticket.
    pub(crate) fn of(&self, ticket: u64) -> &Bell {
        &self.row[(ticket % BELLS) as usize]
    }
}

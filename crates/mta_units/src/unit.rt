//! The units of an association.

use mta_ber::{Octets, Word};
use mta_records::Reference;
use mta_rtse::{Answer, Request};

/// What an initiator opens a link with: its name, the reference that it makes, the checkpoint size in units of 1,024
/// octets and the window that it proposes, whether it asks for two-way alternate dialogue, and its request.
#[derive(Drop)]
pub struct OpenUnit {
    pub name: Word,
    pub reference: Reference,
    pub checkpoint: u32,
    pub window: u32,
    pub twa: bool,
    pub request: Request,
}

/// A unit. Activities and checkpoints are numbered; reasons are those of X.228; the kind and the place of an exception
/// are those of the fault in the octets that were transferred.
#[derive(Drop)]
pub enum Unit {
    Open(OpenUnit),
    Accept {
        checkpoint: u32,
        window: u32,
        answer: Answer,
    },
    Reject {
        reason: u32,
    },
    Start {
        activity: u32,
    },
    Piece(Octets),
    Sync {
        number: u32,
    },
    SyncAck {
        number: u32,
    },
    End {
        activity: u32,
    },
    EndAck {
        activity: u32,
    },
    Resume {
        activity: u32,
        number: u32,
    },
    ResumeAck {
        activity: u32,
        number: u32,
    },
    Discard {
        activity: u32,
    },
    DiscardAck {
        activity: u32,
    },
    Please {
        priority: u32,
    },
    Give,
    Exception {
        kind: u8,
        at: u32,
    },
    Abort {
        reason: u32,
    },
    Close,
    CloseAck,
}

//! What the lines of the tables say.

use mta_ber::{Octets, Word};
use mta_name_text::Pattern;
use mta_names::{OrName, Row};

/// A peer: its name, the password that is sent to it and the one that is expected of it, and what is proposed to it
/// or agreed with it at most.
#[derive(Drop)]
pub struct Peer {
    pub name: Word,
    /// 1 to 62 visible characters of IA5String.
    pub send_password: Octets,
    /// 1 to 62 visible characters of IA5String.
    pub expected_password: Octets,
    /// Whether associations are two-way alternate and not monologue.
    pub twa: bool,
    /// The checkpoint size in units of 1,024 octets, 0 to 64.
    pub checkpoint: u32,
    /// The window size, 1 to 8.
    pub window: u32,
}

/// A mailbox: its word, and the O/R name whose messages it gets.
#[derive(Drop)]
pub struct Mailbox {
    pub word: Word,
    pub name: OrName,
}

/// A distribution list (X.402, clause 7): whether reports on its members go back to who posted, who may post, and its
/// members. Where no pattern is given, everybody may post.
pub struct MailList {
    pub word: Word,
    /// Whether reports go back to the poster, and are not kept here.
    pub back: bool,
    pub name: OrName,
    /// At most 100 patterns.
    pub from: Row<Pattern>,
    /// At most 1,000 names.
    pub members: Row<OrName>,
}

// Written out, since a derived one is opened anew, field by field, at each place where a value is let go.
impl Drop for MailList {
    fn drop(self) {
        let MailList {
            word: _,
            back: _,
            name: _,
            from: _,
            members: _,
        } = self;
    }
}

/// Where the names of a route go.
#[derive(Clone, Copy, Debug)]
pub enum Target {
    /// They end here: a name that is no mailbox's and no list's is unknown.
    Here,
    /// To the peer at this place, from 0.
    Peer(u32),
}

/// A route: the names that a pattern matches, and where they go.
#[derive(Drop)]
pub struct Route {
    pub pattern: Pattern,
    pub target: Target,
}

/// For how many seconds a message of each grade of delivery may wait, at most 31,536,000.
#[derive(Clone, Copy)]
pub struct Holds {
    pub urgent: u64,
    pub normal: u64,
    pub non_urgent: u64,
}

//! What the lines so far have said.

ghost use Rattle.std.specs.Prelude.{◌≡◌, ◌<◌, ◌^◌, false, length, None, OnOk};
ghost use Rattle.mta_tables.specs.Drafts.{Leaves, Takes};
ghost use Rattle.mta_tables.specs.Reading.{nothing, is_named, knows_no_peer, is_unknown, is_said, is_many, target_of};
ghost use Rattle.mta_tables.specs.Reading.{held, holding, added, refusal, add, take_line};

use crate::entry::Target;
use crate::fault::{LineFault, LineKind, TablesFault};
use crate::line::{Grade, Hold, Line, Membership, Permission, RouteLine};
use crate::lists::Lists;
use crate::mailboxes::Mailboxes;
use crate::peers::Peers;
use crate::routes::Routes;
use crate::said::line_of;
use mta_ber::{Memory, Word};
use mta_fields::Domain;
use mta_names::OrName;
use std::alloc::Global;

/// What the lines so far have said.
#[derive(Drop)]
pub struct Draft {
    pub domain: Option<Domain>,
    pub own: Option<Word>,
    pub peers: Peers,
    pub mailboxes: Mailboxes,
    pub lists: Lists,
    pub routes: Routes,
    pub urgent: Option<u64>,
    pub normal: Option<u64>,
    pub non_urgent: Option<u64>,
}

impl Draft {
    /// Nothing has been said.
    pub fn new(alloc: Global) -> Draft
        ensures { result ≡ nothing }
    {
        Draft {
            domain: None,
            own: None,
            peers: Peers::new(alloc),
            mailboxes: Mailboxes::new(alloc),
            lists: Lists::new(alloc),
            routes: Routes::new(alloc),
            urgent: None,
            normal: None,
            non_urgent: None,
        }
    }

    fn knows_no_peer(&self, peer: &Option<Word>) -> bool
        ensures { result ≡ knows_no_peer self.now peer.now }
    {
        match peer {
            None => false,
            Some(word) => !self.peers.has_word(word.as_slice()),
        }
    }

    fn is_unknown(&self, line: &Line) -> bool
        ensures { result ≡ is_unknown self.now line.now }
    {
        match line {
            Line::From(permission) => !self.lists.has_word(permission.word.as_slice()),
            Line::Member(membership) => !self.lists.has_word(membership.word.as_slice()),
            Line::Route(route) => self.knows_no_peer(&route.peer),
            _ => false,
        }
    }

    fn is_named(&self, name: &OrName) -> bool
        ensures { result ≡ is_named self.now name.now }
    {
        self.mailboxes.has_name(name) || self.lists.has_name(name)
    }

    fn held(&self, grade: Grade) -> Option<u64>
        ensures { result ≡ held grade self.now }
    {
        match grade {
            Grade::Urgent => self.urgent,
            Grade::Normal => self.normal,
            Grade::NonUrgent => self.non_urgent,
        }
    }

    fn is_said(&self, line: &Line) -> bool
        ensures { result ≡ is_said self.now line.now }
    {
        match line {
            Line::Domain(_) => self.domain.is_some(),
            Line::Name(_) => self.own.is_some(),
            Line::Peer(peer) => self.peers.has_word(peer.name.as_slice()),
            Line::Mailbox(mailbox) => {
                self.mailboxes.has_word(mailbox.word.as_slice()) || self.is_named(&mailbox.name)
            }
            Line::List(head) => {
                self.lists.has_word(head.word.as_slice()) || self.is_named(&head.name)
            }
            Line::Route(route) => self.routes.has_pattern(&route.pattern),
            Line::Hold(hold) => self.held(hold.grade).is_some(),
            _ => false,
        }
    }

    fn is_many(&self, line: &Line) -> bool
        ensures { result ≡ is_many self.now line.now }
    {
        match line {
            Line::Peer(_) => self.peers.as_slice().len() >= 64,
            Line::Mailbox(_) => self.mailboxes.len() >= 4096,
            Line::List(_) => self.lists.len() >= 256,
            Line::From(permission) => self.lists.is_full_from(permission.word.as_slice()),
            Line::Member(membership) => self.lists.is_full_list(membership.word.as_slice()),
            Line::Route(_) => self.routes.len() >= 4096,
            _ => false,
        }
    }

    fn target_of(&self, peer: &Option<Word>) -> Target
        ensures { result ≡ target_of self.now.peers peer.now }
    {
        match peer {
            None => Target::Here,
            Some(word) => match self.peers.of_word(word.as_slice()) {
                None => Target::Here,
                Some(place) => Target::Peer(place),
            },
        }
    }

    fn hold(&mut self, hold: Hold)
        ensures { self.new ≡ holding hold.grade hold.seconds self.old }
    {
        let seconds = Some(hold.seconds);
        match hold.grade {
            Grade::Urgent => self.urgent = seconds,
            Grade::Normal => self.normal = seconds,
            Grade::NonUrgent => self.non_urgent = seconds,
        }
    }

    fn put_route(&mut self, route: RouteLine) -> Result<(), Memory>
        requires { is_many self.old (Line.Route route) ≡ false }
        ensures { OnOk result (self.new ≡ added self.old (Line.Route route)) }
    {
        let RouteLine { pattern, peer } = route;
        let target = self.target_of(&peer);
        self.routes.push(pattern, target)
    }

    fn permit(&mut self, permission: Permission) -> Result<(), Memory>
        ensures { OnOk result (self.new ≡ added self.old (Line.From permission)) }
    {
        let Permission { word, pattern } = permission;
        self.lists.permit(word.as_slice(), pattern)
    }

    fn join(&mut self, membership: Membership) -> Result<(), Memory>
        ensures { OnOk result (self.new ≡ added self.old (Line.Member membership)) }
    {
        let Membership { word, name } = membership;
        self.lists.join(word.as_slice(), name)
    }

    /// What has been said with the line.
    fn put(&mut self, alloc: Global, line: Line) -> Result<(), Memory>
        requires first { is_said self.old line ≡ false }
        requires room { is_many self.old line ≡ false }
        ensures { OnOk result (self.new ≡ added self.old line) }
    {
        match line {
            Line::Nothing => Ok(()),
            Line::Domain(domain) => {
                self.domain = Some(domain);
                Ok(())
            }
            Line::Name(word) => {
                self.own = Some(word);
                Ok(())
            }
            Line::Peer(peer) => self.peers.push(peer),
            Line::Mailbox(mailbox) => self.mailboxes.push(mailbox),
            Line::List(head) => self.lists.push(alloc, head),
            Line::From(permission) => self.permit(permission),
            Line::Member(membership) => self.join(membership),
            Line::Route(route) => self.put_route(route),
            Line::Hold(hold) => {
                self.hold(hold);
                Ok(())
            }
        }
    }

    /// Why the line cannot stand behind those before it.
    fn refusal(&self, line: &Line) -> Option<LineKind>
        ensures exact { result ≡ refusal self.now line.now }
        ensures first { result ≡ None → is_said self.now line.now ≡ false }
        ensures room { result ≡ None → is_many self.now line.now ≡ false }
    {
        if self.is_unknown(line) {
            return Some(LineKind::Unknown);
        }
        if self.is_said(line) {
            return Some(LineKind::Twice);
        }
        if self.is_many(line) {
            return Some(LineKind::TooMany);
        }
        None
    }

    fn add(&mut self, alloc: Global, line: Line) -> Result<(), LineFault>
        ensures { Leaves result self.new (add self.old line) }
    {
        match self.refusal(&line) {
            Some(kind) => Err(LineFault::Bad(kind)),
            None => match self.put(alloc, line) {
                Ok(()) => Ok(()),
                Err(_) => Err(LineFault::Memory),
            },
        }
    }

    #[tactic(auto, unfolding(crate::specs::Reading::take_line))]
    fn say(&mut self, alloc: Global, line: &[u8]) -> Result<(), LineFault>
        requires { length line.now < 2 ^ 32 }
        ensures { Leaves result self.new (take_line self.old line.now) }
    {
        let said = line_of(alloc, line)?;
        self.add(alloc, said)
    }

    /// Adds what the line of this number says, or tells what is wrong with it.
    pub fn take_line(&mut self, alloc: Global, number: u32, line: &[u8]) -> Result<(), TablesFault>
        requires { length line.now < 2 ^ 32 }
        ensures { Takes number result self.new (take_line self.old line.now) }
    {
        match self.say(alloc, line) {
            Ok(()) => Ok(()),
            Err(LineFault::Bad(kind)) => Err(TablesFault::BadLine { line: number, kind }),
            Err(LineFault::Memory) => Err(TablesFault::Memory),
        }
    }
}

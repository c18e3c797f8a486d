//! Stations that listen for peers or call one.

ghost use Rattle.std.specs.Prelude.{◌≡◌};
ghost use Rattle.mta_links.specs.Links.{untold_station};

use crate::calling::Peer;
use crate::host::Host;
use crate::listening::Port;
use crate::notes::Place;
use crate::patience::Patience;
use crate::process::Process;
use crate::tcp_link::TcpLink;
use mta_edge::Failed;
use mta_links::{CloseWhy, Role, Station};
use std::marker::Model;

// Where the connections come from.
#[derive(Drop)]
enum Origin<'a, R> {
    Port(Port<'a, R>),
    Peer(Peer<'a, R>),
}

impl<'a, R: Host> Origin<'a, R> {
    fn link(&mut self) -> Option<TcpLink<'a, R>> {
        match self {
            Origin::Port(port) => port.link(),
            Origin::Peer(peer) => peer.link(),
        }
    }

    fn back(&mut self, link: &TcpLink<'a, R>) {
        if let Origin::Peer(peer) = self {
            peer.back(link.went());
        }
    }

    fn close(&mut self, why: CloseWhy) {
        match self {
            Origin::Port(port) => port.close(why),
            Origin::Peer(peer) => peer.close(why),
        }
    }

    fn set_place(&mut self, place: Place<'a>) {
        match self {
            Origin::Port(port) => port.notes.set_place(place),
            Origin::Peer(peer) => peer.notes.set_place(place),
        }
    }
}

/// A station whose links are connections. Its `next` never answers that no link is left. It fails where the station was
/// closed, and once the process has failed, also while it waits.
pub struct TcpStation<'a, R> {
    process: &'a Process,
    role: Role,
    origin: Origin<'a, R>,
    is_closed: bool,
    out: u64,
    faults: u64,
}

// Written out, since a derived one is opened anew, field by field, at each place where a value is let go.
impl<'a, R> Drop for TcpStation<'a, R> {
    fn drop(self) {
        let TcpStation {
            process: _,
            role: _,
            origin: _,
            is_closed: _,
            out: _,
            faults: _,
        } = self;
    }
}

impl<'a, R> Model for TcpStation<'a, R> {
    ghost use Rattle.mta_host.specs.Stations.{Stationed};

    ghost Value = { Stationed };

    ghost view = { λ s. record { role = s.role; out = s.out; faults = s.faults } };
}

impl<'a, R: Host> TcpStation<'a, R> {
    /// Listens on this port of all IPv6 and IPv4 addresses of the host, or on a free port for 0, from the first call
    /// of `next` on. The port can be had at once after another process that listened on it has ended. Where it cannot
    /// be had after as many attempts as the patience says, that call fails. Once the station is closed the port is free,
    /// and connections that waited there are closed.
    pub fn listening(
        host: &'a R,
        process: &'a Process,
        port: u16,
        patience: Patience,
    ) -> TcpStation<'a, R>
        ensures role { result.role ≡ Role.In }
        ensures out { result.out ≡ 0 }
        ensures faults { result.faults ≡ 0 }
    {
        TcpStation {
            process,
            role: Role::In,
            origin: Origin::Port(Port::new(host, process, port, patience)),
            is_closed: false,
            out: 0,
            faults: 0,
        }
    }

    /// A station of this role, which calls the peer at the port of the host of this name for each link. Nothing is
    /// called yet. A peer that is not reached is called again: for as long as a station at a port serves in the process,
    /// and else as many times as the patience says, after which `next` fails.
    pub fn calling(
        host: &'a R,
        process: &'a Process,
        role: Role,
        name: String,
        port: u16,
        patience: Patience,
    ) -> TcpStation<'a, R>
        ensures role { result.role ≡ role }
        ensures out { result.out ≡ 0 }
        ensures faults { result.faults ≡ 0 }
    {
        TcpStation {
            process,
            role,
            origin: Origin::Peer(Peer::new(host, process, name, port, patience)),
            is_closed: false,
            out: 0,
            faults: 0,
        }
    }

    /// What the station does is written there from its first link on.
    pub fn set_place(&mut self, place: Place<'a>)
        ensures { self.new ≡ self.old }
    {
        self.origin.set_place(place);
    }

    /// The port that it listens on, which is bound here where it was not. None where it calls, and where the port
    /// cannot be had.
    pub fn port(&mut self) -> Option<u16>
        ensures { self.new ≡ self.old }
    {
        match &mut self.origin {
            Origin::Port(port) => port.number(),
            Origin::Peer(_) => None,
        }
    }
}

impl<'a, R: Host> Station for TcpStation<'a, R> {
    type Link = TcpLink<'a, R>;

    ghost model = { untold_station (λ s. s.role) (λ s. s.out) (λ s. s.faults) };

    fn role(&self) -> &Role {
        &self.role
    }

    fn next(&mut self) -> Result<Option<TcpLink<'a, R>>, Failed> {
        let may_give = !self.is_closed && !self.process.has_failed();
        if may_give && self.out < u64::MAX {
            if let Some(link) = self.origin.link() {
                self.out += 1;
                return Ok(Some(link));
            }
        }
        self.faults = self.faults.saturating_add(1);
        Err(Failed)
    }

    fn back(&mut self, link: TcpLink<'a, R>) {
        self.origin.back(&link);
        drop(link);
        self.out -= 1;
    }

    fn close(&mut self, why: CloseWhy) {
        if let CloseWhy::Refused = why {
            self.process.fail();
        }
        if !self.is_closed {
            self.is_closed = true;
            self.origin.close(why);
        }
    }
}

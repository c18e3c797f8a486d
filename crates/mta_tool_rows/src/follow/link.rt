//! A link that gives no more than so many octets a call, and the station that has it.

ghost use Rattle.std.specs.Prelude.{◌≡◌};
ghost use Rattle.mta_links.specs.Links.{untold_link, untold_station};

use mta_edge::{Failed, Octets};
use mta_links::{Link, MemLink, Role, Station};
use std::alloc::Global;

/// A link in memory that gives no more than so many octets a call.
#[derive(Drop)]
pub struct Line {
    link: MemLink,
    most: usize,
}

impl Link for Line {
    ghost model = { untold_link (λ l. l.link.faults) };

    fn get(&mut self, into: &mut [u8]) -> Result<usize, Failed> {
        let room = self.most.min(into.len());
        self.link.get(&mut into[..room])
    }

    fn put(&mut self, bytes: &[u8]) -> Result<usize, Failed> {
        self.link.put(bytes)
    }
}

/// A station with one link, or none. It fails at its first call where it is to.
#[derive(Drop)]
pub struct Booth {
    role: Role,
    line: Option<Line>,
    back: Option<Line>,
    fails: bool,
    out: u64,
    faults: u64,
}

impl Booth {
    /// A station without a link.
    pub fn new(fails: bool) -> Booth {
        Booth {
            role: Role::In,
            line: None,
            back: None,
            fails,
            out: 0,
            faults: 0,
        }
    }

    /// Its link gives these octets, no more than so many a call, and fails at these calls.
    pub fn give(&mut self, alloc: Global, input: Octets, most: usize, fail: Vec<u64>) {
        self.line = Some(Line {
            link: MemLink::new(alloc, input, fail),
            most,
        });
    }

    /// What its link was put.
    pub fn was_put(&self) -> &[u8] {
        match &self.back {
            Some(line) => line.link.octets(),
            None => b"",
        }
    }
}

impl Station for Booth {
    type Link = Line;

    ghost model = { untold_station (λ s. s.role) (λ s. s.out) (λ s. s.faults) };

    fn role(&self) -> &Role {
        &self.role
    }

    fn next(&mut self) -> Result<Option<Line>, Failed> {
        if self.fails || self.out == u64::MAX {
            self.faults = self.faults.saturating_add(1);
            return Err(Failed);
        }
        match self.line.take() {
            Some(line) => {
                self.out += 1;
                Ok(Some(line))
            }
            None => Ok(None),
        }
    }

    fn back(&mut self, link: Line) {
        self.back = Some(link);
        self.out -= 1;
    }
}

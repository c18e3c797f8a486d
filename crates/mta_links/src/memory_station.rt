//! A station in memory.

ghost use Rattle.std.specs.Prelude.{◌+◌, ◌<◌, ◌≡◌, [], ◌∷◌, ◌++◌, is_err, option_to_list};
ghost use Rattle.std.specs.Prelude.{IfNone, IfOk, OnErr, Some};
ghost use Rattle.mta_edge.specs.Causes.{HasCause};
ghost use Rattle.mta_edge.specs.Numbers.{is_listed, one_more_call};
ghost use Rattle.mta_links.specs.Held.{memory_link, memory_station, served_of};
ghost use Rattle.mta_links.specs.Links.{LeadsBack, LeadsNext, one_more_out};

use crate::link::Link;
use crate::memory_link::MemLink;
use crate::role::Role;
use crate::station::Station;
use mta_edge::{Calls, Failed, Memory};
use std::alloc::Global;
use std::collections::VecDeque;
use std::marker::Model;

/// A station that gives these links in order, then none. Its calls of `next` fail at the listed numbers, from 1.
#[derive(Drop)]
pub struct MemStation {
    role: Role,
    links: VecDeque<MemLink>,
    ended: Vec<MemLink>,
    out: usize,
    calls: Calls,
}

impl Model for MemStation {
    ghost use Rattle.std.specs.Prelude.{◌+◌, ◌≤◌, length, vec_capacity};
    ghost use Rattle.mta_links.specs.Held.{HeldStation};

    ghost Value = { HeldStation };

    ghost view = { λ s. record {
      role = s.role;
      links = s.links.items;
      ended = s.ended.items;
      out = s.out;
      faults = s.calls.faults;
      calls = s.calls.made;
      fail = s.calls.fail.items;
    } };

    // There is room for every link to come and every link that is out.
    ghost invariant = { λ s. length s.links.items + s.out + length s.ended.items ≤ vec_capacity s.ended };
}

impl MemStation {
    /// Takes the room for every link that comes back.
    pub fn new(
        alloc: Global,
        role: Role,
        links: Vec<MemLink>,
        fail: Vec<u64>,
    ) -> Result<MemStation, Memory>
        ensures role { IfOk result (λ s. s.role ≡ role) }
        ensures links { IfOk result (λ s. s.links ≡ links.items) }
        ensures ended { IfOk result (λ s. s.ended ≡ []) }
        ensures out { IfOk result (λ s. s.out ≡ 0) }
        ensures faults { IfOk result (λ s. s.faults ≡ 0) }
        ensures calls { IfOk result (λ s. s.calls ≡ 0) }
        ensures fail { IfOk result (λ s. s.fail ≡ fail.items) }
    {
        let mut ended = Vec::new(alloc);
        ended.reserve(links.len())?;
        Ok(MemStation {
            role,
            links: VecDeque::from_vec(links),
            ended,
            out: 0,
            calls: Calls::new(fail),
        })
    }

    /// The links that came back, in order.
    pub fn ended(&self) -> &[MemLink]
        ensures { result.now ≡ self.now.ended }
    {
        self.ended.as_slice()
    }
}

impl Station for MemStation {
    type Link = MemLink;

    ghost model = { memory_station };

    fn role(&self) -> &Role {
        &self.role
    }

    /// It gives the first of the links that are left. It fails exactly where the number of the call is listed.
    fn next(&mut self) -> Result<Option<MemLink>, Failed>
        ensures given { IfOk result (λ r.
            LeadsNext memory_link r (Some (served_of self.old)) (Some (served_of self.new))) }
        ensures out { IfOk result (λ r. self.new.out ≡ one_more_out r self.old.out) }
        ensures kept { OnErr result (Some (served_of self.new) ≡ Some (served_of self.old)) }
        ensures none_out { OnErr result (self.new.out ≡ self.old.out) }
        ensures role { self.new.role ≡ self.old.role }
        ensures cause { HasCause self.old.faults self.new.faults result }
        ensures links { IfOk result (λ r. self.old.links ≡ option_to_list r ++ self.new.links) }
        ensures none_left { IfOk result (λ r. IfNone r (self.old.links ≡ [])) }
        ensures left { OnErr result (self.new.links ≡ self.old.links) }
        ensures ended { self.new.ended ≡ self.old.ended }
        ensures number { self.new.calls ≡ one_more_call self.old.calls }
        ensures fail { self.new.fail ≡ self.old.fail }
        ensures fails { is_err result ≡ is_listed self.old.fail self.old.calls }
    {
        self.calls.begin()?;
        match self.links.pop_front() {
            None => Ok(None),
            Some(link) => {
                self.out += 1;
                Ok(Some(link))
            }
        }
    }

    /// The link is the last of those that came back.
    fn back(&mut self, link: MemLink)
        requires { 0 < self.old.out }
        ensures over { LeadsBack memory_link link (Some (served_of self.old)) (Some (served_of self.new)) }
        ensures out { self.new.out + 1 ≡ self.old.out }
        ensures role { self.new.role ≡ self.old.role }
        ensures faults { self.new.faults ≡ self.old.faults }
        ensures links { self.new.links ≡ self.old.links }
        ensures ended { self.new.ended ≡ self.old.ended ++ link ∷ [] }
        ensures number { self.new.calls ≡ self.old.calls }
        ensures fail { self.new.fail ≡ self.old.fail }
    {
        self.out -= 1;
        self.ended.push_reserved(link);
    }
}

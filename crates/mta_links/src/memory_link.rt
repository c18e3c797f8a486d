//! A link in memory.

ghost use Rattle.std.specs.Prelude.{◌<◌, ◌≤◌, ◌≡◌, ◌⊎◌, [], false, is_err, length, IfOk, OnErr};
ghost use Rattle.std.specs.Prelude.{OnOk, Some};
ghost use Rattle.mta_edge.specs.Causes.{HasCause};
ghost use Rattle.mta_edge.specs.Numbers.{is_listed, one_more_call};
ghost use Rattle.mta_links.specs.Held.{memory_link};
ghost use Rattle.mta_links.specs.Links.{Gets, Leads, Puts};

use crate::link::Link;
use mta_edge::{Calls, Failed, Octets, give};
use std::alloc::Global;
use std::marker::Model;

/// A link whose peer gives these octets. It keeps what is put, and fails at the listed calls (numbers from 1).
#[derive(Drop)]
pub struct MemLink {
    input: Octets,
    at: usize,
    put: Octets,
    calls: Calls,
}

impl Model for MemLink {
    ghost use Rattle.std.specs.Prelude.{drop, take};
    ghost use Rattle.mta_links.specs.Held.{HeldLink};

    ghost Value = { HeldLink };

    ghost view = { λ l. record {
      talk = record { got = take l.at l.input; left = drop l.at l.input; put = l.put };
      faults = l.calls.faults;
      calls = l.calls.made;
      fail = l.calls.fail.items;
    } };
}

impl MemLink {
    pub fn new(alloc: Global, input: Octets, fail: Vec<u64>) -> MemLink
        ensures got { result.talk.got ≡ [] }
        ensures left { result.talk.left ≡ input }
        ensures put { result.talk.put ≡ [] }
        ensures faults { result.faults ≡ 0 }
        ensures calls { result.calls ≡ 0 }
        ensures fail { result.fail ≡ fail.items }
    {
        MemLink {
            input,
            at: 0,
            put: Octets::new(alloc),
            calls: Calls::new(fail),
        }
    }

    /// What was put so far.
    pub fn octets(&self) -> &[u8]
        ensures { result.now ≡ self.now.talk.put }
    {
        self.put.as_slice()
    }

    /// How often the link has failed.
    pub fn faults(&self) -> u64
        ensures { result ≡ self.now.faults }
    {
        self.calls.faults
    }
}

impl Link for MemLink {
    ghost model = { memory_link };

    /// It gives as many octets as are left or the buffer takes, and fails exactly where the number of the call is
    /// listed.
    fn get(&mut self, into: &mut [u8]) -> Result<usize, Failed>
        ensures bound { IfOk result (λ n. n ≤ length into.new) }
        ensures got { IfOk result (λ n. Leads (Gets n into.new) (Some self.old.talk) (Some self.new.talk)) }
        ensures kept { OnErr result (Some self.new.talk ≡ Some self.old.talk) }
        ensures cause { HasCause self.old.faults self.new.faults result }
        ensures most { IfOk result (λ n. (n ≡ length into.new) ⊎ (n ≡ length self.old.talk.left)) }
        ensures number { self.new.calls ≡ one_more_call self.old.calls }
        ensures fail { self.new.fail ≡ self.old.fail }
        ensures fails { is_err result ≡ is_listed self.old.fail self.old.calls }
    {
        self.calls.begin()?;
        let count = give(self.input.as_slice(), self.at, into);
        self.at += count;
        Ok(count)
    }

    /// It takes the whole piece. It fails where the number of the call is listed, and where memory is refused.
    fn put(&mut self, bytes: &[u8]) -> Result<usize, Failed>
        ensures bound { IfOk result (λ n. n ≤ length bytes.now) }
        ensures some { IfOk result (λ n. 0 < length bytes.now → 0 < n) }
        ensures put { IfOk result (λ n. Leads (Puts n bytes.now) (Some self.old.talk) (Some self.new.talk)) }
        ensures kept { OnErr result (Some self.new.talk ≡ Some self.old.talk) }
        ensures cause { HasCause self.old.faults self.new.faults result }
        ensures whole { IfOk result (λ n. n ≡ length bytes.now) }
        ensures number { self.new.calls ≡ one_more_call self.old.calls }
        ensures fail { self.new.fail ≡ self.old.fail }
        ensures fails { OnOk result (is_listed self.old.fail self.old.calls ≡ false) }
    {
        self.calls.begin()?;
        match self.put.extend(bytes) {
            Ok(()) => Ok(bytes.len()),
            Err(_) => Err(self.calls.fault()),
        }
    }
}

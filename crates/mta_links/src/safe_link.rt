//! A link in memory whose calls do not fail by their numbers.

ghost use Rattle.std.specs.Prelude.{◌<◌, ◌≤◌, ◌≡◌, ◌⊎◌, [], IsOk, length, IfOk, OnErr, Some};
ghost use Rattle.mta_edge.specs.Causes.{HasCause};
ghost use Rattle.mta_links.specs.Held.{memory_link};
ghost use Rattle.mta_links.specs.Links.{Gets, Leads, Puts};

use crate::link::Link;
use crate::memory_link::MemLink;
use mta_edge::{Failed, Octets};
use std::alloc::Global;
use std::marker::Model;

/// A link whose peer gives these octets. It keeps what is put, and fails only where memory for it is refused.
#[derive(Drop)]
pub struct SafeLink {
    inner: MemLink,
}

impl Model for SafeLink {
    ghost use Rattle.std.specs.Prelude.{◌≡◌, []};
    ghost use Rattle.mta_links.specs.Held.{HeldLink};

    ghost Value = { HeldLink };

    ghost view = { λ l. l.inner };

    ghost invariant = { λ l. l.inner.fail ≡ [] };
}

impl SafeLink {
    pub fn new(alloc: Global, input: Octets) -> SafeLink
        ensures got { result.talk.got ≡ [] }
        ensures left { result.talk.left ≡ input }
        ensures put { result.talk.put ≡ [] }
        ensures faults { result.faults ≡ 0 }
    {
        SafeLink {
            inner: MemLink::new(alloc, input, Vec::new(alloc)),
        }
    }

    /// What was put so far.
    pub fn octets(&self) -> &[u8]
        ensures { result.now ≡ self.now.talk.put }
    {
        self.inner.octets()
    }
}

impl Link for SafeLink {
    ghost model = { memory_link };

    /// It gives as many octets as are left or the buffer takes, and never fails.
    fn get(&mut self, into: &mut [u8]) -> Result<usize, Failed>
        ensures bound { IfOk result (λ n. n ≤ length into.new) }
        ensures got { IfOk result (λ n. Leads (Gets n into.new) (Some self.old.talk) (Some self.new.talk)) }
        ensures kept { OnErr result (Some self.new.talk ≡ Some self.old.talk) }
        ensures cause { HasCause self.old.faults self.new.faults result }
        ensures most { IfOk result (λ n. (n ≡ length into.new) ⊎ (n ≡ length self.old.talk.left)) }
        ensures never { IsOk result }
    {
        self.inner.get(into)
    }

    /// It takes the whole piece.
    fn put(&mut self, bytes: &[u8]) -> Result<usize, Failed>
        ensures bound { IfOk result (λ n. n ≤ length bytes.now) }
        ensures some { IfOk result (λ n. 0 < length bytes.now → 0 < n) }
        ensures put { IfOk result (λ n. Leads (Puts n bytes.now) (Some self.old.talk) (Some self.new.talk)) }
        ensures kept { OnErr result (Some self.new.talk ≡ Some self.old.talk) }
        ensures cause { HasCause self.old.faults self.new.faults result }
        ensures whole { IfOk result (λ n. n ≡ length bytes.now) }
    {
        self.inner.put(bytes)
    }
}

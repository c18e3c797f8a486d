//! Sources, sinks and clocks in memory.

ghost use Rattle.std.specs.Prelude.{◌≡◌, ◌⊎◌, ◌<◌, ◌≤◌, [], List, ℕ, Some, length, drop, take};
ghost use Rattle.std.specs.Prelude.{is_err, false, OnOk, OnErr, IfOk, Contains, slice_index};
ghost use Rattle.mta_edge.specs.Causes.{HasCause, Rose};
ghost use Rattle.mta_edge.specs.Held.{memory_sink, memory_source};
ghost use Rattle.mta_edge.specs.Numbers.{is_listed, one_more_call};
ghost use Rattle.mta_edge.specs.Outside.{Adds, Goes, Takes};

use crate::calls::Calls;
use crate::outside::{Clock, Failed, Sink, Source};
use mta_ber::Octets;
use std::alloc::Global;
use std::marker::Model;

/// A source of these octets, which fails at the listed calls (numbers from 1).
#[derive(Drop)]
pub struct MemSource {
    octets: Octets,
    at: usize,
    calls: Calls,
}

impl Model for MemSource {
    ghost use Rattle.std.specs.Prelude.{drop};
    ghost use Rattle.mta_edge.specs.Held.{Held};

    ghost Value = { Held };

    ghost view = { λ s. record {
      octets = drop s.at s.octets;
      faults = s.calls.faults;
      calls = s.calls.made;
      fail = s.calls.fail.items;
    } };
}

impl MemSource {
    pub fn new(octets: Octets, fail: Vec<u64>) -> MemSource
        ensures left { result.octets ≡ octets }
        ensures faults { result.faults ≡ 0 }
        ensures calls { result.calls ≡ 0 }
        ensures fail { result.fail ≡ fail.items }
    {
        MemSource {
            octets,
            at: 0,
            calls: Calls::new(fail),
        }
    }
}

/// Moves the first octets of what is left behind `at`, as many as there are or the buffer takes, and answers how many.
pub fn give(octets: &[u8], at: usize, into: &mut [u8]) -> usize
    ensures bound { result ≤ length into.new }
    ensures fits { result ≤ length (drop at octets.now) }
    ensures moved { take result into.new ≡ take result (drop at octets.now) }
    ensures most { (result ≡ length into.new) ⊎ (result ≡ length (drop at octets.now)) }
{
    if octets.len() < at {
        return 0;
    }
    let left = &octets[at..];
    let count = left.len().min(into.len());
    into[..count].copy_from_slice(&left[..count]);
    count
}

impl Source for MemSource {
    ghost model = { memory_source };

    /// It fails exactly where the number of the call is listed.
    fn take(&mut self, into: &mut [u8]) -> Result<usize, Failed>
        ensures bound { IfOk result (λ n. n ≤ length into.new) }
        ensures taken { IfOk result (λ n. Goes (Takes n into.new) (Some self.old.octets) (Some self.new.octets)) }
        ensures kept { OnErr result (self.new.octets ≡ self.old.octets) }
        ensures cause { HasCause self.old.faults self.new.faults result }
        ensures number { self.new.calls ≡ one_more_call self.old.calls }
        ensures fail { self.new.fail ≡ self.old.fail }
        ensures fails { is_err result ≡ is_listed self.old.fail self.old.calls }
    {
        self.calls.begin()?;
        let count = give(self.octets.as_slice(), self.at, into);
        self.at += count;
        Ok(count)
    }
}

/// A sink that keeps what was put, and fails at the listed calls (numbers from 1).
#[derive(Drop)]
pub struct MemSink {
    octets: Octets,
    calls: Calls,
}

impl Model for MemSink {
    ghost use Rattle.mta_edge.specs.Held.{Held};

    ghost Value = { Held };

    ghost view = { λ s. record {
      octets = s.octets;
      faults = s.calls.faults;
      calls = s.calls.made;
      fail = s.calls.fail.items;
    } };
}

impl MemSink {
    pub fn new(alloc: Global, fail: Vec<u64>) -> MemSink
        ensures taken { result.octets ≡ [] }
        ensures faults { result.faults ≡ 0 }
        ensures calls { result.calls ≡ 0 }
        ensures fail { result.fail ≡ fail.items }
    {
        MemSink {
            octets: Octets::new(alloc),
            calls: Calls::new(fail),
        }
    }

    /// What was put so far.
    pub fn octets(&self) -> &[u8]
        ensures { result.now ≡ self.now.octets }
    {
        self.octets.as_slice()
    }
}

impl Sink for MemSink {
    ghost model = { memory_sink };

    /// It takes the whole piece. It fails where the number of the call is listed, and where memory is refused.
    fn put(&mut self, bytes: &[u8]) -> Result<usize, Failed>
        ensures bound { IfOk result (λ n. n ≤ length bytes.now) }
        ensures some { IfOk result (λ n. 0 < length bytes.now → 0 < n) }
        ensures put { IfOk result (λ n. Goes (Adds n bytes.now) (Some self.old.octets) (Some self.new.octets)) }
        ensures kept { OnErr result (self.new.octets ≡ self.old.octets) }
        ensures cause { HasCause self.old.faults self.new.faults result }
        ensures whole { IfOk result (λ n. n ≡ length bytes.now) }
        ensures number { self.new.calls ≡ one_more_call self.old.calls }
        ensures fail { self.new.fail ≡ self.old.fail }
        ensures fails { OnOk result (is_listed self.old.fail self.old.calls ≡ false) }
    {
        self.calls.begin()?;
        match self.octets.extend(bytes) {
            Ok(()) => Ok(bytes.len()),
            Err(_) => Err(self.calls.fault()),
        }
    }
}

/// A clock that answers these moments in order and then the last one, or 0 where there is none.
#[derive(Drop)]
pub struct MemClock {
    moments: Vec<u64>,
    at: usize,
}

impl Model for MemClock {
    ghost use Rattle.std.specs.Prelude.{List, ℕ, drop};

    // The moments that are left. The last one stays.
    ghost Value = { List ℕ };

    ghost view = { λ c. drop c.at c.moments.items };
}

impl MemClock {
    pub fn new(moments: Vec<u64>) -> MemClock
        ensures { result ≡ moments.items }
    {
        MemClock { moments, at: 0 }
    }
}

impl Clock for MemClock {
    ghost use Rattle.mta_edge.specs.Moments.{may_tell, later_moments, memory_clock, memory_clock_laws};

    ghost model = { memory_clock };

    ghost laws = { memory_clock_laws };

    fn now(&mut self) -> u64
        ensures told { may_tell self.old result }
        ensures fewer { (m : ℕ) → may_tell self.new m → may_tell self.old m }
        ensures first { result ≡ slice_index self.old 0 }
        ensures rest { self.new ≡ later_moments self.old }
    {
        match self.moments.get(self.at) {
            Some(moment) => {
                let moment = *moment;
                if self.at < self.moments.len() - 1 {
                    self.at += 1;
                }
                moment
            }
            None => 0,
        }
    }
}

/// A source of these octets that never fails.
#[derive(Drop)]
pub struct SafeSource {
    octets: Octets,
    at: usize,
}

impl Model for SafeSource {
    ghost use Rattle.std.specs.Prelude.{drop, []};
    ghost use Rattle.mta_edge.specs.Held.{Held};

    ghost Value = { Held };

    ghost view = { λ s. record { octets = drop s.at s.octets; faults = 0; calls = 0; fail = [] } };
}

impl SafeSource {
    pub fn new(octets: Octets) -> SafeSource
        ensures left { result.octets ≡ octets }
        ensures faults { result.faults ≡ 0 }
    {
        SafeSource { octets, at: 0 }
    }
}

impl Source for SafeSource {
    ghost model = { memory_source };

    fn take(&mut self, into: &mut [u8]) -> Result<usize, Failed> {
        let count = give(self.octets.as_slice(), self.at, into);
        self.at += count;
        Ok(count)
    }
}

/// A sink that keeps what was put, and fails only where memory for it is refused.
#[derive(Drop)]
pub struct SafeSink {
    inner: MemSink,
}

impl Model for SafeSink {
    ghost use Rattle.mta_edge.specs.Held.{Held};

    ghost Value = { Held };

    ghost view = { λ s. s.inner };
}

impl SafeSink {
    pub fn new(alloc: Global) -> SafeSink
        ensures taken { result.octets ≡ [] }
        ensures faults { result.faults ≡ 0 }
        ensures fail { result.fail ≡ [] }
    {
        SafeSink {
            inner: MemSink::new(alloc, Vec::new(alloc)),
        }
    }

    /// What was put so far.
    pub fn octets(&self) -> &[u8]
        ensures { result.now ≡ self.now.octets }
    {
        self.inner.octets()
    }
}

impl Sink for SafeSink {
    ghost model = { memory_sink };

    fn put(&mut self, bytes: &[u8]) -> Result<usize, Failed> {
        self.inner.put(bytes)
    }
}

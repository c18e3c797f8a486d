//! What is to be looked at now, and until when the rest need not be.

ghost use Rattle.std.specs.Prelude.{◌≡◌, ◌+◌, ◌≤◌, ◌<◌, ◌^◌, true, length, min, OnOk};
ghost use Rattle.mta_dues.specs.Agendas.{AllLater, IsAllCalled, IsFirst, IsFirstCome, IsLetGo, IsPutOff};
ghost use Rattle.mta_dues.specs.Agendas.{is_active, KeepsAll};
ghost use Rattle.mta_dues.specs.Next.{IsNextIn};

use crate::next::next_in;
use mta_ber::Memory;
use std::alloc::Global;
use std::collections::BTreeSet;
use std::marker::Model;

/// Numbers from 1 on, in order. One that is active is to be looked at. Another that is known rests: until a moment, or
/// for good. Moments are in any unit.
#[derive(Drop)]
pub struct Agenda {
    // Those to be looked at.
    active: BTreeSet<u32>,
    // When others become active again, at the latest at the last moment of 32 bits, which is behind the year 2080.
    later: BTreeSet<(u32, u32)>,
    // The last moment at which one was put off.
    since: u64,
    // Numbers up to this one are known.
    known: u32,
}

impl Model for Agenda {
    ghost use Rattle.mta_dues.specs.Agendas.{AgendaValue};

    ghost Value = { AgendaValue };

    ghost view = { λ a. record { active = a.active; later = a.later; since = a.since; known = a.known } };
}

// This moment, or the last one of 32 bits before it.
fn short_of(moment: u64) -> u32
    ensures { result ≡ min moment 4294967295 }
{
    moment.min(u32::MAX as u64) as u32
}

impl Agenda {
    /// An agenda that knows no number, which takes no memory.
    pub fn new(alloc: Global) -> Agenda
        ensures { result.known ≡ 0 }
    {
        Agenda {
            active: BTreeSet::new(alloc),
            later: BTreeSet::new(alloc),
            since: 0,
            known: 0,
        }
    }

    // Nothing is known any more.
    fn forget(&mut self)
        ensures known { self.new.known ≡ 0 }
        ensures since { self.new.since ≡ 0 }
    {
        self.active.clear();
        self.later.clear();
        self.since = 0;
        self.known = 0;
    }

    // Forgets all where the moment is before one at which some were put off.
    #[tactic(auto, using(crate::proofs::Keeping::begin_laws))]
    fn begin(&mut self, moment: u64)
        ensures keeps { KeepsAll self.old self.new }
        ensures since { self.new.since ≤ moment }
    {
        if moment < self.since {
            self.forget();
        }
    }

    // The next number is known and active.
    #[tactic(auto, using(crate::proofs::Keeping::next_taken))]
    fn take_next(&mut self) -> Result<(), Memory>
        requires { self.old.known + 1 < 2 ^ 32 }
        ensures keeps { KeepsAll self.old self.new }
        ensures since { self.new.since ≡ self.old.since }
        ensures known { OnOk result (self.new.known ≡ self.old.known + 1) }
    {
        let number = self.known + 1;
        self.active.insert(number)?;
        self.known = number;
        Ok(())
    }

    // How far numbers are known.
    fn known(&self) -> u32
        ensures { result ≡ self.now.known }
    {
        self.known
    }

    // Numbers up to this one are known, and those that were not are active.
    #[tactic(auto, using(crate::proofs::Keeping::turn_laws))]
    fn take_up(&mut self, count: u32) -> Result<(), Memory>
        ensures keeps { KeepsAll self.old self.new }
        ensures since { self.new.since ≡ self.old.since }
        ensures known { OnOk result (count ≤ self.new.known) }
    {
        while self.known() < count {
            self.take_next()?;
        }
        Ok(())
    }

    // The number of the first whose moment has come.
    fn first_come(&self, moment: u64) -> Option<u32>
        ensures { IsFirstCome self.now moment result }
    {
        match self.later.first() {
            None => None,
            Some(first) => {
                if first.0 as u64 <= moment {
                    Some(first.1)
                } else {
                    None
                }
            }
        }
    }

    // The first that becomes active is so.
    fn wake_first(&mut self, number: u32) -> Result<(), Memory>
        requires { IsFirst self.old number }
        ensures keeps { KeepsAll self.old self.new }
        ensures since { self.new.since ≡ self.old.since }
        ensures known { self.new.known ≡ self.old.known }
        ensures fewer { OnOk result (length self.new.later.keys < length self.old.later.keys) }
    {
        self.active.insert(number)?;
        self.later.pop_first();
        Ok(())
    }

    // Those whose moment has come are active.
    #[tactic(auto, using(crate::proofs::Keeping::turn_laws))]
    fn wake(&mut self, moment: u64) -> Result<(), Memory>
        ensures keeps { KeepsAll self.old self.new }
        ensures since { self.new.since ≡ self.old.since }
        ensures known { self.new.known ≡ self.old.known }
        ensures later { OnOk result (AllLater self.new moment) }
    {
        while let Some(number) = self.first_come(moment) {
            self.wake_first(number)?;
        }
        Ok(())
    }

    /// Begins to look at what there is at a moment. Numbers up to `count` are known from now on, and each that does not
    /// rest at this moment is active. All are active where the moment is before one at which some were put off.
    #[tactic(auto, using(crate::proofs::Keeping::turn_laws))]
    pub fn call(&mut self, count: u32, moment: u64) -> Result<(), Memory>
        ensures keeps { KeepsAll self.old self.new }
        ensures called { OnOk result (IsAllCalled self.new count moment) }
    {
        self.begin(moment);
        self.take_up(count)?;
        self.wake(moment)
    }

    /// Whether a number is active.
    pub fn is_active(&self, number: u32) -> bool
        ensures { result ≡ is_active self.now number }
    {
        self.active.contains(&number)
    }

    /// An active number rests from a moment on until another, or until the last one of 32 bits, if there is memory to
    /// note it: else it stays active.
    pub fn put_off(&mut self, number: u32, moment: u64, until: u64)
        requires active { is_active self.old number ≡ true }
        requires later { moment < until }
        ensures { IsPutOff self.old self.new number moment until }
    {
        let short = short_of(until);
        if short as u64 <= moment {
            return;
        }
        match self.later.insert((short, number)) {
            Ok(_) => {
                self.active.remove(&number);
                self.since = self.since.max(moment);
            }
            Err(_) => {}
        }
    }

    /// An active number rests for good, unless it is recalled.
    pub fn let_go(&mut self, number: u32)
        ensures { IsLetGo self.old self.new number }
    {
        self.active.remove(&number);
    }

    /// A number that is known is active again.
    pub fn recall(&mut self, number: u32) -> Result<(), Memory>
        ensures { KeepsAll self.old self.new }
    {
        if number <= self.known {
            self.active.insert(number)?;
        }
        Ok(())
    }

    /// The lowest active number above this one.
    pub fn next(&self, after: u32) -> Option<u32>
        ensures { IsNextIn (is_active self.now) after result }
    {
        next_in(&self.active, after)
    }
}

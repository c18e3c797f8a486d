//! What became of each entry by the marks so far, by the octets that name it.

ghost use Rattle.std.specs.Prelude.{◌≡◌, ◌<◌, ◌^◌, [], length, IfOk, OnOk};
ghost use Rattle.mta_marks.specs.Marks.{entry_octets};
ghost use Rattle.mta_marks.specs.Standings.{Changes, look};

use crate::mark::{Mark, Standing, standing_by};
use crate::writing::put_entry;
use indexmap::IndexMap;
use mta_ber::{Memory, Octets};
use std::alloc::Global;
use std::marker::Model;

/// The entries that have marks, each with what became of it.
#[derive(Drop)]
pub(crate) struct Standings {
    by_entry: IndexMap<Vec<u8>, Standing>,
}

impl Model for Standings {
    ghost use Rattle.std.specs.Prelude.{List, map, ℕ};
    ghost use Rattle.mta_marks.specs.declared.mark.Standing.{Standing};

    ghost Value = { List (List ℕ × Standing) };

    ghost view = { λ s. map (λ e. (e.0.items, e.1)) s.by_entry.entries };
}

// The octets that name an entry.
fn entry_octets(alloc: Global, mailbox: &[u8], number: u32) -> Result<Octets, Memory>
    requires { length mailbox.now < 2 ^ 32 }
    ensures { IfOk result (λ octets. octets ≡ entry_octets mailbox.now number) }
{
    let mut octets = Octets::new(alloc);
    put_entry(&mut octets, mailbox, number)?;
    Ok(octets)
}

impl Standings {
    /// Those of no marks, which takes no memory.
    pub(crate) fn new(alloc: Global) -> Standings
        ensures { result ≡ [] }
    {
        Standings {
            by_entry: IndexMap::new(alloc),
        }
    }

    /// What became of an entry.
    pub(crate) fn get(&self, alloc: Global, mailbox: &[u8], number: u32) -> Result<Standing, Memory>
        requires { length mailbox.now < 2 ^ 32 }
        ensures { IfOk result (λ s. s ≡ look self.now (entry_octets mailbox.now number)) }
    {
        let octets = entry_octets(alloc, mailbox, number)?;
        match self.by_entry.get(octets.as_slice()) {
            Some(standing) => Ok(*standing),
            None => Ok(Standing::New),
        }
    }

    /// One mark more.
    pub(crate) fn add(&mut self, alloc: Global, mark: &Mark) -> Result<(), Memory>
        ensures { OnOk result (Changes mark.now self.old self.new) }
    {
        let octets = entry_octets(alloc, mark.mailbox.as_slice(), mark.number)?;
        self.by_entry
            .insert(octets.into_vec(), standing_by(mark.kind))?;
        Ok(())
    }
}

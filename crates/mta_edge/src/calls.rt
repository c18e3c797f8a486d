//! The calls of a memory form, counted from 1, and which of them fail.

ghost use Rattle.std.specs.Prelude.{◌≡◌, ◌≤◌, [], is_err, IfOk, OnOk, OnErr};
ghost use Rattle.mta_edge.specs.Causes.{Rose};
ghost use Rattle.mta_edge.specs.Numbers.{is_listed, one_more_call};

use crate::outside::Failed;
use mta_ber::Memory;
use std::alloc::Global;

/// How many calls were made, the numbers of those that fail, from 1, and the count of faults.
#[derive(Drop)]
pub struct Calls {
    pub made: u64,
    pub fail: Vec<u64>,
    pub faults: u64,
}

impl Calls {
    /// The calls with these numbers fail.
    pub fn new(fail: Vec<u64>) -> Calls
        ensures faults { result.faults ≡ 0 }
        ensures made { result.made ≡ 0 }
        ensures fail { result.fail ≡ fail }
    {
        Calls {
            made: 0,
            fail,
            faults: 0,
        }
    }

    /// One more call, which fails exactly where its number is listed. Once the count has stopped none fails.
    pub fn begin(&mut self) -> Result<(), Failed>
        ensures number { self.new.made ≡ one_more_call self.old.made }
        ensures fail { self.new.fail ≡ self.old.fail }
        ensures fails { is_err result ≡ is_listed self.old.fail.items self.old.made }
        ensures later { self.old.faults ≤ self.new.faults }
        ensures rose { OnErr result (Rose self.old.faults self.new.faults) }
    {
        if self.made == u64::MAX {
            return Ok(());
        }
        self.made += 1;
        if self.fail.contains(&self.made) {
            return Err(self.fault());
        }
        Ok(())
    }

    /// Counts a fault.
    pub fn fault(&mut self) -> Failed
        ensures made { self.new.made ≡ self.old.made }
        ensures fail { self.new.fail ≡ self.old.fail }
        ensures later { self.old.faults ≤ self.new.faults }
        ensures rose { Rose self.old.faults self.new.faults }
    {
        self.faults = self.faults.saturating_add(1);
        Failed
    }

    /// What memory was found for. Counts a fault where it was refused.
    pub fn kept<T: Drop>(&mut self, found: Result<T, Memory>) -> Result<T, Failed>
        ensures same { IfOk result (λ x. found ≡ Ok x) }
        ensures made { self.new.made ≡ self.old.made }
        ensures fail { self.new.fail ≡ self.old.fail }
        ensures later { self.old.faults ≤ self.new.faults }
        ensures rose { OnErr result (Rose self.old.faults self.new.faults) }
    {
        match found {
            Ok(value) => Ok(value),
            Err(_) => Err(self.fault()),
        }
    }
}

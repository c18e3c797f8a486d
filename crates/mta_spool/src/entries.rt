//! The steps that a spool has made, for clauses alone: no copy of them is kept.

ghost use Rattle.std.specs.Prelude.{◌≡◌, List, [], ◌∷◌, ◌++◌};
ghost use Rattle.std.specs.Borrow.{ftrue};
ghost use Rattle.mta_records.specs.declared.step.Step.{Step as StepValue};

use mta_records::Step;
use std::marker::Model;

/// Steps in the order in which they were made. It has no octets, and only clauses read it.
#[derive(Drop)]
pub struct Entries {
    pub ghost steps: { List StepValue },
}

impl Model for Entries {
    ghost also_owns = { λ _. ftrue };
}

// They own nothing.
unsafe impl Send for Entries {}

impl Entries {
    /// No steps.
    pub fn new() -> Entries
        ensures { result.steps ≡ [] }
    {
        Entries {}
    }

    /// These steps, and one behind them.
    pub fn with(&self, step: &Step) -> Entries
        ensures { result.steps ≡ self.now.steps ++ step.now ∷ [] }
    {
        let _ = step;
        Entries {}
    }
}

//! A law of audits, the contract of a function that does nothing.

ghost use Rattle.mta_audit_run.specs.Halves.{VerdictsAreExact};

/// What is said of a half is so: that it agrees exactly where what was completed is what was sent, in order, or that
/// and the activity in Ending; and else the first position at which the two differ.
pub fn verdicts_are_exact()
    ensures { VerdictsAreExact }
{}

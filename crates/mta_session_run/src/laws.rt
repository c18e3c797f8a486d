//! Laws over the definitions.

ghost use Rattle.mta_session_run.specs.Running.{RunsAreCalls};

/// What a session does while it is carried on are calls of it, one after the other.
pub fn runs_are_calls()
    ensures { RunsAreCalls }
{}

//! Laws of what a session goes on with, each the contract of a function that does nothing.

ghost use Rattle.mta_session_next_laws.specs.Next.{CallsDoNext, HoldersAsk, HoldersGoOn, ListenersGoOn, ListenersTake};
ghost use Rattle.mta_session_next_laws.specs.Next.{CompletesGoOn, EndAcksAreCalledFor, MadeStepsGoOn, PutsGoOn};
ghost use Rattle.mta_session_next_laws.specs.Next.{PiecesAreAdmitted, ResumeAcksAreHeard, SecuresGoOn, StartsGoOn};
ghost use Rattle.mta_session_next_laws.specs.Next.{SyncAcksAreCalledFor};

/// With the turn, and where no activity is given up, a session goes on in one way.
pub fn holders_go_on()
    ensures { HoldersGoOn }
{}

/// Without it a session goes on in one way.
pub fn listeners_go_on()
    ensures { ListenersGoOn }
{}

/// A call that leads to where a session goes on does what is next there; each unit of a transfer leads there, and an
/// answer asks for its step.
pub fn calls_do_next()
    ensures calls { CallsDoNext }
    ensures takes { ListenersTake }
    ensures asks { HoldersAsk }
{}

/// Each answer of the other end calls for its step, and a session goes on behind each unit that was put and each step
/// that was made.
pub fn answers_lead_on()
    ensures syncs { SyncAcksAreCalledFor }
    ensures ends { EndAcksAreCalledFor }
    ensures resumes { ResumeAcksAreHeard }
    ensures steps { MadeStepsGoOn }
    ensures starts { StartsGoOn }
    ensures secures { SecuresGoOn }
    ensures completes { CompletesGoOn }
    ensures puts { PutsGoOn }
{}

/// Each piece that is put is one that the other end admits.
pub fn pieces_are_admitted()
    ensures { PiecesAreAdmitted }
{}

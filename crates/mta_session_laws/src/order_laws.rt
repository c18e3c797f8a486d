//! Laws over the definitions.

ghost use Rattle.mta_session_laws.specs.Order.{NothingIsOwed, AnswersAtOnce, LooksFirst};
ghost use Rattle.mta_session_laws.specs.Order.{LanesHaveOccasion, SessionsEndSo, ActionsAreAwaited};

/// Before a session takes a unit it has answered those before, and put all that it may put.
pub fn nothing_is_owed()
    ensures { NothingIsOwed }
{}

/// Resume and Discard are answered in the call that gets them; a part that stands is dropped first.
pub fn units_are_answered()
    ensures { AnswersAtOnce }
{}

/// Close and Give are put only behind a look that found no batch, since the turn came or an activity was settled.
pub fn looks_come_first()
    ensures { LooksFirst }
{}

/// A lane is closed, or one looked for that makes room, only where there is occasion.
pub fn lanes_have_occasion()
    ensures { LanesHaveOccasion }
{}

/// A session that has turned to an end ends so.
pub fn sessions_end_so()
    ensures { SessionsEndSo }
{}

/// Behind each action the session waits for what comes of it.
pub fn actions_are_awaited()
    ensures { ActionsAreAwaited }
{}

//! Laws of the answers, each the contract of a function that does nothing.

ghost use Rattle.mta_drill_answer_laws.specs.Answers.{LooksAreAsked, QuestionsAreAsked};

/// Where there is memory for all, each step that is possible is made, and each question is answered as the spool is.
pub fn questions_are_asked()
    ensures { QuestionsAreAsked }
{}

/// Where there is memory for all, each look at a lane before a session is answered as the spool is.
pub fn looks_are_asked()
    ensures { LooksAreAsked }
{}

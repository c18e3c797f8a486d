//! Laws of the stages of a session, each the contract of a function that does nothing.

ghost use Rattle.mta_drill_stage_laws.specs.Laws.{CallersStay, ListenersGo, ListenersStay, QuestionsAreAnswered};
ghost use Rattle.mta_drill_stage_laws.specs.Laws.{OpeningsCall, OpeningsListen, RecoveriesCall, RecoveriesListen};
ghost use Rattle.mta_drill_stage_laws.specs.Laws.{FirstSessionsBegin, LaterSessionsBegin, RoundsStay, SessionsEnd};
ghost use Rattle.mta_drill_stage_laws.specs.Sessions.{DrillsBegin, SessionsCall, SessionsGo, SessionsHear};
ghost use Rattle.mta_drill_stage_laws.specs.Sessions.{SessionsListen};
ghost use Rattle.mta_drill_stage_laws.specs.Sessions.{SessionsAreFew, SessionsLeadOn, SessionsRest, SessionsStart};
ghost use Rattle.mta_drill_stage_laws.specs.Sessions.{LooksAreHeard, NoneIsRefused, SessionsAreKnown, SessionsTurn};

/// Each act of either agent leads from a stage of a session to a stage, and so do all, one behind the other.
pub fn acts_lead_on()
    ensures listens { ListenersStay }
    ensures all { ListenersGo }
    ensures calls { CallersStay }
    ensures rounds { RoundsStay }
{}

/// Where neither agent goes on by itself the session has ended.
pub fn sessions_end()
    ensures { SessionsEnd }
{}

/// Each session is told what it asked for in a stage.
pub fn questions_are_answered()
    ensures { QuestionsAreAnswered }
{}

/// A new lane is opened and accepted, and then the first message is looked for.
pub fn openings_lead_on()
    ensures listens { OpeningsListen }
    ensures calls { OpeningsCall }
{}

/// A lane is recovered and accepted, and then the next message is looked for, or the one under way is gone on with.
pub fn recoveries_lead_on()
    ensures listens { RecoveriesListen }
    ensures calls { RecoveriesCall }
{}

/// Both agents begin the first session, and each later one.
pub fn sessions_begin()
    ensures first { FirstSessionsBegin }
    ensures later { LaterSessionsBegin }
{}

/// Each act of either agent leads from a session to the same session, where both rest it has ended, and each question
/// is answered by what the session waits for.
pub fn sessions_go_on()
    ensures listens { SessionsListen }
    ensures all { SessionsGo }
    ensures calls { SessionsCall }
    ensures turns { SessionsTurn }
    ensures rests { SessionsRest }
    ensures hears { SessionsHear }
{}

/// From two agents that opened no lane yet, sessions and what is due behind each lead to where all is sent, delivered
/// and counted, and the lane is closed: at most two a message, and one more.
pub fn sessions_lead_on()
    ensures starts { SessionsStart }
    ensures leads { SessionsLeadOn }
    ensures few { SessionsAreFew }
{}

/// Between sessions the first agent has no lane or the one to the second agent, which is opened or bound where there is
/// memory for it, and each look at it is answered by what the session waits for.
pub fn sessions_are_known()
    ensures known { SessionsAreKnown }
    ensures made { NoneIsRefused }
    ensures heard { LooksAreHeard }
{}

/// Two agents that opened no lane yet, of which one has accepted all messages, stand before the first session.
pub fn drills_begin()
    ensures { DrillsBegin }
{}

//! Laws of sessions of a drill, the contract of a function that does nothing.

ghost use Rattle.mta_drill.specs.Laws.{NoneIsGivenUp, RestsAreEnds};

/// No session that is in a stage is given up, and where both sides rest it has ended.
pub fn sessions_come_to_an_end()
    ensures never { NoneIsGivenUp }
    ensures rests { RestsAreEnds }
{}

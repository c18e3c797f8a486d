//! Laws, each the contract of a function that does nothing.

ghost use Rattle.mta_lane_match_laws.specs.Laws.{OthersKeep, OthersKeepAll, OwnStepsMatch, OpensMatch, AcceptsMatch};
ghost use Rattle.mta_lane_match_laws.specs.Laws.{LanesKeepRoles, GivenUpStays, OnlyAbandonsDrop};
ghost use Rattle.mta_lane_match_laws.specs.Alone.{AloneBefore, AloneKeeps};
ghost use Rattle.mta_lane_match_laws.specs.Asks.{AsksAreOfPhase};
ghost use Rattle.mta_lane_match_laws.specs.Calls.{HeardKeeps, TakenKeeps, ActionsKnow, EventsKnow, CallsKnow};
ghost use Rattle.mta_lane_match_laws.specs.Calls.{LanesStay};
ghost use Rattle.mta_lane_match_laws.specs.Calls.{RepliesMatch, TurnsMatch};
ghost use Rattle.mta_lane_match_laws.specs.Generations.{GenerationsBeginOnce};
ghost use Rattle.mta_lane_match_laws.specs.Looks.{LooksAnswer, LooksLead};
ghost use Rattle.mta_lane_match_laws.specs.Replies.{StartsAnswer, RepliesAnswer, LooksStill, RefusedIsGivenUp};
ghost use Rattle.mta_lane_match_laws.specs.Replies.{PiecesMayBeKept};

use mta_histories::{histories_keep, steps_keep};

/// A possible step of another worker keeps a session matching its lane: any step but those of this lane and
/// generation, and of these a Bind, a CloseLane and an Abandon.
pub fn others_keep()
    ensures { OthersKeep }
{}

/// So does all that other workers do between two turns.
pub fn others_keep_all()
    ensures { OthersKeepAll }
{
    steps_keep();
    others_keep();
}

/// Where no entry of another is a step of the session's lane and generation, but a Bind, a CloseLane or an Abandon,
/// what others added to the history keeps the session matching its lane; and where that is so of a longer history, it
/// was so before.
pub fn lanes_alone_match()
    ensures before { AloneBefore }
    ensures keeps { AloneKeeps }
{
    others_keep_all();
    histories_keep();
}

/// A possible step that the session asked for leads to what it knows then.
pub fn own_steps_match()
    ensures { OwnStepsMatch }
{}

/// A new lane is as the session knows it for which it was opened.
pub fn opened_lanes_match()
    ensures initiators { OpensMatch }
    ensures responders { AcceptsMatch }
{}

/// The looks of the turn of a Bind meet the conditions of a session's replies, and then the session knows its lane.
pub fn looks_answer()
    ensures answers { LooksAnswer }
    ensures leads { LooksLead }
{}

/// What a session asks for is of the phase that it is in then, and each step that it asks for is of its lane and its
/// generation, but for the closing of another lane to make room for its own.
pub fn asks_are_of_phase()
    ensures { AsksAreOfPhase }
{}

/// A session that has a lane keeps it, in its generation.
pub fn lanes_stay()
    ensures { LanesStay }
{}

/// A unit changes nothing that is durable of the halves.
pub fn units_keep_halves()
    ensures sending { HeardKeeps }
    ensures receiving { TakenKeeps }
{}

/// What is done for an event keeps what the session knows.
pub fn actions_know()
    ensures { ActionsKnow }
{}

/// What an event calls for is of a session that knows what it knew, and what the event told.
pub fn events_know()
    ensures { EventsKnow }
{
    units_keep_halves();
}

/// So does one call of the session.
pub fn calls_know()
    ensures { CallsKnow }
{
    actions_know();
    events_know();
}

/// What a session learns by a reply is how its lane is then.
pub fn replies_match()
    ensures { RepliesMatch }
{
    own_steps_match();
}

/// One turn of a session that follows its lane leaves it matching the lane.
pub fn turns_match()
    ensures { TurnsMatch }
{
    calls_know();
    replies_match();
}

/// The reply to a Start that was made where a look of the same turn told of the session's own half meets the session's
/// condition, whatever other workers did. The look tells so of a lane that the session matches.
pub fn starts_answer()
    ensures answers { StartsAnswer }
    ensures looks { LooksStill }
{
    steps_keep();
}

/// A reply of the kind that is asked for meets the session's condition, but the looks of the turn of a Bind, the peer's
/// line and a Start, of which more is asked.
pub fn replies_answer()
    ensures { RepliesAnswer }
{}

/// An own step is refused as one that the lane does not allow only where the activity was given up.
pub fn refused_is_given_up()
    ensures { RefusedIsGivenUp }
{}

/// A piece that is handed on may be kept, where the pieces are not too many octets and spell an APDU.
pub fn pieces_may_be_kept()
    ensures { PiecesMayBeKept }
{}

/// A lane that is open keeps its role, whoever makes steps.
pub fn lanes_keep_roles()
    ensures { LanesKeepRoles }
{
    steps_keep();
}

/// An activity that was settled or given up does not go on again, whoever makes steps.
pub fn given_up_stays()
    ensures { GivenUpStays }
{
    steps_keep();
}

/// A lane comes to drop an activity by its Abandon alone, whoever makes steps.
pub fn only_abandons_drop()
    ensures { OnlyAbandonsDrop }
{
    steps_keep();
}

/// A generation of a lane begins at one position of the history, so no two sessions have a lane in one generation.
pub fn generations_begin_once()
    ensures { GenerationsBeginOnce }
{}

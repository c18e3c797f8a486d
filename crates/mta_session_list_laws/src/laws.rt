//! Laws over the definitions.

ghost use Rattle.mta_session_list_laws.specs.Examples.{TakesOne, GivesUp, Resumes};
ghost use Rattle.mta_session_list_laws.specs.Laws.{AbandonsArePlaced, AbandonsStand, AbandonsKeepTurns};
ghost use Rattle.mta_session_list_laws.specs.Laws.{AbandonsKeepRefusals, AbandonsKeepReceived, ListsAreGood};
ghost use Rattle.mta_session_list_laws.specs.Sent.{OthersMayBeLeftOut, NoneGoesOn, NoneDrops};

/// Each Abandon that is put into a list has its place, and stands in the history. It concerns neither the turn nor the
/// receiving half nor what is refused.
pub fn abandons_stand()
    ensures placed { AbandonsArePlaced }
    ensures stand { AbandonsStand }
    ensures turns { AbandonsKeepTurns }
    ensures refusals { AbandonsKeepRefusals }
    ensures received { AbandonsKeepReceived }
{}

/// Worked rows: a responder takes a message and the lane is closed; another pass gives up what an initiator sends; a
/// lane is recovered.
pub fn worked_rows()
    ensures takes { TakesOne }
    ensures gives_up { GivesUp }
    ensures resumes { Resumes }
{}

/// Of a sending half: units that say nothing of a transfer may be left out of a list. Behind an Abandon of an activity
/// no Confirm and no Ending of it follows, and without one no lane comes to drop it.
pub fn halves_send()
    ensures others { OthersMayBeLeftOut }
    ensures past { NoneGoesOn }
    ensures undropped { NoneDrops }
{}

/// The list of a session that has a lane, with the Abandons of other passes, is a good one, however the session is
/// over: it comes to its end, or memory is wanted, and what came of its last action stands in the list, and the Abort
/// that its worker puts.
pub fn lists_are_good()
    ensures { ListsAreGood }
{
    mta_session_laws::events_lead_on();
}

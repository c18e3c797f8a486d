//! Session lists, histories and the world runs that they make.
#![tactic(auto)]

ghost use Rattle.std.specs.Prelude.{ℕ};
ghost use Rattle.mta_rtse.specs.declared.types.Answer.{Answer};
ghost use Rattle.mta_units.specs.declared.unit.OpenUnit.{OpenUnit};
ghost use Rattle.mta_transfer_laws.specs.Events.{EventsAreARun};
ghost use Rattle.mta_transfer_laws.specs.Sendings.{SendingsKeepRules};
ghost use Rattle.mta_transfer_laws.specs.Receivings.{ReceivingsKeepRules};
ghost use Rattle.mta_transfer_laws.specs.Run.{SessionsAgree};
ghost use Rattle.mta_transfer_laws.specs.Sendings as sends;
ghost use Rattle.mta_transfer_laws.specs.Receivings as receives;
ghost use Rattle.mta_transfer_laws.specs.Examples.{TwoSessionsSend, ASessionDrops, ALateAbandonIsNotGood};
ghost use Rattle.mta_transfer_laws.specs.Examples.{AnUnconfirmedSyncIsNotGood, ACrossedCloseIsGood};
ghost use Rattle.mta_transfer_laws.specs.Examples.{AnUnclosedLaneIsGood, AnEndAckIsPutAgain};
ghost use Rattle.mta_transfer_laws.specs.Clause.{OneStationAgrees};
ghost use Rattle.mta_transfer_laws.specs.ReceivingOrder.{OwningKeepsReceivingOrder};
ghost use Rattle.mta_transfer_laws.specs.History.{AgreedValuesStay};
ghost use Rattle.mta_transfer_laws.specs.Acknowledged.{EndAcksAreKept};
ghost use Rattle.mta_transfer_laws.specs.Sessions.{AbandonMayStandBefore, GoodSessionsGrow};
ghost use Rattle.mta_transfer_laws.specs.Covering.{CoveringKeepsOrder, OwningKeepsOrder};

/// Events that the links and the rules of both ends allow go on from a world run to a world run.
pub fn events_are_a_run()
    ensures { EventsAreARun }
{}

/// What good session lists did with a sending half keeps its rules in every world that has them.
pub fn sendings_keep_rules()
    ensures { SendingsKeepRules }
{}

/// What good session lists did with a receiving half keeps its rules in every world that has them.
pub fn receivings_keep_rules()
    ensures { ReceivingsKeepRules }
{}

/// Good session lists of one station over a possible history: whatever the other end and the links did, what happened
/// is a world run, and the ends agree.
pub fn sessions_agree()
    ensures { SessionsAgree }
{
    mta_world::ends_agree();
}

/// The rules allow it: two good session lists that send one message, and a world that has them.
pub fn two_sessions_send()
    ensures { (o : OpenUnit) (size window : ℕ) (a : Answer) → TwoSessionsSend o size window a }
{}

/// Lists whose steps are those of a history, in its order, stand in events of the world.
pub fn own_events_stand()
    ensures sending { sends.OwnEventsStand }
    ensures receiving { receives.OwnEventsStand }
{}

/// Where each step of the half that was added stands in a list, or gives an activity up outside them all, the lists
/// have the history's steps in its order.
pub fn covering_keeps_order()
    ensures { CoveringKeepsOrder }
{}

/// An Abandon that a session did not see may stand before the step that settles its activity.
pub fn an_abandon_may_stand_before()
    ensures { AbandonMayStandBefore }
{}

/// What is good over what a pass has seen is good over every longer history.
pub fn good_sessions_grow()
    ensures { GoodSessionsGrow }
{}

/// An EndAck that a good session put has its Complete step in the history, or the history begins with a snapshot in
/// which its activity is the last one that was completed.
pub fn end_acks_are_kept()
    ensures { EndAcksAreKept }
{}

/// The agreed values of a lane stay in every possible history.
pub fn agreed_values_stay()
    ensures { AgreedValuesStay }
{}

/// Where one station had all sessions of the lane and their lists own the steps that are no Abandon, the lists have the
/// history's steps in its order.
pub fn owning_keeps_order()
    ensures { OwningKeepsOrder }
{}

/// The same of the receiving half, each of whose steps is made in a session.
pub fn owning_keeps_receiving_order()
    ensures { OwningKeepsReceivingOrder }
{}

/// One station had all sessions of a lane: the ends agree, and the steps that were added are those of its lists, in
/// order.
pub fn one_station_agrees()
    ensures { OneStationAgrees }
{
    sessions_agree();
    owning_keeps_order();
    owning_keeps_receiving_order();
}

/// A list with an Abandon of another pass is good where the Abandon stands before the look that has it; a list with the
/// Abandon behind it, and one that takes a unit with a Confirm due, are not. A responder's list in which Close crossed
/// its Please, and Give follows, is good, and so is an initiator's that puts an Abort behind CloseAck.
/// Behind a snapshot in which an activity is done its EndAck is put again.
pub fn examples_of_lists()
    ensures dropping { (o : OpenUnit) (size window : ℕ) (a : Answer) → ASessionDrops o size window a }
    ensures late { (o : OpenUnit) (size window : ℕ) (a : Answer) → ALateAbandonIsNotGood o size window a }
    ensures unconfirmed { (o : OpenUnit) (size window : ℕ) (a : Answer)
        → AnUnconfirmedSyncIsNotGood o size window a }
    ensures crossed { (o : OpenUnit) (size window : ℕ) (a : Answer) → ACrossedCloseIsGood o size window a }
    ensures unclosed { (o : OpenUnit) (size window : ℕ) (a : Answer) → AnUnclosedLaneIsGood o size window a }
    ensures again { (o : OpenUnit) (size window : ℕ) (a : Answer) → AnEndAckIsPutAgain o size window a }
{}

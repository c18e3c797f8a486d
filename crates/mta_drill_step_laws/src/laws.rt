//! Laws of what both agents of a drill hold, each the contract of a function that does nothing.

ghost use Rattle.mta_drill_step_laws.specs.First.{AcceptLeadsOn, FirstIsQuiet, NextIsRelayed, NoneIsLeft, SentLeadsOn};
ghost use Rattle.mta_drill_step_laws.specs.Second.{AllAreDelivered, CompleteLeadsOn, DeliverLeadsOn, NextIsDelivered};
ghost use Rattle.mta_drill_step_laws.specs.States.{AcceptedIsOneMore, CompleteIsOneMore, DeliveredIsOneMore};
ghost use Rattle.mta_drill_step_laws.specs.States.{FirstBegins};
ghost use Rattle.mta_drill_step_laws.specs.States.{IdleLanesLeaveAllFree, NoLanesLeaveAllFree, SecondBegins};
ghost use Rattle.mta_drill_step_laws.specs.States.{SentIsOneMore, StillStepsLeaveItems, TransferIsCopy};

/// At the first agent nothing is due; the next message is the next batch, until all are sent.
pub fn first_goes_on()
    ensures quiet { FirstIsQuiet }
    ensures next { NextIsRelayed }
    ensures left { NoneIsLeft }
    ensures accepted { AcceptLeadsOn }
    ensures sent { SentLeadsOn }
{}

/// At the second agent the delivery of the next message is due, until all are delivered.
pub fn second_goes_on()
    ensures next { NextIsDelivered }
    ensures all { AllAreDelivered }
    ensures completed { CompleteLeadsOn }
    ensures delivered { DeliverLeadsOn }
{}

/// What each step leaves of the state of an agent: the steps on lanes leave the items, but for those that send or
/// complete a message.
pub fn steps_lead_on()
    ensures still { StillStepsLeaveItems }
    ensures first { FirstBegins }
    ensures second { SecondBegins }
    ensures accepted { AcceptedIsOneMore }
    ensures copy { TransferIsCopy }
    ensures sent { SentIsOneMore }
    ensures completed { CompleteIsOneMore }
    ensures delivered { DeliveredIsOneMore }
    ensures idle { IdleLanesLeaveAllFree }
    ensures none { NoLanesLeaveAllFree }
{}

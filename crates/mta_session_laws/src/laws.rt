//! Laws over the definitions.

ghost use Rattle.mta_session_laws.specs.Causes.{EndsHaveCauses};
ghost use Rattle.mta_session_laws.specs.Runs.{SendingRuns, ReceivingRuns};
ghost use Rattle.mta_session_laws.specs.Writing.{PutsMayBeWritten};
ghost use Rattle.mta_session_laws.specs.Called.{StepsAreCalled, StepsNeedActivity, PassingIsGot, StartsMayBeMade};
ghost use Rattle.mta_session_laws.specs.TurningRecv.{EventsGo as ReceiverEventsGo, CallsGo as ReceiverCallsGo};
ghost use Rattle.mta_session_laws.specs.Turning.{StepGoes, StartGoes, EventsGo, CallsGo};

/// The steps that a session asks for are called for by the units that it got.
pub fn steps_are_called()
    ensures steps { StepsAreCalled }
    ensures live { StepsNeedActivity }
    ensures passing { PassingIsGot }
    ensures starts { StartsMayBeMade }
{}

/// So it is with a step that was made, and with an activity that is started.
pub fn steps_lead_on()
    ensures steps { StepGoes }
    ensures starts { StartGoes }
{}

/// Each event of an open session is one of its sending end, by the rules of that end.
pub fn events_lead_on()
    ensures { EventsGo }
{
    steps_are_called();
}

/// One call of an open session: the events of its sending end are allowed, and lead to the end that it has then.
pub fn calls_lead_on()
    ensures { CallsGo }
{
    events_lead_on();
}

/// Each event of an open session is one of its receiving end, by the rules of that end.
pub fn events_lead_the_receiver_on()
    ensures { ReceiverEventsGo }
{}

/// One call of an open session: the events of its receiving end are allowed, and lead to the end that it has then.
pub fn calls_lead_the_receiver_on()
    ensures { ReceiverCallsGo }
{
    events_lead_the_receiver_on();
}

/// What an open session does, call by call, is a list of events that the rules of sending ends allow.
pub fn sessions_send_by_the_rules()
    ensures { SendingRuns }
{
    calls_lead_on();
}

/// And one that the rules of receiving ends allow.
pub fn sessions_receive_by_the_rules()
    ensures { ReceivingRuns }
{
    calls_lead_the_receiver_on();
}

/// A session turns to each end only for its cause.
pub fn ends_have_causes()
    ensures { EndsHaveCauses }
{}

/// Each unit that a session puts may be written, where its names and passwords may.
pub fn units_put_may_be_written()
    ensures { PutsMayBeWritten }
{}

//! Worked histories, each the contract of a function that does nothing.

ghost use Rattle.mta_worked_histories.specs.Cases.{UnknownNameIsReported, ListsOfEachOtherEnd, StartedIsSent};

/// A message to a name that nobody has is reported, and its report ends where its own destination is not known.
pub fn unknown_name_is_reported()
    ensures { UnknownNameIsReported }
{}

/// Two lists that have each other as members are expanded until the copy comes back to the first.
pub fn lists_of_each_other_end()
    ensures { ListsOfEachOtherEnd }
{}

/// A message that is routed to a peer is started on a lane to it, and sent once the peer has it.
pub fn started_is_sent()
    ensures { StartedIsSent }
{}

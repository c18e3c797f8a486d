//! Laws of the messages of a drill, each the contract of a function that does nothing.

ghost use Rattle.mta_drill_laws.specs.Laws.{CopiesAreDelivered, MessagesAreRelayed, TablesAreRead};

/// The texts of both agents are tables, and each names the other agent.
pub fn tables_are_read()
    ensures { TablesAreRead }
{}

/// Each message is one that may be submitted, and goes to the second agent.
pub fn messages_are_relayed()
    ensures { MessagesAreRelayed }
{}

/// Its copy is one that may be received, and is delivered to watt, without a report.
pub fn copies_are_delivered()
    ensures { CopiesAreDelivered }
{}

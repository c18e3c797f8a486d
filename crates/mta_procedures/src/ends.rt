//! Laws of what is relayed, read again, and brought to an end.

ghost use Rattle.mta_procedures.specs.Ends.{MessagesHaveTheirVerdicts, ProbesHaveTheirVerdicts, ReportsMakeNoReports};
ghost use Rattle.mta_procedures.specs.Ends.{DeliveredMessagesAreAtMailboxes, DeliveredReportsAreAtMailboxes};
ghost use Rattle.mta_procedures.specs.Ends.{PassedReportsHaveDestinations, ExpandedMessagesHaveRoom};
ghost use Rattle.mta_procedures.specs.Ends.{ReportsGoWhereTheWalkEnds};
ghost use Rattle.mta_procedures.specs.Readings.{KeptEnvelopesWereRead, MessageCopiesAreRead, ProbeCopiesAreRead};
ghost use Rattle.mta_procedures.specs.Readings.{ReportCopiesAreRead, MadeReportsAreRead, PassedReportsAreRead};
ghost use Rattle.mta_procedures.specs.Readings.{MembersCopiesAreRead, ListsOfTablesAreWritable};
ghost use Rattle.mta_procedures.specs.Relays.{RelayedMessagesHaveCopies, RelayedProbesHaveCopies};
ghost use Rattle.mta_procedures.specs.Relays.{RelayedReportsHaveCopies, ReportCopiesAreTheSame};

/// What is relayed has a copy of 1 to 2,097,152 octets, and its trace has room for an element. The copy of a report
/// is the same at each moment.
pub fn what_is_relayed_has_copies()
    ensures messages { RelayedMessagesHaveCopies }
    ensures probes { RelayedProbesHaveCopies }
    ensures reports { RelayedReportsHaveCopies }
    ensures same { ReportCopiesAreTheSame }
{}

/// A message is not affirmed, discarded or passed back, a probe is affirmed, relayed or reported on, and of a report
/// nothing is reported.
pub fn kinds_have_their_verdicts()
    ensures messages { MessagesHaveTheirVerdicts }
    ensures probes { ProbesHaveTheirVerdicts }
    ensures reports { ReportsMakeNoReports }
{}

/// What is delivered is at a mailbox, and a report is passed back where there is someone to whom it can go.
pub fn verdicts_lead_where_they_say()
    ensures messages { DeliveredMessagesAreAtMailboxes }
    ensures reports { DeliveredReportsAreAtMailboxes }
    ensures passed { PassedReportsHaveDestinations }
{}

/// What is expanded is at a list, and has room for the expansion in trace and history unless the list was expanded
/// before.
pub fn what_is_expanded_has_room()
    ensures { ExpandedMessagesHaveRoom }
{}

/// A report is made exactly where the walk ends at a name, and goes there.
pub fn reports_go_where_the_walk_ends()
    ensures { ReportsGoWhereTheWalkEnds }
{}

/// A peer reads the copy of an item that was read as the item with responsibility and trace as they are to be.
pub fn copies_are_read()
    ensures envelopes { KeptEnvelopesWereRead }
    ensures messages { MessageCopiesAreRead }
    ensures probes { ProbeCopiesAreRead }
    ensures reports { ReportCopiesAreRead }
{}

/// Reports and members' copies that are made of items that were read are read as they are.
pub fn made_items_are_read()
    ensures reports { MadeReportsAreRead }
    ensures passed { PassedReportsAreRead }
    ensures members { MembersCopiesAreRead }
{}

/// The names of the lists of tables keep nothing unread, so they may be written wherever a name stands.
pub fn lists_of_tables_are_writable()
    ensures { ListsOfTablesAreWritable }
{}

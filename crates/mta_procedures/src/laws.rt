//! Laws of verdicts, copies and reports.

ghost use Rattle.mta_procedures.specs.Laws.{FirstCaseApplies, FirstCaseIsOne, HeadIsInFront, CopyKeepsAllElse};
ghost use Rattle.mta_procedures.specs.Laws.{ReportCopyKeepsAllElse, CopyKeepsRecipients, ResponsibilityIsAsSaid};
ghost use Rattle.mta_procedures.specs.Laws.{CopiesAreAsLong, ProbeCopiesAreAsLong, CopiesAreWhole};
ghost use Rattle.mta_procedures.specs.Laws.{ReportCopiesAreWhole, MembersCopyIsWhole, ListInHistoryHasNoCopy};
ghost use Rattle.mta_procedures.specs.Laws.{MembersCopyIsOne, MadeReportIsWhole};

/// One case is the first that applies, and no other is.
pub fn the_first_case_is_one()
    ensures applies { FirstCaseApplies }
    ensures one { FirstCaseIsOne }
{}

/// The head of a message's copy, and the content behind it, are the copy.
pub fn the_head_is_in_front()
    ensures { HeadIsInFront }
{}

/// A copy is what it is a copy of, but for responsibility and the trace.
pub fn copies_keep_all_else()
    ensures envelopes { CopyKeepsAllElse }
    ensures reports { ReportCopyKeepsAllElse }
    ensures recipients { CopyKeepsRecipients }
{}

/// Responsibility is as said, and no other indicator changes.
pub fn responsibility_is_as_said()
    ensures { ResponsibilityIsAsSaid }
{}

/// A copy has as many octets whichever recipients are chosen and whenever it is made.
pub fn copies_are_as_long()
    ensures messages { CopiesAreAsLong }
    ensures probes { ProbeCopiesAreAsLong }
{}

/// A copy of a message, a probe or a report is one, with all parts in their ranges and what is kept unread at its
/// level.
pub fn copies_are_whole()
    ensures envelopes { CopiesAreWhole }
    ensures reports { ReportCopiesAreWhole }
{}

/// The history of a members' copy has one expansion more; a list that was expanded before has no members' copy.
pub fn expansions_are_recorded()
    ensures none { ListInHistoryHasNoCopy }
    ensures one { MembersCopyIsOne }
{}

/// A members' copy is a message, whose extensions say the history that it has.
pub fn members_copies_are_whole()
    ensures { MembersCopyIsWhole }
{}

/// A report that is made is one, with all parts in their ranges.
pub fn made_reports_are_whole()
    ensures { MadeReportIsWhole }
{}

//! Laws of reports and octets.

ghost use Rattle.mta_report.specs.Laws.{ReportsAreReadAgain, WholeReportsAreReadAgain, ReadReportsAreKept};
ghost use Rattle.mta_report.specs.Laws.{ReadReportsAreReadAgain, ReadWholeReportsAreReadAgain, NoReportBeginsAnother};

/// A report that is written is read again, whatever follows it (X.411, Report), inside other elements and as a whole
/// APDU. What it keeps unread stands in the level of its place.
pub fn reports_are_read_again()
    ensures levels { ReportsAreReadAgain }
    ensures whole { WholeReportsAreReadAgain }
{}

/// What a report that was read keeps unread stands in the level of its place (X.411, Report).
pub fn reports_that_were_read_are_kept()
    ensures { ReadReportsAreKept }
{}

/// A report that was read is written so that it is read again, whatever follows it, inside other elements and as a
/// whole APDU.
pub fn reports_that_were_read_are_read_again()
    ensures levels { ReadReportsAreReadAgain }
    ensures whole { ReadWholeReportsAreReadAgain }
{}

/// No spelling of a report begins another one, and each is the spelling of one value.
pub fn no_report_begins_another()
    ensures { NoReportBeginsAnother }
{}

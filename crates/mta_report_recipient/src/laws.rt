//! Laws of recipients of whom is reported and octets.

ghost use Rattle.mta_report_recipient.specs.Laws.{RecipientsAreReadAgain, ReadRecipientsAreKept};
ghost use Rattle.mta_report_recipient.specs.Laws.{ReadRecipientsAreReadAgain, NoRecipientBeginsAnother};

/// A recipient of whom is reported that is written is read again, whatever follows it (X.411,
/// PerRecipientReportTransferFields). What it keeps unread stands in the level of its place.
pub fn recipients_are_read_again()
    ensures { RecipientsAreReadAgain }
{}

/// What a recipient of whom is reported that was read keeps unread stands in the level of its place (X.411,
/// PerRecipientReportTransferFields).
pub fn recipients_that_were_read_are_kept()
    ensures { ReadRecipientsAreKept }
{}

/// A recipient of whom is reported that was read is written so that it is read again, whatever follows it, in the level
/// where it was read.
pub fn recipients_that_were_read_are_read_again()
    ensures { ReadRecipientsAreReadAgain }
{}

/// No spelling of a recipient of whom is reported begins another one, and each is the spelling of one value.
pub fn no_recipient_begins_another()
    ensures { NoRecipientBeginsAnother }
{}

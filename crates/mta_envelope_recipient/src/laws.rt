//! Laws of recipients and octets.

ghost use Rattle.mta_envelope_recipient.specs.Laws.{RecipientsAreReadAgain, RecipientListsAreReadAgain};
ghost use Rattle.mta_envelope_recipient.specs.Laws.{ReadRecipientsAreKept};

/// A recipient that is written is read again, whatever follows it, and so is a list. What is kept unread stands in the
/// level of its place.
pub fn recipients_are_read_again()
    ensures recipients { RecipientsAreReadAgain }
    ensures lists { RecipientListsAreReadAgain }
{}

/// What a recipient that was read keeps unread stands in the level of its place.
pub fn recipients_that_were_read_are_kept()
    ensures { ReadRecipientsAreKept }
{}

//! Laws of APDUs and octets.

ghost use Rattle.mta_apdu.specs.Laws.{ApdusAreReadAgain, ReadApdusAreKept, ReadApdusAreReadAgain};
ghost use Rattle.mta_apdu.specs.Laws.{StoredApdusAreReadAgain, StoredApdusAreKept, SubmittedApdusAreStored};
ghost use Rattle.mta_apdu.specs.Laws.{NoApduBeginsAnother};

/// An APDU that is written is read again as the same value, where its canonical octets are at most 2,097,152 (X.411,
/// MTS-APDU). The content of a message is then in one piece. What is kept unread stands in the level of its place.
pub fn apdus_are_read_again()
    ensures { ApdusAreReadAgain }
{}

/// What an APDU that was read keeps unread stands in the level of its place.
pub fn apdus_that_were_read_are_kept()
    ensures { ReadApdusAreKept }
{}

/// An APDU that was read is written so that it is read again, where its canonical octets are at most 2,097,152.
pub fn what_was_read_is_read_again()
    ensures { ReadApdusAreReadAgain }
{}

/// An APDU that is kept is read again from its canonical octets, also where they are more than may be submitted; what
/// it keeps unread stands in the level of its place; and what may be submitted is read in the same way once it is kept.
pub fn stored_apdus_are_read_again()
    ensures again { StoredApdusAreReadAgain }
    ensures kept { StoredApdusAreKept }
    ensures submitted { SubmittedApdusAreStored }
{}

/// No spelling of an APDU begins another one, and each is the spelling of one value.
pub fn no_apdu_begins_another()
    ensures { NoApduBeginsAnother }
{}
